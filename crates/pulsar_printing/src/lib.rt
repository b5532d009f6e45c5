//! The printed run: the text of what a client shows.
#![tactic(auto)]

pub mod effect;
pub mod error;
pub mod word;
