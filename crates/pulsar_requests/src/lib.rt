//! The requests of a connection that wait for an answer, and when they are due.
#![tactic(auto)]

pub mod requests;

pub use requests::Requests;
