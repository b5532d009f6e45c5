//! What is written in the language of scripts reads back: laws of its lines.
#![tactic(auto)]

pub mod laws;
