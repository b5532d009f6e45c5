//! What is left to do in a step of a client, and the order of its effects.
#![tactic(auto)]

pub mod agenda;
pub mod order;
pub mod queue;
