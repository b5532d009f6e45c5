//! Runs by rules: what is left to do is a list in an order, each act is the first of it, and the effects of a step stand in
//! the order of their ranks. The rules themselves are the caller's.
#![tactic(auto)]

pub mod laws;
