//! The producers of a client, as a table that does nothing by itself: whose turn it is at each topic producer, what that stores, and which
//! numbers are drawn.
#![tactic(auto)]

pub mod asks;
pub mod multis;
pub mod table;
pub mod takers;
