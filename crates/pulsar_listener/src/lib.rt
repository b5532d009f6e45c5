//! A broker in memory behind a listener: each connection has a thread, which hears, and a second one, which says.
#![tactic(auto)]

mod broker;
mod connection;
mod serving;
mod sizes;

pub use crate::broker::SharedBroker;
pub use crate::serving::{accept, serve};
