//! A broker in memory: it speaks enough of the Pulsar binary protocol that a client can be tried against it. It keeps what it is
//! sent until it is dropped, and nothing of it anywhere else.
#![tactic(auto)]

mod answers;
mod asked;
pub mod broker;
mod consumer;
mod keys;
pub mod laws;
mod outbox;
mod tables;
mod topic;
mod topics;

pub use broker::Broker;
