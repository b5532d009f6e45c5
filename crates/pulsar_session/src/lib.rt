//! One connection of the Pulsar binary protocol.
#![tactic(auto)]

pub mod connection;
mod frames;
mod incoming;
pub mod laws;
mod link;
pub mod messages;
pub mod series;
pub mod service;
pub mod states;

pub use connection::{Connection, ConnectionSender, SharedError};
pub use frames::Arrival;
pub use pulsar_messages::{
    Authentication, ConsumerOptions, Message, ProducerMessage, ProducerOptions, RoutingPolicy,
};
pub use states::{Arrived, Asked};
