//! What a client asks on a connection, as data, and what it reads in the messages of the broker.
#![tactic(auto)]

pub mod content;
pub mod raw_call;
pub mod refusal;

pub use crate::raw_call::RawCall;
pub use pulsar_messages::{Authentication, ConsumerOptions, ProducerMessage, ProducerOptions};
