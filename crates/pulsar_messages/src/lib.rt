//! The messages that a client of the Pulsar binary protocol writes, and what its user says in them.
#![tactic(auto)]

pub mod authentication;
pub mod consumer_options;
pub mod laws;
pub mod message_builder;
pub mod messages;
mod murmur;
pub mod producer_message;
pub mod producer_options;
mod properties;
pub mod routing_policy;
pub mod serialize;

pub use authentication::Authentication;
pub use consumer_options::ConsumerOptions;
pub use message_builder::MessageBuilder;
pub use messages::MessageParts;
pub use producer_message::{Message, ProducerMessage};
pub use producer_options::ProducerOptions;
pub use properties::into_properties;
pub use routing_policy::RoutingPolicy;
pub use serialize::{SerializeMessage, message_from_bytes, message_from_text};
