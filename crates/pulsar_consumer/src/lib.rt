//! Consumers of topics: what one hears and gives, and the plans by which it is made.
#![tactic(auto)]

pub mod building;
pub mod consumer;
pub mod dead_letter;
pub mod engine;
pub mod frame;
pub mod frame_item;
pub mod kept;
pub mod kept_id;
pub mod laws;
pub mod letter;
pub mod live;
pub mod resuming;
pub mod topic_consumer;

pub use consumer::Consumer;
pub use engine::ConsumerEngine;
pub use letter::LetterCopy;
pub use pulsar_frame::message::Message as RawMessage;
pub use pulsar_incoming::builder::ConsumerBuilder;
pub use pulsar_incoming::config::{ConsumerConfig, DeadLetterPolicy};
pub use pulsar_incoming::deserialize::DeserializeMessage;
pub use pulsar_incoming::event::{EngineEvent, EngineMessage};
pub use pulsar_incoming::message::{Message, MessageData};
pub use pulsar_incoming::polled::{Ending, Polled};
pub use pulsar_messages::ConsumerOptions;
pub use pulsar_wire::commands::enumerations::{InitialPosition, SubType};
pub use topic_consumer::TopicConsumer;
