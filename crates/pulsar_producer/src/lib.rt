//! Producers: to which partition a message goes, in whose turn it is sent, and the plans by which a producer is made and sends.
#![tactic(auto)]

pub mod batching;
pub mod building;
pub mod deed;
pub mod laws;
pub mod line;
pub mod multi_topic;
pub mod producer;
pub mod random;
pub mod routing;
pub mod sending;
pub mod topic_producer;

pub use multi_topic::producer::MultiTopicProducer;
pub use producer::Producer;
pub use pulsar_messages::message_builder::MessageBuilder;
pub use pulsar_messages::serialize::{SerializeMessage, message_from_bytes, message_from_text};
pub use pulsar_messages::{Message, ProducerMessage, ProducerOptions, RoutingPolicy};
pub use pulsar_outgoing::batch::Receipt;
pub use pulsar_outgoing::producer_builder::ProducerBuilder;
pub use pulsar_outgoing::storage::{BatchItem, BatchStorage};
pub use routing::{CustomRoutingPolicy, PartitionedProducer};
pub use topic_producer::TopicProducer;
