//! How a producer is made, and how it sends.

ghost use Rattle.std.specs.Prelude.{◌≡◌, IfOk};
ghost use Rattle.pulsar_messages.specs.Content.{empty_producer_options, producer_options_values};

use crate::properties::copy_properties;
use crate::routing_policy::RoutingPolicy;
use pulsar_wire::commands::schema::Schema;
use pulsar_wire::encoding::copying::copy_message;
use pulsar_wire::error::NoMemory;
use std::alloc::Global;
use std::collections::BTreeMap;

/// How a producer is made, and how it sends.
#[derive(Debug)]
pub struct ProducerOptions {
    /// Whether it says that its messages are encrypted.
    pub encrypted: Option<bool>,
    /// What the broker keeps with the producer.
    pub metadata: BTreeMap<String, String>,
    /// What its messages are made of.
    pub schema: Option<Schema>,
    /// How many messages a batch has at most.
    pub batch_size: Option<u32>,
    /// A batch is sent once its payloads have so many bytes.
    pub batch_byte_size: Option<usize>,
    /// A batch is sent so many milliseconds after its first message.
    pub batch_timeout: Option<u64>,
    /// How it shares the topic with other producers: the number of a `ProducerAccessMode` of the protocol.
    pub access_mode: Option<i32>,
    /// A message waits for room on its connection, where it is refused otherwise.
    pub block_queue_if_full: bool,
    pub routing_policy: Option<RoutingPolicy>,
}

impl Drop for ProducerOptions {
    fn drop(self) {
        let ProducerOptions {
            encrypted: _,
            metadata: _,
            schema: _,
            batch_size: _,
            batch_byte_size: _,
            batch_timeout: _,
            access_mode: _,
            block_queue_if_full: _,
            routing_policy: _,
        } = self;
    }
}

impl ProducerOptions {
    /// Options that say nothing.
    pub fn new(alloc: Global) -> ProducerOptions
        ensures { producer_options_values result ≡ empty_producer_options }
    {
        ProducerOptions {
            encrypted: None,
            metadata: BTreeMap::new(alloc),
            schema: None,
            batch_size: None,
            batch_byte_size: None,
            batch_timeout: None,
            access_mode: None,
            block_queue_if_full: false,
            routing_policy: None,
        }
    }

    /// Options with the same content.
    pub fn copy(&self) -> Result<ProducerOptions, NoMemory>
        ensures { IfOk result (λ o. producer_options_values o ≡ producer_options_values self.now) }
    {
        Ok(ProducerOptions {
            encrypted: self.encrypted,
            metadata: copy_properties(&self.metadata)?,
            schema: copy_message(&self.schema)?,
            batch_size: self.batch_size,
            batch_byte_size: self.batch_byte_size,
            batch_timeout: self.batch_timeout,
            access_mode: self.access_mode,
            block_queue_if_full: self.block_queue_if_full,
            routing_policy: self.routing_policy,
        })
    }
}
