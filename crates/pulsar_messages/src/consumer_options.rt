//! How a consumer is made, and how many messages it holds.

ghost use Rattle.std.specs.Prelude.{◌≡◌, IfOk, Some, map};
ghost use Rattle.pulsar_wire.specs.Views.{message_id_values, schema_values};
ghost use Rattle.pulsar_messages.specs.Content.{consumer_options_values, empty_consumer_options, property, queue_size};

use crate::properties::copy_properties;
use pulsar_wire::commands::enumerations::InitialPosition;
use pulsar_wire::commands::ids::MessageIdData;
use pulsar_wire::commands::schema::Schema;
use pulsar_wire::encoding::copying::copy_message;
use pulsar_wire::error::NoMemory;
use std::alloc::Global;
use std::collections::BTreeMap;

/// How many messages a consumer holds where none was asked for.
const DEFAULT_QUEUE_SIZE: u32 = 1000;

/// How a consumer is made, and how many messages it holds.
#[derive(Debug)]
pub struct ConsumerOptions {
    /// The broker serves consumers of a lower level first.
    pub priority_level: Option<i32>,
    /// Whether the broker keeps the place of the subscription.
    pub durable: Option<bool>,
    /// The message that a new subscription begins at.
    pub start_message_id: Option<MessageIdData>,
    /// What the broker keeps with the consumer.
    pub metadata: BTreeMap<String, String>,
    /// Whether it reads of each key only what was sent last.
    pub read_compacted: Option<bool>,
    /// What its messages are made of.
    pub schema: Option<Schema>,
    /// How many messages it holds that were not read yet.
    pub receiver_queue_size: Option<u32>,
    /// Where a new subscription begins.
    pub initial_position: InitialPosition,
}

impl Drop for ConsumerOptions {
    fn drop(self) {
        let ConsumerOptions {
            priority_level: _,
            durable: _,
            start_message_id: _,
            metadata: _,
            read_compacted: _,
            schema: _,
            receiver_queue_size: _,
            initial_position: _,
        } = self;
    }
}

impl ConsumerOptions {
    /// Options that say nothing.
    pub fn new(alloc: Global) -> ConsumerOptions
        ensures { consumer_options_values result ≡ empty_consumer_options }
    {
        ConsumerOptions {
            priority_level: None,
            durable: None,
            start_message_id: None,
            metadata: BTreeMap::new(alloc),
            read_compacted: None,
            schema: None,
            receiver_queue_size: None,
            initial_position: InitialPosition::Latest,
        }
    }

    /// Options with the same content.
    pub fn copy(&self) -> Result<ConsumerOptions, NoMemory>
        ensures { IfOk result (λ o. consumer_options_values o ≡ consumer_options_values self.now) }
    {
        Ok(ConsumerOptions {
            priority_level: self.priority_level,
            durable: self.durable,
            start_message_id: copy_message(&self.start_message_id)?,
            metadata: copy_properties(&self.metadata)?,
            read_compacted: self.read_compacted,
            schema: copy_message(&self.schema)?,
            receiver_queue_size: self.receiver_queue_size,
            initial_position: self.initial_position,
        })
    }

    /// The broker serves consumers of a lower level first.
    pub fn with_priority_level(mut self, level: i32) -> Self
        ensures { consumer_options_values result
            ≡ record (consumer_options_values self) { priority_level = Some level } }
    {
        self.priority_level = Some(level);
        self
    }

    /// Whether the broker keeps the place of the subscription.
    pub fn durable(mut self, durable: bool) -> Self
        ensures { consumer_options_values result
            ≡ record (consumer_options_values self) { durable = Some durable } }
    {
        self.durable = Some(durable);
        self
    }

    /// The message that a new subscription begins at.
    pub fn starting_on_message(mut self, id: MessageIdData) -> Self
        ensures { consumer_options_values result
            ≡ record (consumer_options_values self) { start_message_id = Some (message_id_values id) } }
    {
        self.start_message_id = Some(id);
        self
    }

    /// What the broker keeps with the consumer, in place of what was said before.
    pub fn with_metadata(mut self, metadata: BTreeMap<String, String>) -> Self
        ensures { consumer_options_values result
            ≡ record (consumer_options_values self) { metadata = map property metadata.entries } }
    {
        self.metadata = metadata;
        self
    }

    /// Whether it reads of each key only what was sent last.
    pub fn read_compacted(mut self, read_compacted: bool) -> Self
        ensures { consumer_options_values result
            ≡ record (consumer_options_values self) { read_compacted = Some read_compacted } }
    {
        self.read_compacted = Some(read_compacted);
        self
    }

    /// What its messages are made of.
    pub fn with_schema(mut self, schema: Schema) -> Self
        ensures { consumer_options_values result
            ≡ record (consumer_options_values self) { schema = Some (schema_values schema) } }
    {
        self.schema = Some(schema);
        self
    }

    /// Where a new subscription begins.
    pub fn with_initial_position(mut self, position: InitialPosition) -> Self
        ensures { consumer_options_values result
            ≡ record (consumer_options_values self) { initial_position = position } }
    {
        self.initial_position = position;
        self
    }

    /// How many messages it holds that were not read yet; 1000 where this is 0.
    pub fn with_receiver_queue_size(mut self, size: u32) -> Self
        ensures { consumer_options_values result
            ≡ record (consumer_options_values self) { receiver_queue_size = Some (queue_size size) } }
    {
        self.receiver_queue_size = Some(if size == 0 { DEFAULT_QUEUE_SIZE } else { size });
        self
    }
}
