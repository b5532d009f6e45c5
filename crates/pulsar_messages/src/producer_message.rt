//! What an application sends, and what its producer makes of it.

ghost use Rattle.std.specs.Prelude.{◌≡◌, IfOk};
ghost use Rattle.pulsar_messages.specs.Content.{empty_message, message_content, producer_message_values};

use crate::properties::copy_properties;
use pulsar_wire::commands::metadata::EncryptionKeys;
use pulsar_wire::encoding::copying::{copy_messages, copy_optional, copy_values};
use pulsar_wire::error::NoMemory;
use std::alloc::Global;
use std::collections::BTreeMap;

/// What an application sends.
#[derive(Debug, Drop)]
pub struct Message {
    pub payload: Vec<u8>,
    pub properties: BTreeMap<String, String>,
    /// Messages of one key go to one partition.
    pub partition_key: Option<String>,
    /// Messages of one key go to one consumer of a key-shared subscription.
    pub ordering_key: Option<Vec<u8>>,
    /// The clusters that it is replicated to.
    pub replicate_to: Vec<String>,
    /// In milliseconds since 1970, as the application tells.
    pub event_time: Option<u64>,
    pub schema_version: Option<Vec<u8>>,
    /// When a consumer may have it, in milliseconds since 1970.
    pub deliver_at_time: Option<i64>,
}

impl Message {
    /// A message that says nothing.
    pub fn new(alloc: Global) -> Message
        ensures { message_content result ≡ empty_message }
    {
        Message {
            payload: Vec::new(alloc),
            properties: BTreeMap::new(alloc),
            partition_key: None,
            ordering_key: None,
            replicate_to: Vec::new(alloc),
            event_time: None,
            schema_version: None,
            deliver_at_time: None,
        }
    }

    /// A message with the same content.
    pub fn copy(&self) -> Result<Message, NoMemory>
        ensures { IfOk result (λ m. message_content m ≡ message_content self.now) }
    {
        Ok(Message {
            payload: self.payload.clone()?,
            properties: copy_properties(&self.properties)?,
            partition_key: copy_optional(&self.partition_key)?,
            ordering_key: copy_optional(&self.ordering_key)?,
            replicate_to: copy_values(&self.replicate_to)?,
            event_time: self.event_time,
            schema_version: copy_optional(&self.schema_version)?,
            deliver_at_time: self.deliver_at_time,
        })
    }
}

/// What a producer sends: a message, or several as a batch.
#[derive(Debug, Drop)]
pub struct ProducerMessage {
    pub payload: Vec<u8>,
    pub properties: BTreeMap<String, String>,
    /// Messages of one key go to one partition.
    pub partition_key: Option<String>,
    /// Messages of one key go to one consumer of a key-shared subscription.
    pub ordering_key: Option<Vec<u8>>,
    /// The clusters that it is replicated to.
    pub replicate_to: Vec<String>,
    /// The number of the method that the payload is compressed with.
    pub compression: Option<i32>,
    /// How many bytes the payload has before it is compressed.
    pub uncompressed_size: Option<u32>,
    /// How many messages the payload has, where it is a batch.
    pub num_messages_in_batch: Option<i32>,
    /// In milliseconds since 1970, as the application tells.
    pub event_time: Option<u64>,
    pub encryption_keys: Vec<EncryptionKeys>,
    pub encryption_algo: Option<String>,
    pub encryption_param: Option<Vec<u8>>,
    pub schema_version: Option<Vec<u8>>,
    /// When a consumer may have it, in milliseconds since 1970.
    pub deliver_at_time: Option<i64>,
}

impl ProducerMessage {
    /// A message that says nothing.
    pub fn new(alloc: Global) -> ProducerMessage
        ensures { producer_message_values result ≡ empty_message }
    {
        ProducerMessage {
            payload: Vec::new(alloc),
            properties: BTreeMap::new(alloc),
            partition_key: None,
            ordering_key: None,
            replicate_to: Vec::new(alloc),
            compression: None,
            uncompressed_size: None,
            num_messages_in_batch: None,
            event_time: None,
            encryption_keys: Vec::new(alloc),
            encryption_algo: None,
            encryption_param: None,
            schema_version: None,
            deliver_at_time: None,
        }
    }

    /// A message with the same content.
    pub fn copy(&self) -> Result<ProducerMessage, NoMemory>
        ensures { IfOk result (λ m. producer_message_values m ≡ producer_message_values self.now) }
    {
        Ok(ProducerMessage {
            payload: self.payload.clone()?,
            properties: copy_properties(&self.properties)?,
            partition_key: copy_optional(&self.partition_key)?,
            ordering_key: copy_optional(&self.ordering_key)?,
            replicate_to: copy_values(&self.replicate_to)?,
            compression: self.compression,
            uncompressed_size: self.uncompressed_size,
            num_messages_in_batch: self.num_messages_in_batch,
            event_time: self.event_time,
            encryption_keys: copy_messages(&self.encryption_keys)?,
            encryption_algo: copy_optional(&self.encryption_algo)?,
            encryption_param: copy_optional(&self.encryption_param)?,
            schema_version: copy_optional(&self.schema_version)?,
            deliver_at_time: self.deliver_at_time,
        })
    }
}

impl From<Message> for ProducerMessage {
    ghost from_gives = { λ message sent. producer_message_values sent ≡ message_content message };

    /// The message as it is: neither compressed nor encrypted, and no batch.
    fn from(message: Message) -> ProducerMessage {
        let keys = Vec::new(*message.replicate_to.allocator());
        ProducerMessage {
            payload: message.payload,
            properties: message.properties,
            partition_key: message.partition_key,
            ordering_key: message.ordering_key,
            replicate_to: message.replicate_to,
            compression: None,
            uncompressed_size: None,
            num_messages_in_batch: None,
            event_time: message.event_time,
            encryption_keys: keys,
            encryption_algo: None,
            encryption_param: None,
            schema_version: message.schema_version,
            deliver_at_time: message.deliver_at_time,
        }
    }
}
