//! What stands in front of a payload.

ghost use Rattle.std.specs.Prelude.{◌≡◌, refl, map, string_bytes, IfOk};
ghost use Rattle.std.specs.Option.{option_map};
ghost use Rattle.pulsar_wire.specs.Row.{none_of};
ghost use Rattle.pulsar_wire.specs.Rows.{key_value, encryption_keys, message_metadata, single_message_metadata};
ghost use Rattle.pulsar_wire.specs.Views.{key_value_values, encryption_keys_values, message_metadata_values, single_message_metadata_values};
ghost use Rattle.pulsar_wire.specs.Equality.{key_value_equality, encryption_keys_equality, message_metadata_equality, single_message_metadata_equality};

use crate::encoding::content::{
    bytes_of, int32_of, int64_of, push_text, text_of, uint32_of, uint64_of,
};
use crate::encoding::copying::{copy_messages, copy_optional, copy_values};
use crate::encoding::field::Value;
use crate::encoding::fields::{Fields, Optional, Repeated, RepeatedMessages, Required, fields};
use crate::encoding::message::{Message, put_repeated};
use crate::encoding::plain::Plain;
use crate::encoding::read_error::ReadError;
use crate::encoding::sink::Sink;
use crate::error::NoMemory;
use std::alloc::{AllocError, Global};

/// A property.
#[derive(Debug, PartialEq, Eq)]
pub struct KeyValue {
    pub key: String,
    pub value: String,
}

impl Drop for KeyValue {
    fn drop(self) {
        let KeyValue { key: _, value: _ } = self;
    }
}

impl KeyValue {
    /// The property whose fields are absent, empty or zero.
    #[tactic(auto, unfolding(crate::specs::Views::key_value_values))]
    pub fn new(alloc: Global) -> KeyValue
        ensures { key_value_values result ≡ none_of key_value }
    {
        KeyValue {
            key: String::new(alloc),
            value: String::new(alloc),
        }
    }

    /// A property with the same content.
    pub fn copy(&self) -> Result<KeyValue, NoMemory>
        ensures { IfOk result (λ m. key_value_values m ≡ key_value_values self.now) }
    {
        Ok(self.duplicate()?)
    }
}

impl Message for KeyValue {
    ghost shape = { key_value };

    ghost values = { key_value_values };

    fn empty(alloc: Global) -> KeyValue {
        KeyValue::new(alloc)
    }

    #[tactic(auto, unfolding(crate::specs::Merge::put, crate::specs::Views::key_value_values))]
    fn put(&mut self, alloc: Global, number: u32, value: Value<'_>) -> Result<(), ReadError> {
        match number {
            1 => self.key = text_of(alloc, value)?,
            2 => self.value = text_of(alloc, value)?,
            _ => {}
        }
        Ok(())
    }

    #[tactic(auto, unfolding(crate::specs::Row::spelling, crate::specs::Views::key_value_values))]
    fn write<S: Sink>(&self, out: &mut S) -> Result<(), AllocError> {
        fields!(Required(1, &self.key), Required(2, &self.value)).write(out)
    }

    #[tactic(auto, unfolding(crate::specs::Views::key_value_values))]
    fn duplicate(&self) -> Result<KeyValue, AllocError> {
        Ok(KeyValue {
            key: self.key.copy()?,
            value: self.value.copy()?,
        })
    }

    ghost numbers_differ = { refl };

    ghost equality = { key_value_equality };
}

/// A key that is needed to decrypt a payload, itself encrypted.
#[derive(Debug, PartialEq, Eq)]
pub struct EncryptionKeys {
    pub key: String,
    pub value: Vec<u8>,
    pub metadata: Vec<KeyValue>,
}

impl Drop for EncryptionKeys {
    fn drop(self) {
        let EncryptionKeys {
            key: _,
            value: _,
            metadata: _,
        } = self;
    }
}

impl EncryptionKeys {
    /// The keys whose fields are absent, empty or zero.
    #[tactic(auto, unfolding(crate::specs::Views::encryption_keys_values))]
    pub fn new(alloc: Global) -> EncryptionKeys
        ensures { encryption_keys_values result ≡ none_of encryption_keys }
    {
        EncryptionKeys {
            key: String::new(alloc),
            value: Vec::new(alloc),
            metadata: Vec::new(alloc),
        }
    }

    /// Keys with the same content.
    pub fn copy(&self) -> Result<EncryptionKeys, NoMemory>
        ensures { IfOk result (λ m. encryption_keys_values m ≡ encryption_keys_values self.now) }
    {
        Ok(self.duplicate()?)
    }
}

impl Message for EncryptionKeys {
    ghost shape = { encryption_keys };

    ghost values = { encryption_keys_values };

    fn empty(alloc: Global) -> EncryptionKeys {
        EncryptionKeys::new(alloc)
    }

    #[tactic(auto, unfolding(crate::specs::Merge::put, crate::specs::Views::encryption_keys_values))]
    fn put(&mut self, alloc: Global, number: u32, value: Value<'_>) -> Result<(), ReadError> {
        match number {
            1 => self.key = text_of(alloc, value)?,
            2 => self.value = bytes_of(alloc, value)?,
            3 => put_repeated(&mut self.metadata, alloc, value)?,
            _ => {}
        }
        Ok(())
    }

    #[tactic(auto, unfolding(crate::specs::Row::spelling, crate::specs::Views::encryption_keys_values))]
    fn write<S: Sink>(&self, out: &mut S) -> Result<(), AllocError> {
        fields!(
            Required(1, &self.key),
            Required(2, &self.value),
            RepeatedMessages(3, &self.metadata)
        )
        .write(out)
    }

    #[tactic(auto, unfolding(crate::specs::Views::encryption_keys_values))]
    fn duplicate(&self) -> Result<EncryptionKeys, AllocError> {
        Ok(EncryptionKeys {
            key: self.key.copy()?,
            value: self.value.copy()?,
            metadata: copy_messages(&self.metadata)?,
        })
    }

    ghost numbers_differ = { refl };

    ghost equality = { encryption_keys_equality };
}

/// What a frame says of its payload.
#[derive(Debug, PartialEq, Eq)]
pub struct MessageMetadata {
    pub producer_name: String,
    pub sequence_id: u64,
    /// Milliseconds since 1970.
    pub publish_time: u64,
    pub properties: Vec<KeyValue>,
    pub replicated_from: Option<String>,
    pub partition_key: Option<String>,
    pub replicate_to: Vec<String>,
    /// None 0, LZ4 1, Zlib 2, Zstd 3, Snappy 4.
    pub compression: Option<i32>,
    /// The size of the payload before it was compressed, in bytes.
    pub uncompressed_size: Option<u32>,
    /// How many entries the payload has. It is absent where the payload is one message.
    pub num_messages_in_batch: Option<i32>,
    /// Milliseconds since 1970.
    pub event_time: Option<u64>,
    pub encryption_keys: Vec<EncryptionKeys>,
    pub encryption_algo: Option<String>,
    pub encryption_param: Option<Vec<u8>>,
    pub schema_version: Option<Vec<u8>>,
    pub ordering_key: Option<Vec<u8>>,
    /// Milliseconds since 1970.
    pub deliver_at_time: Option<i64>,
}

impl Drop for MessageMetadata {
    fn drop(self) {
        let MessageMetadata {
            producer_name: _,
            sequence_id: _,
            publish_time: _,
            properties: _,
            replicated_from: _,
            partition_key: _,
            replicate_to: _,
            compression: _,
            uncompressed_size: _,
            num_messages_in_batch: _,
            event_time: _,
            encryption_keys: _,
            encryption_algo: _,
            encryption_param: _,
            schema_version: _,
            ordering_key: _,
            deliver_at_time: _,
        } = self;
    }
}

impl MessageMetadata {
    /// The metadata whose fields are absent, empty or zero.
    #[tactic(auto, unfolding(crate::specs::Views::message_metadata_values))]
    pub fn new(alloc: Global) -> MessageMetadata
        ensures { message_metadata_values result ≡ none_of message_metadata }
    {
        MessageMetadata {
            producer_name: String::new(alloc),
            sequence_id: 0,
            publish_time: 0,
            properties: Vec::new(alloc),
            replicated_from: None,
            partition_key: None,
            replicate_to: Vec::new(alloc),
            compression: None,
            uncompressed_size: None,
            num_messages_in_batch: None,
            event_time: None,
            encryption_keys: Vec::new(alloc),
            encryption_algo: None,
            encryption_param: None,
            schema_version: None,
            ordering_key: None,
            deliver_at_time: None,
        }
    }

    /// Metadata with the same content.
    pub fn copy(&self) -> Result<MessageMetadata, NoMemory>
        ensures { IfOk result (λ m. message_metadata_values m ≡ message_metadata_values self.now) }
    {
        Ok(self.duplicate()?)
    }
}

impl Message for MessageMetadata {
    ghost shape = { message_metadata };

    ghost values = { message_metadata_values };

    fn empty(alloc: Global) -> MessageMetadata {
        MessageMetadata::new(alloc)
    }

    #[tactic(auto, unfolding(crate::specs::Merge::put, crate::specs::Views::message_metadata_values))]
    fn put(&mut self, alloc: Global, number: u32, value: Value<'_>) -> Result<(), ReadError> {
        match number {
            1 => self.producer_name = text_of(alloc, value)?,
            2 => self.sequence_id = uint64_of(value)?,
            3 => self.publish_time = uint64_of(value)?,
            4 => put_repeated(&mut self.properties, alloc, value)?,
            5 => self.replicated_from = Some(text_of(alloc, value)?),
            6 => self.partition_key = Some(text_of(alloc, value)?),
            7 => push_text(&mut self.replicate_to, alloc, value)?,
            8 => self.compression = Some(int32_of(value)?),
            9 => self.uncompressed_size = Some(uint32_of(value)?),
            11 => self.num_messages_in_batch = Some(int32_of(value)?),
            12 => self.event_time = Some(uint64_of(value)?),
            13 => put_repeated(&mut self.encryption_keys, alloc, value)?,
            14 => self.encryption_algo = Some(text_of(alloc, value)?),
            15 => self.encryption_param = Some(bytes_of(alloc, value)?),
            16 => self.schema_version = Some(bytes_of(alloc, value)?),
            18 => self.ordering_key = Some(bytes_of(alloc, value)?),
            19 => self.deliver_at_time = Some(int64_of(value)?),
            _ => {}
        }
        Ok(())
    }

    #[tactic(auto, unfolding(crate::specs::Row::spelling, crate::specs::Views::message_metadata_values))]
    fn write<S: Sink>(&self, out: &mut S) -> Result<(), AllocError> {
        fields!(
            Required(1, &self.producer_name),
            Required(2, &self.sequence_id),
            Required(3, &self.publish_time),
            RepeatedMessages(4, &self.properties),
            Optional(5, &self.replicated_from),
            Optional(6, &self.partition_key),
            Repeated(7, &self.replicate_to),
            Optional(8, &self.compression),
            Optional(9, &self.uncompressed_size),
            Optional(11, &self.num_messages_in_batch),
            Optional(12, &self.event_time),
            RepeatedMessages(13, &self.encryption_keys),
            Optional(14, &self.encryption_algo),
            Optional(15, &self.encryption_param),
            Optional(16, &self.schema_version),
            Optional(18, &self.ordering_key),
            Optional(19, &self.deliver_at_time)
        )
        .write(out)
    }

    #[tactic(auto, unfolding(crate::specs::Views::message_metadata_values))]
    fn duplicate(&self) -> Result<MessageMetadata, AllocError> {
        Ok(MessageMetadata {
            producer_name: self.producer_name.copy()?,
            sequence_id: self.sequence_id,
            publish_time: self.publish_time,
            properties: copy_messages(&self.properties)?,
            replicated_from: copy_optional(&self.replicated_from)?,
            partition_key: copy_optional(&self.partition_key)?,
            replicate_to: copy_values(&self.replicate_to)?,
            compression: self.compression,
            uncompressed_size: self.uncompressed_size,
            num_messages_in_batch: self.num_messages_in_batch,
            event_time: self.event_time,
            encryption_keys: copy_messages(&self.encryption_keys)?,
            encryption_algo: copy_optional(&self.encryption_algo)?,
            encryption_param: copy_optional(&self.encryption_param)?,
            schema_version: copy_optional(&self.schema_version)?,
            ordering_key: copy_optional(&self.ordering_key)?,
            deliver_at_time: self.deliver_at_time,
        })
    }

    ghost numbers_differ = { refl };

    ghost equality = { message_metadata_equality };
}

/// What an entry of a batch says of its payload.
#[derive(Debug, PartialEq, Eq, Drop)]
pub struct SingleMessageMetadata {
    pub properties: Vec<KeyValue>,
    pub partition_key: Option<String>,
    /// The size of the entry's payload, in bytes.
    pub payload_size: i32,
    /// Milliseconds since 1970.
    pub event_time: Option<u64>,
    pub ordering_key: Option<Vec<u8>>,
}

impl SingleMessageMetadata {
    /// The metadata whose fields are absent, empty or zero.
    #[tactic(auto, unfolding(crate::specs::Views::single_message_metadata_values))]
    pub fn new(alloc: Global) -> SingleMessageMetadata
        ensures { single_message_metadata_values result ≡ none_of single_message_metadata }
    {
        SingleMessageMetadata {
            properties: Vec::new(alloc),
            partition_key: None,
            payload_size: 0,
            event_time: None,
            ordering_key: None,
        }
    }

    /// Metadata with the same content.
    pub fn copy(&self) -> Result<SingleMessageMetadata, NoMemory>
        ensures { IfOk result (λ m. single_message_metadata_values m ≡ single_message_metadata_values self.now) }
    {
        Ok(self.duplicate()?)
    }
}

impl Message for SingleMessageMetadata {
    ghost shape = { single_message_metadata };

    ghost values = { single_message_metadata_values };

    fn empty(alloc: Global) -> SingleMessageMetadata {
        SingleMessageMetadata::new(alloc)
    }

    #[tactic(auto, unfolding(crate::specs::Merge::put, crate::specs::Views::single_message_metadata_values))]
    fn put(&mut self, alloc: Global, number: u32, value: Value<'_>) -> Result<(), ReadError> {
        match number {
            1 => put_repeated(&mut self.properties, alloc, value)?,
            2 => self.partition_key = Some(text_of(alloc, value)?),
            3 => self.payload_size = int32_of(value)?,
            5 => self.event_time = Some(uint64_of(value)?),
            7 => self.ordering_key = Some(bytes_of(alloc, value)?),
            _ => {}
        }
        Ok(())
    }

    #[tactic(auto, unfolding(crate::specs::Row::spelling, crate::specs::Views::single_message_metadata_values))]
    fn write<S: Sink>(&self, out: &mut S) -> Result<(), AllocError> {
        fields!(
            RepeatedMessages(1, &self.properties),
            Optional(2, &self.partition_key),
            Required(3, &self.payload_size),
            Optional(5, &self.event_time),
            Optional(7, &self.ordering_key)
        )
        .write(out)
    }

    #[tactic(auto, unfolding(crate::specs::Views::single_message_metadata_values))]
    fn duplicate(&self) -> Result<SingleMessageMetadata, AllocError> {
        Ok(SingleMessageMetadata {
            properties: copy_messages(&self.properties)?,
            partition_key: copy_optional(&self.partition_key)?,
            payload_size: self.payload_size,
            event_time: self.event_time,
            ordering_key: copy_optional(&self.ordering_key)?,
        })
    }

    ghost numbers_differ = { refl };

    ghost equality = { single_message_metadata_equality };
}
