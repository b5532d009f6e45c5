//! A message as a consumer hands it out.

ghost use Rattle.std.specs.Prelude.{◌≡◌, IfOk, string_bytes};
ghost use Rattle.std.specs.Option.{option_map};
ghost use Rattle.pulsar_frame.specs.Payload.{payload_values};
ghost use Rattle.pulsar_wire.specs.Views.{message_id_values};
ghost use Rattle.pulsar_incoming.specs.Content.{data_of, message_data_values};

use crate::deserialize::DeserializeMessage;
use pulsar_frame::payload::{Metadata, Payload};
use pulsar_wire::commands::ids::MessageIdData;
use pulsar_wire::error::NoMemory;
use std::marker::PhantomData;

/// The id of a message, and how many entries its batch has.
#[derive(Debug, PartialEq, Eq, Hash, Drop)]
pub struct MessageData {
    /// The id of the message.
    pub id: MessageIdData,
    /// How many entries its batch has, where it came in one.
    pub batch_size: Option<i32>,
}

impl MessageData {
    /// That of a message: its batch has as many entries as is said of its payload.
    #[tactic(auto, unfolding(pulsar_wire::specs::Views::message_metadata_values))]
    pub fn of(id: MessageIdData, payload: &Payload) -> MessageData
        ensures { message_data_values result ≡ data_of (message_id_values id) (payload_values payload.now) }
    {
        MessageData {
            id,
            batch_size: payload.metadata.num_messages_in_batch,
        }
    }

    /// The same once more.
    pub fn copy(&self) -> Result<MessageData, NoMemory>
        ensures { IfOk result (λ d. message_data_values d ≡ message_data_values self.now) }
    {
        Ok(MessageData {
            id: self.id.copy()?,
            batch_size: self.batch_size,
        })
    }
}

/// A message of a topic, whose payload is read as a `T`.
#[derive(Drop)]
pub struct Message<T> {
    /// The topic from which it came.
    pub topic: String,
    /// Its bytes, and what is said of them.
    pub payload: Payload,
    /// Its id, and the size of its batch.
    pub message_id: MessageData,
    of: PhantomData<T>,
}

impl<T> Message<T> {
    /// The message of this topic, id and payload.
    pub fn new(topic: String, message_id: MessageData, payload: Payload) -> Self
        ensures topic { result.topic ≡ topic }
        ensures id { result.message_id ≡ message_id }
        ensures payload { result.payload ≡ payload }
    {
        Message {
            topic,
            payload,
            message_id,
            of: PhantomData,
        }
    }

    /// What is said of its payload.
    pub fn metadata(&self) -> &Metadata
        ensures { result.now ≡ self.now.payload.metadata }
    {
        &self.payload.metadata
    }

    /// Its id.
    pub fn message_id(&self) -> &MessageIdData
        ensures { result.now ≡ self.now.message_id.id }
    {
        &self.message_id.id
    }

    /// Its partition key.
    pub fn key(&self) -> Option<&str>
        ensures { option_map (λ k. k.now) result ≡ option_map string_bytes self.now.payload.metadata.partition_key }
    {
        match &self.payload.metadata.partition_key {
            Some(key) => Some(key.as_str()),
            None => None,
        }
    }
}

impl<T: DeserializeMessage> Message<T> {
    /// What its payload says.
    pub fn deserialize(&self) -> Result<T::Output, NoMemory>
        ensures { IfOk result (λ x. T.reads (payload_values self.now.payload) x) }
    {
        T::deserialize_message(&self.payload)
    }
}
