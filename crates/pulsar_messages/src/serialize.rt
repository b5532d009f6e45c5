//! What can be sent as a message.

ghost use Rattle.std.specs.Prelude.{◌≡◌, IfOk, IsOkAnd, Ok, Result, string_bytes};
ghost use Rattle.pulsar_wire.specs.declared.error.Error.{Error};
ghost use Rattle.pulsar_messages.specs.Content.{empty_message, message_content};
ghost use Rattle.pulsar_messages.specs.declared.producer_message.Message.{Message};
ghost use Rattle.pulsar_messages.specs.Message.{bare};

use crate::producer_message::Message;
use pulsar_wire::error::{Error, NoMemory};
use std::alloc::Global;
use std::collections::BTreeMap;

/// What can be sent as a message.
pub trait SerializeMessage {
    ghost serializes: { Self → Result Message Error → Type 0 };

    /// The message that is sent for this.
    fn serialize_message(alloc: Global, input: Self) -> Result<Message, Error>
        ensures { serializes input result };
}

impl SerializeMessage for Vec<u8> {
    ghost serializes = { λ bytes result. IsOkAnd result (λ m. message_content m ≡ bare bytes.items) };

    /// These bytes are the payload. It takes no memory.
    fn serialize_message(alloc: Global, input: Vec<u8>) -> Result<Message, Error> {
        Ok(with_payload(alloc, input))
    }
}

impl SerializeMessage for String {
    ghost serializes = { λ text result. IsOkAnd result (λ m. message_content m ≡ bare (string_bytes text)) };

    /// The bytes of this text are the payload. It takes no memory.
    fn serialize_message(alloc: Global, input: String) -> Result<Message, Error> {
        Ok(with_payload(alloc, input.into_bytes()))
    }
}

impl SerializeMessage for () {
    ghost serializes = { λ nothing result. IsOkAnd result (λ m. message_content m ≡ empty_message) };

    /// The message says nothing. It takes no memory.
    fn serialize_message(alloc: Global, _input: ()) -> Result<Message, Error> {
        Ok(Message::new(alloc))
    }
}

impl SerializeMessage for Message {
    ghost serializes = { λ message result. result ≡ Ok message };

    /// The message itself. It takes no memory.
    fn serialize_message(_alloc: Global, input: Message) -> Result<Message, Error> {
        Ok(input)
    }
}

/// The message with these bytes as its payload.
pub fn message_from_bytes(alloc: Global, bytes: &[u8]) -> Result<Message, NoMemory>
    ensures { IfOk result (λ m. message_content m ≡ bare bytes.now) }
{
    let payload = bytes.to_vec(alloc)?;
    Ok(with_payload(alloc, payload))
}

/// The message with the bytes of this text as its payload.
pub fn message_from_text(alloc: Global, text: &str) -> Result<Message, NoMemory>
    ensures { IfOk result (λ m. message_content m ≡ bare text.now) }
{
    message_from_bytes(alloc, text.as_bytes())
}

fn with_payload(alloc: Global, payload: Vec<u8>) -> Message
    ensures { message_content result ≡ bare payload.items }
{
    Message {
        payload,
        properties: BTreeMap::new(alloc),
        partition_key: None,
        ordering_key: None,
        replicate_to: Vec::new(alloc),
        event_time: None,
        schema_version: None,
        deliver_at_time: None,
    }
}
