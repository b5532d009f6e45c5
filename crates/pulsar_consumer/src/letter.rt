//! An entry of a dead letter.

ghost use Rattle.std.specs.Prelude.{◌≡◌, IfOk};
ghost use Rattle.pulsar_wire.specs.Views.{message_id_values};
ghost use Rattle.pulsar_frame.specs.Payload.{payload_values};

use pulsar_frame::payload::Payload;
use pulsar_messages::Message;
use pulsar_wire::commands::ids::MessageIdData;
use pulsar_wire::error::NoMemory;
use std::alloc::Global;
use std::marker::Model;

/// A message that goes to another topic: its id, and its payload.
#[derive(Drop)]
pub struct Entry {
    pub id: MessageIdData,
    pub payload: Payload,
}

/// What is sent to another topic for a message, and the key of the consumer that sends it: an outcome of it is told to that one, and never to
/// another that has its number.
#[derive(Drop)]
pub struct LetterCopy {
    pub key: u64,
    pub message: Box<Message>,
}

/// An entry of a dead letter, in a box.
#[derive(Drop)]
pub struct Letter {
    entry: Box<Entry>,
}

impl Model for Letter {
    ghost use Rattle.pulsar_frame.specs.Batch.{Item};
    ghost use Rattle.pulsar_frame.specs.Payload.{payload_values};
    ghost use Rattle.pulsar_wire.specs.Views.{message_id_values};

    ghost Value = { Item };

    ghost view = { λ l. (message_id_values l.entry.value.id, payload_values l.entry.value.payload) };
}

impl Letter {
    /// This entry.
    pub fn new(alloc: Global, id: MessageIdData, payload: Payload) -> Result<Letter, NoMemory>
        ensures { IfOk result (λ l. l ≡ (message_id_values id, payload_values payload)) }
    {
        let entry = Box::new(alloc, Entry { id, payload })?;
        Ok(Letter { entry })
    }

    /// The entry without its box.
    pub fn into_inner(self) -> Entry
        ensures { (message_id_values result.id, payload_values result.payload) ≡ self }
    {
        let Letter { entry } = self;
        Box::into_inner(entry)
    }
}
