//! What names a message of a topic.

ghost use Rattle.std.specs.Prelude.{◌≡◌, refl, IfOk};
ghost use Rattle.pulsar_wire.specs.Row.{none_of};
ghost use Rattle.pulsar_wire.specs.Rows.{message_id};
ghost use Rattle.pulsar_wire.specs.Views.{message_id_values};
ghost use Rattle.pulsar_wire.specs.Equality.{message_id_equality};

use crate::encoding::content::{int32_of, push_numbers, uint64_of};
use crate::encoding::copying::copy_values;
use crate::encoding::field::Value;
use crate::encoding::fields::{Fields, Numbers, Optional, Required, fields};
use crate::encoding::message::Message;
use crate::encoding::read_error::ReadError;
use crate::encoding::sink::Sink;
use crate::error::NoMemory;
use std::alloc::{AllocError, Global};

/// The place of a message: its ledger, its entry, and in a batch its index. Ids are ordered by their fields, in the
/// order written here, and an absent field comes first.
#[derive(Debug, PartialEq, Eq, PartialOrd, Ord, Hash, Drop)]
pub struct MessageIdData {
    pub ledger_id: u64,
    pub entry_id: u64,
    pub partition: Option<i32>,
    pub batch_index: Option<i32>,
    pub ack_set: Vec<i64>,
    pub batch_size: Option<i32>,
}

impl MessageIdData {
    /// The id whose fields are absent, empty or zero.
    #[tactic(auto, unfolding(crate::specs::Views::message_id_values))]
    pub fn new(alloc: Global) -> MessageIdData
        ensures { message_id_values result ≡ none_of message_id }
    {
        MessageIdData {
            ledger_id: 0,
            entry_id: 0,
            partition: None,
            batch_index: None,
            ack_set: Vec::new(alloc),
            batch_size: None,
        }
    }

    /// An id with the same content.
    pub fn copy(&self) -> Result<MessageIdData, NoMemory>
        ensures { IfOk result (λ m. message_id_values m ≡ message_id_values self.now) }
    {
        Ok(self.duplicate()?)
    }
}

impl Message for MessageIdData {
    ghost shape = { message_id };

    ghost values = { message_id_values };

    fn empty(alloc: Global) -> MessageIdData {
        MessageIdData::new(alloc)
    }

    #[tactic(auto, unfolding(crate::specs::Merge::put, crate::specs::Views::message_id_values))]
    fn put(&mut self, _alloc: Global, number: u32, value: Value<'_>) -> Result<(), ReadError> {
        match number {
            1 => self.ledger_id = uint64_of(value)?,
            2 => self.entry_id = uint64_of(value)?,
            3 => self.partition = Some(int32_of(value)?),
            4 => self.batch_index = Some(int32_of(value)?),
            5 => push_numbers(&mut self.ack_set, value)?,
            6 => self.batch_size = Some(int32_of(value)?),
            _ => {}
        }
        Ok(())
    }

    #[tactic(auto, unfolding(crate::specs::Row::spelling, crate::specs::Views::message_id_values))]
    fn write<S: Sink>(&self, out: &mut S) -> Result<(), AllocError> {
        fields!(
            Required(1, &self.ledger_id),
            Required(2, &self.entry_id),
            Optional(3, &self.partition),
            Optional(4, &self.batch_index),
            Numbers(5, &self.ack_set),
            Optional(6, &self.batch_size)
        )
        .write(out)
    }

    #[tactic(auto, unfolding(crate::specs::Views::message_id_values))]
    fn duplicate(&self) -> Result<MessageIdData, AllocError> {
        Ok(MessageIdData {
            ledger_id: self.ledger_id,
            entry_id: self.entry_id,
            partition: self.partition,
            batch_index: self.batch_index,
            ack_set: copy_values(&self.ack_set)?,
            batch_size: self.batch_size,
        })
    }

    ghost numbers_differ = { refl };

    ghost equality = { message_id_equality };
}
