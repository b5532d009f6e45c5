//! The commands that bring messages to a consumer, and those by which it asks for them and acknowledges them.

ghost use Rattle.std.specs.Prelude.{◌≡◌, refl, map, IfOk};
ghost use Rattle.pulsar_wire.specs.Row.{none_of};
ghost use Rattle.pulsar_wire.specs.Rows.{message, ack, flow, redeliver_unacknowledged_messages, reached_end_of_topic};
ghost use Rattle.pulsar_wire.specs.Views.{message_values, ack_values, flow_values, redeliver_unacknowledged_messages_values, reached_end_of_topic_values, message_id_values};
ghost use Rattle.pulsar_wire.specs.Equality.{message_equality, ack_equality, flow_equality, redeliver_unacknowledged_messages_equality, reached_end_of_topic_equality};

use crate::commands::ids::MessageIdData;
use crate::encoding::content::{int32_of, push_numbers, uint32_of, uint64_of};
use crate::encoding::copying::{copy_messages, copy_values};
use crate::encoding::field::Value;
use crate::encoding::fields::{
    Fields, Numbers, Optional, RepeatedMessages, Required, RequiredMessage, fields,
};
use crate::encoding::message::{Message, put_repeated, put_required};
use crate::encoding::read_error::ReadError;
use crate::encoding::sink::Sink;
use crate::error::NoMemory;
use std::alloc::{AllocError, Global};

/// A message for a consumer. Its payload stands behind the command.
#[derive(Debug, PartialEq, Eq)]
pub struct CommandMessage {
    pub consumer_id: u64,
    pub message_id: MessageIdData,
    pub redelivery_count: Option<u32>,
    /// The entries of the batch that are not acknowledged yet, as bits.
    pub ack_set: Vec<i64>,
}

impl Drop for CommandMessage {
    fn drop(self) {
        let CommandMessage {
            consumer_id: _,
            message_id: _,
            redelivery_count: _,
            ack_set: _,
        } = self;
    }
}

impl CommandMessage {
    /// The command whose fields are absent, empty or zero.
    #[tactic(auto, unfolding(crate::specs::Views::message_values))]
    pub fn new(alloc: Global) -> CommandMessage
        ensures { message_values result ≡ none_of message }
    {
        CommandMessage {
            consumer_id: 0,
            message_id: MessageIdData::new(alloc),
            redelivery_count: None,
            ack_set: Vec::new(alloc),
        }
    }

    /// A command with the same content.
    pub fn copy(&self) -> Result<CommandMessage, NoMemory>
        ensures { IfOk result (λ m. message_values m ≡ message_values self.now) }
    {
        Ok(self.duplicate()?)
    }
}

impl Message for CommandMessage {
    ghost shape = { message };

    ghost values = { message_values };

    fn empty(alloc: Global) -> CommandMessage {
        CommandMessage::new(alloc)
    }

    #[tactic(auto, unfolding(crate::specs::Merge::put, crate::specs::Views::message_values))]
    fn put(&mut self, alloc: Global, number: u32, value: Value<'_>) -> Result<(), ReadError> {
        match number {
            1 => self.consumer_id = uint64_of(value)?,
            2 => put_required(&mut self.message_id, alloc, value)?,
            3 => self.redelivery_count = Some(uint32_of(value)?),
            4 => push_numbers(&mut self.ack_set, value)?,
            _ => {}
        }
        Ok(())
    }

    #[tactic(auto, unfolding(crate::specs::Row::spelling, crate::specs::Views::message_values))]
    fn write<S: Sink>(&self, out: &mut S) -> Result<(), AllocError> {
        fields!(
            Required(1, &self.consumer_id),
            RequiredMessage(2, &self.message_id),
            Optional(3, &self.redelivery_count),
            Numbers(4, &self.ack_set)
        )
        .write(out)
    }

    #[tactic(auto, unfolding(crate::specs::Views::message_values))]
    fn duplicate(&self) -> Result<CommandMessage, AllocError> {
        Ok(CommandMessage {
            consumer_id: self.consumer_id,
            message_id: self.message_id.duplicate()?,
            redelivery_count: self.redelivery_count,
            ack_set: copy_values(&self.ack_set)?,
        })
    }

    ghost numbers_differ = { refl };

    ghost equality = { message_equality };
}

/// Acknowledges messages: each one, or all up to one.
#[derive(Debug, PartialEq, Eq)]
pub struct CommandAck {
    pub consumer_id: u64,
    /// Individual 0, Cumulative 1.
    pub ack_type: i32,
    pub message_id: Vec<MessageIdData>,
}

impl Drop for CommandAck {
    fn drop(self) {
        let CommandAck {
            consumer_id: _,
            ack_type: _,
            message_id: _,
        } = self;
    }
}

impl CommandAck {
    /// The command whose fields are absent, empty or zero.
    #[tactic(auto, unfolding(crate::specs::Views::ack_values))]
    pub fn new(alloc: Global) -> CommandAck
        ensures { ack_values result ≡ none_of ack }
    {
        CommandAck {
            consumer_id: 0,
            ack_type: 0,
            message_id: Vec::new(alloc),
        }
    }

    /// A command with the same content.
    pub fn copy(&self) -> Result<CommandAck, NoMemory>
        ensures { IfOk result (λ m. ack_values m ≡ ack_values self.now) }
    {
        Ok(self.duplicate()?)
    }
}

impl Message for CommandAck {
    ghost shape = { ack };

    ghost values = { ack_values };

    fn empty(alloc: Global) -> CommandAck {
        CommandAck::new(alloc)
    }

    #[tactic(auto, unfolding(crate::specs::Merge::put, crate::specs::Views::ack_values))]
    fn put(&mut self, alloc: Global, number: u32, value: Value<'_>) -> Result<(), ReadError> {
        match number {
            1 => self.consumer_id = uint64_of(value)?,
            2 => self.ack_type = int32_of(value)?,
            3 => put_repeated(&mut self.message_id, alloc, value)?,
            _ => {}
        }
        Ok(())
    }

    #[tactic(auto, unfolding(crate::specs::Row::spelling, crate::specs::Views::ack_values))]
    fn write<S: Sink>(&self, out: &mut S) -> Result<(), AllocError> {
        fields!(
            Required(1, &self.consumer_id),
            Required(2, &self.ack_type),
            RepeatedMessages(3, &self.message_id)
        )
        .write(out)
    }

    #[tactic(auto, unfolding(crate::specs::Views::ack_values))]
    fn duplicate(&self) -> Result<CommandAck, AllocError> {
        Ok(CommandAck {
            consumer_id: self.consumer_id,
            ack_type: self.ack_type,
            message_id: copy_messages(&self.message_id)?,
        })
    }

    ghost numbers_differ = { refl };

    ghost equality = { ack_equality };
}

/// Asks for this many further messages.
#[derive(Debug, PartialEq, Eq)]
pub struct CommandFlow {
    pub consumer_id: u64,
    /// How many further messages are asked for.
    pub message_permits: u32,
}

impl Drop for CommandFlow {
    fn drop(self) {
        let CommandFlow {
            consumer_id: _,
            message_permits: _,
        } = self;
    }
}

impl CommandFlow {
    /// The command whose fields are absent, empty or zero.
    #[tactic(auto, unfolding(crate::specs::Views::flow_values))]
    pub fn new() -> CommandFlow
        ensures { flow_values result ≡ none_of flow }
    {
        CommandFlow {
            consumer_id: 0,
            message_permits: 0,
        }
    }

    /// A command with the same content.
    pub fn copy(&self) -> Result<CommandFlow, NoMemory>
        ensures { IfOk result (λ m. flow_values m ≡ flow_values self.now) }
    {
        Ok(self.duplicate()?)
    }
}

impl Message for CommandFlow {
    ghost shape = { flow };

    ghost values = { flow_values };

    fn empty(_alloc: Global) -> CommandFlow {
        CommandFlow::new()
    }

    #[tactic(auto, unfolding(crate::specs::Merge::put, crate::specs::Views::flow_values))]
    fn put(&mut self, _alloc: Global, number: u32, value: Value<'_>) -> Result<(), ReadError> {
        match number {
            1 => self.consumer_id = uint64_of(value)?,
            2 => self.message_permits = uint32_of(value)?,
            _ => {}
        }
        Ok(())
    }

    #[tactic(auto, unfolding(crate::specs::Row::spelling, crate::specs::Views::flow_values))]
    fn write<S: Sink>(&self, out: &mut S) -> Result<(), AllocError> {
        fields!(
            Required(1, &self.consumer_id),
            Required(2, &self.message_permits)
        )
        .write(out)
    }

    #[tactic(auto, unfolding(crate::specs::Views::flow_values))]
    fn duplicate(&self) -> Result<CommandFlow, AllocError> {
        Ok(CommandFlow {
            consumer_id: self.consumer_id,
            message_permits: self.message_permits,
        })
    }

    ghost numbers_differ = { refl };

    ghost equality = { flow_equality };
}

/// Asks for these messages again, or for all that are not acknowledged.
#[derive(Debug, PartialEq, Eq)]
pub struct CommandRedeliverUnacknowledgedMessages {
    pub consumer_id: u64,
    pub message_ids: Vec<MessageIdData>,
}

impl Drop for CommandRedeliverUnacknowledgedMessages {
    fn drop(self) {
        let CommandRedeliverUnacknowledgedMessages {
            consumer_id: _,
            message_ids: _,
        } = self;
    }
}

impl CommandRedeliverUnacknowledgedMessages {
    /// The command whose fields are absent, empty or zero.
    #[tactic(auto, unfolding(crate::specs::Views::redeliver_unacknowledged_messages_values))]
    pub fn new(alloc: Global) -> CommandRedeliverUnacknowledgedMessages
        ensures { redeliver_unacknowledged_messages_values result ≡ none_of redeliver_unacknowledged_messages }
    {
        CommandRedeliverUnacknowledgedMessages {
            consumer_id: 0,
            message_ids: Vec::new(alloc),
        }
    }

    /// A command with the same content.
    pub fn copy(&self) -> Result<CommandRedeliverUnacknowledgedMessages, NoMemory>
        ensures { IfOk result (λ m. redeliver_unacknowledged_messages_values m ≡ redeliver_unacknowledged_messages_values self.now) }
    {
        Ok(self.duplicate()?)
    }
}

impl Message for CommandRedeliverUnacknowledgedMessages {
    ghost shape = { redeliver_unacknowledged_messages };

    ghost values = { redeliver_unacknowledged_messages_values };

    fn empty(alloc: Global) -> CommandRedeliverUnacknowledgedMessages {
        CommandRedeliverUnacknowledgedMessages::new(alloc)
    }

    #[tactic(auto, unfolding(crate::specs::Merge::put, crate::specs::Views::redeliver_unacknowledged_messages_values))]
    fn put(&mut self, alloc: Global, number: u32, value: Value<'_>) -> Result<(), ReadError> {
        match number {
            1 => self.consumer_id = uint64_of(value)?,
            2 => put_repeated(&mut self.message_ids, alloc, value)?,
            _ => {}
        }
        Ok(())
    }

    #[tactic(auto, unfolding(crate::specs::Row::spelling, crate::specs::Views::redeliver_unacknowledged_messages_values))]
    fn write<S: Sink>(&self, out: &mut S) -> Result<(), AllocError> {
        fields!(
            Required(1, &self.consumer_id),
            RepeatedMessages(2, &self.message_ids)
        )
        .write(out)
    }

    #[tactic(auto, unfolding(crate::specs::Views::redeliver_unacknowledged_messages_values))]
    fn duplicate(&self) -> Result<CommandRedeliverUnacknowledgedMessages, AllocError> {
        Ok(CommandRedeliverUnacknowledgedMessages {
            consumer_id: self.consumer_id,
            message_ids: copy_messages(&self.message_ids)?,
        })
    }

    ghost numbers_differ = { refl };

    ghost equality = { redeliver_unacknowledged_messages_equality };
}

/// A topic that has ended has no further messages for a consumer.
#[derive(Debug, PartialEq, Eq)]
pub struct CommandReachedEndOfTopic {
    pub consumer_id: u64,
}

impl Drop for CommandReachedEndOfTopic {
    fn drop(self) {
        let CommandReachedEndOfTopic { consumer_id: _ } = self;
    }
}

impl CommandReachedEndOfTopic {
    /// The command whose fields are absent, empty or zero.
    #[tactic(auto, unfolding(crate::specs::Views::reached_end_of_topic_values))]
    pub fn new() -> CommandReachedEndOfTopic
        ensures { reached_end_of_topic_values result ≡ none_of reached_end_of_topic }
    {
        CommandReachedEndOfTopic { consumer_id: 0 }
    }

    /// A command with the same content.
    pub fn copy(&self) -> Result<CommandReachedEndOfTopic, NoMemory>
        ensures { IfOk result (λ m. reached_end_of_topic_values m ≡ reached_end_of_topic_values self.now) }
    {
        Ok(self.duplicate()?)
    }
}

impl Message for CommandReachedEndOfTopic {
    ghost shape = { reached_end_of_topic };

    ghost values = { reached_end_of_topic_values };

    fn empty(_alloc: Global) -> CommandReachedEndOfTopic {
        CommandReachedEndOfTopic::new()
    }

    #[tactic(auto, unfolding(crate::specs::Merge::put, crate::specs::Views::reached_end_of_topic_values))]
    fn put(&mut self, _alloc: Global, number: u32, value: Value<'_>) -> Result<(), ReadError> {
        match number {
            1 => self.consumer_id = uint64_of(value)?,
            _ => {}
        }
        Ok(())
    }

    #[tactic(auto, unfolding(crate::specs::Row::spelling, crate::specs::Views::reached_end_of_topic_values))]
    fn write<S: Sink>(&self, out: &mut S) -> Result<(), AllocError> {
        fields!(Required(1, &self.consumer_id)).write(out)
    }

    #[tactic(auto, unfolding(crate::specs::Views::reached_end_of_topic_values))]
    fn duplicate(&self) -> Result<CommandReachedEndOfTopic, AllocError> {
        Ok(CommandReachedEndOfTopic {
            consumer_id: self.consumer_id,
        })
    }

    ghost numbers_differ = { refl };

    ghost equality = { reached_end_of_topic_equality };
}
