//! The commands that begin and end a subscription.

ghost use Rattle.std.specs.Prelude.{◌≡◌, refl, map, string_bytes, IfOk};
ghost use Rattle.std.specs.Option.{option_map};
ghost use Rattle.pulsar_wire.specs.Row.{none_of};
ghost use Rattle.pulsar_wire.specs.Rows.{subscribe, unsubscribe, close_consumer, active_consumer_change};
ghost use Rattle.pulsar_wire.specs.Views.{subscribe_values, unsubscribe_values, close_consumer_values, active_consumer_change_values, message_id_values, key_value_values, schema_values};
ghost use Rattle.pulsar_wire.specs.Equality.{subscribe_equality, unsubscribe_equality, close_consumer_equality, active_consumer_change_equality};

use crate::commands::ids::MessageIdData;
use crate::commands::metadata::KeyValue;
use crate::commands::schema::Schema;
use crate::encoding::content::{flag_of, int32_of, text_of, uint64_of};
use crate::encoding::copying::{copy_message, copy_messages, copy_optional};
use crate::encoding::field::Value;
use crate::encoding::fields::{
    Fields, Optional, OptionalMessage, RepeatedMessages, Required, fields,
};
use crate::encoding::message::{Message, put_optional, put_repeated};
use crate::encoding::plain::Plain;
use crate::encoding::read_error::ReadError;
use crate::encoding::sink::Sink;
use crate::error::NoMemory;
use std::alloc::{AllocError, Global};

/// Makes a consumer on a subscription of a topic.
#[derive(Debug, PartialEq, Eq)]
pub struct CommandSubscribe {
    pub topic: String,
    pub subscription: String,
    /// The number of a `SubType`.
    pub sub_type: i32,
    pub consumer_id: u64,
    pub request_id: u64,
    pub consumer_name: Option<String>,
    pub priority_level: Option<i32>,
    pub durable: Option<bool>,
    pub start_message_id: Option<MessageIdData>,
    pub metadata: Vec<KeyValue>,
    pub read_compacted: Option<bool>,
    pub schema: Option<Schema>,
    /// The number of an `InitialPosition`.
    pub initial_position: Option<i32>,
}

impl Drop for CommandSubscribe {
    fn drop(self) {
        let CommandSubscribe {
            topic: _,
            subscription: _,
            sub_type: _,
            consumer_id: _,
            request_id: _,
            consumer_name: _,
            priority_level: _,
            durable: _,
            start_message_id: _,
            metadata: _,
            read_compacted: _,
            schema: _,
            initial_position: _,
        } = self;
    }
}

impl CommandSubscribe {
    /// The command whose fields are absent, empty or zero.
    #[tactic(auto, unfolding(crate::specs::Views::subscribe_values))]
    pub fn new(alloc: Global) -> CommandSubscribe
        ensures { subscribe_values result ≡ none_of subscribe }
    {
        CommandSubscribe {
            topic: String::new(alloc),
            subscription: String::new(alloc),
            sub_type: 0,
            consumer_id: 0,
            request_id: 0,
            consumer_name: None,
            priority_level: None,
            durable: None,
            start_message_id: None,
            metadata: Vec::new(alloc),
            read_compacted: None,
            schema: None,
            initial_position: None,
        }
    }

    /// A command with the same content.
    pub fn copy(&self) -> Result<CommandSubscribe, NoMemory>
        ensures { IfOk result (λ m. subscribe_values m ≡ subscribe_values self.now) }
    {
        Ok(self.duplicate()?)
    }
}

impl Message for CommandSubscribe {
    ghost shape = { subscribe };

    ghost values = { subscribe_values };

    fn empty(alloc: Global) -> CommandSubscribe {
        CommandSubscribe::new(alloc)
    }

    #[tactic(auto, unfolding(crate::specs::Merge::put, crate::specs::Views::subscribe_values))]
    fn put(&mut self, alloc: Global, number: u32, value: Value<'_>) -> Result<(), ReadError> {
        match number {
            1 => self.topic = text_of(alloc, value)?,
            2 => self.subscription = text_of(alloc, value)?,
            3 => self.sub_type = int32_of(value)?,
            4 => self.consumer_id = uint64_of(value)?,
            5 => self.request_id = uint64_of(value)?,
            6 => self.consumer_name = Some(text_of(alloc, value)?),
            7 => self.priority_level = Some(int32_of(value)?),
            8 => self.durable = Some(flag_of(value)?),
            9 => put_optional(&mut self.start_message_id, alloc, value)?,
            10 => put_repeated(&mut self.metadata, alloc, value)?,
            11 => self.read_compacted = Some(flag_of(value)?),
            12 => put_optional(&mut self.schema, alloc, value)?,
            13 => self.initial_position = Some(int32_of(value)?),
            _ => {}
        }
        Ok(())
    }

    #[tactic(auto, unfolding(crate::specs::Row::spelling, crate::specs::Views::subscribe_values))]
    fn write<S: Sink>(&self, out: &mut S) -> Result<(), AllocError> {
        fields!(
            Required(1, &self.topic),
            Required(2, &self.subscription),
            Required(3, &self.sub_type),
            Required(4, &self.consumer_id),
            Required(5, &self.request_id),
            Optional(6, &self.consumer_name),
            Optional(7, &self.priority_level),
            Optional(8, &self.durable),
            OptionalMessage(9, &self.start_message_id),
            RepeatedMessages(10, &self.metadata),
            Optional(11, &self.read_compacted),
            OptionalMessage(12, &self.schema),
            Optional(13, &self.initial_position)
        )
        .write(out)
    }

    #[tactic(auto, unfolding(crate::specs::Views::subscribe_values))]
    fn duplicate(&self) -> Result<CommandSubscribe, AllocError> {
        Ok(CommandSubscribe {
            topic: self.topic.copy()?,
            subscription: self.subscription.copy()?,
            sub_type: self.sub_type,
            consumer_id: self.consumer_id,
            request_id: self.request_id,
            consumer_name: copy_optional(&self.consumer_name)?,
            priority_level: self.priority_level,
            durable: self.durable,
            start_message_id: copy_message(&self.start_message_id)?,
            metadata: copy_messages(&self.metadata)?,
            read_compacted: self.read_compacted,
            schema: copy_message(&self.schema)?,
            initial_position: self.initial_position,
        })
    }

    ghost numbers_differ = { refl };

    ghost equality = { subscribe_equality };
}

/// Ends a consumer's subscription.
#[derive(Debug, PartialEq, Eq)]
pub struct CommandUnsubscribe {
    pub consumer_id: u64,
    pub request_id: u64,
}

impl Drop for CommandUnsubscribe {
    fn drop(self) {
        let CommandUnsubscribe {
            consumer_id: _,
            request_id: _,
        } = self;
    }
}

impl CommandUnsubscribe {
    /// The command whose fields are absent, empty or zero.
    #[tactic(auto, unfolding(crate::specs::Views::unsubscribe_values))]
    pub fn new() -> CommandUnsubscribe
        ensures { unsubscribe_values result ≡ none_of unsubscribe }
    {
        CommandUnsubscribe {
            consumer_id: 0,
            request_id: 0,
        }
    }

    /// A command with the same content.
    pub fn copy(&self) -> Result<CommandUnsubscribe, NoMemory>
        ensures { IfOk result (λ m. unsubscribe_values m ≡ unsubscribe_values self.now) }
    {
        Ok(self.duplicate()?)
    }
}

impl Message for CommandUnsubscribe {
    ghost shape = { unsubscribe };

    ghost values = { unsubscribe_values };

    fn empty(_alloc: Global) -> CommandUnsubscribe {
        CommandUnsubscribe::new()
    }

    #[tactic(auto, unfolding(crate::specs::Merge::put, crate::specs::Views::unsubscribe_values))]
    fn put(&mut self, _alloc: Global, number: u32, value: Value<'_>) -> Result<(), ReadError> {
        match number {
            1 => self.consumer_id = uint64_of(value)?,
            2 => self.request_id = uint64_of(value)?,
            _ => {}
        }
        Ok(())
    }

    #[tactic(auto, unfolding(crate::specs::Row::spelling, crate::specs::Views::unsubscribe_values))]
    fn write<S: Sink>(&self, out: &mut S) -> Result<(), AllocError> {
        fields!(
            Required(1, &self.consumer_id),
            Required(2, &self.request_id)
        )
        .write(out)
    }

    #[tactic(auto, unfolding(crate::specs::Views::unsubscribe_values))]
    fn duplicate(&self) -> Result<CommandUnsubscribe, AllocError> {
        Ok(CommandUnsubscribe {
            consumer_id: self.consumer_id,
            request_id: self.request_id,
        })
    }

    ghost numbers_differ = { refl };

    ghost equality = { unsubscribe_equality };
}

/// Ends a consumer. The broker says it, too.
#[derive(Debug, PartialEq, Eq)]
pub struct CommandCloseConsumer {
    pub consumer_id: u64,
    pub request_id: u64,
}

impl Drop for CommandCloseConsumer {
    fn drop(self) {
        let CommandCloseConsumer {
            consumer_id: _,
            request_id: _,
        } = self;
    }
}

impl CommandCloseConsumer {
    /// The command whose fields are absent, empty or zero.
    #[tactic(auto, unfolding(crate::specs::Views::close_consumer_values))]
    pub fn new() -> CommandCloseConsumer
        ensures { close_consumer_values result ≡ none_of close_consumer }
    {
        CommandCloseConsumer {
            consumer_id: 0,
            request_id: 0,
        }
    }

    /// A command with the same content.
    pub fn copy(&self) -> Result<CommandCloseConsumer, NoMemory>
        ensures { IfOk result (λ m. close_consumer_values m ≡ close_consumer_values self.now) }
    {
        Ok(self.duplicate()?)
    }
}

impl Message for CommandCloseConsumer {
    ghost shape = { close_consumer };

    ghost values = { close_consumer_values };

    fn empty(_alloc: Global) -> CommandCloseConsumer {
        CommandCloseConsumer::new()
    }

    #[tactic(auto, unfolding(crate::specs::Merge::put, crate::specs::Views::close_consumer_values))]
    fn put(&mut self, _alloc: Global, number: u32, value: Value<'_>) -> Result<(), ReadError> {
        match number {
            1 => self.consumer_id = uint64_of(value)?,
            2 => self.request_id = uint64_of(value)?,
            _ => {}
        }
        Ok(())
    }

    #[tactic(auto, unfolding(crate::specs::Row::spelling, crate::specs::Views::close_consumer_values))]
    fn write<S: Sink>(&self, out: &mut S) -> Result<(), AllocError> {
        fields!(
            Required(1, &self.consumer_id),
            Required(2, &self.request_id)
        )
        .write(out)
    }

    #[tactic(auto, unfolding(crate::specs::Views::close_consumer_values))]
    fn duplicate(&self) -> Result<CommandCloseConsumer, AllocError> {
        Ok(CommandCloseConsumer {
            consumer_id: self.consumer_id,
            request_id: self.request_id,
        })
    }

    ghost numbers_differ = { refl };

    ghost equality = { close_consumer_equality };
}

/// Whether a consumer is the one that a failover subscription serves.
#[derive(Debug, PartialEq, Eq)]
pub struct CommandActiveConsumerChange {
    pub consumer_id: u64,
    pub is_active: Option<bool>,
}

impl Drop for CommandActiveConsumerChange {
    fn drop(self) {
        let CommandActiveConsumerChange {
            consumer_id: _,
            is_active: _,
        } = self;
    }
}

impl CommandActiveConsumerChange {
    /// The command whose fields are absent, empty or zero.
    #[tactic(auto, unfolding(crate::specs::Views::active_consumer_change_values))]
    pub fn new() -> CommandActiveConsumerChange
        ensures { active_consumer_change_values result ≡ none_of active_consumer_change }
    {
        CommandActiveConsumerChange {
            consumer_id: 0,
            is_active: None,
        }
    }

    /// A command with the same content.
    pub fn copy(&self) -> Result<CommandActiveConsumerChange, NoMemory>
        ensures { IfOk result (λ m. active_consumer_change_values m ≡ active_consumer_change_values self.now) }
    {
        Ok(self.duplicate()?)
    }
}

impl Message for CommandActiveConsumerChange {
    ghost shape = { active_consumer_change };

    ghost values = { active_consumer_change_values };

    fn empty(_alloc: Global) -> CommandActiveConsumerChange {
        CommandActiveConsumerChange::new()
    }

    #[tactic(auto, unfolding(crate::specs::Merge::put, crate::specs::Views::active_consumer_change_values))]
    fn put(&mut self, _alloc: Global, number: u32, value: Value<'_>) -> Result<(), ReadError> {
        match number {
            1 => self.consumer_id = uint64_of(value)?,
            2 => self.is_active = Some(flag_of(value)?),
            _ => {}
        }
        Ok(())
    }

    #[tactic(auto, unfolding(crate::specs::Row::spelling, crate::specs::Views::active_consumer_change_values))]
    fn write<S: Sink>(&self, out: &mut S) -> Result<(), AllocError> {
        fields!(Required(1, &self.consumer_id), Optional(2, &self.is_active)).write(out)
    }

    #[tactic(auto, unfolding(crate::specs::Views::active_consumer_change_values))]
    fn duplicate(&self) -> Result<CommandActiveConsumerChange, AllocError> {
        Ok(CommandActiveConsumerChange {
            consumer_id: self.consumer_id,
            is_active: self.is_active,
        })
    }

    ghost numbers_differ = { refl };

    ghost equality = { active_consumer_change_equality };
}
