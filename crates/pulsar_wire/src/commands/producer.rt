//! The commands of producers.

ghost use Rattle.std.specs.Prelude.{◌≡◌, refl, map, string_bytes, IfOk};
ghost use Rattle.std.specs.Option.{option_map};
ghost use Rattle.pulsar_wire.specs.Row.{none_of};
ghost use Rattle.pulsar_wire.specs.Rows.{producer, producer_success, send, send_receipt, send_error, close_producer};
ghost use Rattle.pulsar_wire.specs.Views.{producer_values, producer_success_values, send_values, send_receipt_values, send_error_values, close_producer_values, key_value_values, schema_values, message_id_values};
ghost use Rattle.pulsar_wire.specs.Equality.{producer_equality, producer_success_equality, send_equality, send_receipt_equality, send_error_equality, close_producer_equality};

use crate::commands::ids::MessageIdData;
use crate::commands::metadata::KeyValue;
use crate::commands::schema::Schema;
use crate::encoding::content::{bytes_of, flag_of, int32_of, int64_of, text_of, uint64_of};
use crate::encoding::copying::{copy_message, copy_messages, copy_optional};
use crate::encoding::field::Value;
use crate::encoding::fields::{
    Fields, Optional, OptionalMessage, RepeatedMessages, Required, fields,
};
use crate::encoding::message::{Message, put_optional, put_repeated};
use crate::encoding::plain::Plain;
use crate::encoding::read_error::ReadError;
use crate::encoding::sink::Sink;
use crate::error::NoMemory;
use std::alloc::{AllocError, Global};

/// Makes a producer on a topic.
#[derive(Debug, PartialEq, Eq)]
pub struct CommandProducer {
    pub topic: String,
    pub producer_id: u64,
    pub request_id: u64,
    pub producer_name: Option<String>,
    pub encrypted: Option<bool>,
    pub metadata: Vec<KeyValue>,
    pub schema: Option<Schema>,
    pub producer_access_mode: Option<i32>,
}

impl Drop for CommandProducer {
    fn drop(self) {
        let CommandProducer {
            topic: _,
            producer_id: _,
            request_id: _,
            producer_name: _,
            encrypted: _,
            metadata: _,
            schema: _,
            producer_access_mode: _,
        } = self;
    }
}

impl CommandProducer {
    /// The command whose fields are absent, empty or zero.
    #[tactic(auto, unfolding(crate::specs::Views::producer_values))]
    pub fn new(alloc: Global) -> CommandProducer
        ensures { producer_values result ≡ none_of producer }
    {
        CommandProducer {
            topic: String::new(alloc),
            producer_id: 0,
            request_id: 0,
            producer_name: None,
            encrypted: None,
            metadata: Vec::new(alloc),
            schema: None,
            producer_access_mode: None,
        }
    }

    /// A command with the same content.
    pub fn copy(&self) -> Result<CommandProducer, NoMemory>
        ensures { IfOk result (λ m. producer_values m ≡ producer_values self.now) }
    {
        Ok(self.duplicate()?)
    }
}

impl Message for CommandProducer {
    ghost shape = { producer };

    ghost values = { producer_values };

    fn empty(alloc: Global) -> CommandProducer {
        CommandProducer::new(alloc)
    }

    #[tactic(auto, unfolding(crate::specs::Merge::put, crate::specs::Views::producer_values))]
    fn put(&mut self, alloc: Global, number: u32, value: Value<'_>) -> Result<(), ReadError> {
        match number {
            1 => self.topic = text_of(alloc, value)?,
            2 => self.producer_id = uint64_of(value)?,
            3 => self.request_id = uint64_of(value)?,
            4 => self.producer_name = Some(text_of(alloc, value)?),
            5 => self.encrypted = Some(flag_of(value)?),
            6 => put_repeated(&mut self.metadata, alloc, value)?,
            7 => put_optional(&mut self.schema, alloc, value)?,
            10 => self.producer_access_mode = Some(int32_of(value)?),
            _ => {}
        }
        Ok(())
    }

    #[tactic(auto, unfolding(crate::specs::Row::spelling, crate::specs::Views::producer_values))]
    fn write<S: Sink>(&self, out: &mut S) -> Result<(), AllocError> {
        fields!(
            Required(1, &self.topic),
            Required(2, &self.producer_id),
            Required(3, &self.request_id),
            Optional(4, &self.producer_name),
            Optional(5, &self.encrypted),
            RepeatedMessages(6, &self.metadata),
            OptionalMessage(7, &self.schema),
            Optional(10, &self.producer_access_mode)
        )
        .write(out)
    }

    #[tactic(auto, unfolding(crate::specs::Views::producer_values))]
    fn duplicate(&self) -> Result<CommandProducer, AllocError> {
        Ok(CommandProducer {
            topic: self.topic.copy()?,
            producer_id: self.producer_id,
            request_id: self.request_id,
            producer_name: copy_optional(&self.producer_name)?,
            encrypted: self.encrypted,
            metadata: copy_messages(&self.metadata)?,
            schema: copy_message(&self.schema)?,
            producer_access_mode: self.producer_access_mode,
        })
    }

    ghost numbers_differ = { refl };

    ghost equality = { producer_equality };
}

/// A producer was made, under this name. It may not be ready to send yet.
#[derive(Debug, PartialEq, Eq)]
pub struct CommandProducerSuccess {
    pub request_id: u64,
    pub producer_name: String,
    /// The sequence number of the last message of this name.
    pub last_sequence_id: Option<i64>,
    pub schema_version: Option<Vec<u8>>,
    pub topic_epoch: Option<u64>,
    /// The producer may send, unless it is false.
    pub producer_ready: Option<bool>,
}

impl Drop for CommandProducerSuccess {
    fn drop(self) {
        let CommandProducerSuccess {
            request_id: _,
            producer_name: _,
            last_sequence_id: _,
            schema_version: _,
            topic_epoch: _,
            producer_ready: _,
        } = self;
    }
}

impl CommandProducerSuccess {
    /// The command whose fields are absent, empty or zero.
    #[tactic(auto, unfolding(crate::specs::Views::producer_success_values))]
    pub fn new(alloc: Global) -> CommandProducerSuccess
        ensures { producer_success_values result ≡ none_of producer_success }
    {
        CommandProducerSuccess {
            request_id: 0,
            producer_name: String::new(alloc),
            last_sequence_id: None,
            schema_version: None,
            topic_epoch: None,
            producer_ready: None,
        }
    }

    /// A command with the same content.
    pub fn copy(&self) -> Result<CommandProducerSuccess, NoMemory>
        ensures { IfOk result (λ m. producer_success_values m ≡ producer_success_values self.now) }
    {
        Ok(self.duplicate()?)
    }
}

impl Message for CommandProducerSuccess {
    ghost shape = { producer_success };

    ghost values = { producer_success_values };

    fn empty(alloc: Global) -> CommandProducerSuccess {
        CommandProducerSuccess::new(alloc)
    }

    #[tactic(auto, unfolding(crate::specs::Merge::put, crate::specs::Views::producer_success_values))]
    fn put(&mut self, alloc: Global, number: u32, value: Value<'_>) -> Result<(), ReadError> {
        match number {
            1 => self.request_id = uint64_of(value)?,
            2 => self.producer_name = text_of(alloc, value)?,
            3 => self.last_sequence_id = Some(int64_of(value)?),
            4 => self.schema_version = Some(bytes_of(alloc, value)?),
            5 => self.topic_epoch = Some(uint64_of(value)?),
            6 => self.producer_ready = Some(flag_of(value)?),
            _ => {}
        }
        Ok(())
    }

    #[tactic(auto, unfolding(crate::specs::Row::spelling, crate::specs::Views::producer_success_values))]
    fn write<S: Sink>(&self, out: &mut S) -> Result<(), AllocError> {
        fields!(
            Required(1, &self.request_id),
            Required(2, &self.producer_name),
            Optional(3, &self.last_sequence_id),
            Optional(4, &self.schema_version),
            Optional(5, &self.topic_epoch),
            Optional(6, &self.producer_ready)
        )
        .write(out)
    }

    #[tactic(auto, unfolding(crate::specs::Views::producer_success_values))]
    fn duplicate(&self) -> Result<CommandProducerSuccess, AllocError> {
        Ok(CommandProducerSuccess {
            request_id: self.request_id,
            producer_name: self.producer_name.copy()?,
            last_sequence_id: self.last_sequence_id,
            schema_version: copy_optional(&self.schema_version)?,
            topic_epoch: self.topic_epoch,
            producer_ready: self.producer_ready,
        })
    }

    ghost numbers_differ = { refl };

    ghost equality = { producer_success_equality };
}

/// A message of a producer. Its payload stands behind the command.
#[derive(Debug, PartialEq, Eq)]
pub struct CommandSend {
    pub producer_id: u64,
    pub sequence_id: u64,
    /// How many messages the batch has, where it is one.
    pub num_messages: Option<i32>,
}

impl Drop for CommandSend {
    fn drop(self) {
        let CommandSend {
            producer_id: _,
            sequence_id: _,
            num_messages: _,
        } = self;
    }
}

impl CommandSend {
    /// The command whose fields are absent, empty or zero.
    #[tactic(auto, unfolding(crate::specs::Views::send_values))]
    pub fn new() -> CommandSend
        ensures { send_values result ≡ none_of send }
    {
        CommandSend {
            producer_id: 0,
            sequence_id: 0,
            num_messages: None,
        }
    }

    /// A command with the same content.
    pub fn copy(&self) -> Result<CommandSend, NoMemory>
        ensures { IfOk result (λ m. send_values m ≡ send_values self.now) }
    {
        Ok(self.duplicate()?)
    }
}

impl Message for CommandSend {
    ghost shape = { send };

    ghost values = { send_values };

    fn empty(_alloc: Global) -> CommandSend {
        CommandSend::new()
    }

    #[tactic(auto, unfolding(crate::specs::Merge::put, crate::specs::Views::send_values))]
    fn put(&mut self, _alloc: Global, number: u32, value: Value<'_>) -> Result<(), ReadError> {
        match number {
            1 => self.producer_id = uint64_of(value)?,
            2 => self.sequence_id = uint64_of(value)?,
            3 => self.num_messages = Some(int32_of(value)?),
            _ => {}
        }
        Ok(())
    }

    #[tactic(auto, unfolding(crate::specs::Row::spelling, crate::specs::Views::send_values))]
    fn write<S: Sink>(&self, out: &mut S) -> Result<(), AllocError> {
        fields!(
            Required(1, &self.producer_id),
            Required(2, &self.sequence_id),
            Optional(3, &self.num_messages)
        )
        .write(out)
    }

    #[tactic(auto, unfolding(crate::specs::Views::send_values))]
    fn duplicate(&self) -> Result<CommandSend, AllocError> {
        Ok(CommandSend {
            producer_id: self.producer_id,
            sequence_id: self.sequence_id,
            num_messages: self.num_messages,
        })
    }

    ghost numbers_differ = { refl };

    ghost equality = { send_equality };
}

/// A message of a producer is stored.
#[derive(Debug, PartialEq, Eq, Drop)]
pub struct CommandSendReceipt {
    pub producer_id: u64,
    pub sequence_id: u64,
    pub message_id: Option<MessageIdData>,
    /// The sequence number of the last message of a batch.
    pub highest_sequence_id: Option<u64>,
}

impl CommandSendReceipt {
    /// The command whose fields are absent, empty or zero.
    #[tactic(auto, unfolding(crate::specs::Views::send_receipt_values))]
    pub fn new() -> CommandSendReceipt
        ensures { send_receipt_values result ≡ none_of send_receipt }
    {
        CommandSendReceipt {
            producer_id: 0,
            sequence_id: 0,
            message_id: None,
            highest_sequence_id: None,
        }
    }

    /// A command with the same content.
    pub fn copy(&self) -> Result<CommandSendReceipt, NoMemory>
        ensures { IfOk result (λ m. send_receipt_values m ≡ send_receipt_values self.now) }
    {
        Ok(self.duplicate()?)
    }
}

impl Message for CommandSendReceipt {
    ghost shape = { send_receipt };

    ghost values = { send_receipt_values };

    fn empty(_alloc: Global) -> CommandSendReceipt {
        CommandSendReceipt::new()
    }

    #[tactic(auto, unfolding(crate::specs::Merge::put, crate::specs::Views::send_receipt_values))]
    fn put(&mut self, alloc: Global, number: u32, value: Value<'_>) -> Result<(), ReadError> {
        match number {
            1 => self.producer_id = uint64_of(value)?,
            2 => self.sequence_id = uint64_of(value)?,
            3 => put_optional(&mut self.message_id, alloc, value)?,
            4 => self.highest_sequence_id = Some(uint64_of(value)?),
            _ => {}
        }
        Ok(())
    }

    #[tactic(auto, unfolding(crate::specs::Row::spelling, crate::specs::Views::send_receipt_values))]
    fn write<S: Sink>(&self, out: &mut S) -> Result<(), AllocError> {
        fields!(
            Required(1, &self.producer_id),
            Required(2, &self.sequence_id),
            OptionalMessage(3, &self.message_id),
            Optional(4, &self.highest_sequence_id)
        )
        .write(out)
    }

    #[tactic(auto, unfolding(crate::specs::Views::send_receipt_values))]
    fn duplicate(&self) -> Result<CommandSendReceipt, AllocError> {
        Ok(CommandSendReceipt {
            producer_id: self.producer_id,
            sequence_id: self.sequence_id,
            message_id: copy_message(&self.message_id)?,
            highest_sequence_id: self.highest_sequence_id,
        })
    }

    ghost numbers_differ = { refl };

    ghost equality = { send_receipt_equality };
}

/// A message of a producer is refused.
#[derive(Debug, PartialEq, Eq)]
pub struct CommandSendError {
    pub producer_id: u64,
    pub sequence_id: u64,
    /// The number of a `ServerError`.
    pub error: i32,
    pub message: String,
}

impl Drop for CommandSendError {
    fn drop(self) {
        let CommandSendError {
            producer_id: _,
            sequence_id: _,
            error: _,
            message: _,
        } = self;
    }
}

impl CommandSendError {
    /// The command whose fields are absent, empty or zero.
    #[tactic(auto, unfolding(crate::specs::Views::send_error_values))]
    pub fn new(alloc: Global) -> CommandSendError
        ensures { send_error_values result ≡ none_of send_error }
    {
        CommandSendError {
            producer_id: 0,
            sequence_id: 0,
            error: 0,
            message: String::new(alloc),
        }
    }

    /// A command with the same content.
    pub fn copy(&self) -> Result<CommandSendError, NoMemory>
        ensures { IfOk result (λ m. send_error_values m ≡ send_error_values self.now) }
    {
        Ok(self.duplicate()?)
    }
}

impl Message for CommandSendError {
    ghost shape = { send_error };

    ghost values = { send_error_values };

    fn empty(alloc: Global) -> CommandSendError {
        CommandSendError::new(alloc)
    }

    #[tactic(auto, unfolding(crate::specs::Merge::put, crate::specs::Views::send_error_values))]
    fn put(&mut self, alloc: Global, number: u32, value: Value<'_>) -> Result<(), ReadError> {
        match number {
            1 => self.producer_id = uint64_of(value)?,
            2 => self.sequence_id = uint64_of(value)?,
            3 => self.error = int32_of(value)?,
            4 => self.message = text_of(alloc, value)?,
            _ => {}
        }
        Ok(())
    }

    #[tactic(auto, unfolding(crate::specs::Row::spelling, crate::specs::Views::send_error_values))]
    fn write<S: Sink>(&self, out: &mut S) -> Result<(), AllocError> {
        fields!(
            Required(1, &self.producer_id),
            Required(2, &self.sequence_id),
            Required(3, &self.error),
            Required(4, &self.message)
        )
        .write(out)
    }

    #[tactic(auto, unfolding(crate::specs::Views::send_error_values))]
    fn duplicate(&self) -> Result<CommandSendError, AllocError> {
        Ok(CommandSendError {
            producer_id: self.producer_id,
            sequence_id: self.sequence_id,
            error: self.error,
            message: self.message.copy()?,
        })
    }

    ghost numbers_differ = { refl };

    ghost equality = { send_error_equality };
}

/// Ends a producer. The broker says it, too.
#[derive(Debug, PartialEq, Eq)]
pub struct CommandCloseProducer {
    pub producer_id: u64,
    pub request_id: u64,
}

impl Drop for CommandCloseProducer {
    fn drop(self) {
        let CommandCloseProducer {
            producer_id: _,
            request_id: _,
        } = self;
    }
}

impl CommandCloseProducer {
    /// The command whose fields are absent, empty or zero.
    #[tactic(auto, unfolding(crate::specs::Views::close_producer_values))]
    pub fn new() -> CommandCloseProducer
        ensures { close_producer_values result ≡ none_of close_producer }
    {
        CommandCloseProducer {
            producer_id: 0,
            request_id: 0,
        }
    }

    /// A command with the same content.
    pub fn copy(&self) -> Result<CommandCloseProducer, NoMemory>
        ensures { IfOk result (λ m. close_producer_values m ≡ close_producer_values self.now) }
    {
        Ok(self.duplicate()?)
    }
}

impl Message for CommandCloseProducer {
    ghost shape = { close_producer };

    ghost values = { close_producer_values };

    fn empty(_alloc: Global) -> CommandCloseProducer {
        CommandCloseProducer::new()
    }

    #[tactic(auto, unfolding(crate::specs::Merge::put, crate::specs::Views::close_producer_values))]
    fn put(&mut self, _alloc: Global, number: u32, value: Value<'_>) -> Result<(), ReadError> {
        match number {
            1 => self.producer_id = uint64_of(value)?,
            2 => self.request_id = uint64_of(value)?,
            _ => {}
        }
        Ok(())
    }

    #[tactic(auto, unfolding(crate::specs::Row::spelling, crate::specs::Views::close_producer_values))]
    fn write<S: Sink>(&self, out: &mut S) -> Result<(), AllocError> {
        fields!(
            Required(1, &self.producer_id),
            Required(2, &self.request_id)
        )
        .write(out)
    }

    #[tactic(auto, unfolding(crate::specs::Views::close_producer_values))]
    fn duplicate(&self) -> Result<CommandCloseProducer, AllocError> {
        Ok(CommandCloseProducer {
            producer_id: self.producer_id,
            request_id: self.request_id,
        })
    }

    ghost numbers_differ = { refl };

    ghost equality = { close_producer_equality };
}
