//! The commands that ask where a subscription stands, and move it.

ghost use Rattle.std.specs.Prelude.{◌≡◌, refl, string_bytes, IfOk};
ghost use Rattle.std.specs.Option.{option_map};
ghost use Rattle.pulsar_wire.specs.Row.{none_of};
ghost use Rattle.pulsar_wire.specs.Rows.{seek, get_last_message_id, get_last_message_id_response, consumer_stats, consumer_stats_response};
ghost use Rattle.pulsar_wire.specs.Views.{seek_values, get_last_message_id_values, get_last_message_id_response_values, consumer_stats_values, consumer_stats_response_values, message_id_values};
ghost use Rattle.pulsar_wire.specs.Equality.{seek_equality, get_last_message_id_equality, get_last_message_id_response_equality, consumer_stats_equality, consumer_stats_response_equality};

use crate::commands::ids::MessageIdData;
use crate::encoding::content::{flag_of, int32_of, text_of, uint64_of};
use crate::encoding::copying::{copy_message, copy_optional};
use crate::encoding::field::Value;
use crate::encoding::fields::{
    Fields, Optional, OptionalMessage, Required, RequiredMessage, fields,
};
use crate::encoding::message::{Message, put_optional, put_required};
use crate::encoding::read_error::ReadError;
use crate::encoding::sink::Sink;
use crate::error::NoMemory;
use std::alloc::{AllocError, Global};

/// Moves a subscription to a message, or to a time.
#[derive(Debug, PartialEq, Eq)]
pub struct CommandSeek {
    pub consumer_id: u64,
    pub request_id: u64,
    pub message_id: Option<MessageIdData>,
    /// Milliseconds since 1970.
    pub message_publish_time: Option<u64>,
}

impl Drop for CommandSeek {
    fn drop(self) {
        let CommandSeek {
            consumer_id: _,
            request_id: _,
            message_id: _,
            message_publish_time: _,
        } = self;
    }
}

impl CommandSeek {
    /// The command whose fields are absent, empty or zero.
    #[tactic(auto, unfolding(crate::specs::Views::seek_values))]
    pub fn new() -> CommandSeek
        ensures { seek_values result ≡ none_of seek }
    {
        CommandSeek {
            consumer_id: 0,
            request_id: 0,
            message_id: None,
            message_publish_time: None,
        }
    }

    /// A command with the same content.
    pub fn copy(&self) -> Result<CommandSeek, NoMemory>
        ensures { IfOk result (λ m. seek_values m ≡ seek_values self.now) }
    {
        Ok(self.duplicate()?)
    }
}

impl Message for CommandSeek {
    ghost shape = { seek };

    ghost values = { seek_values };

    fn empty(_alloc: Global) -> CommandSeek {
        CommandSeek::new()
    }

    #[tactic(auto, unfolding(crate::specs::Merge::put, crate::specs::Views::seek_values))]
    fn put(&mut self, alloc: Global, number: u32, value: Value<'_>) -> Result<(), ReadError> {
        match number {
            1 => self.consumer_id = uint64_of(value)?,
            2 => self.request_id = uint64_of(value)?,
            3 => put_optional(&mut self.message_id, alloc, value)?,
            4 => self.message_publish_time = Some(uint64_of(value)?),
            _ => {}
        }
        Ok(())
    }

    #[tactic(auto, unfolding(crate::specs::Row::spelling, crate::specs::Views::seek_values))]
    fn write<S: Sink>(&self, out: &mut S) -> Result<(), AllocError> {
        fields!(
            Required(1, &self.consumer_id),
            Required(2, &self.request_id),
            OptionalMessage(3, &self.message_id),
            Optional(4, &self.message_publish_time)
        )
        .write(out)
    }

    #[tactic(auto, unfolding(crate::specs::Views::seek_values))]
    fn duplicate(&self) -> Result<CommandSeek, AllocError> {
        Ok(CommandSeek {
            consumer_id: self.consumer_id,
            request_id: self.request_id,
            message_id: copy_message(&self.message_id)?,
            message_publish_time: self.message_publish_time,
        })
    }

    ghost numbers_differ = { refl };

    ghost equality = { seek_equality };
}

/// Asks for the id of the last message of a topic.
#[derive(Debug, PartialEq, Eq)]
pub struct CommandGetLastMessageId {
    pub consumer_id: u64,
    pub request_id: u64,
}

impl Drop for CommandGetLastMessageId {
    fn drop(self) {
        let CommandGetLastMessageId {
            consumer_id: _,
            request_id: _,
        } = self;
    }
}

impl CommandGetLastMessageId {
    /// The command whose fields are absent, empty or zero.
    #[tactic(auto, unfolding(crate::specs::Views::get_last_message_id_values))]
    pub fn new() -> CommandGetLastMessageId
        ensures { get_last_message_id_values result ≡ none_of get_last_message_id }
    {
        CommandGetLastMessageId {
            consumer_id: 0,
            request_id: 0,
        }
    }

    /// A command with the same content.
    pub fn copy(&self) -> Result<CommandGetLastMessageId, NoMemory>
        ensures { IfOk result (λ m. get_last_message_id_values m ≡ get_last_message_id_values self.now) }
    {
        Ok(self.duplicate()?)
    }
}

impl Message for CommandGetLastMessageId {
    ghost shape = { get_last_message_id };

    ghost values = { get_last_message_id_values };

    fn empty(_alloc: Global) -> CommandGetLastMessageId {
        CommandGetLastMessageId::new()
    }

    #[tactic(auto, unfolding(crate::specs::Merge::put, crate::specs::Views::get_last_message_id_values))]
    fn put(&mut self, _alloc: Global, number: u32, value: Value<'_>) -> Result<(), ReadError> {
        match number {
            1 => self.consumer_id = uint64_of(value)?,
            2 => self.request_id = uint64_of(value)?,
            _ => {}
        }
        Ok(())
    }

    #[tactic(auto, unfolding(crate::specs::Row::spelling, crate::specs::Views::get_last_message_id_values))]
    fn write<S: Sink>(&self, out: &mut S) -> Result<(), AllocError> {
        fields!(
            Required(1, &self.consumer_id),
            Required(2, &self.request_id)
        )
        .write(out)
    }

    #[tactic(auto, unfolding(crate::specs::Views::get_last_message_id_values))]
    fn duplicate(&self) -> Result<CommandGetLastMessageId, AllocError> {
        Ok(CommandGetLastMessageId {
            consumer_id: self.consumer_id,
            request_id: self.request_id,
        })
    }

    ghost numbers_differ = { refl };

    ghost equality = { get_last_message_id_equality };
}

/// The id of the last message of a topic.
#[derive(Debug, PartialEq, Eq)]
pub struct CommandGetLastMessageIdResponse {
    pub last_message_id: MessageIdData,
    pub request_id: u64,
}

impl Drop for CommandGetLastMessageIdResponse {
    fn drop(self) {
        let CommandGetLastMessageIdResponse {
            last_message_id: _,
            request_id: _,
        } = self;
    }
}

impl CommandGetLastMessageIdResponse {
    /// The command whose fields are absent, empty or zero.
    #[tactic(auto, unfolding(crate::specs::Views::get_last_message_id_response_values))]
    pub fn new(alloc: Global) -> CommandGetLastMessageIdResponse
        ensures { get_last_message_id_response_values result ≡ none_of get_last_message_id_response }
    {
        CommandGetLastMessageIdResponse {
            last_message_id: MessageIdData::new(alloc),
            request_id: 0,
        }
    }

    /// A command with the same content.
    pub fn copy(&self) -> Result<CommandGetLastMessageIdResponse, NoMemory>
        ensures { IfOk result (λ m. get_last_message_id_response_values m ≡ get_last_message_id_response_values self.now) }
    {
        Ok(self.duplicate()?)
    }
}

impl Message for CommandGetLastMessageIdResponse {
    ghost shape = { get_last_message_id_response };

    ghost values = { get_last_message_id_response_values };

    fn empty(alloc: Global) -> CommandGetLastMessageIdResponse {
        CommandGetLastMessageIdResponse::new(alloc)
    }

    #[tactic(auto, unfolding(crate::specs::Merge::put, crate::specs::Views::get_last_message_id_response_values))]
    fn put(&mut self, alloc: Global, number: u32, value: Value<'_>) -> Result<(), ReadError> {
        match number {
            1 => put_required(&mut self.last_message_id, alloc, value)?,
            2 => self.request_id = uint64_of(value)?,
            _ => {}
        }
        Ok(())
    }

    #[tactic(auto, unfolding(crate::specs::Row::spelling, crate::specs::Views::get_last_message_id_response_values))]
    fn write<S: Sink>(&self, out: &mut S) -> Result<(), AllocError> {
        fields!(
            RequiredMessage(1, &self.last_message_id),
            Required(2, &self.request_id)
        )
        .write(out)
    }

    #[tactic(auto, unfolding(crate::specs::Views::get_last_message_id_response_values))]
    fn duplicate(&self) -> Result<CommandGetLastMessageIdResponse, AllocError> {
        Ok(CommandGetLastMessageIdResponse {
            last_message_id: self.last_message_id.duplicate()?,
            request_id: self.request_id,
        })
    }

    ghost numbers_differ = { refl };

    ghost equality = { get_last_message_id_response_equality };
}

/// Asks what the broker counts of a consumer.
#[derive(Debug, PartialEq, Eq)]
pub struct CommandConsumerStats {
    pub request_id: u64,
    pub consumer_id: u64,
}

impl Drop for CommandConsumerStats {
    fn drop(self) {
        let CommandConsumerStats {
            request_id: _,
            consumer_id: _,
        } = self;
    }
}

impl CommandConsumerStats {
    /// The command whose fields are absent, empty or zero.
    #[tactic(auto, unfolding(crate::specs::Views::consumer_stats_values))]
    pub fn new() -> CommandConsumerStats
        ensures { consumer_stats_values result ≡ none_of consumer_stats }
    {
        CommandConsumerStats {
            request_id: 0,
            consumer_id: 0,
        }
    }

    /// A command with the same content.
    pub fn copy(&self) -> Result<CommandConsumerStats, NoMemory>
        ensures { IfOk result (λ m. consumer_stats_values m ≡ consumer_stats_values self.now) }
    {
        Ok(self.duplicate()?)
    }
}

impl Message for CommandConsumerStats {
    ghost shape = { consumer_stats };

    ghost values = { consumer_stats_values };

    fn empty(_alloc: Global) -> CommandConsumerStats {
        CommandConsumerStats::new()
    }

    #[tactic(auto, unfolding(crate::specs::Merge::put, crate::specs::Views::consumer_stats_values))]
    fn put(&mut self, _alloc: Global, number: u32, value: Value<'_>) -> Result<(), ReadError> {
        match number {
            1 => self.request_id = uint64_of(value)?,
            4 => self.consumer_id = uint64_of(value)?,
            _ => {}
        }
        Ok(())
    }

    #[tactic(auto, unfolding(crate::specs::Row::spelling, crate::specs::Views::consumer_stats_values))]
    fn write<S: Sink>(&self, out: &mut S) -> Result<(), AllocError> {
        fields!(
            Required(1, &self.request_id),
            Required(4, &self.consumer_id)
        )
        .write(out)
    }

    #[tactic(auto, unfolding(crate::specs::Views::consumer_stats_values))]
    fn duplicate(&self) -> Result<CommandConsumerStats, AllocError> {
        Ok(CommandConsumerStats {
            request_id: self.request_id,
            consumer_id: self.consumer_id,
        })
    }

    ghost numbers_differ = { refl };

    ghost equality = { consumer_stats_equality };
}

/// What the broker counts of a consumer.
#[derive(Debug, PartialEq, Eq)]
pub struct CommandConsumerStatsResponse {
    pub request_id: u64,
    /// The number of a `ServerError`.
    pub error_code: Option<i32>,
    pub error_message: Option<String>,
    pub consumer_name: Option<String>,
    pub available_permits: Option<u64>,
    pub unacked_messages: Option<u64>,
    pub blocked_consumer_on_unacked_msgs: Option<bool>,
    pub address: Option<String>,
    pub connected_since: Option<String>,
    pub kind: Option<String>,
    pub msg_backlog: Option<u64>,
}

impl Drop for CommandConsumerStatsResponse {
    fn drop(self) {
        let CommandConsumerStatsResponse {
            request_id: _,
            error_code: _,
            error_message: _,
            consumer_name: _,
            available_permits: _,
            unacked_messages: _,
            blocked_consumer_on_unacked_msgs: _,
            address: _,
            connected_since: _,
            kind: _,
            msg_backlog: _,
        } = self;
    }
}

impl CommandConsumerStatsResponse {
    /// The command whose fields are absent, empty or zero.
    #[tactic(auto, unfolding(crate::specs::Views::consumer_stats_response_values))]
    pub fn new() -> CommandConsumerStatsResponse
        ensures { consumer_stats_response_values result ≡ none_of consumer_stats_response }
    {
        CommandConsumerStatsResponse {
            request_id: 0,
            error_code: None,
            error_message: None,
            consumer_name: None,
            available_permits: None,
            unacked_messages: None,
            blocked_consumer_on_unacked_msgs: None,
            address: None,
            connected_since: None,
            kind: None,
            msg_backlog: None,
        }
    }

    /// A command with the same content.
    pub fn copy(&self) -> Result<CommandConsumerStatsResponse, NoMemory>
        ensures { IfOk result (λ m. consumer_stats_response_values m ≡ consumer_stats_response_values self.now) }
    {
        Ok(self.duplicate()?)
    }
}

impl Message for CommandConsumerStatsResponse {
    ghost shape = { consumer_stats_response };

    ghost values = { consumer_stats_response_values };

    fn empty(_alloc: Global) -> CommandConsumerStatsResponse {
        CommandConsumerStatsResponse::new()
    }

    #[tactic(auto, unfolding(crate::specs::Merge::put, crate::specs::Views::consumer_stats_response_values))]
    fn put(&mut self, alloc: Global, number: u32, value: Value<'_>) -> Result<(), ReadError> {
        match number {
            1 => self.request_id = uint64_of(value)?,
            2 => self.error_code = Some(int32_of(value)?),
            3 => self.error_message = Some(text_of(alloc, value)?),
            7 => self.consumer_name = Some(text_of(alloc, value)?),
            8 => self.available_permits = Some(uint64_of(value)?),
            9 => self.unacked_messages = Some(uint64_of(value)?),
            10 => self.blocked_consumer_on_unacked_msgs = Some(flag_of(value)?),
            11 => self.address = Some(text_of(alloc, value)?),
            12 => self.connected_since = Some(text_of(alloc, value)?),
            13 => self.kind = Some(text_of(alloc, value)?),
            15 => self.msg_backlog = Some(uint64_of(value)?),
            _ => {}
        }
        Ok(())
    }

    #[tactic(auto, unfolding(crate::specs::Row::spelling, crate::specs::Views::consumer_stats_response_values))]
    fn write<S: Sink>(&self, out: &mut S) -> Result<(), AllocError> {
        fields!(
            Required(1, &self.request_id),
            Optional(2, &self.error_code),
            Optional(3, &self.error_message),
            Optional(7, &self.consumer_name),
            Optional(8, &self.available_permits),
            Optional(9, &self.unacked_messages),
            Optional(10, &self.blocked_consumer_on_unacked_msgs),
            Optional(11, &self.address),
            Optional(12, &self.connected_since),
            Optional(13, &self.kind),
            Optional(15, &self.msg_backlog)
        )
        .write(out)
    }

    #[tactic(auto, unfolding(crate::specs::Views::consumer_stats_response_values))]
    fn duplicate(&self) -> Result<CommandConsumerStatsResponse, AllocError> {
        Ok(CommandConsumerStatsResponse {
            request_id: self.request_id,
            error_code: self.error_code,
            error_message: copy_optional(&self.error_message)?,
            consumer_name: copy_optional(&self.consumer_name)?,
            available_permits: self.available_permits,
            unacked_messages: self.unacked_messages,
            blocked_consumer_on_unacked_msgs: self.blocked_consumer_on_unacked_msgs,
            address: copy_optional(&self.address)?,
            connected_since: copy_optional(&self.connected_since)?,
            kind: copy_optional(&self.kind)?,
            msg_backlog: self.msg_backlog,
        })
    }

    ghost numbers_differ = { refl };

    ghost equality = { consumer_stats_response_equality };
}
