//! The commands that ask how many partitions a topic has, and which broker serves it.

ghost use Rattle.std.specs.Prelude.{◌≡◌, refl, string_bytes, IfOk};
ghost use Rattle.std.specs.Option.{option_map};
ghost use Rattle.pulsar_wire.specs.Row.{none_of};
ghost use Rattle.pulsar_wire.specs.Rows.{partition_metadata, partition_metadata_response, lookup_topic, lookup_topic_response};
ghost use Rattle.pulsar_wire.specs.Views.{partition_metadata_values, partition_metadata_response_values, lookup_topic_values, lookup_topic_response_values};
ghost use Rattle.pulsar_wire.specs.Equality.{partition_metadata_equality, partition_metadata_response_equality, lookup_topic_equality, lookup_topic_response_equality};

use crate::encoding::content::{flag_of, int32_of, text_of, uint32_of, uint64_of};
use crate::encoding::copying::copy_optional;
use crate::encoding::field::Value;
use crate::encoding::fields::{Fields, Optional, Required, fields};
use crate::encoding::message::Message;
use crate::encoding::plain::Plain;
use crate::encoding::read_error::ReadError;
use crate::encoding::sink::Sink;
use crate::error::NoMemory;
use std::alloc::{AllocError, Global};

/// Asks how many partitions a topic has.
#[derive(Debug, PartialEq, Eq)]
pub struct CommandPartitionedTopicMetadata {
    pub topic: String,
    pub request_id: u64,
}

impl Drop for CommandPartitionedTopicMetadata {
    fn drop(self) {
        let CommandPartitionedTopicMetadata {
            topic: _,
            request_id: _,
        } = self;
    }
}

impl CommandPartitionedTopicMetadata {
    /// The command whose fields are absent, empty or zero.
    #[tactic(auto, unfolding(crate::specs::Views::partition_metadata_values))]
    pub fn new(alloc: Global) -> CommandPartitionedTopicMetadata
        ensures { partition_metadata_values result ≡ none_of partition_metadata }
    {
        CommandPartitionedTopicMetadata {
            topic: String::new(alloc),
            request_id: 0,
        }
    }

    /// A command with the same content.
    pub fn copy(&self) -> Result<CommandPartitionedTopicMetadata, NoMemory>
        ensures { IfOk result (λ m. partition_metadata_values m ≡ partition_metadata_values self.now) }
    {
        Ok(self.duplicate()?)
    }
}

impl Message for CommandPartitionedTopicMetadata {
    ghost shape = { partition_metadata };

    ghost values = { partition_metadata_values };

    fn empty(alloc: Global) -> CommandPartitionedTopicMetadata {
        CommandPartitionedTopicMetadata::new(alloc)
    }

    #[tactic(auto, unfolding(crate::specs::Merge::put, crate::specs::Views::partition_metadata_values))]
    fn put(&mut self, alloc: Global, number: u32, value: Value<'_>) -> Result<(), ReadError> {
        match number {
            1 => self.topic = text_of(alloc, value)?,
            2 => self.request_id = uint64_of(value)?,
            _ => {}
        }
        Ok(())
    }

    #[tactic(auto, unfolding(crate::specs::Row::spelling, crate::specs::Views::partition_metadata_values))]
    fn write<S: Sink>(&self, out: &mut S) -> Result<(), AllocError> {
        fields!(Required(1, &self.topic), Required(2, &self.request_id)).write(out)
    }

    #[tactic(auto, unfolding(crate::specs::Views::partition_metadata_values))]
    fn duplicate(&self) -> Result<CommandPartitionedTopicMetadata, AllocError> {
        Ok(CommandPartitionedTopicMetadata {
            topic: self.topic.copy()?,
            request_id: self.request_id,
        })
    }

    ghost numbers_differ = { refl };

    ghost equality = { partition_metadata_equality };
}

/// How many partitions a topic has: 0 where it is not partitioned.
#[derive(Debug, PartialEq, Eq)]
pub struct CommandPartitionedTopicMetadataResponse {
    pub partitions: Option<u32>,
    pub request_id: u64,
    /// Success 0, Failed 1.
    pub response: Option<i32>,
    /// The number of a `ServerError`.
    pub error: Option<i32>,
    pub message: Option<String>,
}

impl Drop for CommandPartitionedTopicMetadataResponse {
    fn drop(self) {
        let CommandPartitionedTopicMetadataResponse {
            partitions: _,
            request_id: _,
            response: _,
            error: _,
            message: _,
        } = self;
    }
}

impl CommandPartitionedTopicMetadataResponse {
    /// The command whose fields are absent, empty or zero.
    #[tactic(auto, unfolding(crate::specs::Views::partition_metadata_response_values))]
    pub fn new() -> CommandPartitionedTopicMetadataResponse
        ensures { partition_metadata_response_values result ≡ none_of partition_metadata_response }
    {
        CommandPartitionedTopicMetadataResponse {
            partitions: None,
            request_id: 0,
            response: None,
            error: None,
            message: None,
        }
    }

    /// A command with the same content.
    pub fn copy(&self) -> Result<CommandPartitionedTopicMetadataResponse, NoMemory>
        ensures { IfOk result (λ m. partition_metadata_response_values m ≡ partition_metadata_response_values self.now) }
    {
        Ok(self.duplicate()?)
    }
}

impl Message for CommandPartitionedTopicMetadataResponse {
    ghost shape = { partition_metadata_response };

    ghost values = { partition_metadata_response_values };

    fn empty(_alloc: Global) -> CommandPartitionedTopicMetadataResponse {
        CommandPartitionedTopicMetadataResponse::new()
    }

    #[tactic(auto, unfolding(crate::specs::Merge::put, crate::specs::Views::partition_metadata_response_values))]
    fn put(&mut self, alloc: Global, number: u32, value: Value<'_>) -> Result<(), ReadError> {
        match number {
            1 => self.partitions = Some(uint32_of(value)?),
            2 => self.request_id = uint64_of(value)?,
            3 => self.response = Some(int32_of(value)?),
            4 => self.error = Some(int32_of(value)?),
            5 => self.message = Some(text_of(alloc, value)?),
            _ => {}
        }
        Ok(())
    }

    #[tactic(auto, unfolding(crate::specs::Row::spelling, crate::specs::Views::partition_metadata_response_values))]
    fn write<S: Sink>(&self, out: &mut S) -> Result<(), AllocError> {
        fields!(
            Optional(1, &self.partitions),
            Required(2, &self.request_id),
            Optional(3, &self.response),
            Optional(4, &self.error),
            Optional(5, &self.message)
        )
        .write(out)
    }

    #[tactic(auto, unfolding(crate::specs::Views::partition_metadata_response_values))]
    fn duplicate(&self) -> Result<CommandPartitionedTopicMetadataResponse, AllocError> {
        Ok(CommandPartitionedTopicMetadataResponse {
            partitions: self.partitions,
            request_id: self.request_id,
            response: self.response,
            error: self.error,
            message: copy_optional(&self.message)?,
        })
    }

    ghost numbers_differ = { refl };

    ghost equality = { partition_metadata_response_equality };
}

/// Asks which broker serves a topic.
#[derive(Debug, PartialEq, Eq)]
pub struct CommandLookupTopic {
    pub topic: String,
    pub request_id: u64,
    pub authoritative: Option<bool>,
}

impl Drop for CommandLookupTopic {
    fn drop(self) {
        let CommandLookupTopic {
            topic: _,
            request_id: _,
            authoritative: _,
        } = self;
    }
}

impl CommandLookupTopic {
    /// The command whose fields are absent, empty or zero.
    #[tactic(auto, unfolding(crate::specs::Views::lookup_topic_values))]
    pub fn new(alloc: Global) -> CommandLookupTopic
        ensures { lookup_topic_values result ≡ none_of lookup_topic }
    {
        CommandLookupTopic {
            topic: String::new(alloc),
            request_id: 0,
            authoritative: None,
        }
    }

    /// A command with the same content.
    pub fn copy(&self) -> Result<CommandLookupTopic, NoMemory>
        ensures { IfOk result (λ m. lookup_topic_values m ≡ lookup_topic_values self.now) }
    {
        Ok(self.duplicate()?)
    }
}

impl Message for CommandLookupTopic {
    ghost shape = { lookup_topic };

    ghost values = { lookup_topic_values };

    fn empty(alloc: Global) -> CommandLookupTopic {
        CommandLookupTopic::new(alloc)
    }

    #[tactic(auto, unfolding(crate::specs::Merge::put, crate::specs::Views::lookup_topic_values))]
    fn put(&mut self, alloc: Global, number: u32, value: Value<'_>) -> Result<(), ReadError> {
        match number {
            1 => self.topic = text_of(alloc, value)?,
            2 => self.request_id = uint64_of(value)?,
            3 => self.authoritative = Some(flag_of(value)?),
            _ => {}
        }
        Ok(())
    }

    #[tactic(auto, unfolding(crate::specs::Row::spelling, crate::specs::Views::lookup_topic_values))]
    fn write<S: Sink>(&self, out: &mut S) -> Result<(), AllocError> {
        fields!(
            Required(1, &self.topic),
            Required(2, &self.request_id),
            Optional(3, &self.authoritative)
        )
        .write(out)
    }

    #[tactic(auto, unfolding(crate::specs::Views::lookup_topic_values))]
    fn duplicate(&self) -> Result<CommandLookupTopic, AllocError> {
        Ok(CommandLookupTopic {
            topic: self.topic.copy()?,
            request_id: self.request_id,
            authoritative: self.authoritative,
        })
    }

    ghost numbers_differ = { refl };

    ghost equality = { lookup_topic_equality };
}

/// Which broker serves a topic, or which one to ask.
#[derive(Debug, PartialEq, Eq)]
pub struct CommandLookupTopicResponse {
    pub broker_service_url: Option<String>,
    pub broker_service_url_tls: Option<String>,
    /// Redirect 0, Connect 1, Failed 2.
    pub response: Option<i32>,
    pub request_id: u64,
    pub authoritative: Option<bool>,
    /// The number of a `ServerError`.
    pub error: Option<i32>,
    pub message: Option<String>,
    pub proxy_through_service_url: Option<bool>,
}

impl Drop for CommandLookupTopicResponse {
    fn drop(self) {
        let CommandLookupTopicResponse {
            broker_service_url: _,
            broker_service_url_tls: _,
            response: _,
            request_id: _,
            authoritative: _,
            error: _,
            message: _,
            proxy_through_service_url: _,
        } = self;
    }
}

impl CommandLookupTopicResponse {
    /// The command whose fields are absent, empty or zero.
    #[tactic(auto, unfolding(crate::specs::Views::lookup_topic_response_values))]
    pub fn new() -> CommandLookupTopicResponse
        ensures { lookup_topic_response_values result ≡ none_of lookup_topic_response }
    {
        CommandLookupTopicResponse {
            broker_service_url: None,
            broker_service_url_tls: None,
            response: None,
            request_id: 0,
            authoritative: None,
            error: None,
            message: None,
            proxy_through_service_url: None,
        }
    }

    /// A command with the same content.
    pub fn copy(&self) -> Result<CommandLookupTopicResponse, NoMemory>
        ensures { IfOk result (λ m. lookup_topic_response_values m ≡ lookup_topic_response_values self.now) }
    {
        Ok(self.duplicate()?)
    }
}

impl Message for CommandLookupTopicResponse {
    ghost shape = { lookup_topic_response };

    ghost values = { lookup_topic_response_values };

    fn empty(_alloc: Global) -> CommandLookupTopicResponse {
        CommandLookupTopicResponse::new()
    }

    #[tactic(auto, unfolding(crate::specs::Merge::put, crate::specs::Views::lookup_topic_response_values))]
    fn put(&mut self, alloc: Global, number: u32, value: Value<'_>) -> Result<(), ReadError> {
        match number {
            1 => self.broker_service_url = Some(text_of(alloc, value)?),
            2 => self.broker_service_url_tls = Some(text_of(alloc, value)?),
            3 => self.response = Some(int32_of(value)?),
            4 => self.request_id = uint64_of(value)?,
            5 => self.authoritative = Some(flag_of(value)?),
            6 => self.error = Some(int32_of(value)?),
            7 => self.message = Some(text_of(alloc, value)?),
            8 => self.proxy_through_service_url = Some(flag_of(value)?),
            _ => {}
        }
        Ok(())
    }

    #[tactic(auto, unfolding(crate::specs::Row::spelling, crate::specs::Views::lookup_topic_response_values))]
    fn write<S: Sink>(&self, out: &mut S) -> Result<(), AllocError> {
        fields!(
            Optional(1, &self.broker_service_url),
            Optional(2, &self.broker_service_url_tls),
            Optional(3, &self.response),
            Required(4, &self.request_id),
            Optional(5, &self.authoritative),
            Optional(6, &self.error),
            Optional(7, &self.message),
            Optional(8, &self.proxy_through_service_url)
        )
        .write(out)
    }

    #[tactic(auto, unfolding(crate::specs::Views::lookup_topic_response_values))]
    fn duplicate(&self) -> Result<CommandLookupTopicResponse, AllocError> {
        Ok(CommandLookupTopicResponse {
            broker_service_url: copy_optional(&self.broker_service_url)?,
            broker_service_url_tls: copy_optional(&self.broker_service_url_tls)?,
            response: self.response,
            request_id: self.request_id,
            authoritative: self.authoritative,
            error: self.error,
            message: copy_optional(&self.message)?,
            proxy_through_service_url: self.proxy_through_service_url,
        })
    }

    ghost numbers_differ = { refl };

    ghost equality = { lookup_topic_response_equality };
}
