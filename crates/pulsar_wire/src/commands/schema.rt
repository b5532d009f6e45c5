//! Schemas, and the commands that ask for them.

ghost use Rattle.std.specs.Prelude.{◌≡◌, refl, map, string_bytes, IfOk};
ghost use Rattle.std.specs.Option.{option_map};
ghost use Rattle.pulsar_wire.specs.Row.{none_of};
ghost use Rattle.pulsar_wire.specs.Rows.{schema, get_schema, get_schema_response};
ghost use Rattle.pulsar_wire.specs.Views.{schema_values, get_schema_values, get_schema_response_values, key_value_values};
ghost use Rattle.pulsar_wire.specs.Equality.{schema_equality, get_schema_equality, get_schema_response_equality};

use crate::commands::metadata::KeyValue;
use crate::encoding::content::{bytes_of, int32_of, text_of, uint64_of};
use crate::encoding::copying::{copy_message, copy_messages, copy_optional};
use crate::encoding::field::Value;
use crate::encoding::fields::{
    Fields, Optional, OptionalMessage, RepeatedMessages, Required, fields,
};
use crate::encoding::message::{Message, put_optional, put_repeated};
use crate::encoding::plain::Plain;
use crate::encoding::read_error::ReadError;
use crate::encoding::sink::Sink;
use crate::error::NoMemory;
use std::alloc::{AllocError, Global};

/// What the payloads of a topic are made of.
#[derive(Debug, PartialEq, Eq)]
pub struct Schema {
    pub name: String,
    pub schema_data: Vec<u8>,
    pub kind: i32,
    pub properties: Vec<KeyValue>,
}

impl Drop for Schema {
    fn drop(self) {
        let Schema {
            name: _,
            schema_data: _,
            kind: _,
            properties: _,
        } = self;
    }
}

impl Schema {
    /// The schema whose fields are absent, empty or zero.
    #[tactic(auto, unfolding(crate::specs::Views::schema_values))]
    pub fn new(alloc: Global) -> Schema
        ensures { schema_values result ≡ none_of schema }
    {
        Schema {
            name: String::new(alloc),
            schema_data: Vec::new(alloc),
            kind: 0,
            properties: Vec::new(alloc),
        }
    }

    /// A schema with the same content.
    pub fn copy(&self) -> Result<Schema, NoMemory>
        ensures { IfOk result (λ m. schema_values m ≡ schema_values self.now) }
    {
        Ok(self.duplicate()?)
    }
}

impl Message for Schema {
    ghost shape = { schema };

    ghost values = { schema_values };

    fn empty(alloc: Global) -> Schema {
        Schema::new(alloc)
    }

    #[tactic(auto, unfolding(crate::specs::Merge::put, crate::specs::Views::schema_values))]
    fn put(&mut self, alloc: Global, number: u32, value: Value<'_>) -> Result<(), ReadError> {
        match number {
            1 => self.name = text_of(alloc, value)?,
            3 => self.schema_data = bytes_of(alloc, value)?,
            4 => self.kind = int32_of(value)?,
            5 => put_repeated(&mut self.properties, alloc, value)?,
            _ => {}
        }
        Ok(())
    }

    #[tactic(auto, unfolding(crate::specs::Row::spelling, crate::specs::Views::schema_values))]
    fn write<S: Sink>(&self, out: &mut S) -> Result<(), AllocError> {
        fields!(
            Required(1, &self.name),
            Required(3, &self.schema_data),
            Required(4, &self.kind),
            RepeatedMessages(5, &self.properties)
        )
        .write(out)
    }

    #[tactic(auto, unfolding(crate::specs::Views::schema_values))]
    fn duplicate(&self) -> Result<Schema, AllocError> {
        Ok(Schema {
            name: self.name.copy()?,
            schema_data: self.schema_data.copy()?,
            kind: self.kind,
            properties: copy_messages(&self.properties)?,
        })
    }

    ghost numbers_differ = { refl };

    ghost equality = { schema_equality };
}

/// Asks for the schema of a topic.
#[derive(Debug, PartialEq, Eq)]
pub struct CommandGetSchema {
    pub request_id: u64,
    pub topic: String,
    pub schema_version: Option<Vec<u8>>,
}

impl Drop for CommandGetSchema {
    fn drop(self) {
        let CommandGetSchema {
            request_id: _,
            topic: _,
            schema_version: _,
        } = self;
    }
}

impl CommandGetSchema {
    /// The command whose fields are absent, empty or zero.
    #[tactic(auto, unfolding(crate::specs::Views::get_schema_values))]
    pub fn new(alloc: Global) -> CommandGetSchema
        ensures { get_schema_values result ≡ none_of get_schema }
    {
        CommandGetSchema {
            request_id: 0,
            topic: String::new(alloc),
            schema_version: None,
        }
    }

    /// A command with the same content.
    pub fn copy(&self) -> Result<CommandGetSchema, NoMemory>
        ensures { IfOk result (λ m. get_schema_values m ≡ get_schema_values self.now) }
    {
        Ok(self.duplicate()?)
    }
}

impl Message for CommandGetSchema {
    ghost shape = { get_schema };

    ghost values = { get_schema_values };

    fn empty(alloc: Global) -> CommandGetSchema {
        CommandGetSchema::new(alloc)
    }

    #[tactic(auto, unfolding(crate::specs::Merge::put, crate::specs::Views::get_schema_values))]
    fn put(&mut self, alloc: Global, number: u32, value: Value<'_>) -> Result<(), ReadError> {
        match number {
            1 => self.request_id = uint64_of(value)?,
            2 => self.topic = text_of(alloc, value)?,
            3 => self.schema_version = Some(bytes_of(alloc, value)?),
            _ => {}
        }
        Ok(())
    }

    #[tactic(auto, unfolding(crate::specs::Row::spelling, crate::specs::Views::get_schema_values))]
    fn write<S: Sink>(&self, out: &mut S) -> Result<(), AllocError> {
        fields!(
            Required(1, &self.request_id),
            Required(2, &self.topic),
            Optional(3, &self.schema_version)
        )
        .write(out)
    }

    #[tactic(auto, unfolding(crate::specs::Views::get_schema_values))]
    fn duplicate(&self) -> Result<CommandGetSchema, AllocError> {
        Ok(CommandGetSchema {
            request_id: self.request_id,
            topic: self.topic.copy()?,
            schema_version: copy_optional(&self.schema_version)?,
        })
    }

    ghost numbers_differ = { refl };

    ghost equality = { get_schema_equality };
}

/// The schema of a topic, and its version.
#[derive(Debug, PartialEq, Eq)]
pub struct CommandGetSchemaResponse {
    pub request_id: u64,
    /// The number of a `ServerError`.
    pub error_code: Option<i32>,
    pub error_message: Option<String>,
    pub schema: Option<Schema>,
    pub schema_version: Option<Vec<u8>>,
}

impl Drop for CommandGetSchemaResponse {
    fn drop(self) {
        let CommandGetSchemaResponse {
            request_id: _,
            error_code: _,
            error_message: _,
            schema: _,
            schema_version: _,
        } = self;
    }
}

impl CommandGetSchemaResponse {
    /// The command whose fields are absent, empty or zero.
    #[tactic(auto, unfolding(crate::specs::Views::get_schema_response_values))]
    pub fn new() -> CommandGetSchemaResponse
        ensures { get_schema_response_values result ≡ none_of get_schema_response }
    {
        CommandGetSchemaResponse {
            request_id: 0,
            error_code: None,
            error_message: None,
            schema: None,
            schema_version: None,
        }
    }

    /// A command with the same content.
    pub fn copy(&self) -> Result<CommandGetSchemaResponse, NoMemory>
        ensures { IfOk result (λ m. get_schema_response_values m ≡ get_schema_response_values self.now) }
    {
        Ok(self.duplicate()?)
    }
}

impl Message for CommandGetSchemaResponse {
    ghost shape = { get_schema_response };

    ghost values = { get_schema_response_values };

    fn empty(_alloc: Global) -> CommandGetSchemaResponse {
        CommandGetSchemaResponse::new()
    }

    #[tactic(auto, unfolding(crate::specs::Merge::put, crate::specs::Views::get_schema_response_values))]
    fn put(&mut self, alloc: Global, number: u32, value: Value<'_>) -> Result<(), ReadError> {
        match number {
            1 => self.request_id = uint64_of(value)?,
            2 => self.error_code = Some(int32_of(value)?),
            3 => self.error_message = Some(text_of(alloc, value)?),
            4 => put_optional(&mut self.schema, alloc, value)?,
            5 => self.schema_version = Some(bytes_of(alloc, value)?),
            _ => {}
        }
        Ok(())
    }

    #[tactic(auto, unfolding(crate::specs::Row::spelling, crate::specs::Views::get_schema_response_values))]
    fn write<S: Sink>(&self, out: &mut S) -> Result<(), AllocError> {
        fields!(
            Required(1, &self.request_id),
            Optional(2, &self.error_code),
            Optional(3, &self.error_message),
            OptionalMessage(4, &self.schema),
            Optional(5, &self.schema_version)
        )
        .write(out)
    }

    #[tactic(auto, unfolding(crate::specs::Views::get_schema_response_values))]
    fn duplicate(&self) -> Result<CommandGetSchemaResponse, AllocError> {
        Ok(CommandGetSchemaResponse {
            request_id: self.request_id,
            error_code: self.error_code,
            error_message: copy_optional(&self.error_message)?,
            schema: copy_message(&self.schema)?,
            schema_version: copy_optional(&self.schema_version)?,
        })
    }

    ghost numbers_differ = { refl };

    ghost equality = { get_schema_response_equality };
}
