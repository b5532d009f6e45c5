//! The commands that open a connection and keep it, and the answers that say no more than that.

ghost use Rattle.std.specs.Prelude.{◌≡◌, refl, string_bytes, codes, IfOk};
ghost use Rattle.std.specs.Option.{option_map};
ghost use Rattle.pulsar_wire.specs.Row.{none_of};
ghost use Rattle.pulsar_wire.specs.Rows.{connect, connected, ping, pong, success, error};
ghost use Rattle.pulsar_wire.specs.Views.{connect_values, connected_values, ping_values, pong_values, success_values, error_values, schema_values};
ghost use Rattle.pulsar_wire.specs.Equality.{connect_equality, connected_equality, ping_equality, pong_equality, success_equality, error_equality};

use crate::commands::schema::Schema;
use crate::encoding::content::{bytes_of, int32_of, text_of, uint64_of};
use crate::encoding::copying::{copy_message, copy_optional};
use crate::encoding::field::Value;
use crate::encoding::fields::{Fields, Optional, OptionalMessage, Required, fields};
use crate::encoding::message::{Message, put_optional};
use crate::encoding::plain::Plain;
use crate::encoding::read_error::ReadError;
use crate::encoding::sink::Sink;
use crate::error::NoMemory;
use std::alloc::{AllocError, Global};

/// How this client names itself and its version to a broker.
pub fn client_version(alloc: Global) -> Result<String, NoMemory>
    ensures { IfOk result (λ s. string_bytes s ≡ codes "pulsar-rs-v6.7.2") }
{
    Ok(String::from_str(alloc, "pulsar-rs-v6.7.2")?)
}

/// What a client says first on a connection.
#[derive(Debug, PartialEq, Eq)]
pub struct CommandConnect {
    /// How the client names itself.
    pub client_version: String,
    pub auth_data: Option<Vec<u8>>,
    pub protocol_version: Option<i32>,
    pub auth_method_name: Option<String>,
    pub proxy_to_broker_url: Option<String>,
}

impl Drop for CommandConnect {
    fn drop(self) {
        let CommandConnect {
            client_version: _,
            auth_data: _,
            protocol_version: _,
            auth_method_name: _,
            proxy_to_broker_url: _,
        } = self;
    }
}

impl CommandConnect {
    /// The command whose fields are absent, empty or zero.
    #[tactic(auto, unfolding(crate::specs::Views::connect_values))]
    pub fn new(alloc: Global) -> CommandConnect
        ensures { connect_values result ≡ none_of connect }
    {
        CommandConnect {
            client_version: String::new(alloc),
            auth_data: None,
            protocol_version: None,
            auth_method_name: None,
            proxy_to_broker_url: None,
        }
    }

    /// A command with the same content.
    pub fn copy(&self) -> Result<CommandConnect, NoMemory>
        ensures { IfOk result (λ m. connect_values m ≡ connect_values self.now) }
    {
        Ok(self.duplicate()?)
    }
}

impl Message for CommandConnect {
    ghost shape = { connect };

    ghost values = { connect_values };

    fn empty(alloc: Global) -> CommandConnect {
        CommandConnect::new(alloc)
    }

    #[tactic(auto, unfolding(crate::specs::Merge::put, crate::specs::Views::connect_values))]
    fn put(&mut self, alloc: Global, number: u32, value: Value<'_>) -> Result<(), ReadError> {
        match number {
            1 => self.client_version = text_of(alloc, value)?,
            3 => self.auth_data = Some(bytes_of(alloc, value)?),
            4 => self.protocol_version = Some(int32_of(value)?),
            5 => self.auth_method_name = Some(text_of(alloc, value)?),
            6 => self.proxy_to_broker_url = Some(text_of(alloc, value)?),
            _ => {}
        }
        Ok(())
    }

    #[tactic(auto, unfolding(crate::specs::Row::spelling, crate::specs::Views::connect_values))]
    fn write<S: Sink>(&self, out: &mut S) -> Result<(), AllocError> {
        fields!(
            Required(1, &self.client_version),
            Optional(3, &self.auth_data),
            Optional(4, &self.protocol_version),
            Optional(5, &self.auth_method_name),
            Optional(6, &self.proxy_to_broker_url)
        )
        .write(out)
    }

    #[tactic(auto, unfolding(crate::specs::Views::connect_values))]
    fn duplicate(&self) -> Result<CommandConnect, AllocError> {
        Ok(CommandConnect {
            client_version: self.client_version.copy()?,
            auth_data: copy_optional(&self.auth_data)?,
            protocol_version: self.protocol_version,
            auth_method_name: copy_optional(&self.auth_method_name)?,
            proxy_to_broker_url: copy_optional(&self.proxy_to_broker_url)?,
        })
    }

    ghost numbers_differ = { refl };

    ghost equality = { connect_equality };
}

/// The broker's answer to `connect`.
#[derive(Debug, PartialEq, Eq)]
pub struct CommandConnected {
    pub server_version: String,
    pub protocol_version: Option<i32>,
    /// The greatest size of a message that the broker takes, in bytes.
    pub max_message_size: Option<i32>,
}

impl Drop for CommandConnected {
    fn drop(self) {
        let CommandConnected {
            server_version: _,
            protocol_version: _,
            max_message_size: _,
        } = self;
    }
}

impl CommandConnected {
    /// The command whose fields are absent, empty or zero.
    #[tactic(auto, unfolding(crate::specs::Views::connected_values))]
    pub fn new(alloc: Global) -> CommandConnected
        ensures { connected_values result ≡ none_of connected }
    {
        CommandConnected {
            server_version: String::new(alloc),
            protocol_version: None,
            max_message_size: None,
        }
    }

    /// A command with the same content.
    pub fn copy(&self) -> Result<CommandConnected, NoMemory>
        ensures { IfOk result (λ m. connected_values m ≡ connected_values self.now) }
    {
        Ok(self.duplicate()?)
    }
}

impl Message for CommandConnected {
    ghost shape = { connected };

    ghost values = { connected_values };

    fn empty(alloc: Global) -> CommandConnected {
        CommandConnected::new(alloc)
    }

    #[tactic(auto, unfolding(crate::specs::Merge::put, crate::specs::Views::connected_values))]
    fn put(&mut self, alloc: Global, number: u32, value: Value<'_>) -> Result<(), ReadError> {
        match number {
            1 => self.server_version = text_of(alloc, value)?,
            2 => self.protocol_version = Some(int32_of(value)?),
            3 => self.max_message_size = Some(int32_of(value)?),
            _ => {}
        }
        Ok(())
    }

    #[tactic(auto, unfolding(crate::specs::Row::spelling, crate::specs::Views::connected_values))]
    fn write<S: Sink>(&self, out: &mut S) -> Result<(), AllocError> {
        fields!(
            Required(1, &self.server_version),
            Optional(2, &self.protocol_version),
            Optional(3, &self.max_message_size)
        )
        .write(out)
    }

    #[tactic(auto, unfolding(crate::specs::Views::connected_values))]
    fn duplicate(&self) -> Result<CommandConnected, AllocError> {
        Ok(CommandConnected {
            server_version: self.server_version.copy()?,
            protocol_version: self.protocol_version,
            max_message_size: self.max_message_size,
        })
    }

    ghost numbers_differ = { refl };

    ghost equality = { connected_equality };
}

/// Asks the other side whether it is there.
#[derive(Debug, PartialEq, Eq, Drop)]
pub struct CommandPing;

impl CommandPing {
    /// The command, which has no fields.
    #[tactic(auto, unfolding(crate::specs::Views::ping_values))]
    pub fn new() -> CommandPing
        ensures { ping_values result ≡ none_of ping }
    {
        CommandPing
    }

    /// A command with the same content.
    pub fn copy(&self) -> Result<CommandPing, NoMemory>
        ensures { IfOk result (λ m. ping_values m ≡ ping_values self.now) }
    {
        Ok(self.duplicate()?)
    }
}

impl Message for CommandPing {
    ghost shape = { ping };

    ghost values = { ping_values };

    fn empty(_alloc: Global) -> CommandPing {
        CommandPing::new()
    }

    #[tactic(auto, unfolding(crate::specs::Merge::put, crate::specs::Views::ping_values))]
    fn put(&mut self, _alloc: Global, _number: u32, _value: Value<'_>) -> Result<(), ReadError> {
        Ok(())
    }

    #[tactic(auto, unfolding(crate::specs::Row::spelling, crate::specs::Views::ping_values))]
    fn write<S: Sink>(&self, _out: &mut S) -> Result<(), AllocError> {
        Ok(())
    }

    #[tactic(auto, unfolding(crate::specs::Views::ping_values))]
    fn duplicate(&self) -> Result<CommandPing, AllocError> {
        Ok(CommandPing)
    }

    ghost numbers_differ = { refl };

    ghost equality = { ping_equality };
}

/// The answer to `ping`.
#[derive(Debug, PartialEq, Eq, Drop)]
pub struct CommandPong;

impl CommandPong {
    /// The command, which has no fields.
    #[tactic(auto, unfolding(crate::specs::Views::pong_values))]
    pub fn new() -> CommandPong
        ensures { pong_values result ≡ none_of pong }
    {
        CommandPong
    }

    /// A command with the same content.
    pub fn copy(&self) -> Result<CommandPong, NoMemory>
        ensures { IfOk result (λ m. pong_values m ≡ pong_values self.now) }
    {
        Ok(self.duplicate()?)
    }
}

impl Message for CommandPong {
    ghost shape = { pong };

    ghost values = { pong_values };

    fn empty(_alloc: Global) -> CommandPong {
        CommandPong::new()
    }

    #[tactic(auto, unfolding(crate::specs::Merge::put, crate::specs::Views::pong_values))]
    fn put(&mut self, _alloc: Global, _number: u32, _value: Value<'_>) -> Result<(), ReadError> {
        Ok(())
    }

    #[tactic(auto, unfolding(crate::specs::Row::spelling, crate::specs::Views::pong_values))]
    fn write<S: Sink>(&self, _out: &mut S) -> Result<(), AllocError> {
        Ok(())
    }

    #[tactic(auto, unfolding(crate::specs::Views::pong_values))]
    fn duplicate(&self) -> Result<CommandPong, AllocError> {
        Ok(CommandPong)
    }

    ghost numbers_differ = { refl };

    ghost equality = { pong_equality };
}

/// A request was done.
#[derive(Debug, PartialEq, Eq)]
pub struct CommandSuccess {
    pub request_id: u64,
    pub schema: Option<Schema>,
}

impl Drop for CommandSuccess {
    fn drop(self) {
        let CommandSuccess {
            request_id: _,
            schema: _,
        } = self;
    }
}

impl CommandSuccess {
    /// The command whose fields are absent, empty or zero.
    #[tactic(auto, unfolding(crate::specs::Views::success_values))]
    pub fn new() -> CommandSuccess
        ensures { success_values result ≡ none_of success }
    {
        CommandSuccess {
            request_id: 0,
            schema: None,
        }
    }

    /// A command with the same content.
    pub fn copy(&self) -> Result<CommandSuccess, NoMemory>
        ensures { IfOk result (λ m. success_values m ≡ success_values self.now) }
    {
        Ok(self.duplicate()?)
    }
}

impl Message for CommandSuccess {
    ghost shape = { success };

    ghost values = { success_values };

    fn empty(_alloc: Global) -> CommandSuccess {
        CommandSuccess::new()
    }

    #[tactic(auto, unfolding(crate::specs::Merge::put, crate::specs::Views::success_values))]
    fn put(&mut self, alloc: Global, number: u32, value: Value<'_>) -> Result<(), ReadError> {
        match number {
            1 => self.request_id = uint64_of(value)?,
            2 => put_optional(&mut self.schema, alloc, value)?,
            _ => {}
        }
        Ok(())
    }

    #[tactic(auto, unfolding(crate::specs::Row::spelling, crate::specs::Views::success_values))]
    fn write<S: Sink>(&self, out: &mut S) -> Result<(), AllocError> {
        fields!(
            Required(1, &self.request_id),
            OptionalMessage(2, &self.schema)
        )
        .write(out)
    }

    #[tactic(auto, unfolding(crate::specs::Views::success_values))]
    fn duplicate(&self) -> Result<CommandSuccess, AllocError> {
        Ok(CommandSuccess {
            request_id: self.request_id,
            schema: copy_message(&self.schema)?,
        })
    }

    ghost numbers_differ = { refl };

    ghost equality = { success_equality };
}

/// A request failed.
#[derive(Debug, PartialEq, Eq)]
pub struct CommandError {
    pub request_id: u64,
    /// The number of a `ServerError`.
    pub error: i32,
    pub message: String,
}

impl Drop for CommandError {
    fn drop(self) {
        let CommandError {
            request_id: _,
            error: _,
            message: _,
        } = self;
    }
}

impl CommandError {
    /// The command whose fields are absent, empty or zero.
    #[tactic(auto, unfolding(crate::specs::Views::error_values))]
    pub fn new(alloc: Global) -> CommandError
        ensures { error_values result ≡ none_of error }
    {
        CommandError {
            request_id: 0,
            error: 0,
            message: String::new(alloc),
        }
    }

    /// A command with the same content.
    pub fn copy(&self) -> Result<CommandError, NoMemory>
        ensures { IfOk result (λ m. error_values m ≡ error_values self.now) }
    {
        Ok(self.duplicate()?)
    }
}

impl Message for CommandError {
    ghost shape = { error };

    ghost values = { error_values };

    fn empty(alloc: Global) -> CommandError {
        CommandError::new(alloc)
    }

    #[tactic(auto, unfolding(crate::specs::Merge::put, crate::specs::Views::error_values))]
    fn put(&mut self, alloc: Global, number: u32, value: Value<'_>) -> Result<(), ReadError> {
        match number {
            1 => self.request_id = uint64_of(value)?,
            2 => self.error = int32_of(value)?,
            3 => self.message = text_of(alloc, value)?,
            _ => {}
        }
        Ok(())
    }

    #[tactic(auto, unfolding(crate::specs::Row::spelling, crate::specs::Views::error_values))]
    fn write<S: Sink>(&self, out: &mut S) -> Result<(), AllocError> {
        fields!(
            Required(1, &self.request_id),
            Required(2, &self.error),
            Required(3, &self.message)
        )
        .write(out)
    }

    #[tactic(auto, unfolding(crate::specs::Views::error_values))]
    fn duplicate(&self) -> Result<CommandError, AllocError> {
        Ok(CommandError {
            request_id: self.request_id,
            error: self.error,
            message: self.message.copy()?,
        })
    }

    ghost numbers_differ = { refl };

    ghost equality = { error_equality };
}
