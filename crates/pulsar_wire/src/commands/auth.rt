//! The commands by which a broker asks for a credential again.

ghost use Rattle.std.specs.Prelude.{◌≡◌, refl, string_bytes, IfOk};
ghost use Rattle.std.specs.Option.{option_map};
ghost use Rattle.pulsar_wire.specs.Row.{none_of};
ghost use Rattle.pulsar_wire.specs.Rows.{auth_data, auth_challenge, auth_response};
ghost use Rattle.pulsar_wire.specs.Views.{auth_data_values, auth_challenge_values, auth_response_values};
ghost use Rattle.pulsar_wire.specs.Equality.{auth_data_equality, auth_challenge_equality, auth_response_equality};

use crate::encoding::content::{bytes_of, int32_of, text_of};
use crate::encoding::copying::{copy_message, copy_optional};
use crate::encoding::field::Value;
use crate::encoding::fields::{Fields, Optional, OptionalMessage, fields};
use crate::encoding::message::{Message, put_optional};
use crate::encoding::read_error::ReadError;
use crate::encoding::sink::Sink;
use crate::error::NoMemory;
use std::alloc::{AllocError, Global};

/// A credential, and the method that it is for.
#[derive(Debug, PartialEq, Eq)]
pub struct AuthData {
    pub auth_method_name: Option<String>,
    pub auth_data: Option<Vec<u8>>,
}

impl Drop for AuthData {
    fn drop(self) {
        let AuthData {
            auth_method_name: _,
            auth_data: _,
        } = self;
    }
}

impl AuthData {
    /// The credential whose fields are absent, empty or zero.
    #[tactic(auto, unfolding(crate::specs::Views::auth_data_values))]
    pub fn new() -> AuthData
        ensures { auth_data_values result ≡ none_of auth_data }
    {
        AuthData {
            auth_method_name: None,
            auth_data: None,
        }
    }

    /// A credential with the same content.
    pub fn copy(&self) -> Result<AuthData, NoMemory>
        ensures { IfOk result (λ m. auth_data_values m ≡ auth_data_values self.now) }
    {
        Ok(self.duplicate()?)
    }
}

impl Message for AuthData {
    ghost shape = { auth_data };

    ghost values = { auth_data_values };

    fn empty(_alloc: Global) -> AuthData {
        AuthData::new()
    }

    #[tactic(auto, unfolding(crate::specs::Merge::put, crate::specs::Views::auth_data_values))]
    fn put(&mut self, alloc: Global, number: u32, value: Value<'_>) -> Result<(), ReadError> {
        match number {
            1 => self.auth_method_name = Some(text_of(alloc, value)?),
            2 => self.auth_data = Some(bytes_of(alloc, value)?),
            _ => {}
        }
        Ok(())
    }

    #[tactic(auto, unfolding(crate::specs::Row::spelling, crate::specs::Views::auth_data_values))]
    fn write<S: Sink>(&self, out: &mut S) -> Result<(), AllocError> {
        fields!(
            Optional(1, &self.auth_method_name),
            Optional(2, &self.auth_data)
        )
        .write(out)
    }

    #[tactic(auto, unfolding(crate::specs::Views::auth_data_values))]
    fn duplicate(&self) -> Result<AuthData, AllocError> {
        Ok(AuthData {
            auth_method_name: copy_optional(&self.auth_method_name)?,
            auth_data: copy_optional(&self.auth_data)?,
        })
    }

    ghost numbers_differ = { refl };

    ghost equality = { auth_data_equality };
}

/// The broker asks for a credential.
#[derive(Debug, PartialEq, Eq)]
pub struct CommandAuthChallenge {
    pub server_version: Option<String>,
    pub challenge: Option<AuthData>,
    pub protocol_version: Option<i32>,
}

impl Drop for CommandAuthChallenge {
    fn drop(self) {
        let CommandAuthChallenge {
            server_version: _,
            challenge: _,
            protocol_version: _,
        } = self;
    }
}

impl CommandAuthChallenge {
    /// The command whose fields are absent, empty or zero.
    #[tactic(auto, unfolding(crate::specs::Views::auth_challenge_values))]
    pub fn new() -> CommandAuthChallenge
        ensures { auth_challenge_values result ≡ none_of auth_challenge }
    {
        CommandAuthChallenge {
            server_version: None,
            challenge: None,
            protocol_version: None,
        }
    }

    /// A command with the same content.
    pub fn copy(&self) -> Result<CommandAuthChallenge, NoMemory>
        ensures { IfOk result (λ m. auth_challenge_values m ≡ auth_challenge_values self.now) }
    {
        Ok(self.duplicate()?)
    }
}

impl Message for CommandAuthChallenge {
    ghost shape = { auth_challenge };

    ghost values = { auth_challenge_values };

    fn empty(_alloc: Global) -> CommandAuthChallenge {
        CommandAuthChallenge::new()
    }

    #[tactic(auto, unfolding(crate::specs::Merge::put, crate::specs::Views::auth_challenge_values))]
    fn put(&mut self, alloc: Global, number: u32, value: Value<'_>) -> Result<(), ReadError> {
        match number {
            1 => self.server_version = Some(text_of(alloc, value)?),
            2 => put_optional(&mut self.challenge, alloc, value)?,
            3 => self.protocol_version = Some(int32_of(value)?),
            _ => {}
        }
        Ok(())
    }

    #[tactic(auto, unfolding(crate::specs::Row::spelling, crate::specs::Views::auth_challenge_values))]
    fn write<S: Sink>(&self, out: &mut S) -> Result<(), AllocError> {
        fields!(
            Optional(1, &self.server_version),
            OptionalMessage(2, &self.challenge),
            Optional(3, &self.protocol_version)
        )
        .write(out)
    }

    #[tactic(auto, unfolding(crate::specs::Views::auth_challenge_values))]
    fn duplicate(&self) -> Result<CommandAuthChallenge, AllocError> {
        Ok(CommandAuthChallenge {
            server_version: copy_optional(&self.server_version)?,
            challenge: copy_message(&self.challenge)?,
            protocol_version: self.protocol_version,
        })
    }

    ghost numbers_differ = { refl };

    ghost equality = { auth_challenge_equality };
}

/// The answer to `auth_challenge`.
#[derive(Debug, PartialEq, Eq)]
pub struct CommandAuthResponse {
    pub client_version: Option<String>,
    pub response: Option<AuthData>,
    pub protocol_version: Option<i32>,
}

impl Drop for CommandAuthResponse {
    fn drop(self) {
        let CommandAuthResponse {
            client_version: _,
            response: _,
            protocol_version: _,
        } = self;
    }
}

impl CommandAuthResponse {
    /// The command whose fields are absent, empty or zero.
    #[tactic(auto, unfolding(crate::specs::Views::auth_response_values))]
    pub fn new() -> CommandAuthResponse
        ensures { auth_response_values result ≡ none_of auth_response }
    {
        CommandAuthResponse {
            client_version: None,
            response: None,
            protocol_version: None,
        }
    }

    /// A command with the same content.
    pub fn copy(&self) -> Result<CommandAuthResponse, NoMemory>
        ensures { IfOk result (λ m. auth_response_values m ≡ auth_response_values self.now) }
    {
        Ok(self.duplicate()?)
    }
}

impl Message for CommandAuthResponse {
    ghost shape = { auth_response };

    ghost values = { auth_response_values };

    fn empty(_alloc: Global) -> CommandAuthResponse {
        CommandAuthResponse::new()
    }

    #[tactic(auto, unfolding(crate::specs::Merge::put, crate::specs::Views::auth_response_values))]
    fn put(&mut self, alloc: Global, number: u32, value: Value<'_>) -> Result<(), ReadError> {
        match number {
            1 => self.client_version = Some(text_of(alloc, value)?),
            2 => put_optional(&mut self.response, alloc, value)?,
            3 => self.protocol_version = Some(int32_of(value)?),
            _ => {}
        }
        Ok(())
    }

    #[tactic(auto, unfolding(crate::specs::Row::spelling, crate::specs::Views::auth_response_values))]
    fn write<S: Sink>(&self, out: &mut S) -> Result<(), AllocError> {
        fields!(
            Optional(1, &self.client_version),
            OptionalMessage(2, &self.response),
            Optional(3, &self.protocol_version)
        )
        .write(out)
    }

    #[tactic(auto, unfolding(crate::specs::Views::auth_response_values))]
    fn duplicate(&self) -> Result<CommandAuthResponse, AllocError> {
        Ok(CommandAuthResponse {
            client_version: copy_optional(&self.client_version)?,
            response: copy_message(&self.response)?,
            protocol_version: self.protocol_version,
        })
    }

    ghost numbers_differ = { refl };

    ghost equality = { auth_response_equality };
}
