//! The commands that ask for the topics of a namespace.

ghost use Rattle.std.specs.Prelude.{◌≡◌, refl, map, string_bytes, IfOk};
ghost use Rattle.pulsar_wire.specs.Enumerations.{mode_number};
ghost use Rattle.pulsar_wire.specs.Row.{none_of};
ghost use Rattle.pulsar_wire.specs.Rows.{get_topics_of_namespace, get_topics_of_namespace_response};
ghost use Rattle.pulsar_wire.specs.Views.{get_topics_of_namespace_values, get_topics_of_namespace_response_values};
ghost use Rattle.pulsar_wire.specs.Equality.{get_topics_of_namespace_equality, get_topics_of_namespace_response_equality};

use crate::encoding::content::{int32_of, push_text, text_of, uint64_of};
use crate::encoding::copying::copy_values;
use crate::encoding::field::Value;
use crate::encoding::fields::{Fields, Optional, Repeated, Required, fields};
use crate::encoding::message::Message;
use crate::encoding::plain::Plain;
use crate::encoding::read_error::ReadError;
use crate::encoding::sink::Sink;
use crate::error::NoMemory;
use std::alloc::{AllocError, Global};

/// Which topics of a namespace are asked for.
#[derive(Clone, Copy, Debug, PartialEq, Eq)]
pub enum Mode {
    Persistent,
    NonPersistent,
    All,
}

impl From<Mode> for i32 {
    ghost from_gives = { λ mode n. n ≡ mode_number mode };

    fn from(mode: Mode) -> i32 {
        match mode {
            Mode::Persistent => 0,
            Mode::NonPersistent => 1,
            Mode::All => 2,
        }
    }
}

/// Asks for the topics of a namespace.
#[derive(Debug, PartialEq, Eq)]
pub struct CommandGetTopicsOfNamespace {
    pub request_id: u64,
    pub namespace: String,
    /// The number of a `Mode`.
    pub mode: Option<i32>,
}

impl Drop for CommandGetTopicsOfNamespace {
    fn drop(self) {
        let CommandGetTopicsOfNamespace {
            request_id: _,
            namespace: _,
            mode: _,
        } = self;
    }
}

impl CommandGetTopicsOfNamespace {
    /// The command whose fields are absent, empty or zero.
    #[tactic(auto, unfolding(crate::specs::Views::get_topics_of_namespace_values))]
    pub fn new(alloc: Global) -> CommandGetTopicsOfNamespace
        ensures { get_topics_of_namespace_values result ≡ none_of get_topics_of_namespace }
    {
        CommandGetTopicsOfNamespace {
            request_id: 0,
            namespace: String::new(alloc),
            mode: None,
        }
    }

    /// A command with the same content.
    pub fn copy(&self) -> Result<CommandGetTopicsOfNamespace, NoMemory>
        ensures { IfOk result (λ m. get_topics_of_namespace_values m ≡ get_topics_of_namespace_values self.now) }
    {
        Ok(self.duplicate()?)
    }
}

impl Message for CommandGetTopicsOfNamespace {
    ghost shape = { get_topics_of_namespace };

    ghost values = { get_topics_of_namespace_values };

    fn empty(alloc: Global) -> CommandGetTopicsOfNamespace {
        CommandGetTopicsOfNamespace::new(alloc)
    }

    #[tactic(auto, unfolding(crate::specs::Merge::put, crate::specs::Views::get_topics_of_namespace_values))]
    fn put(&mut self, alloc: Global, number: u32, value: Value<'_>) -> Result<(), ReadError> {
        match number {
            1 => self.request_id = uint64_of(value)?,
            2 => self.namespace = text_of(alloc, value)?,
            3 => self.mode = Some(int32_of(value)?),
            _ => {}
        }
        Ok(())
    }

    #[tactic(auto, unfolding(crate::specs::Row::spelling, crate::specs::Views::get_topics_of_namespace_values))]
    fn write<S: Sink>(&self, out: &mut S) -> Result<(), AllocError> {
        fields!(
            Required(1, &self.request_id),
            Required(2, &self.namespace),
            Optional(3, &self.mode)
        )
        .write(out)
    }

    #[tactic(auto, unfolding(crate::specs::Views::get_topics_of_namespace_values))]
    fn duplicate(&self) -> Result<CommandGetTopicsOfNamespace, AllocError> {
        Ok(CommandGetTopicsOfNamespace {
            request_id: self.request_id,
            namespace: self.namespace.copy()?,
            mode: self.mode,
        })
    }

    ghost numbers_differ = { refl };

    ghost equality = { get_topics_of_namespace_equality };
}

/// The names of the topics of a namespace.
#[derive(Debug, PartialEq, Eq, Drop)]
pub struct CommandGetTopicsOfNamespaceResponse {
    pub request_id: u64,
    pub topics: Vec<String>,
}

impl CommandGetTopicsOfNamespaceResponse {
    /// The command whose fields are absent, empty or zero.
    #[tactic(auto, unfolding(crate::specs::Views::get_topics_of_namespace_response_values))]
    pub fn new(alloc: Global) -> CommandGetTopicsOfNamespaceResponse
        ensures { get_topics_of_namespace_response_values result ≡ none_of get_topics_of_namespace_response }
    {
        CommandGetTopicsOfNamespaceResponse {
            request_id: 0,
            topics: Vec::new(alloc),
        }
    }

    /// A command with the same content.
    pub fn copy(&self) -> Result<CommandGetTopicsOfNamespaceResponse, NoMemory>
        ensures { IfOk result (λ m. get_topics_of_namespace_response_values m ≡ get_topics_of_namespace_response_values self.now) }
    {
        Ok(self.duplicate()?)
    }
}

impl Message for CommandGetTopicsOfNamespaceResponse {
    ghost shape = { get_topics_of_namespace_response };

    ghost values = { get_topics_of_namespace_response_values };

    fn empty(alloc: Global) -> CommandGetTopicsOfNamespaceResponse {
        CommandGetTopicsOfNamespaceResponse::new(alloc)
    }

    #[tactic(auto, unfolding(crate::specs::Merge::put, crate::specs::Views::get_topics_of_namespace_response_values))]
    fn put(&mut self, alloc: Global, number: u32, value: Value<'_>) -> Result<(), ReadError> {
        match number {
            1 => self.request_id = uint64_of(value)?,
            2 => push_text(&mut self.topics, alloc, value)?,
            _ => {}
        }
        Ok(())
    }

    #[tactic(auto, unfolding(crate::specs::Row::spelling, crate::specs::Views::get_topics_of_namespace_response_values))]
    fn write<S: Sink>(&self, out: &mut S) -> Result<(), AllocError> {
        fields!(Required(1, &self.request_id), Repeated(2, &self.topics)).write(out)
    }

    #[tactic(auto, unfolding(crate::specs::Views::get_topics_of_namespace_response_values))]
    fn duplicate(&self) -> Result<CommandGetTopicsOfNamespaceResponse, AllocError> {
        Ok(CommandGetTopicsOfNamespaceResponse {
            request_id: self.request_id,
            topics: copy_values(&self.topics)?,
        })
    }

    ghost numbers_differ = { refl };

    ghost equality = { get_topics_of_namespace_response_equality };
}
