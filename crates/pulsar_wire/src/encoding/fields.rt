//! The fields of a message, as they are written one behind the other.

ghost use Rattle.std.specs.Prelude.{◌≡◌, ℕ, List, [], ◌++◌, map, OnOk, IsOk, FitsSigned};
ghost use Rattle.std.specs.Option.{option_map};
ghost use Rattle.std.specs.List.{flat_map, AllByRecursion};
ghost use Rattle.std.specs.Int.{w64};
ghost use Rattle.pulsar_wire.specs.Row as row;
ghost use Rattle.pulsar_wire.specs.Row.{Int64, entry, items, message_entry, spelling};
ghost use Rattle.pulsar_wire.specs.Fits.{FitsContent, InRange};
ghost use Rattle.pulsar_wire.specs.Sink.{Appends};

use crate::encoding::message::{Message, write_message, write_messages};
use crate::encoding::plain::{Plain, write_numbers, write_values};
use crate::encoding::sink::Sink;
use std::alloc::AllocError;

/// What is written of a message: a field, or several.
pub trait Fields {
    /// Their bytes.
    ghost bytes: { Self → List ℕ };

    /// Their values are in range.
    ghost AreInRange: { Self → Type 0 };

    fn write<S: Sink>(&self, out: &mut S) -> Result<(), AllocError>
        ensures ok { OnOk result (Appends S.Holds out.old out.new (bytes self.now)) }
        ensures sure { S.IsSure → IsOk result }
        ensures fits { OnOk result (AreInRange self.now) };
}

/// The fields, one behind the other.
macro_rules! fields {
    () => { () };
    ($first:expr $(, $other:expr)*) => { ($first, fields!($($other),*)) };
}

pub(crate) use fields;

impl Fields for () {
    ghost bytes = { λ _. [] };

    ghost AreInRange = { λ _. Unit {0} };

    fn write<S: Sink>(&self, _out: &mut S) -> Result<(), AllocError> {
        Ok(())
    }
}

impl<A: Fields, B: Fields> Fields for (A, B) {
    ghost bytes = { λ p. A.bytes p.0 ++ B.bytes p.1 };

    ghost AreInRange = { λ p. A.AreInRange p.0 × B.AreInRange p.1 };

    fn write<S: Sink>(&self, out: &mut S) -> Result<(), AllocError> {
        self.0.write(out)?;
        self.1.write(out)?;
        Ok(())
    }
}

/// A field of this number that always holds a value.
#[derive(Clone, Copy)]
pub struct Required<'a, P>(pub u32, pub &'a P);

impl<P: Plain> Fields for Required<'_, P> {
    ghost bytes = { λ f. flat_map (entry f.0 P.kind) (items row.Required (P.content_of f.1.now)) };

    ghost AreInRange = { λ f. AllByRecursion (FitsContent P.kind) (items row.Required (P.content_of f.1.now)) };

    fn write<S: Sink>(&self, out: &mut S) -> Result<(), AllocError> {
        self.1.write(out, self.0)
    }
}

/// A field of this number that may hold a value.
#[derive(Clone, Copy)]
pub struct Optional<'a, P>(pub u32, pub &'a Option<P>);

impl<P: Plain> Fields for Optional<'_, P> {
    ghost bytes = { λ f. flat_map (entry f.0 P.kind) (items row.Optional (P.held f.1.now)) };

    ghost AreInRange = { λ f. AllByRecursion (FitsContent P.kind) (items row.Optional (P.held f.1.now)) };

    fn write<S: Sink>(&self, out: &mut S) -> Result<(), AllocError> {
        match self.1 {
            Some(value) => value.write(out, self.0),
            None => Ok(()),
        }
    }
}

/// A field of this number that holds any number of values.
#[derive(Clone, Copy)]
pub struct Repeated<'a, P>(pub u32, pub &'a Vec<P>);

impl<P: Plain> Fields for Repeated<'_, P> {
    ghost bytes = { λ f. flat_map (entry f.0 P.kind) (items row.Repeated (map P.content_of f.1.now.items)) };

    ghost AreInRange = { λ f. AllByRecursion (FitsContent P.kind) (items row.Repeated (map P.content_of f.1.now.items)) };

    fn write<S: Sink>(&self, out: &mut S) -> Result<(), AllocError> {
        write_values(out, self.0, self.1)
    }
}

/// A field of this number that holds any number of 64-bit numbers, each written by itself.
#[derive(Clone, Copy)]
pub struct Numbers<'a>(pub u32, pub &'a Vec<i64>);

impl Fields for Numbers<'_> {
    ghost bytes = { λ f. flat_map (entry f.0 Int64) f.1.now.items };

    ghost AreInRange = { λ f. AllByRecursion (FitsSigned w64) f.1.now.items };

    fn write<S: Sink>(&self, out: &mut S) -> Result<(), AllocError> {
        write_numbers(out, self.0, self.1)
    }
}

/// A field of this number that always holds a message.
#[derive(Clone, Copy)]
pub struct RequiredMessage<'a, M>(pub u32, pub &'a M);

impl<M: Message> Fields for RequiredMessage<'_, M> {
    ghost bytes = { λ f. flat_map (λ x. message_entry f.0 (spelling M.shape x)) (items row.Required (M.values f.1.now)) };

    ghost AreInRange = { λ f. AllByRecursion (InRange M.shape) (items row.Required (M.values f.1.now)) };

    fn write<S: Sink>(&self, out: &mut S) -> Result<(), AllocError> {
        write_message(out, self.0, self.1)
    }
}

/// A field of this number that may hold a message.
#[derive(Clone, Copy)]
pub struct OptionalMessage<'a, M>(pub u32, pub &'a Option<M>);

impl<M: Message> Fields for OptionalMessage<'_, M> {
    ghost bytes = { λ f. flat_map (λ x. message_entry f.0 (spelling M.shape x)) (items row.Optional (option_map M.values f.1.now)) };

    ghost AreInRange = { λ f. AllByRecursion (InRange M.shape) (items row.Optional (option_map M.values f.1.now)) };

    fn write<S: Sink>(&self, out: &mut S) -> Result<(), AllocError> {
        match self.1 {
            Some(message) => write_message(out, self.0, message),
            None => Ok(()),
        }
    }
}

/// A field of this number that holds any number of messages.
#[derive(Clone, Copy)]
pub struct RepeatedMessages<'a, M>(pub u32, pub &'a Vec<M>);

impl<M: Message> Fields for RepeatedMessages<'_, M> {
    ghost bytes = { λ f. flat_map (λ x. message_entry f.0 (spelling M.shape x)) (items row.Repeated (map M.values f.1.now.items)) };

    ghost AreInRange = { λ f. AllByRecursion (InRange M.shape) (items row.Repeated (map M.values f.1.now.items)) };

    fn write<S: Sink>(&self, out: &mut S) -> Result<(), AllocError> {
        write_messages(out, self.0, self.1)
    }
}
