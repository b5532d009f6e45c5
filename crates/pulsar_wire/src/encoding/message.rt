//! Messages by their rows.

ghost use Rattle.std.specs.Prelude.{◌≡◌, ◌↔◌, IsTrue, ◌++◌, ℕ, List, map, length, OnOk, IsOk, IfOk};
ghost use Rattle.std.specs.Option.{option_map};
ghost use Rattle.pulsar_wire.specs.Row.{Row, Values, Required, Optional, Repeated, items, message_entry, none_of, spelling, reading};
ghost use Rattle.pulsar_wire.specs.Fits.{InRange, IsRow};
ghost use Rattle.pulsar_wire.specs.Merge.{put, put_part, merged};
ghost use Rattle.std.specs.List.{flat_map, AllByRecursion};
ghost use Rattle.pulsar_wire.specs.Sink.{capped, Appends};
ghost use Rattle.pulsar_wire.specs.Shown.{Leaves, Gives, field, shown};

use crate::encoding::content::delimited_of;
use crate::encoding::field::{Value, read_field};
use crate::encoding::plain::push_length;
use crate::encoding::read_error::ReadError;
use crate::encoding::sink::{Count, Sink};
use std::alloc::{AllocError, Global};

/// A message with a row of its own.
pub trait Message: Drop + PartialEq {
    /// Its fields.
    ghost shape: { Row };

    /// Their values.
    ghost values: { Self → Values shape };

    /// The message of no fields.
    fn empty(alloc: Global) -> Self
        ensures { values result ≡ none_of shape };

    /// Takes one more field.
    fn put(&mut self, alloc: Global, number: u32, value: Value<'_>) -> Result<(), ReadError>
        ensures { Leaves result (values self.new) (put shape (values self.old) (field number value.entry)) };

    /// Writes its fields. What is written is in range, since its types hold it.
    fn write<S: Sink>(&self, out: &mut S) -> Result<(), AllocError>
        ensures ok { OnOk result (Appends S.Holds out.old out.new (spelling shape (values self.now))) }
        ensures sure { S.IsSure → IsOk result }
        ensures fits { OnOk result (InRange shape (values self.now)) };

    /// A message with the same content.
    fn duplicate(&self) -> Result<Self, AllocError>
        ensures { IfOk result (λ m. values m ≡ values self.now) };

    /// No two fields have one number.
    ghost numbers_differ: { IsRow shape };

    /// Two messages are equal exactly where the values of all their fields are.
    ghost equality: { (a b : Self) → IsTrue (Self.eq a b) ↔ (values a ≡ values b) };
}

/// Takes the fields that the bytes spell.
pub fn merge<M: Message>(message: &mut M, alloc: Global, bytes: &[u8]) -> Result<(), ReadError>
    ensures { Leaves result (M.values message.new) (merged M.shape (M.values message.old) bytes.now) }
{
    let mut rest = bytes;
    while !rest.is_empty() {
        let Some((number, value, after)) = read_field(rest) else {
            return Err(ReadError::Malformed);
        };
        message.put(alloc, number, value)?;
        rest = after;
    }
    Ok(())
}

/// The message that the bytes spell.
pub fn decode<M: Message>(alloc: Global, bytes: &[u8]) -> Result<M, ReadError>
    ensures { Gives M.values result (reading M.shape bytes.now) }
{
    let mut message = M::empty(alloc);
    merge(&mut message, alloc, bytes)?;
    Ok(message)
}

/// Takes one more part of a message that is required.
pub fn put_required<M: Message>(
    slot: &mut M,
    alloc: Global,
    value: Value<'_>,
) -> Result<(), ReadError>
    ensures { Leaves result (M.values slot.new)
        (put_part Required (put M.shape) (none_of M.shape) (M.values slot.old) (shown value.entry)) }
{
    let Some(bytes) = delimited_of(value) else {
        return Err(ReadError::Malformed);
    };
    merge(slot, alloc, bytes)
}

/// Takes one more part of a message that may be absent.
pub fn put_optional<M: Message>(
    slot: &mut Option<M>,
    alloc: Global,
    value: Value<'_>,
) -> Result<(), ReadError>
    ensures { Leaves result (option_map M.values slot.new)
        (put_part Optional (put M.shape) (none_of M.shape) (option_map M.values slot.old) (shown value.entry)) }
{
    let Some(bytes) = delimited_of(value) else {
        return Err(ReadError::Malformed);
    };
    match slot {
        Some(message) => merge(message, alloc, bytes),
        None => {
            let mut message = M::empty(alloc);
            merge(&mut message, alloc, bytes)?;
            *slot = Some(message);
            Ok(())
        }
    }
}

/// Takes one more message of several.
pub fn put_repeated<M: Message>(
    slot: &mut Vec<M>,
    alloc: Global,
    value: Value<'_>,
) -> Result<(), ReadError>
    ensures { Leaves result (map M.values slot.new.items)
        (put_part Repeated (put M.shape) (none_of M.shape) (map M.values slot.old.items) (shown value.entry)) }
{
    let Some(bytes) = delimited_of(value) else {
        return Err(ReadError::Malformed);
    };
    let mut message = M::empty(alloc);
    merge(&mut message, alloc, bytes)?;
    slot.push(message)?;
    Ok(())
}

/// How many bytes the message takes. It stops at the greatest u64.
pub fn encoded_len<M: Message>(message: &M) -> u64
    ensures { result ≡ capped (length (spelling M.shape (M.values message.now))) }
{
    let mut count = Count { bytes: 0 };
    match message.write(&mut count) {
        Ok(()) => count.bytes,
        Err(_) => unreachable!(),
    }
}

/// Writes the message at the end.
pub fn encode<M: Message>(message: &M, out: &mut Vec<u8>) -> Result<(), AllocError>
    ensures ok { OnOk result (out.new.items ≡ out.old.items ++ spelling M.shape (M.values message.now)) }
    ensures again { OnOk result (reading M.shape (spelling M.shape (M.values message.now))
        ≡ Some (M.values message.now)) }
{
    message.write(out)
}

/// Writes a message behind its key and its length.
pub fn write_message<M: Message, S: Sink>(
    out: &mut S,
    number: u32,
    message: &M,
) -> Result<(), AllocError>
    ensures ok { OnOk result (Appends S.Holds out.old out.new
        (message_entry number (spelling M.shape (M.values message.now)))) }
    ensures sure { S.IsSure → IsOk result }
    ensures fits { OnOk result (InRange M.shape (M.values message.now)) }
{
    let len = encoded_len(message);
    push_length(out, number, len)?;
    message.write(out)
}

/// Writes the messages of a field, one by one.
pub fn write_messages<M: Message, S: Sink>(
    out: &mut S,
    number: u32,
    messages: &[M],
) -> Result<(), AllocError>
    ensures ok { OnOk result (Appends S.Holds out.old out.new
        (flat_map (λ x. message_entry number (spelling M.shape x))
        (items Repeated (map M.values messages.now)))) }
    ensures sure { S.IsSure → IsOk result }
    ensures fits { OnOk result (AllByRecursion (InRange M.shape) (items Repeated (map M.values messages.now))) }
{
    for message in messages {
        write_message(out, number, message)?;
    }
    Ok(())
}
