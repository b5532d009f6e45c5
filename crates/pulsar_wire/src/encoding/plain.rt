//! Values that are written as they are.

ghost use Rattle.std.specs.Prelude.{◌≡◌, ℕ, List, ◌++◌, ◌+◌, ◌*◌, map, length, OnOk, IsOk, IfOk, Option, refl, string_bytes, FitsSigned};
ghost use Rattle.std.specs.Option.{option_map};
ghost use Rattle.std.specs.List.{flat_map, AllByRecursion};
ghost use Rattle.std.specs.Int.{w64};
ghost use Rattle.pulsar_wire.specs.Row.{Kind, Text, Bytes, Uint32, Uint64, Int32, Int64, Flag, Required, Optional, Repeated, Content, items, varint, key, with_length, entry};
ghost use Rattle.pulsar_wire.specs.Fits.{FitsContent};
ghost use Rattle.pulsar_wire.specs.Sink.{Appends};
ghost use Rattle.pulsar_wire.specs.Written.{held_alike};

use crate::encoding::sink::{Sink, push_varint};
use std::alloc::AllocError;

/// Writes a number behind its key.
fn push_number<S: Sink>(out: &mut S, number: u32, value: u64) -> Result<(), AllocError>
    ensures ok { OnOk result (Appends S.Holds out.old out.new (key number 0 ++ varint value)) }
    ensures sure { S.IsSure → IsOk result }
{
    push_varint(out, u64::from(number) * 8)?;
    push_varint(out, value)
}

/// Writes a key and a length. Bytes of this length follow.
pub fn push_length<S: Sink>(out: &mut S, number: u32, len: u64) -> Result<(), AllocError>
    ensures ok { OnOk result (Appends S.Holds out.old out.new (key number 2 ++ varint len)) }
    ensures sure { S.IsSure → IsOk result }
{
    push_varint(out, u64::from(number) * 8 + 2)?;
    push_varint(out, len)
}

/// Writes bytes behind a key and their length.
fn push_delimited<S: Sink>(out: &mut S, number: u32, bytes: &[u8]) -> Result<(), AllocError>
    ensures ok { OnOk result (Appends S.Holds out.old out.new (key number 2 ++ with_length bytes.now)) }
    ensures sure { S.IsSure → IsOk result }
{
    push_length(out, number, bytes.len() as u64)?;
    out.push_bytes(bytes)
}

/// What a plain field holds.
pub trait Plain: Drop {
    ghost kind: { Kind };

    ghost content_of: { Self → Content kind };

    /// The same of a value that may be absent.
    ghost held: { Option Self → Option (Content kind) };

    ghost held_is: { (o : Option Self) → held o ≡ option_map content_of o };

    /// Writes the value behind its key.
    fn write<S: Sink>(&self, out: &mut S, number: u32) -> Result<(), AllocError>
        ensures ok { OnOk result (Appends S.Holds out.old out.new (entry number kind (content_of self.now))) }
        ensures sure { S.IsSure → IsOk result }
        ensures fits { FitsContent kind (content_of self.now) };

    /// A value with the same content.
    fn copy(&self) -> Result<Self, AllocError>
        ensures { IfOk result (λ p. content_of p ≡ content_of self.now) };
}

impl Plain for String {
    ghost kind = { Text };

    ghost content_of = { string_bytes };

    ghost held = { option_map string_bytes };

    ghost held_is = { λ o. refl };

    fn write<S: Sink>(&self, out: &mut S, number: u32) -> Result<(), AllocError> {
        push_delimited(out, number, self.as_bytes())
    }

    fn copy(&self) -> Result<String, AllocError> {
        self.clone()
    }
}

impl Plain for Vec<u8> {
    ghost kind = { Bytes };

    ghost content_of = { λ v. v.items };

    ghost held = { option_map (λ v. v.items) };

    ghost held_is = { λ o. refl };

    fn write<S: Sink>(&self, out: &mut S, number: u32) -> Result<(), AllocError> {
        push_delimited(out, number, self.as_slice())
    }

    fn copy(&self) -> Result<Vec<u8>, AllocError> {
        self.clone()
    }
}

impl Plain for u32 {
    ghost kind = { Uint32 };

    ghost content_of = { λ n. n };

    ghost held = { λ o. o };

    ghost held_is = { held_alike };

    fn write<S: Sink>(&self, out: &mut S, number: u32) -> Result<(), AllocError> {
        push_number(out, number, u64::from(*self))
    }

    fn copy(&self) -> Result<u32, AllocError> {
        Ok(*self)
    }
}

impl Plain for u64 {
    ghost kind = { Uint64 };

    ghost content_of = { λ n. n };

    ghost held = { λ o. o };

    ghost held_is = { held_alike };

    fn write<S: Sink>(&self, out: &mut S, number: u32) -> Result<(), AllocError> {
        push_number(out, number, *self)
    }

    fn copy(&self) -> Result<u64, AllocError> {
        Ok(*self)
    }
}

impl Plain for i32 {
    ghost kind = { Int32 };

    ghost content_of = { λ n. n };

    ghost held = { λ o. o };

    ghost held_is = { held_alike };

    fn write<S: Sink>(&self, out: &mut S, number: u32) -> Result<(), AllocError> {
        push_number(out, number, i64::from(*self).cast_unsigned())
    }

    fn copy(&self) -> Result<i32, AllocError> {
        Ok(*self)
    }
}

impl Plain for i64 {
    ghost kind = { Int64 };

    ghost content_of = { λ n. n };

    ghost held = { λ o. o };

    ghost held_is = { held_alike };

    fn write<S: Sink>(&self, out: &mut S, number: u32) -> Result<(), AllocError> {
        push_number(out, number, self.cast_unsigned())
    }

    fn copy(&self) -> Result<i64, AllocError> {
        Ok(*self)
    }
}

impl Plain for bool {
    ghost kind = { Flag };

    ghost content_of = { λ b. b };

    ghost held = { λ o. o };

    ghost held_is = { held_alike };

    fn write<S: Sink>(&self, out: &mut S, number: u32) -> Result<(), AllocError> {
        push_number(out, number, u64::from(*self))
    }

    fn copy(&self) -> Result<bool, AllocError> {
        Ok(*self)
    }
}

/// Writes the values of a field, one by one.
pub fn write_values<P: Plain, S: Sink>(
    out: &mut S,
    number: u32,
    values: &[P],
) -> Result<(), AllocError>
    ensures ok { OnOk result (Appends S.Holds out.old out.new
        (flat_map (entry number P.kind) (items Repeated (map P.content_of values.now)))) }
    ensures sure { S.IsSure → IsOk result }
    ensures fits { OnOk result (AllByRecursion (FitsContent P.kind)
        (items Repeated (map P.content_of values.now))) }
{
    for value in values {
        value.write(out, number)?;
    }
    Ok(())
}

/// Writes the numbers of a field, one by one.
pub fn write_numbers<S: Sink>(out: &mut S, number: u32, values: &[i64]) -> Result<(), AllocError>
    ensures ok { OnOk result (Appends S.Holds out.old out.new (flat_map (entry number Int64) values.now)) }
    ensures sure { S.IsSure → IsOk result }
    ensures fits { OnOk result (AllByRecursion (FitsSigned w64) values.now) }
{
    for value in values {
        value.write(out, number)?;
    }
    Ok(())
}
