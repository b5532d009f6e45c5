//! What a value says to a field.

ghost use Rattle.std.specs.Prelude.{◌≡◌, ◌++◌, ◌∷◌, [], OnOk, map, string_bytes};
ghost use Rattle.std.specs.Option.{option_map};
ghost use Rattle.std.specs.Int.{w64, cast_signed};
ghost use Rattle.pulsar_wire.specs.Row.{Text, Bytes, Uint32, Uint64, Int32, Int64, Flag, Repeated, content, delimited, varints};
ghost use Rattle.pulsar_wire.specs.Merge.{put_plain, put_numbers, with_numbers};
ghost use Rattle.pulsar_wire.specs.Shown.{shown, Gives, Leaves};

use crate::encoding::field::{Value, read_varint};
use crate::encoding::read_error::ReadError;
use std::alloc::{AllocError, Global};

/// A text, which is UTF-8.
pub fn text_of(alloc: Global, value: Value<'_>) -> Result<String, ReadError>
    ensures { Gives string_bytes result (content Text (shown value.entry)) }
{
    match value {
        Value::Delimited(bytes) => match str::from_utf8(bytes) {
            Ok(text) => Ok(String::from_str(alloc, text)?),
            Err(_) => Err(ReadError::Malformed),
        },
        _ => Err(ReadError::Malformed),
    }
}

/// Bytes, as they stand.
pub fn bytes_of(alloc: Global, value: Value<'_>) -> Result<Vec<u8>, ReadError>
    ensures { Gives (λ v. v.items) result (content Bytes (shown value.entry)) }
{
    match value {
        Value::Delimited(bytes) => Ok(Vec::from_slice(alloc, bytes)?),
        _ => Err(ReadError::Malformed),
    }
}

/// A number.
pub fn uint64_of(value: Value<'_>) -> Result<u64, ReadError>
    ensures { Gives (λ n. n) result (content Uint64 (shown value.entry)) }
{
    match value {
        Value::Varint(n) => Ok(n),
        _ => Err(ReadError::Malformed),
    }
}

/// The low 32 bits.
pub fn uint32_of(value: Value<'_>) -> Result<u32, ReadError>
    ensures { Gives (λ n. n) result (content Uint32 (shown value.entry)) }
{
    match value {
        Value::Varint(n) => Ok((n % (1 << 32)) as u32),
        _ => Err(ReadError::Malformed),
    }
}

/// The low 32 bits, with a sign.
pub fn int32_of(value: Value<'_>) -> Result<i32, ReadError>
    ensures { Gives (λ n. n) result (content Int32 (shown value.entry)) }
{
    match value {
        Value::Varint(n) => Ok(((n % (1 << 32)) as u32).cast_signed()),
        _ => Err(ReadError::Malformed),
    }
}

/// A number, with a sign.
pub fn int64_of(value: Value<'_>) -> Result<i64, ReadError>
    ensures { Gives (λ n. n) result (content Int64 (shown value.entry)) }
{
    match value {
        Value::Varint(n) => Ok(n.cast_signed()),
        _ => Err(ReadError::Malformed),
    }
}

/// Whether a number is not zero.
pub fn flag_of(value: Value<'_>) -> Result<bool, ReadError>
    ensures { Gives (λ b. b) result (content Flag (shown value.entry)) }
{
    match value {
        Value::Varint(n) => Ok(n != 0),
        _ => Err(ReadError::Malformed),
    }
}

/// The bytes of a message that is embedded.
pub fn delimited_of(value: Value<'_>) -> Option<&[u8]>
    ensures { option_map (λ x. x.now) result ≡ delimited (shown value.entry) }
{
    match value {
        Value::Delimited(bytes) => Some(bytes),
        _ => None,
    }
}

/// One more text of several.
pub fn push_text(slot: &mut Vec<String>, alloc: Global, value: Value<'_>) -> Result<(), ReadError>
    ensures { Leaves result (map string_bytes slot.new.items)
        (put_plain Repeated Text (map string_bytes slot.old.items) (shown value.entry)) }
{
    let text = text_of(alloc, value)?;
    slot.push(text)?;
    Ok(())
}

/// One more number of several, or packed ones.
pub fn push_numbers(slot: &mut Vec<i64>, value: Value<'_>) -> Result<(), ReadError>
    ensures { Leaves result slot.new.items (put_numbers slot.old.items (shown value.entry)) }
{
    match value {
        Value::Varint(n) => Ok(push_number(slot, n)?),
        Value::Delimited(bytes) => push_packed(slot, bytes),
        _ => Err(ReadError::Malformed),
    }
}

fn push_number(slot: &mut Vec<i64>, n: u64) -> Result<(), AllocError>
    ensures { OnOk result (slot.new.items ≡ slot.old.items ++ cast_signed w64 n ∷ []) }
{
    slot.push(n.cast_signed())?;
    Ok(())
}

/// The numbers that fill the bytes.
fn push_packed(slot: &mut Vec<i64>, bytes: &[u8]) -> Result<(), ReadError>
    ensures { Leaves result slot.new.items (with_numbers slot.old.items (varints bytes.now)) }
{
    let mut rest = bytes;
    while !rest.is_empty() {
        let Some((n, after)) = read_varint(rest) else {
            return Err(ReadError::Malformed);
        };
        push_number(slot, n)?;
        rest = after;
    }
    Ok(())
}
