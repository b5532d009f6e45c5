//! Fields as they stand on the wire.

ghost use Rattle.std.specs.Prelude.{◌≡◌};
ghost use Rattle.std.specs.Option.{option_map};
ghost use Rattle.pulsar_wire.specs.Field.{varint_at, bytes_at, value_at, field_at};
ghost use Rattle.pulsar_wire.specs.Shown.{shown, field};

/// A value of one of the four wire types.
#[derive(Clone, Copy)]
pub enum Value<'a> {
    Varint(u64),
    Eight(&'a [u8]),
    Delimited(&'a [u8]),
    Four(&'a [u8]),
}

/// The number at the front, and the bytes after it.
pub fn read_varint(bytes: &[u8]) -> Option<(u64, &[u8])>
    ensures { option_map (λ x. (x.0, x.1.now)) result ≡ varint_at bytes.now }
{
    let (b, rest) = bytes.split_first()?;
    if *b < 128 {
        Some((u64::from(*b), rest))
    } else {
        read_long_varint(bytes)
    }
}

fn read_long_varint(bytes: &[u8]) -> Option<(u64, &[u8])>
    ensures { option_map (λ x. (x.0, x.1.now)) result ≡ varint_at bytes.now }
{
    let mut value = 0;
    let mut scale = 1;
    let mut rest = bytes;
    for _ in 0..9u32 {
        let (b, after) = rest.split_first()?;
        let b = u64::from(*b);
        if b < 128 {
            return Some((value + b * scale, after));
        }
        value += (b - 128) * scale;
        scale *= 128;
        rest = after;
    }
    let (last, after) = rest.split_first()?;
    let last = u64::from(*last);
    if last < 2 {
        Some((value + last * scale, after))
    } else {
        None
    }
}

#[tactic(auto, unfolding(crate::specs::Field::bytes_at))]
fn split_bytes(bytes: &[u8], n: u64) -> Option<(&[u8], &[u8])>
    ensures { option_map (λ x. (x.0.now, x.1.now)) result ≡ bytes_at n bytes.now }
{
    if (bytes.len() as u64) < n {
        return None;
    }
    Some(bytes.split_at(n as usize))
}

#[tactic(auto, unfolding(crate::specs::Field::value_at))]
fn read_value(wire_type: u64, bytes: &[u8]) -> Option<(Value<'_>, &[u8])>
    ensures { option_map (λ x. (shown x.0, x.1.now)) result ≡ value_at wire_type bytes.now }
{
    match wire_type {
        0 => {
            let (n, rest) = read_varint(bytes)?;
            Some((Value::Varint(n), rest))
        }
        1 => {
            let (value, rest) = split_bytes(bytes, 8)?;
            Some((Value::Eight(value), rest))
        }
        2 => {
            let (n, rest) = read_varint(bytes)?;
            let (value, rest) = split_bytes(rest, n)?;
            Some((Value::Delimited(value), rest))
        }
        5 => {
            let (value, rest) = split_bytes(bytes, 4)?;
            Some((Value::Four(value), rest))
        }
        _ => None,
    }
}

/// The field at the front, and the bytes after it.
#[tactic(auto, unfolding(crate::specs::Field::field_at))]
pub fn read_field(bytes: &[u8]) -> Option<(u32, Value<'_>, &[u8])>
    ensures { option_map (λ x. (field x.0 x.1, x.2.now)) result ≡ field_at bytes.now }
{
    let (key, rest) = read_varint(bytes)?;
    if key < 8 || key > u64::from(u32::MAX) {
        return None;
    }
    let (value, rest) = read_value(key % 8, rest)?;
    Some(((key / 8) as u32, value, rest))
}
