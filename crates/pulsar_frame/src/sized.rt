//! Bytes behind their size, which has four bytes, the highest first.

ghost use Rattle.std.specs.Prelude.{◌≡◌, ◌++◌, length, OnOk};
ghost use Rattle.std.specs.Option.{option_map};
ghost use Rattle.pulsar_wire.specs.Row.{spelling};
ghost use Rattle.pulsar_frame.specs.Sized.{IsSpelledBack, sized_at, with_size};

use pulsar_wire::encoding::message::{Message, encode};
use std::alloc::AllocError;

/// The bytes that the size in front counts, and those after them.
#[tactic(auto, unfolding(crate::specs::Sized::sized_at, pulsar_wire::specs::Field::bytes_at))]
pub(crate) fn split_sized(bytes: &[u8]) -> Option<(&[u8], &[u8])>
    ensures { option_map (λ x. (x.0.now, x.1.now)) result ≡ sized_at bytes.now }
{
    let (size, rest) = bytes.split_first_chunk()?;
    rest.split_at_checked(u32::from_be_bytes(*size) as usize)
}

/// Writes a message behind its size, which is given.
#[tactic(auto, unfolding(crate::specs::Sized::with_size))]
pub(crate) fn write_sized<M: Message>(
    size: u32,
    message: &M,
    out: &mut Vec<u8>,
) -> Result<(), AllocError>
    requires { size ≡ length (spelling M.shape (M.values message.now)) }
    ensures ok { OnOk result (out.new.items ≡ out.old.items ++ with_size (spelling M.shape (M.values message.now))) }
    ensures again { OnOk result (IsSpelledBack M.shape (M.values message.now)) }
{
    out.extend_from_slice(&size.to_be_bytes())?;
    encode(message, out)
}
