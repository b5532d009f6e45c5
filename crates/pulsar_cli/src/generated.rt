//! The messages of the demo.

ghost use Rattle.std.specs.Prelude.{◌≡◌, ◌+◌, ◌%◌, IfOk, bytes_eq};
ghost use Rattle.pulsar_cli.specs.Demo.{payload, size};

use pulsar_wire::NoMemory;
use std::alloc::Global;

/// How many bytes a message of this seed has.
fn size(seed: u64, place: u64) -> u64
    ensures { result ≡ size seed place }
{
    (seed % 97 + 7 * (place % 97)) % 97
}

/// One of its bytes.
fn byte_at(seed: u64, place: u64, at: u64) -> u8
    ensures { result ≡ (seed + place + at) % 256 }
{
    ((seed % 256 + place % 256 + at % 256) % 256) as u8
}

/// The data of the message of a place, from 0.
pub fn payload(alloc: Global, seed: u64, place: u64) -> Result<Vec<u8>, NoMemory>
    ensures { IfOk result (λ bytes. bytes.items ≡ payload seed place) }
{
    let bytes = (0..size(seed, place))
        .map(|at| byte_at(seed, place, at))
        .collect(alloc)?;
    Ok(bytes)
}

/// These bytes are the data of that message.
pub fn is_payload(alloc: Global, seed: u64, place: u64, bytes: &[u8]) -> Result<bool, NoMemory>
    ensures { IfOk result (λ same. same ≡ bytes_eq bytes.now (payload seed place)) }
{
    let wanted = payload(alloc, seed, place)?;
    Ok(bytes == wanted.as_slice())
}
