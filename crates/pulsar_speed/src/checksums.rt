//! Checksums of a buffer.

ghost use Rattle.std.specs.Prelude.{◌≡◌, IfOk};
ghost use Rattle.pulsar_speed.specs.Tallies.{checksums_tally};

use crate::sample::sevens;
use crate::tally::Tally;
use pulsar_frame::checksum::crc32c;
use pulsar_wire::error::ConnectionError;
use std::alloc::Global;

/// How many bytes the buffer has.
const BUFFER: usize = 65_536;

/// Takes the checksum of the buffer so many times.
pub fn checksum(alloc: Global, count: u64) -> Result<Tally, ConnectionError>
    ensures { IfOk result (λ tally. tally ≡ checksums_tally count) }
{
    let buffer = sevens(alloc, BUFFER)?;
    let mut tally = Tally::new();
    for _ in 0..count {
        tally.count_one(u64::from(crc32c(&buffer)))?;
        tally.count_bytes(buffer.len())?;
    }
    Ok(tally)
}
