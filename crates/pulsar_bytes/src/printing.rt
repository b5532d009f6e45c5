//! The lines that are printed.

use crate::stop::Stop;
use pulsar_frame::crc32c;
use pulsar_wire::{ConnectionError, Wire};
use std::alloc::Global;
use std::fmt::Debug;

/// What was read.
pub fn print_value<T: Debug>(rt: &impl Print, value: &T) -> Result<(), Stop> {
    println!(rt; "value {value:?}")?;
    Ok(())
}

/// Bytes behind a word, as hex digits, and none as `%`.
pub fn print_bytes(rt: &impl Print, alloc: Global, word: &str, bytes: &[u8]) -> Result<(), Stop> {
    if bytes.is_empty() {
        println!(rt; "{word} %")?;
        return Ok(());
    }
    let digits = hex::encode(alloc, bytes)?;
    println!(rt; "{word} {digits}")?;
    Ok(())
}

/// A value, and the bytes that it is written as.
pub fn print_written<W: Wire + Debug>(
    rt: &impl Print,
    alloc: Global,
    value: &W,
) -> Result<(), Stop> {
    print_value(rt, value)?;
    let mut bytes = Vec::new(alloc);
    value.encode(&mut bytes)?;
    print_bytes(rt, alloc, "bytes", &bytes)
}

/// Why bytes are not read. Want of memory is no reason: it ends the run.
pub fn print_refusal(rt: &impl Print, error: &ConnectionError) -> Result<(), Stop> {
    match error {
        ConnectionError::Decoding(reason) => {
            println!(rt; "refused {reason}")?;
            Ok(())
        }
        ConnectionError::NoMemory => Err(Stop::NoMemory),
        _ => Err(Stop::Unwritten),
    }
}

/// The checksum of bytes.
pub fn print_sum(rt: &impl Print, bytes: &[u8]) -> Result<(), Stop> {
    let sum = crc32c(bytes);
    println!(rt; "sum {sum:08x}")?;
    Ok(())
}
