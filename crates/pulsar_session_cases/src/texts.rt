//! What is printed.

use crate::stop::Stop;
use pulsar_frame::Message;
use std::alloc::Global;
use std::fmt::Debug;

/// A value.
pub fn told<T: Debug>(alloc: Global, value: &T) -> Result<String, Stop> {
    Ok(format!(in alloc; "{value:?}")?)
}

/// Bytes.
pub fn digits(alloc: Global, bytes: &[u8]) -> Result<String, Stop> {
    if bytes.is_empty() {
        return Ok(String::from_str(alloc, "%")?);
    }
    Ok(hex::encode(alloc, bytes)?)
}

/// The frame of a message.
pub fn frame(alloc: Global, message: &Message) -> Result<String, Stop> {
    digits(alloc, &message.to_frame(alloc)?)
}
