//! Batches: several messages in one payload.

ghost use Rattle.std.specs.Prelude.{◌≡◌, map, OnOk};
ghost use Rattle.std.specs.Option.{option_map};
ghost use Rattle.pulsar_wire.specs.Shown.{Gives};
ghost use Rattle.pulsar_frame.specs.Batch.{AppendsEntry, ReadsBack, ReadsBatch, SaysItsSize, entries, entry_at, entry_values, payload_of_size};

pub mod iterator;
pub mod laws;

use crate::refused::refusal;
use crate::sized::{split_sized, write_sized};
use pulsar_wire::commands::metadata::SingleMessageMetadata;
use pulsar_wire::encoding::message::{decode, encoded_len};
use pulsar_wire::encoding::read_error::ReadError;
use pulsar_wire::error::{ConnectionError, Reason};
use std::alloc::Global;

/// The greatest size of a payload: an i32 says it.
const MAX_PAYLOAD: usize = 0x7fff_ffff;

/// One message of a batch.
#[derive(Debug, PartialEq, Eq, Drop)]
pub struct BatchedMessage {
    pub metadata: SingleMessageMetadata,
    pub payload: Vec<u8>,
}

impl BatchedMessage {
    /// Writes its entry behind what `w` has, with the metadata as it is: whoever fills it sets `payload_size` to the
    /// size of the payload, and then the entry is read again, whatever follows. The answer is `Encoding(Frame)` exactly
    /// where the size of the metadata does not fit a u32, and else `Encoding(Batch)` exactly where that of the payload
    /// does not fit an i32, and there is no other error but want of memory. In these `w` stays as it was.
    pub fn serialize(&self, w: &mut Vec<u8>) -> Result<(), ConnectionError>
        ensures entry { AppendsEntry result (entry_values self.now) w.old.items w.new.items }
        ensures again { OnOk result (SaysItsSize (entry_values self.now) → ReadsBack (entry_values self.now)) }
    {
        let Ok(size) = u32::try_from(encoded_len(&self.metadata)) else {
            return Err(ConnectionError::Encoding(Reason::Frame));
        };
        if self.payload.len() > MAX_PAYLOAD {
            return Err(ConnectionError::Encoding(Reason::Batch));
        }
        let mut head = Vec::new(*w.allocator());
        write_sized(size, &self.metadata, &mut head)?;
        let len = w.len();
        w.extend_from_slice(&head)?;
        // the payload is copied once, so what stands before it is taken back where there is no memory for it
        if let Err(error) = w.extend_from_slice(&self.payload) {
            w.truncate(len);
            return Err(error.into());
        }
        Ok(())
    }
}

/// The first `count` entries of a payload. It is `Decoding(Batch)` exactly where one of them is cut, broken or of
/// negative size, and there is no other error but want of memory. What follows them is not looked at.
#[tactic(auto, using(crate::proofs::Refusals::batch_refused))]
pub fn parse_batched_message(
    alloc: Global,
    count: u32,
    payload: &[u8],
) -> Result<Vec<BatchedMessage>, ConnectionError>
    ensures { ReadsBatch (λ ms. map entry_values ms.items) result (entries count payload.now) }
{
    match read_entries(alloc, count, payload) {
        Ok(entries) => Ok(entries),
        Err(e) => Err(refusal(Reason::Batch, e)),
    }
}

fn read_entries(alloc: Global, count: u32, payload: &[u8]) -> Result<Vec<BatchedMessage>, ReadError>
    ensures { Gives (λ ms. map entry_values ms.items) result (entries count payload.now) }
{
    // the count is from outside: memory is taken as entries come
    let mut entries = Vec::new(alloc);
    let mut rest = payload;
    for _ in 0..count {
        let (entry, after) = read_entry(alloc, rest)?;
        entries.push(entry)?;
        rest = after;
    }
    Ok(entries)
}

/// The entry in front, and the bytes after it.
#[tactic(auto, unfolding(crate::specs::Batch::entry_at, pulsar_wire::specs::Views::single_message_metadata_values))]
fn read_entry(alloc: Global, bytes: &[u8]) -> Result<(BatchedMessage, &[u8]), ReadError>
    ensures { Gives (λ x. (entry_values x.0, x.1.now)) result (entry_at bytes.now) }
{
    let Some((metadata, rest)) = split_sized(bytes) else {
        return Err(ReadError::Malformed);
    };
    let metadata: SingleMessageMetadata = decode(alloc, metadata)?;
    let Some((payload, rest)) = split_payload(metadata.payload_size, rest) else {
        return Err(ReadError::Malformed);
    };
    let payload = payload.to_vec(alloc)?;
    Ok((BatchedMessage { metadata, payload }, rest))
}

/// The bytes of a payload of this size, and the bytes after them.
#[tactic(auto, unfolding(crate::specs::Batch::payload_of_size, pulsar_wire::specs::Field::bytes_at))]
fn split_payload(size: i32, bytes: &[u8]) -> Option<(&[u8], &[u8])>
    ensures { option_map (λ x. (x.0.now, x.1.now)) result ≡ payload_of_size size bytes.now }
{
    bytes.split_at_checked(usize::try_from(size).ok()?)
}
