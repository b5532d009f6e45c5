//! What a message of a topic carries.

ghost use Rattle.std.specs.Prelude.{◌≡◌, ◌++◌, ◌+◌, ◌^◌, ◌<◌, length, IfOk, IfSome, IfNone, OnOk, Some};
ghost use Rattle.std.specs.Option.{option_map};
ghost use Rattle.pulsar_wire.specs.Row.{reading};
ghost use Rattle.pulsar_wire.specs.Rows.{message_metadata};
ghost use Rattle.pulsar_wire.specs.Views.{message_metadata_values};
ghost use Rattle.pulsar_wire.specs.declared.error.Reason.TheVariants as reason;
ghost use Rattle.pulsar_frame.specs.Checksum.{crc32c};
ghost use Rattle.pulsar_frame.specs.Payload.{parts_values, payload_at, payload_bytes, payload_values};
ghost use Rattle.pulsar_frame.specs.Read.{Holds, IsReadBehind, described_len, tail_seen};
ghost use Rattle.pulsar_wire.specs.Sink.{capped};
ghost use Rattle.pulsar_frame.specs.Refusal.{or_refused};
ghost use Rattle.pulsar_frame.specs.Tail.{tail_at};

use crate::checksum::{Checksum, crc32c};
use crate::refused::refusal;
use crate::sized::{split_sized, write_sized};
use pulsar_wire::commands::metadata::MessageMetadata;
use pulsar_wire::encoding::message::{decode, encoded_len};
use pulsar_wire::error::{ConnectionError, NoMemory, Reason};
use std::alloc::{AllocError, Global};

/// What a payload begins with.
const MAGIC: u16 = 0x0e01;

/// How many bytes stand in front of the metadata: the magic number, the checksum and the size.
const HEAD_LEN: u64 = 10;

/// What a frame says of its payload.
pub type Metadata = MessageMetadata;

/// A payload and what is said of it.
#[derive(Debug, PartialEq, Eq)]
pub struct Payload {
    pub metadata: Metadata,
    pub bytes: Vec<u8>,
}

impl Drop for Payload {
    fn drop(self) {
        let Payload {
            metadata: _,
            bytes: _,
        } = self;
    }
}

/// A payload that is not made yet: what is said of it, and its bytes, which are borrowed.
#[derive(Clone, Copy)]
pub struct PayloadParts<'a> {
    pub metadata: &'a Metadata,
    pub bytes: &'a [u8],
}

impl PayloadParts<'_> {
    /// How many bytes stand behind the command. It stops at the greatest u64.
    pub(crate) fn len(&self) -> u64
        ensures { result ≡ capped (length (payload_bytes (parts_values self.now))) }
    {
        HEAD_LEN
            .saturating_add(encoded_len(self.metadata))
            .saturating_add(self.bytes.len() as u64)
    }
}

/// What stands behind a command, where anything does.
#[derive(Clone, Copy)]
pub(crate) struct Tail<'a> {
    pub(crate) magic: u16,
    pub(crate) checksum: u32,
    /// What the checksum is of.
    pub(crate) covered: &'a [u8],
    pub(crate) metadata: &'a [u8],
    pub(crate) payload: &'a [u8],
}

/// The sizes of a payload.
#[derive(Clone, Copy)]
pub(crate) struct PayloadSizes {
    pub(crate) metadata: u32,
    /// All that stands behind the command.
    pub(crate) total: u64,
}

impl Payload {
    /// Its parts.
    pub fn parts(&self) -> PayloadParts<'_>
        ensures { parts_values result ≡ payload_values self.now }
    {
        PayloadParts {
            metadata: &self.metadata,
            bytes: &self.bytes,
        }
    }

    /// A payload with the same content.
    pub fn copy(&self) -> Result<Payload, NoMemory>
        ensures { IfOk result (λ payload. payload_values payload ≡ payload_values self.now) }
    {
        Ok(Payload {
            metadata: self.metadata.copy()?,
            bytes: self.bytes.clone()?,
        })
    }

    /// Its sizes, where each of them fits a u32 by itself.
    #[tactic(auto, unfolding(crate::specs::Payload::payload_bytes, crate::specs::Payload::covered_bytes, crate::specs::Sized::with_size))]
    pub(crate) fn sizes(&self) -> Option<PayloadSizes>
        ensures metadata { IfSome result (λ s. s.metadata ≡ described_len (Some (payload_values self.now))) }
        ensures total { IfSome result (λ s. s.total ≡ length (payload_bytes (payload_values self.now))) }
        ensures small { IfSome result (λ s. s.total < 2 ^ 34) }
        ensures none { IfNone result (¬ (length (payload_bytes (payload_values self.now)) < 2 ^ 32)) }
    {
        let metadata = u32::try_from(encoded_len(&self.metadata)).ok()?;
        let bytes = u32::try_from(self.bytes.len()).ok()?;
        Some(PayloadSizes {
            metadata,
            total: HEAD_LEN + u64::from(metadata) + u64::from(bytes),
        })
    }

    /// Writes it behind a command, with its metadata of this size.
    #[tactic(auto, unfolding(crate::specs::Payload::payload_bytes, crate::specs::Payload::covered_bytes))]
    pub(crate) fn write(&self, size: u32, out: &mut Vec<u8>) -> Result<(), AllocError>
        requires { size ≡ described_len (Some (payload_values self.now)) }
        ensures ok { OnOk result (out.new.items ≡ out.old.items ++ payload_bytes (payload_values self.now)) }
        ensures again { OnOk result (IsReadBehind (Some (payload_values self.now))) }
    {
        let mut described = Vec::new(*out.allocator());
        write_sized(size, &self.metadata, &mut described)?;
        let checksum = checksum_of(&described, &self.bytes);
        out.extend_from_slice(&MAGIC.to_be_bytes())?;
        out.extend_from_slice(&checksum.to_be_bytes())?;
        out.extend_from_slice(&described)?;
        out.extend_from_slice(&self.bytes)?;
        Ok(())
    }
}

/// The checksum of the metadata behind its size, and the payload.
#[tactic(auto, unfolding(crate::specs::Checksum::crc32c))]
fn checksum_of(described: &[u8], payload: &[u8]) -> u32
    ensures { result ≡ crc32c (described.now ++ payload.now) }
{
    let mut checksum = Checksum::new();
    checksum.update(described);
    checksum.update(payload);
    checksum.value()
}

/// The payload that stands behind a command.
// by itself, so that a frame without a payload does not pay for its locals
#[inline(never)]
#[tactic(auto, unfolding(crate::specs::Payload::payload_at))]
pub(crate) fn read_payload(alloc: Global, bytes: &[u8]) -> Result<Payload, ConnectionError>
    ensures { Holds payload_values result (payload_at bytes.now) }
{
    let Some(tail) = split_tail(bytes) else {
        return Err(ConnectionError::Decoding(Reason::Payload));
    };
    if tail.magic != MAGIC {
        return Err(ConnectionError::Decoding(Reason::Magic));
    }
    let metadata = read_metadata(alloc, tail.metadata)?;
    if tail.checksum != crc32c(tail.covered) {
        return Err(ConnectionError::Decoding(Reason::Checksum));
    }
    let bytes = tail.payload.to_vec(alloc)?;
    Ok(Payload { metadata, bytes })
}

#[tactic(auto, unfolding(crate::specs::Tail::tail_at, pulsar_wire::specs::Field::bytes_at))]
fn split_tail(bytes: &[u8]) -> Option<Tail<'_>>
    ensures { option_map tail_seen result ≡ tail_at bytes.now }
{
    let (magic, rest) = bytes.split_first_chunk()?;
    let (checksum, covered) = rest.split_first_chunk()?;
    let (metadata, payload) = split_sized(covered)?;
    Some(Tail {
        magic: u16::from_be_bytes(*magic),
        checksum: u32::from_be_bytes(*checksum),
        covered,
        metadata,
        payload,
    })
}

#[tactic(auto, using(crate::proofs::Refusals::holds_refused))]
fn read_metadata(alloc: Global, bytes: &[u8]) -> Result<Metadata, ConnectionError>
    ensures { Holds message_metadata_values result (or_refused reason.Metadata (reading message_metadata bytes.now)) }
{
    match decode(alloc, bytes) {
        Ok(metadata) => Ok(metadata),
        Err(e) => Err(refusal(Reason::Metadata, e)),
    }
}
