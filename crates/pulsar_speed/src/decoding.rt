//! Frames read from pieces of a stream.

ghost use Rattle.std.specs.Prelude.{◌≡◌, ◌+◌, ◌++◌, length, IfOk, OnOk};
ghost use Rattle.pulsar_frame.specs.Frame.{cut, left};
ghost use Rattle.pulsar_frame.specs.Shown.{message_values};
ghost use Rattle.pulsar_speed.specs.Samples.{blocks_of};
ghost use Rattle.pulsar_speed.specs.Tallies.{number_in, frames_tally, Counts, CountsOne};

use crate::sample::{BLOCK, Sample};
use crate::tally::Tally;
use pulsar_frame::message::Message;
use pulsar_frame::reader::FrameReader;
use pulsar_wire::error::ConnectionError;
use std::alloc::Global;

/// How many bytes a piece has.
pub const PIECE: usize = 65_536;

/// Reads so many frames, block by block.
pub fn decode(alloc: Global, sample: Sample, count: u64) -> Result<Tally, ConnectionError>
    ensures { IfOk result (λ tally. tally ≡ frames_tally (blocks_of sample count)) }
{
    let mut reader = FrameReader::new(alloc);
    let mut tally = Tally::new();
    let block = sample.frames(alloc, BLOCK)?;
    for _ in 0..count / BLOCK {
        read_block(&mut reader, block.as_slice(), &mut tally)?;
    }
    let rest = sample.frames(alloc, count % BLOCK)?;
    read_block(&mut reader, rest.as_slice(), &mut tally)?;
    Ok(tally)
}

/// Feeds the bytes piece by piece, and takes the frames that are whole.
fn read_block(
    reader: &mut FrameReader,
    block: &[u8],
    tally: &mut Tally,
) -> Result<(), ConnectionError>
    requires { left reader.old ≡ reader.old }
    ensures rest { OnOk result (reader.new ≡ left (reader.old ++ block.now)) }
    ensures counts { OnOk result (Counts tally.old tally.new (cut (reader.old ++ block.now))) }
    ensures bytes { OnOk result (tally.new.bytes ≡ tally.old.bytes + length block.now) }
{
    tally.count_bytes(block.len())?;
    let mut rest = block;
    while !rest.is_empty() {
        let (piece, after) = rest.split_at(rest.len().min(PIECE));
        reader.feed(piece)?;
        take_frames(reader, tally)?;
        rest = after;
    }
    Ok(())
}

/// Takes the frames that are whole.
fn take_frames(reader: &mut FrameReader, tally: &mut Tally) -> Result<(), ConnectionError>
    ensures rest { OnOk result (reader.new ≡ left reader.old) }
    ensures counts { OnOk result (Counts tally.old tally.new (cut reader.old)) }
    ensures bytes { OnOk result (tally.new.bytes ≡ tally.old.bytes) }
{
    // a match moves a message once, where ? would twice
    loop {
        match reader.next() {
            Ok(Some(message)) => count_given(tally, message)?,
            Ok(None) => return Ok(()),
            Err(e) => return Err(e),
        }
    }
}

/// Counts a message, and lets it go.
fn count_given(tally: &mut Tally, message: Message) -> Result<(), ConnectionError>
    ensures { OnOk result (CountsOne tally.old tally.new (number_in (message_values message))) }
{
    tally.count_message(&message)
}
