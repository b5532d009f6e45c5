//! Frames written to a buffer, and commands alone.

ghost use Rattle.std.specs.Prelude.{◌≡◌, replicate, IfOk};
ghost use Rattle.pulsar_speed.specs.Samples.{sample_message};
ghost use Rattle.pulsar_speed.specs.Tallies.{frames_tally, commands_tally};

use crate::decoding::PIECE;
use crate::sample::{FIRST, Sample};
use crate::tally::Tally;
use bytes::BytesMut;
use pulsar_frame::codec::Codec;
use pulsar_frame::message::Message;
use pulsar_wire::commands::base::BaseCommand;
use pulsar_wire::error::ConnectionError;
use pulsar_wire::wire::Wire;
use std::alloc::Global;

/// Writes the frame of the first message so many times, into a buffer that is emptied when it holds a piece.
pub fn encode(alloc: Global, sample: Sample, count: u64) -> Result<Tally, ConnectionError>
    ensures { IfOk result (λ tally. tally ≡ frames_tally (replicate count (sample_message sample 2))) }
{
    let message = sample.message(alloc, FIRST)?;
    let mut buffer = BytesMut::new(alloc);
    let mut tally = Tally::new();
    for _ in 0..count {
        Codec.encode(alloc, &message, &mut buffer)?;
        tally.count_message(&message)?;
        if buffer.len() >= PIECE {
            tally.count_bytes(buffer.len())?;
            buffer.clear();
        }
    }
    tally.count_bytes(buffer.len())?;
    Ok(tally)
}

/// Reads and writes the command of the first message so many times, without a frame.
pub fn command(alloc: Global, sample: Sample, count: u64) -> Result<Tally, ConnectionError>
    ensures { IfOk result (λ tally. tally ≡ commands_tally (replicate count (sample_message sample 2))) }
{
    let mut bytes = Vec::new(alloc);
    sample.message(alloc, FIRST)?.command.encode(&mut bytes)?;
    let mut tally = Tally::new();
    for _ in 0..count {
        let message = Message {
            command: BaseCommand::decode(alloc, &bytes)?,
            payload: None,
        };
        bytes.clear();
        message.command.encode(&mut bytes)?;
        tally.count_message(&message)?;
        tally.count_bytes(bytes.len())?;
    }
    Ok(tally)
}
