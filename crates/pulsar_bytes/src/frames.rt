//! Frames.

use crate::lending::lend;
use crate::printing::{print_bytes, print_refusal, print_value};
use crate::stop::Stop;
use bytes::BytesMut;
use pulsar_frame::{Codec, FrameReader, Message};
use pulsar_wire::{ConnectionError, NoMemory};
use std::alloc::Global;

/// What may stand in front of bytes.
pub type Front = Result<Option<Message>, ConnectionError>;

/// Prints the message of the frame in front, its key and its frame, and then the bytes that are left.
pub fn print_frame(rt: &impl Print, alloc: Global, bytes: &[u8]) -> Result<(), Stop> {
    let mut src = BytesMut::copy_from_slice(alloc, bytes)?;
    lend(Codec.decode(alloc, &mut src), |front| {
        print_front(rt, alloc, front)
    })?;
    print_bytes(rt, alloc, "left", src.as_slice())
}

fn print_front(rt: &impl Print, alloc: Global, front: &Front) -> Result<(), Stop> {
    match front {
        Ok(Some(message)) => lend(message.copy(), |copy| print_copy(rt, alloc, copy)),
        Ok(None) => print_none(rt),
        Err(e) => print_refusal(rt, e),
    }
}

fn print_none(rt: &impl Print) -> Result<(), Stop> {
    println!(rt; "none")?;
    Ok(())
}

fn print_copy(
    rt: &impl Print,
    alloc: Global,
    copy: &Result<Message, NoMemory>,
) -> Result<(), Stop> {
    match copy {
        Ok(message) => print_message(rt, alloc, message),
        Err(NoMemory) => Err(Stop::NoMemory),
    }
}

fn print_message(rt: &impl Print, alloc: Global, message: &Message) -> Result<(), Stop> {
    print_value(rt, message)?;
    let key = message.request_key();
    println!(rt; "key {key:?}")?;
    let mut frame = BytesMut::new(alloc);
    Codec.encode(alloc, message, &mut frame)?;
    print_bytes(rt, alloc, "bytes", frame.as_slice())
}

/// Feeds the pieces, and prints behind each the messages of the frames that are whole, and whether what is left is refused.
pub fn print_stream(rt: &impl Print, alloc: Global, pieces: &[Vec<u8>]) -> Result<(), Stop> {
    let mut reader = FrameReader::new(alloc);
    for piece in pieces {
        reader.feed(piece)?;
        print_all(rt, &mut reader)?;
    }
    Ok(())
}

fn print_all(rt: &impl Print, reader: &mut FrameReader) -> Result<(), Stop> {
    for _ in 0..u64::MAX {
        if !lend(reader.next(), |front| print_next(rt, front))? {
            break;
        }
    }
    Ok(())
}

/// Whether there was a message, and there may be a further one.
fn print_next(rt: &impl Print, front: &Front) -> Result<bool, Stop> {
    match front {
        Ok(Some(message)) => print_value(rt, message)?,
        Ok(None) => print_none(rt)?,
        Err(e) => print_refusal(rt, e)?,
    }
    Ok(matches!(front, Ok(Some(_))))
}
