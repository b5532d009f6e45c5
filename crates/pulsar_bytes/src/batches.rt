//! Batches.

use crate::frames::Front;
use crate::lending::lend;
use crate::printing::{print_bytes, print_refusal, print_value};
use crate::stop::Stop;
use bytes::BytesMut;
use pulsar_frame::{BatchedMessage, BatchedMessageIterator, Codec, Payload, parse_batched_message};
use pulsar_wire::{Body, ConnectionError, MessageIdData};
use std::alloc::Global;

/// Prints the entries of a batch, and how they are written.
pub fn print_batch(rt: &impl Print, alloc: Global, count: u32, bytes: &[u8]) -> Result<(), Stop> {
    match parse_batched_message(alloc, count, bytes) {
        Ok(entries) => print_entries(rt, alloc, &entries),
        Err(e) => print_refusal(rt, &e),
    }
}

fn print_entries(rt: &impl Print, alloc: Global, entries: &[BatchedMessage]) -> Result<(), Stop> {
    let mut bytes = Vec::new(alloc);
    for entry in entries {
        print_value(rt, entry)?;
        entry.serialize(&mut bytes)?;
    }
    print_bytes(rt, alloc, "bytes", &bytes)
}

/// Prints the messages of the batch that a frame delivers.
pub fn print_items(rt: &impl Print, alloc: Global, bytes: &[u8]) -> Result<(), Stop> {
    let mut src = BytesMut::copy_from_slice(alloc, bytes)?;
    lend(Codec.decode(alloc, &mut src), |front| {
        print_delivered(rt, front)
    })
}

fn print_delivered(rt: &impl Print, front: &Front) -> Result<(), Stop> {
    let Ok(Some(message)) = front else {
        return Err(Stop::NoForm);
    };
    match (&message.command.body, &message.payload) {
        (Some(Body::Message(body)), Some(payload)) => print_opened(rt, &body.message_id, payload),
        _ => Err(Stop::NoForm),
    }
}

fn print_opened(rt: &impl Print, id: &MessageIdData, payload: &Payload) -> Result<(), Stop> {
    match opened(id, payload) {
        Ok(items) => print_all(rt, items),
        Err(e) => print_refusal(rt, &e),
    }
}

fn opened(
    id: &MessageIdData,
    payload: &Payload,
) -> Result<BatchedMessageIterator, ConnectionError> {
    let id = id.copy()?;
    BatchedMessageIterator::new(id, payload.copy()?)
}

fn print_all(rt: &impl Print, items: BatchedMessageIterator) -> Result<(), Stop> {
    for item in items {
        print_item(rt, item)?;
    }
    println!(rt; "none")?;
    Ok(())
}

fn print_item(rt: &impl Print, item: (MessageIdData, Payload)) -> Result<(), Stop> {
    print_value(rt, &item)
}
