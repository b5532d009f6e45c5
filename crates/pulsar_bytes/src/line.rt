//! Lines of the input.

use crate::batches::{print_batch, print_items};
use crate::commands::print_command;
use crate::frames::{print_frame, print_stream};
use crate::messages::print_message;
use crate::printing::print_sum;
use crate::stop::Stop;
use std::alloc::Global;

/// Prints what a line asks for. One that is empty or begins with `#` is printed as it is.
pub fn answer(rt: &impl Print, alloc: Global, line: &str) -> Result<(), Stop> {
    if line.is_empty() || line.starts_with('#') {
        println!(rt; "{line}")?;
        return Ok(());
    }
    match line.split_once(' ') {
        Some((kind, words)) => answer_words(rt, alloc, kind, words),
        None => Err(Stop::NoForm),
    }
}

/// The kinds that have more than one word of bytes, or else the bytes of one.
fn answer_words(rt: &impl Print, alloc: Global, kind: &str, words: &str) -> Result<(), Stop> {
    match kind {
        "batch" => answer_batch(rt, alloc, words),
        "stream" => answer_stream(rt, alloc, words),
        _ => answer_bytes(rt, alloc, kind, &bytes_of(alloc, words)?),
    }
}

/// A count, and the bytes of so many entries.
fn answer_batch(rt: &impl Print, alloc: Global, words: &str) -> Result<(), Stop> {
    let Some((count, bytes)) = words.split_once(' ') else {
        return Err(Stop::NoForm);
    };
    let Ok(count) = count.parse::<u32>() else {
        return Err(Stop::NoForm);
    };
    print_batch(rt, alloc, count, &bytes_of(alloc, bytes)?)
}

/// The pieces of a stream.
fn answer_stream(rt: &impl Print, alloc: Global, words: &str) -> Result<(), Stop> {
    let mut pieces = Vec::new(alloc);
    for word in words.split(' ') {
        pieces
            .push(bytes_of(alloc, word)?)
            .map_err(|_| Stop::NoMemory)?;
    }
    print_stream(rt, alloc, &pieces)
}

fn answer_bytes(rt: &impl Print, alloc: Global, kind: &str, bytes: &[u8]) -> Result<(), Stop> {
    match kind {
        "command" => print_command(rt, alloc, bytes),
        "frame" => print_frame(rt, alloc, bytes),
        "items" => print_items(rt, alloc, bytes),
        "crc32c" => print_sum(rt, bytes),
        _ => print_message(rt, alloc, kind, bytes),
    }
}

/// The bytes of a word: two hex digits for each, and `%` for none.
fn bytes_of(alloc: Global, word: &str) -> Result<Vec<u8>, Stop> {
    match word {
        "%" => Ok(Vec::new(alloc)),
        _ => Ok(hex::decode(alloc, word)?),
    }
}
