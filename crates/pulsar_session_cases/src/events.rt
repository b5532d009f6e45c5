//! What happens to a connection.

use crate::requests;
use crate::stop::Stop;
use crate::texts::{digits, frame, told};
use crate::values::cause;
use crate::words::Words;
use pulsar_frame::Message;
use pulsar_session::{Arrival, Connection};
use pulsar_wire::NoMemory;
use std::alloc::Global;

/// The answer to a call that changes the connection.
pub fn answer(
    alloc: Global,
    link: &mut Connection,
    call: &str,
    words: &mut Words<'_>,
) -> Result<String, Stop> {
    match call {
        "opened" => told(alloc, &link.opened(words.number())?),
        "feed" => feed(alloc, link, words.word()),
        "next" => next(alloc, link, words.number()),
        "next_boxed" => brief(alloc, &link.next_boxed(words.number())?),
        "drain" => digits(alloc, &link.drain(words.number() as usize, words.number())?),
        "close" => told(alloc, &link.close(cause(words))?),
        _ => requests::answer(alloc, link, call, words),
    }
}

fn feed(alloc: Global, link: &mut Connection, digits: &str) -> Result<String, Stop> {
    let piece = hex::decode(alloc, digits)?;
    told(alloc, &link.feed(&piece)?)
}

fn next(alloc: Global, link: &mut Connection, now: u64) -> Result<String, Stop> {
    match &link.next(now) {
        Ok(came) => told(alloc, came),
        Err(NoMemory) => Err(Stop::NoMemory),
    }
}

/// What arrives, with the frame of its message.
fn brief(alloc: Global, came: &Option<Arrival>) -> Result<String, Stop> {
    match came {
        Some(Arrival::Ready) => Ok(String::from_str(alloc, "Ready")?),
        Some(Arrival::Settled { places, reply }) => settled(alloc, places, reply),
        Some(Arrival::ForConsumer { consumer, reply }) => for_consumer(alloc, *consumer, reply),
        Some(Arrival::Challenge) => Ok(String::from_str(alloc, "Challenge")?),
        Some(Arrival::Dropped) => Ok(String::from_str(alloc, "Dropped")?),
        Some(Arrival::Bad(cause)) => Ok(format!(in alloc; "Bad({cause:?})")?),
        None => Ok(String::from_str(alloc, "None")?),
    }
}

fn settled(alloc: Global, places: &Vec<u64>, reply: &Message) -> Result<String, Stop> {
    let bytes = frame(alloc, reply)?;
    Ok(format!(in alloc; "Settled {places:?} {bytes}")?)
}

fn for_consumer(alloc: Global, consumer: u64, reply: &Message) -> Result<String, Stop> {
    let bytes = frame(alloc, reply)?;
    Ok(format!(in alloc; "ForConsumer {consumer} {bytes}")?)
}
