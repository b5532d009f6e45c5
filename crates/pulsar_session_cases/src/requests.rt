//! Request calls.

use crate::stop::Stop;
use crate::texts::digits;
use crate::values::{credential, ids, message, message_id, mode, sub_type};
use crate::words::Words;
use pulsar_session::{Asked, Connection, ConsumerOptions, ProducerOptions};
use pulsar_wire::{ConnectionError, NoMemory};
use std::alloc::Global;

/// What a request call answered: an error is a text.
type Answered = Result<Asked, String>;

/// The answer to a request call, which is made at the moment that comes first, and the frame where that is queued.
pub fn answer(
    alloc: Global,
    link: &mut Connection,
    call: &str,
    words: &mut Words<'_>,
) -> Result<String, Stop> {
    let now = words.number();
    match ask(alloc, link.sender(), call, now, words)? {
        Ok(asked) => tell(alloc, link, asked),
        Err(why) => Ok(format!(in alloc; "Err({why})")?),
    }
}

fn tell(alloc: Global, link: &Connection, asked: Asked) -> Result<String, Stop> {
    let answer = format!(in alloc; "Ok({asked:?})")?;
    match asked {
        Asked::Queued(place) => tell_queued(alloc, &answer, link.frame(place)),
        Asked::Waiting(_) => Ok(answer),
    }
}

fn tell_queued(alloc: Global, answer: &str, frame: Option<&[u8]>) -> Result<String, Stop> {
    let bytes = digits(alloc, frame.unwrap_or(&[]))?;
    Ok(format!(in alloc; "{answer} {bytes}")?)
}

/// An error is small as a text, so it is made one where it comes.
fn brief(alloc: Global, asked: Result<Asked, ConnectionError>) -> Result<Answered, NoMemory> {
    match asked {
        Ok(asked) => Ok(Ok(asked)),
        Err(e) => Ok(Err(format!(in alloc; "{e:?}")?)),
    }
}

fn ask(
    alloc: Global,
    link: &mut Connection,
    call: &str,
    now: u64,
    words: &mut Words<'_>,
) -> Result<Answered, NoMemory> {
    match call {
        "send_ping" => brief(alloc, link.send_ping(now)),
        "auth_challenge" => {
            let auth = credential(alloc, words.word())?;
            brief(alloc, link.auth_challenge(now, auth))
        }
        "lookup_topic" => brief(alloc, link.lookup_topic(now, words.word(), words.flag())),
        "lookup_partitioned_topic" => {
            brief(alloc, link.lookup_partitioned_topic(now, words.word()))
        }
        "get_topics_of_namespace" => {
            let asked = link.get_topics_of_namespace(now, words.word(), mode(words));
            brief(alloc, asked)
        }
        "get_schema" => {
            let asked = link.get_schema(now, words.word(), Some(words.word().as_bytes()));
            brief(alloc, asked)
        }
        _ => ask_for_producer(alloc, link, call, now, words),
    }
}

fn ask_for_producer(
    alloc: Global,
    link: &mut Connection,
    call: &str,
    now: u64,
    words: &mut Words<'_>,
) -> Result<Answered, NoMemory> {
    match call {
        "create_producer" => create_producer(alloc, link, now, words),
        "send" => send(alloc, link, now, words),
        "close_producer" => brief(alloc, link.close_producer(now, words.number())),
        _ => ask_for_consumer(alloc, link, call, now, words),
    }
}

fn create_producer(
    alloc: Global,
    link: &mut Connection,
    now: u64,
    words: &mut Words<'_>,
) -> Result<Answered, NoMemory> {
    let (topic, producer, name) = (words.word(), words.number(), words.optional());
    let options = ProducerOptions::new(alloc);
    brief(
        alloc,
        link.create_producer(now, topic, producer, name, &options),
    )
}

fn send(
    alloc: Global,
    link: &mut Connection,
    now: u64,
    words: &mut Words<'_>,
) -> Result<Answered, NoMemory> {
    let (producer, name, sequence) = (words.number(), words.word(), words.number());
    let message = message(alloc, words.word())?;
    brief(
        alloc,
        link.send(now, producer, name, sequence, message, words.flag()),
    )
}

fn ask_for_consumer(
    alloc: Global,
    link: &mut Connection,
    call: &str,
    now: u64,
    words: &mut Words<'_>,
) -> Result<Answered, NoMemory> {
    match call {
        "subscribe" => subscribe(alloc, link, now, words),
        "get_consumer_stats" => brief(alloc, link.get_consumer_stats(now, words.number())),
        "get_last_message_id" => brief(alloc, link.get_last_message_id(now, words.number())),
        "close_consumer" => brief(alloc, link.close_consumer(now, words.number())),
        "send_close_consumer" => brief(alloc, link.send_close_consumer(now, words.number())),
        "unsubscribe" => brief(alloc, link.unsubscribe(now, words.number())),
        _ => ask_for_messages(alloc, link, call, now, words),
    }
}

fn subscribe(
    alloc: Global,
    link: &mut Connection,
    now: u64,
    words: &mut Words<'_>,
) -> Result<Answered, NoMemory> {
    let (topic, subscription, kind) = (words.word(), words.word(), sub_type(words));
    let (consumer, name) = (words.number(), words.optional());
    let options = ConsumerOptions::new(alloc);
    let asked = link.subscribe(now, topic, subscription, kind, consumer, name, &options);
    brief(alloc, asked)
}

fn ask_for_messages(
    alloc: Global,
    link: &mut Connection,
    call: &str,
    now: u64,
    words: &mut Words<'_>,
) -> Result<Answered, NoMemory> {
    let consumer = words.number();
    if call == "send_flow" {
        let permits = u32::try_from(words.number()).unwrap_or(0);
        return brief(alloc, link.send_flow(now, consumer, permits));
    }
    let (ledger, entry) = (words.number(), words.number());
    match call {
        "send_ack" => {
            let ids = ids(alloc, ledger, entry)?;
            brief(alloc, link.send_ack(now, consumer, ids, words.flag()))
        }
        "send_redeliver_unacknowleged_messages" => {
            let ids = ids(alloc, ledger, entry)?;
            brief(
                alloc,
                link.send_redeliver_unacknowleged_messages(now, consumer, ids),
            )
        }
        "seek" => {
            let id = message_id(alloc, ledger, entry);
            brief(
                alloc,
                link.seek(now, consumer, Some(id), Some(words.number())),
            )
        }
        _ => {
            words.refuse(());
            Ok(Err(String::new(alloc)))
        }
    }
}
