//! The messages that a client writes.

use crate::full;
use crate::stop::Stop;
use crate::texts::frame;
use crate::values::{credential, ids, message, message_id, mode, optional_credential, sub_type};
use crate::words::Words;
use pulsar_frame::Message;
use pulsar_frame::received::Received;
use pulsar_session::{ConsumerOptions, ProducerOptions, messages};
use pulsar_wire::{NoMemory, SubType};
use std::alloc::Global;

/// The key and the frame of the message that a builder makes.
pub fn answer(alloc: Global, words: &mut Words<'_>) -> Result<String, Stop> {
    let copy = build(alloc, words)?.copy(alloc)?;
    let key = copy.key();
    let bytes = frame(alloc, copy.message())?;
    Ok(format!(in alloc; "{key:?} {bytes}")?)
}

/// A message is small in its box, so it is put there where it comes.
fn keep(alloc: Global, made: Result<Message, NoMemory>) -> Result<Received, NoMemory> {
    match made {
        Ok(message) => Received::new(alloc, message),
        Err(NoMemory) => Err(NoMemory),
    }
}

fn build(alloc: Global, words: &mut Words<'_>) -> Result<Received, NoMemory> {
    match words.word() {
        "ping" => keep(alloc, messages::ping()),
        "pong" => keep(alloc, messages::pong()),
        "auth_challenge" => keep(
            alloc,
            messages::auth_challenge(credential(alloc, words.word())?),
        ),
        "connect" => {
            let auth = optional_credential(alloc, words.optional())?;
            keep(alloc, messages::connect(alloc, auth, words.optional()))
        }
        builder => build_for_topic(alloc, builder, words),
    }
}

fn build_for_topic(
    alloc: Global,
    builder: &str,
    words: &mut Words<'_>,
) -> Result<Received, NoMemory> {
    match builder {
        "lookup_topic" => {
            keep(
                alloc,
                messages::lookup_topic(alloc, words.word(), words.flag(), words.number()),
            )
        }
        "lookup_partitioned_topic" => {
            keep(
                alloc,
                messages::lookup_partitioned_topic(alloc, words.word(), words.number()),
            )
        }
        "get_topics_of_namespace" => {
            keep(
                alloc,
                messages::get_topics_of_namespace(alloc, words.number(), words.word(), mode(words)),
            )
        }
        "get_schema" => keep(
            alloc,
            messages::get_schema(
                alloc,
                words.number(),
                words.word(),
                Some(words.word().as_bytes()),
            ),
        ),
        "create_producer" => create_producer(alloc, words),
        "send" => send(alloc, words),
        "subscribe" => subscribe(alloc, words),
        "full" => build_in_full(alloc, words.word(), words),
        _ => build_for_member(alloc, builder, words),
    }
}

fn create_producer(alloc: Global, words: &mut Words<'_>) -> Result<Received, NoMemory> {
    let (topic, name, producer) = (words.word(), words.optional(), words.number());
    let options = ProducerOptions::new(alloc);
    keep(
        alloc,
        messages::create_producer(alloc, topic, name, producer, words.number(), &options),
    )
}

fn send(alloc: Global, words: &mut Words<'_>) -> Result<Received, NoMemory> {
    let (producer, name, sequence) = (words.number(), words.word(), words.number());
    let message = message(alloc, words.word())?;
    keep(
        alloc,
        messages::send(alloc, producer, name, sequence, message, words.number()),
    )
}

fn subscribe(alloc: Global, words: &mut Words<'_>) -> Result<Received, NoMemory> {
    let (topic, subscription, kind) = (words.word(), words.word(), sub_type(words));
    let (consumer, number, name) = (words.number(), words.number(), words.optional());
    let options = ConsumerOptions::new(alloc);
    keep(
        alloc,
        messages::subscribe(
            alloc,
            topic,
            subscription,
            kind,
            consumer,
            number,
            name,
            &options,
        ),
    )
}

/// The builders whose options or message have each of their fields.
fn build_in_full(
    alloc: Global,
    builder: &str,
    words: &mut Words<'_>,
) -> Result<Received, NoMemory> {
    match builder {
        "create_producer" => create_producer_in_full(alloc, words),
        "send" => send_in_full(alloc, words),
        "subscribe" => subscribe_in_full(alloc, words),
        _ => {
            words.refuse(());
            keep(alloc, messages::ping())
        }
    }
}

fn create_producer_in_full(alloc: Global, words: &mut Words<'_>) -> Result<Received, NoMemory> {
    let options = full::producer_options(alloc)?.copy()?;
    keep(
        alloc,
        messages::create_producer(alloc, "t", Some("n"), 3, words.number(), &options),
    )
}

fn send_in_full(alloc: Global, words: &mut Words<'_>) -> Result<Received, NoMemory> {
    let message = full::message(alloc)?.copy()?;
    keep(
        alloc,
        messages::send(alloc, 3, "n", words.number(), message, 50),
    )
}

fn subscribe_in_full(alloc: Global, words: &mut Words<'_>) -> Result<Received, NoMemory> {
    let options = full::consumer_options(alloc)?.copy()?;
    let (kind, number) = (SubType::KeyShared, words.number());
    keep(
        alloc,
        messages::subscribe(alloc, "t", "u", kind, 3, number, Some("n"), &options),
    )
}

/// The builders whose first argument is a number, and most often a consumer's or a producer's.
fn build_for_member(
    alloc: Global,
    builder: &str,
    words: &mut Words<'_>,
) -> Result<Received, NoMemory> {
    let (first, second) = (words.number(), words.number());
    match builder {
        "consumer_stats" => keep(alloc, messages::consumer_stats(first, second)),
        "get_last_message_id" => keep(alloc, messages::get_last_message_id(first, second)),
        "close_consumer" => keep(alloc, messages::close_consumer(first, second)),
        "unsubscribe" => keep(alloc, messages::unsubscribe(first, second)),
        "close_producer" => keep(alloc, messages::close_producer(first, second)),
        "flow" => keep(
            alloc,
            messages::flow(first, u32::try_from(second).unwrap_or(0)),
        ),
        _ => build_for_messages(alloc, builder, first, second, words),
    }
}

fn build_for_messages(
    alloc: Global,
    builder: &str,
    consumer: u64,
    second: u64,
    words: &mut Words<'_>,
) -> Result<Received, NoMemory> {
    match builder {
        "ack" => keep(
            alloc,
            messages::ack(consumer, ids(alloc, second, words.number())?, words.flag()),
        ),
        "redeliver_unacknowleged_messages" => keep(
            alloc,
            messages::redeliver_unacknowleged_messages(
                consumer,
                ids(alloc, second, words.number())?,
            ),
        ),
        "seek" => {
            let id = message_id(alloc, words.number(), words.number());
            keep(
                alloc,
                messages::seek(consumer, second, Some(id), Some(words.number())),
            )
        }
        _ => {
            words.refuse(());
            keep(alloc, messages::ping())
        }
    }
}
