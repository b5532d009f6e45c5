//! What stands behind `call link LINK`.

ghost use Rattle.std.specs.Prelude.{◌≡◌, IfOk, map};
ghost use Rattle.std.specs.Option.{option_map};
ghost use Rattle.pulsar_wire.specs.Row.{each};
ghost use Rattle.pulsar_wire.specs.Views.{message_id_values};
ghost use Rattle.pulsar_messages.specs.Content.{authentication_values};
ghost use Rattle.pulsar_exchange.specs.RawCall.{words_of};
ghost use Rattle.pulsar_grammar.specs.Encoded.{id};
ghost use Rattle.pulsar_grammar.specs.Words.{optional};
ghost use Rattle.pulsar_grammar.specs.Parsed.{ids_of};
ghost use Rattle.pulsar_grammar.specs.RawLines.{ack, auth, close_consumer, close_producer, consumer_call, create_producer, credential, flow, last_id, lookup, member_call, partitions, ping, producer_on, raw_call, redeliver, schema, seek, send, stats, subscribe, topics_on, unsubscribe, with_id};

use crate::choice::{cumulative, flag, mode, sub_type};
use crate::consumer::who_subscribes;
use crate::encoded::id;
use crate::message::message;
use crate::producer::options;
use crate::word::{
    is, number, optional_bytes, optional_number, optional_text, small_number, text, word_bytes,
};
use pulsar_exchange::raw_call::RawCall;
use pulsar_messages::Authentication;
use pulsar_wire::{MessageIdData, NoMemory};
use std::alloc::Global;

/// What stands behind `call link LINK`.
pub fn raw_call(alloc: Global, words: &[&[u8]]) -> Result<Option<RawCall>, NoMemory>
    ensures { IfOk result (λ c. option_map words_of c ≡ raw_call (map (λ w. w.now) words.now)) }
{
    let Some((word, rest)) = words.split_first() else {
        return Ok(None);
    };
    if is(word, "ping") {
        Ok(ping(rest))
    } else if is(word, "auth") {
        auth(alloc, rest)
    } else if is(word, "lookup") {
        lookup(alloc, rest)
    } else if is(word, "partitions") {
        partitions(alloc, rest)
    } else if is(word, "topics") {
        topics_on(alloc, rest)
    } else if is(word, "schema") {
        schema(alloc, rest)
    } else {
        member_call(alloc, word, rest)
    }
}

/// A word that belongs to a producer, or to a consumer, and what follows it.
fn member_call(alloc: Global, word: &[u8], words: &[&[u8]]) -> Result<Option<RawCall>, NoMemory>
    ensures { IfOk result (λ c. option_map words_of c ≡ member_call word.now (map (λ w. w.now) words.now)) }
{
    if is(word, "producer") {
        create_producer(alloc, words)
    } else if is(word, "send") {
        send(alloc, words)
    } else if is(word, "close-producer") {
        Ok(close_producer(words))
    } else {
        consumer_call(alloc, word, words)
    }
}

/// A word that belongs to a consumer, and what follows it.
fn consumer_call(alloc: Global, word: &[u8], words: &[&[u8]]) -> Result<Option<RawCall>, NoMemory>
    ensures { IfOk result (λ c. option_map words_of c ≡ consumer_call word.now (map (λ w. w.now) words.now)) }
{
    if is(word, "subscribe") {
        subscribe(alloc, words)
    } else if is(word, "flow") {
        Ok(flow(words))
    } else if is(word, "ack") {
        ack(alloc, words)
    } else if is(word, "redeliver") {
        redeliver(alloc, words)
    } else if is(word, "seek") {
        seek(alloc, words)
    } else if is(word, "last-id") {
        Ok(last_id(words))
    } else if is(word, "stats") {
        Ok(stats(words))
    } else if is(word, "unsubscribe") {
        Ok(unsubscribe(words))
    } else if is(word, "close-consumer") {
        Ok(close_consumer(words))
    } else {
        Ok(None)
    }
}

/// `ping`
fn ping(words: &[&[u8]]) -> Option<RawCall>
    ensures { option_map words_of result ≡ ping (map (λ w. w.now) words.now) }
{
    match words {
        [] => Some(RawCall::SendPing),
        _ => None,
    }
}

/// `auth TEXT WORD`
fn auth(alloc: Global, words: &[&[u8]]) -> Result<Option<RawCall>, NoMemory>
    ensures { IfOk result (λ c. option_map words_of c ≡ auth (map (λ w. w.now) words.now)) }
{
    let [name, shown] = words else {
        return Ok(None);
    };
    match credential(alloc, name, shown)? {
        Some(auth) => Ok(Some(RawCall::AuthChallenge { auth })),
        None => Ok(None),
    }
}

/// `lookup TOPIC BOOL`
fn lookup(alloc: Global, words: &[&[u8]]) -> Result<Option<RawCall>, NoMemory>
    ensures { IfOk result (λ c. option_map words_of c ≡ lookup (map (λ w. w.now) words.now)) }
{
    let [topic, authoritative] = words else {
        return Ok(None);
    };
    let Some(topic) = text(alloc, topic)? else {
        return Ok(None);
    };
    let Some(authoritative) = flag(authoritative) else {
        return Ok(None);
    };
    Ok(Some(RawCall::LookupTopic {
        topic,
        authoritative,
    }))
}

/// `partitions TOPIC`
fn partitions(alloc: Global, words: &[&[u8]]) -> Result<Option<RawCall>, NoMemory>
    ensures { IfOk result (λ c. option_map words_of c ≡ partitions (map (λ w. w.now) words.now)) }
{
    let [topic] = words else {
        return Ok(None);
    };
    match text(alloc, topic)? {
        Some(topic) => Ok(Some(RawCall::LookupPartitionedTopic { topic })),
        None => Ok(None),
    }
}

/// `topics NAMESPACE MODE`
fn topics_on(alloc: Global, words: &[&[u8]]) -> Result<Option<RawCall>, NoMemory>
    ensures { IfOk result (λ c. option_map words_of c ≡ topics_on (map (λ w. w.now) words.now)) }
{
    let [namespace, word] = words else {
        return Ok(None);
    };
    let Some(namespace) = text(alloc, namespace)? else {
        return Ok(None);
    };
    let Some(mode) = mode(word) else {
        return Ok(None);
    };
    Ok(Some(RawCall::GetTopicsOfNamespace { namespace, mode }))
}

/// `schema TOPIC VERSION`
fn schema(alloc: Global, words: &[&[u8]]) -> Result<Option<RawCall>, NoMemory>
    ensures { IfOk result (λ c. option_map words_of c ≡ schema (map (λ w. w.now) words.now)) }
{
    let [topic, version] = words else {
        return Ok(None);
    };
    let Some(topic) = text(alloc, topic)? else {
        return Ok(None);
    };
    let Some(version) = optional_bytes(alloc, version)? else {
        return Ok(None);
    };
    Ok(Some(RawCall::GetSchema { topic, version }))
}

/// `producer TOPIC NUMBER NAME ..`
fn create_producer(alloc: Global, words: &[&[u8]]) -> Result<Option<RawCall>, NoMemory>
    ensures { IfOk result (λ c. option_map words_of c ≡ create_producer (map (λ w. w.now) words.now)) }
{
    let Some((topic, rest)) = words.split_first() else {
        return Ok(None);
    };
    producer_on(alloc, topic, rest)
}

fn producer_on(alloc: Global, topic: &[u8], words: &[&[u8]]) -> Result<Option<RawCall>, NoMemory>
    ensures { IfOk result (λ c. option_map words_of c ≡ producer_on topic.now (map (λ w. w.now) words.now)) }
{
    let [producer_id, word, rest @ ..] = words else {
        return Ok(None);
    };
    let Some(topic) = text(alloc, topic)? else {
        return Ok(None);
    };
    let Some(producer_id) = number(producer_id) else {
        return Ok(None);
    };
    let Some(name) = optional_text(alloc, word)? else {
        return Ok(None);
    };
    let Some(options) = options(alloc, rest)? else {
        return Ok(None);
    };
    Ok(Some(RawCall::CreateProducer {
        topic,
        producer_id,
        name,
        options,
    }))
}

/// `send NUMBER NAME NUMBER BOOL MESSAGE`
fn send(alloc: Global, words: &[&[u8]]) -> Result<Option<RawCall>, NoMemory>
    ensures { IfOk result (λ c. option_map words_of c ≡ send (map (λ w. w.now) words.now)) }
{
    let [producer_id, name, sequence_id, block, rest @ ..] = words else {
        return Ok(None);
    };
    let Some(producer_id) = number(producer_id) else {
        return Ok(None);
    };
    let Some(name) = text(alloc, name)? else {
        return Ok(None);
    };
    let Some(sequence_id) = number(sequence_id) else {
        return Ok(None);
    };
    let Some(block) = flag(block) else {
        return Ok(None);
    };
    let Some(message) = message(alloc, rest)? else {
        return Ok(None);
    };
    Ok(Some(RawCall::Send {
        producer_id,
        name,
        sequence_id,
        message: message.into(),
        block,
    }))
}

/// `close-producer NUMBER`
fn close_producer(words: &[&[u8]]) -> Option<RawCall>
    ensures { option_map words_of result ≡ close_producer (map (λ w. w.now) words.now) }
{
    let [producer_id] = words else {
        return None;
    };
    let producer_id = number(producer_id)?;
    Some(RawCall::CloseProducer { producer_id })
}

/// `subscribe TOPIC SUBSCRIPTION TYPE NUMBER ..`
fn subscribe(alloc: Global, words: &[&[u8]]) -> Result<Option<RawCall>, NoMemory>
    ensures { IfOk result (λ c. option_map words_of c ≡ subscribe (map (λ w. w.now) words.now)) }
{
    let [topic, subscription, kind, consumer_id, rest @ ..] = words else {
        return Ok(None);
    };
    let Some(topic) = text(alloc, topic)? else {
        return Ok(None);
    };
    let Some(subscription) = text(alloc, subscription)? else {
        return Ok(None);
    };
    let Some(sub_type) = sub_type(kind) else {
        return Ok(None);
    };
    let Some(consumer_id) = number(consumer_id) else {
        return Ok(None);
    };
    let Some(who) = who_subscribes(alloc, rest)? else {
        return Ok(None);
    };
    Ok(Some(RawCall::Subscribe {
        topic,
        subscription,
        sub_type,
        consumer_id,
        name: who.name,
        options: who.options,
    }))
}

/// `flow NUMBER NUMBER`
fn flow(words: &[&[u8]]) -> Option<RawCall>
    ensures { option_map words_of result ≡ flow (map (λ w. w.now) words.now) }
{
    let [consumer_id, permits] = words else {
        return None;
    };
    let consumer_id = number(consumer_id)?;
    let permits = small_number(permits)?;
    Some(RawCall::SendFlow {
        consumer_id,
        permits,
    })
}

/// `ack NUMBER TYPE ID..`
fn ack(alloc: Global, words: &[&[u8]]) -> Result<Option<RawCall>, NoMemory>
    ensures { IfOk result (λ c. option_map words_of c ≡ ack (map (λ w. w.now) words.now)) }
{
    let [consumer_id, kind, rest @ ..] = words else {
        return Ok(None);
    };
    let Some(consumer_id) = number(consumer_id) else {
        return Ok(None);
    };
    let Some(cumulative) = cumulative(kind) else {
        return Ok(None);
    };
    let Some(ids) = ids(alloc, rest)? else {
        return Ok(None);
    };
    Ok(Some(RawCall::SendAck {
        consumer_id,
        ids,
        cumulative,
    }))
}

/// `redeliver NUMBER ID..`
fn redeliver(alloc: Global, words: &[&[u8]]) -> Result<Option<RawCall>, NoMemory>
    ensures { IfOk result (λ c. option_map words_of c ≡ redeliver (map (λ w. w.now) words.now)) }
{
    let Some((consumer_id, rest)) = words.split_first() else {
        return Ok(None);
    };
    let Some(consumer_id) = number(consumer_id) else {
        return Ok(None);
    };
    match ids(alloc, rest)? {
        Some(ids) => Ok(Some(RawCall::SendRedeliver { consumer_id, ids })),
        None => Ok(None),
    }
}

/// `seek NUMBER ID NUMBER`
fn seek(alloc: Global, words: &[&[u8]]) -> Result<Option<RawCall>, NoMemory>
    ensures { IfOk result (λ c. option_map words_of c ≡ seek (map (λ w. w.now) words.now)) }
{
    let [consumer_id, id, time] = words else {
        return Ok(None);
    };
    let Some(consumer_id) = number(consumer_id) else {
        return Ok(None);
    };
    let Some(id) = optional_id(alloc, id)? else {
        return Ok(None);
    };
    let Some(time) = optional_number(time) else {
        return Ok(None);
    };
    Ok(Some(RawCall::Seek {
        consumer_id,
        id,
        time,
    }))
}

/// `last-id NUMBER`
fn last_id(words: &[&[u8]]) -> Option<RawCall>
    ensures { option_map words_of result ≡ last_id (map (λ w. w.now) words.now) }
{
    let [consumer_id] = words else {
        return None;
    };
    let consumer_id = number(consumer_id)?;
    Some(RawCall::GetLastMessageId { consumer_id })
}

/// `stats NUMBER`
fn stats(words: &[&[u8]]) -> Option<RawCall>
    ensures { option_map words_of result ≡ stats (map (λ w. w.now) words.now) }
{
    let [consumer_id] = words else {
        return None;
    };
    let consumer_id = number(consumer_id)?;
    Some(RawCall::GetConsumerStats { consumer_id })
}

/// `unsubscribe NUMBER`
fn unsubscribe(words: &[&[u8]]) -> Option<RawCall>
    ensures { option_map words_of result ≡ unsubscribe (map (λ w. w.now) words.now) }
{
    let [consumer_id] = words else {
        return None;
    };
    let consumer_id = number(consumer_id)?;
    Some(RawCall::Unsubscribe { consumer_id })
}

/// `close-consumer NUMBER`
fn close_consumer(words: &[&[u8]]) -> Option<RawCall>
    ensures { option_map words_of result ≡ close_consumer (map (λ w. w.now) words.now) }
{
    let [consumer_id] = words else {
        return None;
    };
    let consumer_id = number(consumer_id)?;
    Some(RawCall::CloseConsumer { consumer_id })
}

/// A credential: its method, and what it shows.
pub fn credential(
    alloc: Global,
    name: &[u8],
    shown: &[u8],
) -> Result<Option<Authentication>, NoMemory>
    ensures { IfOk result (λ a. option_map authentication_values a ≡ credential name.now shown.now) }
{
    let Some(name) = text(alloc, name)? else {
        return Ok(None);
    };
    let Some(auth_data) = word_bytes(alloc, shown)? else {
        return Ok(None);
    };
    Ok(Some(Authentication { name, auth_data }))
}

fn ids(alloc: Global, words: &[&[u8]]) -> Result<Option<Vec<MessageIdData>>, NoMemory>
    ensures { IfOk result (λ ids. option_map ids_of ids ≡ each id (map (λ w. w.now) words.now)) }
{
    let mut ids = Some(Vec::with_capacity(alloc, words.len())?);
    for word in words {
        ids = more(alloc, ids, word)?;
    }
    Ok(ids)
}

/// An id more, unless one was refused.
fn more(
    alloc: Global,
    ids: Option<Vec<MessageIdData>>,
    word: &[u8],
) -> Result<Option<Vec<MessageIdData>>, NoMemory>
    ensures { IfOk result (λ more. option_map ids_of more ≡ with_id (option_map ids_of ids) word.now) }
{
    let Some(mut ids) = ids else {
        return Ok(None);
    };
    let Some(id) = id(alloc, word)? else {
        return Ok(None);
    };
    ids.push(id)?;
    Ok(Some(ids))
}

/// An id, or `~` for none.
fn optional_id(alloc: Global, word: &[u8]) -> Result<Option<Option<MessageIdData>>, NoMemory>
    ensures { IfOk result (λ i. option_map (option_map message_id_values) i ≡ optional id word.now) }
{
    if is(word, "~") {
        return Ok(Some(None));
    }
    match id(alloc, word)? {
        Some(id) => Ok(Some(Some(id))),
        None => Ok(None),
    }
}
