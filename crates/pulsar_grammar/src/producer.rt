//! The words of a producer: its topic, its name, and how it is made and sends.

ghost use Rattle.std.specs.Prelude.{◌≡◌, IfOk, map, string_bytes};
ghost use Rattle.std.specs.Option.{option_map};
ghost use Rattle.pulsar_messages.specs.Content.{producer_options_values};
ghost use Rattle.pulsar_grammar.specs.Parsed.{producer_draft_of};
ghost use Rattle.pulsar_grammar.specs.ProducerWords.{access, all, batch, batch_timeout, blank, bytes, block, encrypted, meta, name, one, options, option_part, part, policy, producer, route, schema, topic, with_meta, with_word};
ghost use Rattle.pulsar_outgoing.specs.Wanted.{producer_wanted};

use crate::choice::flag;
use crate::encoded::schema_of;
use crate::message::cut;
use crate::word::{is, number, text};
use pulsar_messages::{ProducerOptions, RoutingPolicy};
use pulsar_outgoing::producer_builder::ProducerBuilder;
use pulsar_wire::NoMemory;
use std::alloc::Global;

/// What the words so far say: each part stands once, but for the metadata.
#[derive(Drop)]
pub struct Draft {
    pub builder: ProducerBuilder,
    pub has_block: bool,
}

/// The producer of these words.
pub fn producer(alloc: Global, words: &[&[u8]]) -> Result<Option<ProducerBuilder>, NoMemory>
    ensures { IfOk result (λ p. option_map producer_wanted p ≡ producer (map (λ w. w.now) words.now)) }
{
    match all(alloc, words)? {
        Some(draft) => Ok(Some(draft.builder)),
        None => Ok(None),
    }
}

/// The options of these words, which name no topic and no producer.
pub fn options(alloc: Global, words: &[&[u8]]) -> Result<Option<ProducerOptions>, NoMemory>
    ensures { IfOk result (λ o. option_map producer_options_values o ≡ options (map (λ w. w.now) words.now)) }
{
    let Some(draft) = all(alloc, words)? else {
        return Ok(None);
    };
    let builder = draft.builder;
    if builder.topic.is_some() || builder.name.is_some() {
        return Ok(None);
    }
    Ok(Some(builder.options))
}

/// What all words say.
fn all(alloc: Global, words: &[&[u8]]) -> Result<Option<Draft>, NoMemory>
    ensures { IfOk result (λ d. option_map producer_draft_of d ≡ all blank (map (λ w. w.now) words.now)) }
{
    let mut draft = Some(blank(alloc));
    for word in words {
        draft = more(alloc, draft, word)?;
    }
    Ok(draft)
}

/// A word more, unless one was refused.
fn more(alloc: Global, draft: Option<Draft>, word: &[u8]) -> Result<Option<Draft>, NoMemory>
    ensures { IfOk result (λ d. option_map producer_draft_of d ≡ with_word (option_map producer_draft_of draft) word.now) }
{
    match draft {
        Some(draft) => {
            let draft = one(alloc, draft, word)?;
            Ok(draft)
        }
        None => Ok(None),
    }
}

fn blank(alloc: Global) -> Draft
    ensures { producer_draft_of result ≡ blank }
{
    Draft {
        builder: ProducerBuilder::new(alloc),
        has_block: false,
    }
}

/// A word more.
fn one(alloc: Global, draft: Draft, word: &[u8]) -> Result<Option<Draft>, NoMemory>
    ensures { IfOk result (λ d. option_map producer_draft_of d ≡ one (producer_draft_of draft) word.now) }
{
    let Some((name, value)) = cut(word) else {
        return Ok(None);
    };
    part(alloc, draft, name, value)
}

fn part(alloc: Global, draft: Draft, name: &[u8], value: &[u8]) -> Result<Option<Draft>, NoMemory>
    ensures { IfOk result (λ d. option_map producer_draft_of d ≡ part (producer_draft_of draft) name.now value.now) }
{
    if is(name, "topic") {
        with_topic(alloc, draft, value)
    } else if is(name, "name") {
        with_name(alloc, draft, value)
    } else {
        option_part(alloc, draft, name, value)
    }
}

/// A word of its options.
fn option_part(
    alloc: Global,
    draft: Draft,
    name: &[u8],
    value: &[u8],
) -> Result<Option<Draft>, NoMemory>
    ensures { IfOk result (λ d. option_map producer_draft_of d ≡ option_part (producer_draft_of draft) name.now value.now) }
{
    if is(name, "batch") {
        Ok(batch(draft, value))
    } else if is(name, "bytes") {
        Ok(bytes(draft, value))
    } else if is(name, "batch-timeout") {
        Ok(batch_timeout(draft, value))
    } else if is(name, "access") {
        Ok(access(draft, value))
    } else if is(name, "block") {
        Ok(block(draft, value))
    } else if is(name, "route") {
        Ok(route(draft, value))
    } else if is(name, "encrypted") {
        Ok(encrypted(draft, value))
    } else if is(name, "meta") {
        meta(alloc, draft, value)
    } else if is(name, "schema") {
        schema(alloc, draft, value)
    } else {
        Ok(None)
    }
}

/// `topic=TEXT`
fn with_topic(alloc: Global, draft: Draft, word: &[u8]) -> Result<Option<Draft>, NoMemory>
    ensures { IfOk result (λ d. option_map producer_draft_of d ≡ topic (producer_draft_of draft) word.now) }
{
    if draft.builder.topic.is_some() {
        return Ok(None);
    }
    let Some(value) = text(alloc, word)? else {
        return Ok(None);
    };
    let mut draft = draft;
    draft.builder.topic = Some(value);
    Ok(Some(draft))
}

/// `name=TEXT`
fn with_name(alloc: Global, draft: Draft, word: &[u8]) -> Result<Option<Draft>, NoMemory>
    ensures { IfOk result (λ d. option_map producer_draft_of d ≡ name (producer_draft_of draft) word.now) }
{
    if draft.builder.name.is_some() {
        return Ok(None);
    }
    let Some(value) = text(alloc, word)? else {
        return Ok(None);
    };
    let mut draft = draft;
    draft.builder.name = Some(value);
    Ok(Some(draft))
}

/// `batch=NUMBER`
fn batch(draft: Draft, word: &[u8]) -> Option<Draft>
    ensures { option_map producer_draft_of result ≡ batch (producer_draft_of draft) word.now }
{
    if draft.builder.options.batch_size.is_some() {
        return None;
    }
    let value = u32::try_from(number(word)?).ok()?;
    let mut draft = draft;
    draft.builder.options.batch_size = Some(value);
    Some(draft)
}

/// `bytes=NUMBER`
fn bytes(draft: Draft, word: &[u8]) -> Option<Draft>
    ensures { option_map producer_draft_of result ≡ bytes (producer_draft_of draft) word.now }
{
    if draft.builder.options.batch_byte_size.is_some() {
        return None;
    }
    let value = number(word)? as usize;
    let mut draft = draft;
    draft.builder.options.batch_byte_size = Some(value);
    Some(draft)
}

/// `batch-timeout=NUMBER`
fn batch_timeout(draft: Draft, word: &[u8]) -> Option<Draft>
    ensures { option_map producer_draft_of result ≡ batch_timeout (producer_draft_of draft) word.now }
{
    if draft.builder.options.batch_timeout.is_some() {
        return None;
    }
    let value = number(word)?;
    let mut draft = draft;
    draft.builder.options.batch_timeout = Some(value);
    Some(draft)
}

/// `access=NUMBER`
fn access(draft: Draft, word: &[u8]) -> Option<Draft>
    ensures { option_map producer_draft_of result ≡ access (producer_draft_of draft) word.now }
{
    if draft.builder.options.access_mode.is_some() {
        return None;
    }
    let value = i32::try_from(number(word)?).ok()?;
    let mut draft = draft;
    draft.builder.options.access_mode = Some(value);
    Some(draft)
}

/// `block=BOOL`
fn block(draft: Draft, word: &[u8]) -> Option<Draft>
    ensures { option_map producer_draft_of result ≡ block (producer_draft_of draft) word.now }
{
    if draft.has_block {
        return None;
    }
    let value = flag(word)?;
    let mut draft = draft;
    draft.builder.options.block_queue_if_full = value;
    draft.has_block = true;
    Some(draft)
}

/// `route=POLICY`
fn route(draft: Draft, word: &[u8]) -> Option<Draft>
    ensures { option_map producer_draft_of result ≡ route (producer_draft_of draft) word.now }
{
    if draft.builder.options.routing_policy.is_some() {
        return None;
    }
    let value = policy(word)?;
    let mut draft = draft;
    draft.builder.options.routing_policy = Some(value);
    Some(draft)
}

/// `round`, `single`, or `custom:NUMBER`
fn policy(word: &[u8]) -> Option<RoutingPolicy>
    ensures { result ≡ policy word.now }
{
    if is(word, "round") {
        Some(RoutingPolicy::RoundRobin)
    } else if is(word, "single") {
        Some(RoutingPolicy::Single)
    } else {
        let index = number(word.strip_prefix("custom:".as_bytes())?)?;
        Some(RoutingPolicy::Custom(index as usize))
    }
}

/// `encrypted=BOOL`
fn encrypted(draft: Draft, word: &[u8]) -> Option<Draft>
    ensures { option_map producer_draft_of result ≡ encrypted (producer_draft_of draft) word.now }
{
    if draft.builder.options.encrypted.is_some() {
        return None;
    }
    let value = flag(word)?;
    let mut draft = draft;
    draft.builder.options.encrypted = Some(value);
    Some(draft)
}

/// `meta=NAME=VALUE`
fn meta(alloc: Global, draft: Draft, word: &[u8]) -> Result<Option<Draft>, NoMemory>
    ensures { IfOk result (λ d. option_map producer_draft_of d ≡ meta (producer_draft_of draft) word.now) }
{
    let Some((name, value)) = cut(word) else {
        return Ok(None);
    };
    let Some(name) = text(alloc, name)? else {
        return Ok(None);
    };
    let Some(value) = text(alloc, value)? else {
        return Ok(None);
    };
    Ok(Some(with_meta(draft, name, value)?))
}

/// A name of the metadata has this value.
fn with_meta(draft: Draft, name: String, value: String) -> Result<Draft, NoMemory>
    ensures { IfOk result (λ d. producer_draft_of d
        ≡ with_meta (producer_draft_of draft) (string_bytes name) (string_bytes value)) }
{
    let mut draft = draft;
    draft.builder.options.metadata.insert(name, value)?;
    Ok(draft)
}

/// `schema=HEX`
fn schema(alloc: Global, draft: Draft, word: &[u8]) -> Result<Option<Draft>, NoMemory>
    ensures { IfOk result (λ d. option_map producer_draft_of d ≡ schema (producer_draft_of draft) word.now) }
{
    if draft.builder.options.schema.is_some() {
        return Ok(None);
    }
    let Some(value) = schema_of(alloc, word)? else {
        return Ok(None);
    };
    let mut draft = draft;
    draft.builder.options.schema = Some(value);
    Ok(Some(draft))
}
