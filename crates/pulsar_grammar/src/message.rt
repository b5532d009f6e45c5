//! The words of a message that is sent.

ghost use Rattle.std.specs.Prelude.{◌≡◌, [], IfOk, Some, map, string_bytes};
ghost use Rattle.std.specs.Option.{option_map};
ghost use Rattle.pulsar_messages.specs.Content.{message_content};
ghost use Rattle.pulsar_grammar.specs.MessageWords.{all, all_messages, blank, cluster, cut, delivery, event_time, message, messages, minus, one, ordering_key, part, parts, partition_key, payload, plus, property, schema_version, signed, with_message, with_property, with_word};
ghost use Rattle.pulsar_grammar.specs.Parsed.{draft_of};

use crate::word::{find, is, number, text, word_bytes};
use pulsar_messages::Message;
use pulsar_wire::NoMemory;
use std::alloc::{AllocError, Global};

/// What the words so far say.
#[derive(Drop)]
pub struct Draft {
    pub message: Message,
    pub has_data: bool,
}

/// The message of these words.
pub fn message(alloc: Global, words: &[&[u8]]) -> Result<Option<Message>, NoMemory>
    ensures { IfOk result (λ m. option_map message_content m ≡ message (map (λ w. w.now) words.now)) }
{
    match all(alloc, words)? {
        Some(draft) => Ok(Some(draft.into_message())),
        None => Ok(None),
    }
}

/// What all words say.
fn all(alloc: Global, words: &[&[u8]]) -> Result<Option<Draft>, NoMemory>
    ensures { IfOk result (λ d. option_map draft_of d ≡ all blank (map (λ w. w.now) words.now)) }
{
    let mut draft = Some(blank(alloc));
    for word in words {
        draft = more(alloc, draft, word)?;
    }
    Ok(draft)
}

/// A word more, unless one was refused.
fn more(alloc: Global, draft: Option<Draft>, word: &[u8]) -> Result<Option<Draft>, NoMemory>
    ensures { IfOk result (λ d. option_map draft_of d ≡ with_word (option_map draft_of draft) word.now) }
{
    match draft {
        Some(draft) => {
            let draft = one(alloc, draft, word)?;
            Ok(draft)
        }
        None => Ok(None),
    }
}

impl Draft {
    fn into_message(self) -> Message
        ensures { message_content result ≡ (draft_of self).message }
    {
        let Draft {
            message,
            has_data: _,
        } = self;
        message
    }
}

fn blank(alloc: Global) -> Draft
    ensures { draft_of result ≡ blank }
{
    Draft {
        message: Message::new(alloc),
        has_data: false,
    }
}

/// A word more.
fn one(alloc: Global, draft: Draft, word: &[u8]) -> Result<Option<Draft>, NoMemory>
    ensures { IfOk result (λ d. option_map draft_of d ≡ one (draft_of draft) word.now) }
{
    let Some((name, value)) = cut(word) else {
        return Ok(None);
    };
    part(alloc, draft, name, value)
}

fn part(alloc: Global, draft: Draft, name: &[u8], value: &[u8]) -> Result<Option<Draft>, NoMemory>
    ensures { IfOk result (λ d. option_map draft_of d ≡ part (draft_of draft) name.now value.now) }
{
    if is(name, "data") {
        payload(alloc, draft, value)
    } else if is(name, "pk") {
        partition_key(alloc, draft, value)
    } else if is(name, "ok") {
        ordering_key(alloc, draft, value)
    } else if is(name, "et") {
        Ok(event_time(draft, value))
    } else if is(name, "sv") {
        schema_version(alloc, draft, value)
    } else if is(name, "at") {
        Ok(delivery(draft, value))
    } else if is(name, "rep") {
        cluster(alloc, draft, value)
    } else if is(name, "prop") {
        property(alloc, draft, value)
    } else {
        Ok(None)
    }
}

/// `data=WORD`
fn payload(alloc: Global, draft: Draft, word: &[u8]) -> Result<Option<Draft>, NoMemory>
    ensures { IfOk result (λ d. option_map draft_of d ≡ payload (draft_of draft) word.now) }
{
    if draft.has_data {
        return Ok(None);
    }
    let Some(value) = word_bytes(alloc, word)? else {
        return Ok(None);
    };
    let mut draft = draft;
    draft.message.payload = value;
    draft.has_data = true;
    Ok(Some(draft))
}

/// `pk=TEXT`
fn partition_key(alloc: Global, draft: Draft, word: &[u8]) -> Result<Option<Draft>, NoMemory>
    ensures { IfOk result (λ d. option_map draft_of d ≡ partition_key (draft_of draft) word.now) }
{
    if draft.message.partition_key.is_some() {
        return Ok(None);
    }
    let Some(value) = text(alloc, word)? else {
        return Ok(None);
    };
    let mut draft = draft;
    draft.message.partition_key = Some(value);
    Ok(Some(draft))
}

/// `ok=WORD`
fn ordering_key(alloc: Global, draft: Draft, word: &[u8]) -> Result<Option<Draft>, NoMemory>
    ensures { IfOk result (λ d. option_map draft_of d ≡ ordering_key (draft_of draft) word.now) }
{
    if draft.message.ordering_key.is_some() {
        return Ok(None);
    }
    let Some(value) = word_bytes(alloc, word)? else {
        return Ok(None);
    };
    let mut draft = draft;
    draft.message.ordering_key = Some(value);
    Ok(Some(draft))
}

/// `et=NUMBER`
fn event_time(draft: Draft, word: &[u8]) -> Option<Draft>
    ensures { option_map draft_of result ≡ event_time (draft_of draft) word.now }
{
    if draft.message.event_time.is_some() {
        return None;
    }
    let value = number(word)?;
    let mut draft = draft;
    draft.message.event_time = Some(value);
    Some(draft)
}

/// `sv=WORD`
fn schema_version(alloc: Global, draft: Draft, word: &[u8]) -> Result<Option<Draft>, NoMemory>
    ensures { IfOk result (λ d. option_map draft_of d ≡ schema_version (draft_of draft) word.now) }
{
    if draft.message.schema_version.is_some() {
        return Ok(None);
    }
    let Some(value) = word_bytes(alloc, word)? else {
        return Ok(None);
    };
    let mut draft = draft;
    draft.message.schema_version = Some(value);
    Ok(Some(draft))
}

/// `at=NUMBER`
fn delivery(draft: Draft, word: &[u8]) -> Option<Draft>
    ensures { option_map draft_of result ≡ delivery (draft_of draft) word.now }
{
    if draft.message.deliver_at_time.is_some() {
        return None;
    }
    let value = signed(word)?;
    let mut draft = draft;
    draft.message.deliver_at_time = Some(value);
    Some(draft)
}

/// `rep=TEXT`
fn cluster(alloc: Global, draft: Draft, word: &[u8]) -> Result<Option<Draft>, NoMemory>
    ensures { IfOk result (λ d. option_map draft_of d ≡ cluster (draft_of draft) word.now) }
{
    let Some(cluster) = text(alloc, word)? else {
        return Ok(None);
    };
    let mut draft = draft;
    draft.message.replicate_to.push(cluster)?;
    Ok(Some(draft))
}

/// `prop=TEXT=TEXT`
fn property(alloc: Global, draft: Draft, word: &[u8]) -> Result<Option<Draft>, NoMemory>
    ensures { IfOk result (λ d. option_map draft_of d ≡ property (draft_of draft) word.now) }
{
    let Some((name, value)) = cut(word) else {
        return Ok(None);
    };
    let Some(name) = text(alloc, name)? else {
        return Ok(None);
    };
    let Some(value) = text(alloc, value)? else {
        return Ok(None);
    };
    Ok(Some(with_property(draft, name, value)?))
}

/// A property goes to the place of its name.
fn with_property(draft: Draft, name: String, value: String) -> Result<Draft, NoMemory>
    ensures { IfOk result (λ d. draft_of d
        ≡ with_property (draft_of draft) (string_bytes name) (string_bytes value)) }
{
    let mut draft = draft;
    draft.message.properties.insert(name, value)?;
    Ok(draft)
}

/// What stands in front of the first `=`, and behind it.
pub fn cut(word: &[u8]) -> Option<(&[u8], &[u8])>
    ensures { option_map (λ p. (p.0.now, p.1.now)) result ≡ cut word.now }
{
    let Some(at) = find(word, b'=') else {
        return None;
    };
    Some((&word[..at], &word[at + 1..]))
}

/// A number of 64 bits that may have a sign.
fn signed(word: &[u8]) -> Option<i64>
    ensures { result ≡ signed word.now }
{
    match word.split_first() {
        Some((b'-', digits)) => minus(number(digits)?),
        Some(_) => plus(number(word)?),
        None => None,
    }
}

fn plus(number: u64) -> Option<i64>
    ensures { result ≡ plus number }
{
    i64::try_from(number).ok()
}

fn minus(number: u64) -> Option<i64>
    ensures { result ≡ minus number }
{
    i64::try_from(-i128::from(number)).ok()
}

/// Messages with a `/` between two.
pub fn messages(alloc: Global, words: &[&[u8]]) -> Result<Option<Vec<Message>>, NoMemory>
    ensures { IfOk result (λ ms. option_map (λ v. map message_content v.items) ms ≡ messages (map (λ w. w.now) words.now)) }
{
    let parts = parts(alloc, words)?;
    all_messages(alloc, &parts)
}

/// The words between two `/`.
fn parts<'a>(alloc: Global, words: &'a [&'a [u8]]) -> Result<Vec<&'a [&'a [u8]]>, AllocError>
    ensures { IfOk result (λ ps. map (λ p. map (λ w. w.now) p.now) ps.items ≡ parts (map (λ w. w.now) words.now)) }
{
    words.split(|word| is(word, "/")).collect(alloc)
}

/// A message of each of these words.
fn all_messages(alloc: Global, parts: &[&[&[u8]]]) -> Result<Option<Vec<Message>>, NoMemory>
    ensures { IfOk result (λ ms. option_map (λ v. map message_content v.items) ms
        ≡ all_messages (Some []) (map (λ p. map (λ w. w.now) p.now) parts.now)) }
{
    let mut messages = Some(Vec::new(alloc));
    for part in parts {
        messages = with_message(alloc, messages, part)?;
    }
    Ok(messages)
}

/// A message more, unless one was refused.
fn with_message(
    alloc: Global,
    messages: Option<Vec<Message>>,
    words: &[&[u8]],
) -> Result<Option<Vec<Message>>, NoMemory>
    ensures { IfOk result (λ ms. option_map (λ v. map message_content v.items) ms
        ≡ with_message (option_map (λ v. map message_content v.items) messages) (map (λ w. w.now) words.now)) }
{
    let Some(mut messages) = messages else {
        return Ok(None);
    };
    let Some(message) = message(alloc, words)? else {
        return Ok(None);
    };
    messages.push(message)?;
    Ok(Some(messages))
}
