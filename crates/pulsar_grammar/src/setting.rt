//! What stands behind `set`.

ghost use Rattle.std.specs.Prelude.{◌≡◌, IfOk, map};
ghost use Rattle.std.specs.Option.{option_map};
ghost use Rattle.pulsar_grammar.specs.Grammar.{attempt_setting, auth, number_setting, request_setting, set, set_number, set_value, url};
ghost use Rattle.pulsar_grammar.specs.Parsed.{setting_of};

use crate::raw::credential;
use crate::word::{is, number, text};
use pulsar_messages::Authentication;
use pulsar_wire::NoMemory;
use std::alloc::Global;

/// An option of the client.
#[derive(Drop)]
pub enum Setting {
    /// The URL of the service.
    Url(String),
    /// The credential that each connection shows.
    Auth(Authentication),
    /// How many frames of a connection may be queued and not written.
    Outbound(usize),
    /// How long a request waits for its reply, in milliseconds.
    Timeout(u64),
    /// How long an attempt waits for its connection, in milliseconds.
    ConnectionTimeout(u64),
    /// How long a request waits before it is made again, in milliseconds.
    RetryDelay(u64),
    /// How often a request is made again.
    OpRetries(u32),
    /// How many retries follow an attempt that failed.
    Retries(u32),
    /// How long the first retry of an attempt waits, in milliseconds.
    MinBackoff(u64),
    /// How long a retry of an attempt waits at most, without its jitter, in milliseconds.
    MaxBackoff(u64),
    /// How often a ready connection is pinged, in milliseconds.
    KeepAlive(u64),
    /// How long a connection that nothing uses is kept, in milliseconds.
    MaxIdle(u64),
    /// What random numbers are drawn from.
    Seed(u64),
    /// The number of the first request of each connection.
    First(u64),
    /// The time of the client's start, in milliseconds since 1970.
    Now(u64),
}

/// What stands behind `set`.
pub fn set(alloc: Global, words: &[&[u8]]) -> Result<Option<Setting>, NoMemory>
    ensures { IfOk result (λ s. option_map setting_of s ≡ set (map (λ w. w.now) words.now)) }
{
    let Some((word, rest)) = words.split_first() else {
        return Ok(None);
    };
    if is(word, "url") {
        url(alloc, rest)
    } else if is(word, "auth") {
        auth(alloc, rest)
    } else {
        Ok(set_number(word, rest))
    }
}

/// `set url TEXT`
fn url(alloc: Global, words: &[&[u8]]) -> Result<Option<Setting>, NoMemory>
    ensures { IfOk result (λ s. option_map setting_of s ≡ url (map (λ w. w.now) words.now)) }
{
    let [word] = words else {
        return Ok(None);
    };
    match text(alloc, word)? {
        Some(text) => Ok(Some(Setting::Url(text))),
        None => Ok(None),
    }
}

/// `set auth TEXT WORD`
fn auth(alloc: Global, words: &[&[u8]]) -> Result<Option<Setting>, NoMemory>
    ensures { IfOk result (λ s. option_map setting_of s ≡ auth (map (λ w. w.now) words.now)) }
{
    let [name, shown] = words else {
        return Ok(None);
    };
    match credential(alloc, name, shown)? {
        Some(credential) => Ok(Some(Setting::Auth(credential))),
        None => Ok(None),
    }
}

/// `set OPTION NUMBER`
fn set_number(option: &[u8], words: &[&[u8]]) -> Option<Setting>
    ensures { option_map setting_of result ≡ set_number option.now (map (λ w. w.now) words.now) }
{
    let [word] = words else {
        return None;
    };
    set_value(option, number(word)?)
}

/// An option that is a number: of a client, of its attempts, or of its requests.
fn set_value(option: &[u8], value: u64) -> Option<Setting>
    ensures { option_map setting_of result ≡ set_value option.now value }
{
    if let Some(setting) = number_setting(option, value) {
        return Some(setting);
    }
    if let Some(setting) = attempt_setting(option, value) {
        return Some(setting);
    }
    request_setting(option, value)
}

/// An option that is a number.
fn number_setting(option: &[u8], number: u64) -> Option<Setting>
    ensures { option_map setting_of result ≡ number_setting option.now number }
{
    if is(option, "outbound") {
        Some(Setting::Outbound(number as usize))
    } else if is(option, "seed") {
        Some(Setting::Seed(number))
    } else if is(option, "first") {
        Some(Setting::First(number))
    } else if is(option, "now") {
        Some(Setting::Now(number))
    } else {
        None
    }
}

/// How connections are attempted and kept.
fn attempt_setting(option: &[u8], number: u64) -> Option<Setting>
    ensures { option_map setting_of result ≡ attempt_setting option.now number }
{
    if is(option, "retries") {
        Some(Setting::Retries(u32::try_from(number).ok()?))
    } else if is(option, "min-backoff") {
        Some(Setting::MinBackoff(number))
    } else if is(option, "max-backoff") {
        Some(Setting::MaxBackoff(number))
    } else if is(option, "connection-timeout") {
        Some(Setting::ConnectionTimeout(number))
    } else if is(option, "keep-alive") {
        Some(Setting::KeepAlive(number))
    } else if is(option, "max-idle") {
        Some(Setting::MaxIdle(number))
    } else {
        None
    }
}

/// How long requests wait, and how often they are made again.
fn request_setting(option: &[u8], number: u64) -> Option<Setting>
    ensures { option_map setting_of result ≡ request_setting option.now number }
{
    if is(option, "timeout") {
        Some(Setting::Timeout(number))
    } else if is(option, "retry-delay") {
        Some(Setting::RetryDelay(number))
    } else if is(option, "op-retries") {
        Some(Setting::OpRetries(u32::try_from(number).ok()?))
    } else {
        None
    }
}
