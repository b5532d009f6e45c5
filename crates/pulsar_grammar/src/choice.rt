//! Words that name a choice.

ghost use Rattle.std.specs.Prelude.{◌≡◌};
ghost use Rattle.pulsar_grammar.specs.Choices.{cumulative, flag, kind, mode, position, sub_type};

use crate::word::is;
use pulsar_wire::commands::enumerations::InitialPosition;
use pulsar_wire::{IoKind, Mode, SubType};

/// True or false.
pub fn flag(word: &[u8]) -> Option<bool>
    ensures { result ≡ flag word.now }
{
    if is(word, "true") {
        Some(true)
    } else if is(word, "false") {
        Some(false)
    } else {
        None
    }
}

/// Which topics of a namespace.
pub fn mode(word: &[u8]) -> Option<Mode>
    ensures { result ≡ mode word.now }
{
    if is(word, "persistent") {
        Some(Mode::Persistent)
    } else if is(word, "non-persistent") {
        Some(Mode::NonPersistent)
    } else if is(word, "all") {
        Some(Mode::All)
    } else {
        None
    }
}

/// How the consumers of a subscription share its messages.
pub fn sub_type(word: &[u8]) -> Option<SubType>
    ensures { result ≡ sub_type word.now }
{
    if is(word, "exclusive") {
        Some(SubType::Exclusive)
    } else if is(word, "shared") {
        Some(SubType::Shared)
    } else if is(word, "failover") {
        Some(SubType::Failover)
    } else if is(word, "key-shared") {
        Some(SubType::KeyShared)
    } else {
        None
    }
}

/// Where a new subscription begins: behind the last message, or at the first.
pub fn position(word: &[u8]) -> Option<InitialPosition>
    ensures { result ≡ position word.now }
{
    if is(word, "latest") {
        Some(InitialPosition::Latest)
    } else if is(word, "earliest") {
        Some(InitialPosition::Earliest)
    } else {
        None
    }
}

/// All up to the message, or each by itself.
pub fn cumulative(word: &[u8]) -> Option<bool>
    ensures { result ≡ cumulative word.now }
{
    if is(word, "individual") {
        Some(false)
    } else if is(word, "cumulative") {
        Some(true)
    } else {
        None
    }
}

/// Why a connection could not be opened.
pub fn kind(word: &[u8]) -> Option<IoKind>
    ensures { result ≡ kind word.now }
{
    if is(word, "refused") {
        Some(IoKind::ConnectionRefused)
    } else if is(word, "timedout") {
        Some(IoKind::TimedOut)
    } else if is(word, "other") {
        Some(IoKind::Other)
    } else {
        None
    }
}
