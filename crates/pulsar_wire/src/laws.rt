//! What holds of all messages and commands. A function with an empty body has the law as its contract.

ghost use Rattle.std.specs.Prelude.{◌≡◌, ◌↔◌, IsTrue, MatchResult};
ghost use Rattle.std.specs.List.{fold};
ghost use Rattle.pulsar_wire.specs.Hashing.{id_words};
ghost use Rattle.pulsar_wire.specs.Orders.{id_order, key_order};
ghost use Rattle.pulsar_wire.specs.Views.{body_values, command_values, message_id_values};
ghost use Rattle.pulsar_wire.specs.Laws.{MessagesReadAgain, CommandsReadAgain, SettledCommandsReadAgain, OneSpelling, KnownBodiesAreRows, UnknownFieldsAreSkipped, UnknownBodiesAreSkipped};

use crate::commands::base::{BaseCommand, Body};
use crate::commands::ids::MessageIdData;
use crate::encoding::message::Message;
use crate::error::ConnectionError;
use crate::key::RequestKey;
use crate::wire::Wire;
use std::alloc::Global;
use std::cmp::Ordering;
use std::hash::{Hash, Hasher};

/// Writes a value and reads it again. What comes back is the value, where a command's kind is that of its body, and only
/// memory may be wanting.
pub fn round_trip<W: Wire>(alloc: Global, value: &W) -> Result<W, ConnectionError>
    ensures { MatchResult result (λ again. W.seen again ≡ W.reread (W.seen value.now))
        (λ e. e ≡ ConnectionError.NoMemory) }
{
    let mut bytes = Vec::new(alloc);
    value.encode(&mut bytes)?;
    W::decode(alloc, &bytes)
}

/// What is written is read again: in a row whose numbers are different, each value that fits is the meaning of its
/// spelling.
pub fn read_again()
    ensures { MessagesReadAgain }
{}

/// A command that is written is read again, with the kind of its body where it has one.
pub fn command_read_again()
    ensures { CommandsReadAgain }
{}

/// A command whose kind is that of its body is read again as it is.
pub fn settled_command_read_again()
    ensures { SettledCommandsReadAgain }
{}

/// No two commands are written alike, but for a kind that is not that of its body.
pub fn one_spelling()
    ensures { OneSpelling }
{}

/// No known body has two fields of one number.
pub fn known_bodies_are_rows()
    ensures { KnownBodiesAreRows }
{}

/// A field that a row does not have changes nothing, wherever it stands.
pub fn unknown_fields_are_skipped()
    ensures { UnknownFieldsAreSkipped }
{}

/// A field of a command that is neither its kind nor a known body changes nothing, wherever it stands.
pub fn unknown_bodies_are_skipped()
    ensures { UnknownBodiesAreSkipped }
{}

/// Messages, and commands by themselves, are equal exactly where all their fields are.
pub fn messages_are_equal<M: Message>(a: &M, b: &M) -> bool
    ensures { IsTrue result ↔ (M.values a.now ≡ M.values b.now) }
{
    a == b
}

/// Bodies are equal exactly where their commands and all fields of these are.
pub fn bodies_are_equal(a: &Body, b: &Body) -> bool
    ensures { IsTrue result ↔ (body_values a.now ≡ body_values b.now) }
{
    a == b
}

/// Commands are equal exactly where their kinds and their bodies are.
pub fn commands_are_equal(a: &BaseCommand, b: &BaseCommand) -> bool
    ensures { IsTrue result ↔ (command_values a.now ≡ command_values b.now) }
{
    a == b
}

/// Ids are equal exactly where their six fields are.
pub fn ids_are_equal(a: &MessageIdData, b: &MessageIdData) -> bool
    ensures { IsTrue result ↔ (message_id_values a.now ≡ message_id_values b.now) }
{
    a == b
}

/// An id gives its six fields to a hasher, whichever it is, and nothing else: ids whose fields are equal have one hash.
pub fn ids_hash_alike<H: Hasher>(
    a: &MessageIdData,
    b: &MessageIdData,
    first: &mut H,
    second: &mut H,
)
    ensures first { first.new ≡ fold H.write first.old (id_words (message_id_values a.now)) }
    ensures second { second.new ≡ fold H.write second.old (id_words (message_id_values b.now)) }
    ensures alike { message_id_values a.now ≡ message_id_values b.now → first.old ≡ second.old → first.new ≡ second.new }
{
    a.hash(first);
    b.hash(second);
}

/// Ids are ordered by their six fields.
#[tactic(auto, unfolding(crate::specs::Views::message_id_values))]
pub fn ids_are_ordered(a: &MessageIdData, b: &MessageIdData) -> Ordering
    ensures { result ≡ id_order (message_id_values a.now) (message_id_values b.now) }
{
    a.cmp(b)
}

/// Keys are ordered by their kind, and then by their numbers.
pub fn keys_are_ordered(a: &RequestKey, b: &RequestKey) -> Ordering
    ensures { result ≡ key_order a.now b.now }
{
    a.cmp(b)
}

/// Keys are equal exactly where their kinds and their numbers are.
pub fn keys_are_equal(a: &RequestKey, b: &RequestKey) -> bool
    ensures { IsTrue result ↔ (a.now ≡ b.now) }
{
    a == b
}
