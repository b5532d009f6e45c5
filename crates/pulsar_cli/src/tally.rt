//! What is counted of a demo.

ghost use Rattle.std.specs.Prelude.{if◌then◌else◌, length, bytes_eq, ◌≡◌, ◌∷◌, ◌+◌, ◌&&◌, [], ℕ, List, IfOk, OnOk, count_by, map, nat_le, nat_lt};
ghost use Rattle.std.specs.List.{list_any};
ghost use Rattle.std.specs.Option.{option_copied, option_map};
ghost use Rattle.pulsar_calls.specs.Content.{heard, said, shown};
ghost use Rattle.pulsar_calls.specs.Steps.{Step};
ghost use Rattle.pulsar_client.specs.History.{step};
ghost use Rattle.pulsar_cli.specs.Demo.{acked_by, consumer_ticket, count_if, is_done, is_sent, item_of, one_if_called, one_if_there, payload, right_bytes, right_count};
ghost use Rattle.pulsar_cli.specs.Played.{Counts, SameElse, item_in};

use crate::generated::is_payload;
use pulsar_client::{Answer, Call, Effect, Event, Handed};
use pulsar_wire::NoMemory;
use std::alloc::Global;

/// The ticket of the first send.
pub const FIRST_SEND: u64 = 2;

/// What is counted of a demo.
#[derive(Drop)]
pub struct Tally {
    alloc: Global,
    seed: u64,
    // the ticket of the consumer, which stands behind those of the sends
    pub consumer: u64,
    // how many calls there were, and how many items polls gave
    calls: u64,
    items: u64,
    pub sent: u64,
    pub received: u64,
    pub bytes: u64,
    pub acked: u64,
}

impl Tally {
    /// Nothing has happened in a demo of so many messages.
    pub fn new(alloc: Global, seed: u64, count: u64) -> Result<Tally, NoMemory>
        ensures { IfOk result (λ t. Counts seed count t []) }
    {
        Ok(Tally {
            alloc,
            seed,
            consumer: more(FIRST_SEND, count)?,
            calls: 0,
            items: 0,
            sent: 0,
            received: 0,
            bytes: 0,
            acked: 0,
        })
    }

    /// An event has had these effects.
    pub fn note(&mut self, event: &Event, effects: &[Effect]) -> Result<(), NoMemory>
        ensures { OnOk result ((seed count : ℕ) (h : List Step) → Counts seed count self.old h
            → Counts seed count self.new (record { event = heard event.now; effects = map shown effects.now } ∷ h)) }
    {
        self.sent = more(self.sent, sent_in(self.consumer, effects))?;
        self.acked = more(self.acked, acked_by(self.calls, event, effects))?;
        self.note_item_of(effects)?;
        self.calls = more(self.calls, calls_in(event))?;
        Ok(())
    }

    /// A step has had these effects, which may give an item.
    fn note_item_of(&mut self, effects: &[Effect]) -> Result<(), NoMemory>
        ensures items { OnOk result (self.new.items ≡ self.old.items + one_if_there (item_of (map shown effects.now))) }
        ensures received { OnOk result (self.new.received ≡ self.old.received + right_count self.old.seed self.old.items (item_of (map shown effects.now))) }
        ensures bytes { OnOk result (self.new.bytes ≡ self.old.bytes + right_bytes self.old.seed self.old.items (item_of (map shown effects.now))) }
        ensures rest { OnOk result (SameElse self.old self.new) }
    {
        match item_of(effects) {
            Some(item) => self.note_item(&item.payload.bytes),
            None => Ok(()),
        }
    }

    /// A poll gave an item with this data.
    fn note_item(&mut self, bytes: &[u8]) -> Result<(), NoMemory>
        ensures items { OnOk result (self.new.items ≡ self.old.items + 1) }
        ensures received { OnOk result (self.new.received ≡ self.old.received + count_if (bytes_eq bytes.now (payload self.old.seed self.old.items))) }
        ensures bytes { OnOk result (self.new.bytes
            ≡ self.old.bytes + (if bytes_eq bytes.now (payload self.old.seed self.old.items) then length bytes.now else 0)) }
        ensures rest { OnOk result (SameElse self.old self.new) }
    {
        if is_payload(self.alloc, self.seed, self.items, bytes)? {
            self.received = more(self.received, 1)?;
            self.bytes = more(self.bytes, bytes.len() as u64)?;
        }
        self.items = more(self.items, 1)?;
        Ok(())
    }
}

/// A count that has grown. One that is spent is want of memory.
fn more(count: u64, by: u64) -> Result<u64, NoMemory>
    ensures { IfOk result (λ n. n ≡ count + by) }
{
    count.checked_add(by).ok_or(NoMemory)
}

/// How many sends ended with a receipt.
fn sent_in(consumer: u64, effects: &[Effect]) -> u64
    ensures { (count : ℕ) → consumer ≡ consumer_ticket count → result ≡ count_by (is_sent count) (map shown effects.now) }
{
    effects
        .iter()
        .filter(|effect| is_sent(consumer, effect))
        .count() as u64
}

/// A send has ended with a receipt. The tickets of sends stand in front of the consumer's.
fn is_sent(consumer: u64, effect: &Effect) -> bool
    ensures { (count : ℕ) → consumer ≡ consumer_ticket count → result ≡ is_sent count (shown effect.now) }
{
    match effect {
        Effect::Ended {
            ticket,
            answer: Ok(Answer::Receipt(_)),
        } => FIRST_SEND <= *ticket && *ticket < consumer,
        _ => false,
    }
}

/// One where the event is an acknowledgement that has ended Done.
fn acked_by(ticket: u64, event: &Event, effects: &[Effect]) -> u64
    ensures { result ≡ acked_by ticket (heard event.now) (map shown effects.now) }
{
    match event {
        Event::Call(Call::Ack { .. }) => done_in(ticket, effects),
        _ => 0,
    }
}

/// One where the call of this ticket has ended Done.
fn done_in(ticket: u64, effects: &[Effect]) -> u64
    ensures { result ≡ count_if (list_any (is_done ticket) (map shown effects.now)) }
{
    let mut left = effects;
    while let Some((effect, rest)) = left.split_first() {
        if is_done(ticket, effect) {
            return 1;
        }
        left = rest;
    }
    0
}

/// The call of this ticket has ended Done.
fn is_done(ticket: u64, effect: &Effect) -> bool
    ensures { result ≡ is_done ticket (shown effect.now) }
{
    match effect {
        Effect::Ended {
            ticket: ended,
            answer: Ok(Answer::Done),
        } => *ended == ticket,
        _ => false,
    }
}

/// One for a call.
fn calls_in(event: &Event) -> u64
    ensures { result ≡ one_if_called (heard event.now) }
{
    match event {
        Event::Call(_) => 1,
        _ => 0,
    }
}

/// The item that a poll gave.
pub fn item_of(effects: &[Effect]) -> Option<&Handed>
    ensures { option_map item_in (option_copied result) ≡ item_of (map shown effects.now) }
{
    let mut left = effects;
    while let Some((effect, rest)) = left.split_first() {
        if let Some(item) = item_in(effect) {
            return Some(item);
        }
        left = rest;
    }
    None
}

/// An effect that gives an item.
fn item_in(effect: &Effect) -> Option<&Handed>
    ensures { option_map item_in (option_copied result) ≡ item_of (shown effect.now ∷ []) }
{
    match effect {
        Effect::Item { item, .. } => item.as_ref().ok(),
        _ => None,
    }
}
