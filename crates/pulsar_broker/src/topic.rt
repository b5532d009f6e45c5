//! A topic: its messages, and how far each subscription has come.

ghost use Rattle.std.specs.Prelude.{◌≡◌, ◌==◌, ◌||◌, ◌++◌, [], ℕ, List, IfOk, OnOk, Some, length, map};
ghost use Rattle.std.specs.BTreeMap.{get_by_text};
ghost use Rattle.std.specs.BTreeSet.{contains};
ghost use Rattle.std.specs.List.Sorted.{IsStrictlySortedBy};
ghost use Rattle.std.specs.Ordering.{nat_cmp};
ghost use Rattle.std.specs.List.{flat_map};
ghost use Rattle.pulsar_frame.specs.Payload.{payload_values};
ghost use Rattle.pulsar_broker.specs.History.{bytes_for};
ghost use Rattle.pulsar_broker.specs.Kept.{consumer_in, is_listed, owed_on, topic_behind, topic_in};
ghost use Rattle.pulsar_broker.specs.State as meaning;
ghost use Rattle.pulsar_broker.specs.State.{owed_to, serving_of, set_named};

use crate::consumer::Consumer;
use crate::outbox::Outbox;
use pulsar_frame::Payload;
use pulsar_wire::NoMemory;
use std::alloc::Global;
use std::collections::{BTreeMap, BTreeSet};

/// `Earliest` of a subscribe.
const EARLIEST: i32 = 1;

/// A topic.
#[derive(Drop)]
pub struct Topic {
    pub messages: Vec<Payload>,
    /// How many messages each subscription has passed.
    pub cursors: BTreeMap<String, u64>,
    /// The seats of its consumers.
    pub seats: BTreeSet<u64>,
}

impl Topic {
    /// One without a message.
    pub fn new(alloc: Global) -> Topic
        ensures topic { topic_in result ≡ meaning.no_topic }
        ensures seats { result.seats.keys ≡ [] }
    {
        Topic {
            messages: Vec::new(alloc),
            cursors: BTreeMap::new(alloc),
            seats: BTreeSet::new(alloc),
        }
    }

    /// One more message. The answer is its place.
    pub fn store(&mut self, message: Payload) -> Result<u64, NoMemory>
        ensures place { IfOk result (λ n. n ≡ length (topic_in self.old).messages) }
        ensures after { OnOk result (topic_in self.new ≡ meaning.stored (payload_values message) (topic_in self.old)) }
        ensures seats { OnOk result (self.new.seats ≡ self.old.seats) }
    {
        let place = self.messages.len() as u64;
        self.messages.push(message)?;
        Ok(place)
    }

    /// The seats of its consumers, in order.
    pub fn seats(&self, alloc: Global) -> Result<Vec<u64>, NoMemory>
        ensures seats { IfOk result (λ v. (k : ℕ) → is_listed k v.items ≡ contains nat_cmp self.now.seats k) }
        ensures ordered { IfOk result (λ v. IsStrictlySortedBy nat_cmp v.items) }
    {
        Ok(self.seats.iter().copied().collect(alloc)?)
    }

    /// A consumer of a seat is listed, and a subscription that is new gets a cursor, at this position.
    pub fn admit(
        &mut self,
        alloc: Global,
        seat: u64,
        subscription: &str,
        position: Option<i32>,
    ) -> Result<(), NoMemory>
        ensures after { OnOk result (topic_in self.new ≡ meaning.opened subscription.now position (topic_in self.old)) }
        ensures seats { OnOk result ((k : ℕ) → contains nat_cmp self.new.seats k ≡ (contains nat_cmp self.old.seats k || (k == seat))) }
    {
        self.open(alloc, subscription, position)?;
        self.seats.insert(seat)?;
        Ok(())
    }

    /// A subscription that is new gets a cursor, at this position.
    fn open(
        &mut self,
        alloc: Global,
        subscription: &str,
        position: Option<i32>,
    ) -> Result<(), NoMemory>
        ensures after { OnOk result (topic_in self.new ≡ meaning.opened subscription.now position (topic_in self.old)) }
        ensures seats { OnOk result (self.new.seats ≡ self.old.seats) }
    {
        if self.cursors.contains_key(subscription) {
            return Ok(());
        }
        let cursor = self.begins_at(position);
        set_cursor(alloc, &mut self.cursors, subscription, cursor)
    }

    /// Where a new subscription stands.
    fn begins_at(&self, position: Option<i32>) -> u64
        ensures { result ≡ meaning.begins_at position (topic_in self.now).messages }
    {
        match position {
            Some(EARLIEST) => 0,
            _ => self.messages.len() as u64,
        }
    }

    /// A consumer is served its messages, from the cursor of its subscription on.
    pub fn serve(
        &mut self,
        alloc: Global,
        consumer: &mut Consumer,
        out: &mut Outbox,
    ) -> Result<(), NoMemory>
        ensures after { OnOk result (topic_in self.new ≡ topic_behind (consumer_in consumer.old)
            (serving_of (consumer_in consumer.old) (topic_in self.old)) (topic_in self.old)) }
        ensures consumer { OnOk result (consumer_in consumer.new
            ≡ record (consumer_in consumer.old) { spent = (serving_of (consumer_in consumer.old) (topic_in self.old)).spent }) }
        ensures given { OnOk result ((l : ℕ) → owed_on out.new l ≡ owed_on out.old l
            ++ flat_map (bytes_for l) (map (owed_to consumer.old.link) (serving_of (consumer_in consumer.old) (topic_in self.old)).messages)) }
        ensures seats { OnOk result (self.new.seats ≡ self.old.seats) }
    {
        let cursor = self.passed(consumer.subscription.as_str());
        let after = consumer.serve(alloc, cursor, &self.messages, out)?;
        if after == cursor {
            return Ok(());
        }
        let subscription = consumer.subscription.as_str();
        set_cursor(alloc, &mut self.cursors, subscription, after)?;
        Ok(())
    }

    /// How many messages a subscription has passed.
    fn passed(&self, subscription: &str) -> u64
        ensures { result ≡ meaning.passed subscription.now (topic_in self.now) }
    {
        match self.cursors.get(subscription) {
            Some(cursor) => *cursor,
            None => 0,
        }
    }
}

/// A subscription has passed so many messages.
#[tactic(auto, using(std::proofs::lemmas::Map::Text::text_keys))]
fn set_cursor(
    alloc: Global,
    cursors: &mut BTreeMap<String, u64>,
    subscription: &str,
    cursor: u64,
) -> Result<(), NoMemory>
    ensures { OnOk result ((s : List ℕ) → get_by_text cursors.new s ≡ set_named subscription.now (Some cursor) (λ t. get_by_text cursors.old t) s) }
{
    match cursors.get_mut(subscription) {
        Some(kept) => *kept = cursor,
        None => drop(cursors.insert(String::from_str(alloc, subscription)?, cursor)?),
    }
    Ok(())
}
