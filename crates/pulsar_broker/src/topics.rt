//! The topics by their names. One that nobody has named yet is as one without a message.

ghost use Rattle.std.specs.Prelude.{◌≡◌, ◌==◌, ◌&&◌, ◌||◌, ◌++◌, ℕ, List, IfOk, OnOk, bytes_eq, length, map, not, string_bytes, true};
ghost use Rattle.std.specs.BTreeMap.{get_by_text};
ghost use Rattle.std.specs.List.{flat_map};
ghost use Rattle.std.specs.List.Sorted.{IsStrictlySortedBy};
ghost use Rattle.std.specs.Option.{is_some};
ghost use Rattle.std.specs.Ordering.{nat_cmp};
ghost use Rattle.pulsar_frame.specs.Payload.{payload_values};
ghost use Rattle.pulsar_broker.specs.History.{bytes_for};
ghost use Rattle.pulsar_broker.specs.Kept.{consumer_in, is_listed, lists, owed_on, serving_in, topic_behind, topics_in};
ghost use Rattle.pulsar_broker.specs.State.{opened, owed_to, set_named, stored};

use crate::consumer::Consumer;
use crate::outbox::Outbox;
use crate::topic::Topic;
use pulsar_frame::Payload;
use pulsar_wire::NoMemory;
use std::alloc::Global;
use std::collections::BTreeMap;

/// The topics by their names.
pub type Topics = BTreeMap<String, Topic>;

/// There is a topic of this name.
#[tactic(auto, using(std::proofs::lemmas::Map::Text::text_keys))]
fn make(alloc: Global, topics: &mut Topics, name: &str) -> Result<(), NoMemory>
    ensures same { OnOk result ((m : List ℕ) → topics_in topics.new m ≡ topics_in topics.old m) }
    ensures listed { OnOk result ((m : List ℕ) (k : ℕ) → lists topics.new m k ≡ lists topics.old m k) }
{
    if !topics.contains_key(name) {
        drop(topics.insert(String::from_str(alloc, name)?, Topic::new(alloc))?);
    }
    Ok(())
}

/// A message is stored. The answer is its place, and the seats of the topic's consumers in order.
#[tactic(auto, using(std::proofs::lemmas::Map::Text::text_keys))]
pub fn store_in(
    alloc: Global,
    topics: &mut Topics,
    name: &str,
    message: Payload,
) -> Result<(u64, Vec<u64>), NoMemory>
    ensures place { IfOk result (λ r. r.0 ≡ length (topics_in topics.old name.now).messages) }
    ensures topics { OnOk result ((m : List ℕ) → topics_in topics.new m
        ≡ set_named name.now (stored (payload_values message) (topics_in topics.old name.now)) (topics_in topics.old) m) }
    ensures listed { OnOk result ((m : List ℕ) (k : ℕ) → lists topics.new m k ≡ lists topics.old m k) }
    ensures seats { IfOk result (λ r. (k : ℕ) → is_listed k r.1.items ≡ lists topics.old name.now k) }
    ensures ordered { IfOk result (λ r. IsStrictlySortedBy nat_cmp r.1.items) }
{
    make(alloc, topics, name)?;
    let Some(topic) = topics.get_mut(name) else {
        return Err(NoMemory);
    };
    let seats = topic.seats(alloc)?;
    let place = topic.store(message)?;
    Ok((place, seats))
}

/// A consumer of a seat is listed, and a subscription that is new gets a cursor, at this position.
#[tactic(auto, using(std::proofs::lemmas::Map::Text::text_keys))]
pub fn list_in(
    alloc: Global,
    topics: &mut Topics,
    name: &str,
    subscription: &str,
    position: Option<i32>,
    seat: u64,
) -> Result<(), NoMemory>
    ensures topics { OnOk result ((m : List ℕ) → topics_in topics.new m
        ≡ set_named name.now (opened subscription.now position (topics_in topics.old name.now)) (topics_in topics.old) m) }
    ensures listed { OnOk result ((m : List ℕ) (k : ℕ) → lists topics.new m k ≡ (lists topics.old m k || (bytes_eq name.now m && (k == seat)))) }
{
    make(alloc, topics, name)?;
    let Some(topic) = topics.get_mut(name) else {
        return Err(NoMemory);
    };
    topic.admit(alloc, seat, subscription, position)?;
    Ok(())
}

/// The consumer of a seat is listed no more. It takes no memory.
#[tactic(auto, using(std::proofs::lemmas::Map::Text::text_keys))]
pub fn unlist_in(topics: &mut Topics, name: &str, seat: u64)
    ensures topics { (m : List ℕ) → topics_in topics.new m ≡ topics_in topics.old m }
    ensures listed { (m : List ℕ) (k : ℕ) → lists topics.new m k ≡ (lists topics.old m k && not (bytes_eq name.now m && (k == seat))) }
{
    if let Some(topic) = topics.get_mut(name) {
        let _ = topic.seats.remove(&seat);
    }
}

/// A consumer is served of its topic.
#[tactic(auto, using(std::proofs::lemmas::Map::Text::text_keys))]
pub fn serve_of(
    alloc: Global,
    topics: &mut Topics,
    consumer: &mut Consumer,
    out: &mut Outbox,
) -> Result<(), NoMemory>
    ensures topics { OnOk result ((name : List ℕ) → topics_in topics.new name ≡ set_named (string_bytes consumer.old.topic)
        (topic_behind (consumer_in consumer.old) (serving_in (consumer_in consumer.old) (topics_in topics.old))
        (topics_in topics.old (string_bytes consumer.old.topic))) (topics_in topics.old) name) }
    ensures listed { OnOk result ((name : List ℕ) (k : ℕ) → lists topics.new name k ≡ lists topics.old name k) }
    ensures consumer { OnOk result (consumer_in consumer.new ≡ record (consumer_in consumer.old)
        { spent = (serving_in (consumer_in consumer.old) (topics_in topics.old)).spent }) }
    ensures given { OnOk result ((l : ℕ) → owed_on out.new l ≡ owed_on out.old l
        ++ flat_map (bytes_for l) (map (owed_to consumer.old.link) (serving_in (consumer_in consumer.old) (topics_in topics.old)).messages)) }
{
    let Some(topic) = topics.get_mut(consumer.topic.as_str()) else {
        return Ok(());
    };
    topic.serve(alloc, consumer, out)?;
    Ok(())
}
