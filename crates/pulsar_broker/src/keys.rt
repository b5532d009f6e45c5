//! Producers and consumers by the link and the number that name them.

ghost use Rattle.std.specs.Prelude.{◌≡◌, ◌+◌, ℕ, IfNone, IfSome, IsSome, None, OnOk, Some, if◌then◌else◌, string_bytes};
ghost use Rattle.std.specs.BTreeMap.{btree_map_len, get};
ghost use Rattle.std.specs.Option.{is_some, option_copied, option_map};
ghost use Rattle.pulsar_broker.specs.Kept.{pair_cmp, producers_in, seats_in};
ghost use Rattle.pulsar_broker.specs.State.{set_at_pair, without_link};

use pulsar_wire::NoMemory;
use std::collections::BTreeMap;

/// A producer on a topic is set.
pub fn set_producer(
    producers: &mut BTreeMap<(u64, u64), String>,
    link: u64,
    number: u64,
    topic: String,
) -> Result<(), NoMemory>
    ensures { OnOk result ((l n : ℕ) → producers_in producers.new l n ≡ set_at_pair link number (Some (string_bytes topic)) (producers_in producers.old) l n) }
{
    drop(producers.insert((link, number), topic)?);
    Ok(())
}

/// There is no producer.
pub fn drop_producer(producers: &mut BTreeMap<(u64, u64), String>, link: u64, number: u64)
    ensures { (l n : ℕ) → producers_in producers.new l n ≡ set_at_pair link number None (producers_in producers.old) l n }
{
    drop(producers.remove(&(link, number)));
}

/// A link has no producer. It takes no memory.
pub fn drop_producers(producers: &mut BTreeMap<(u64, u64), String>, link: u64)
    ensures { (l n : ℕ) → producers_in producers.new l n ≡ without_link link (producers_in producers.old) l n }
{
    while let Some(number) = first_of(producers, link) {
        drop(producers.remove(&(link, number)));
    }
}

/// The first number that a link has, if it has one.
pub fn first_of<T>(map: &BTreeMap<(u64, u64), T>, link: u64) -> Option<u64>
    ensures has { IfSome result (λ n. IsSome (get pair_cmp map.now (link, n))) }
    ensures none { IfNone result ((n : ℕ) → get pair_cmp map.now (link, n) ≡ None) }
{
    match map.range((link, 0)..).next() {
        Some((key, _)) if key.0 == link => Some(key.1),
        _ => None,
    }
}

/// The topic of a producer.
pub fn topic_at(producers: &BTreeMap<(u64, u64), String>, link: u64, number: u64) -> Option<&String>
    ensures { option_map string_bytes (option_copied result) ≡ producers_in producers.now link number }
{
    producers.get(&(link, number))
}

/// The seat of a consumer.
pub fn seat_at(seat_of: &BTreeMap<(u64, u64), u64>, link: u64, number: u64) -> Option<u64>
    ensures { result ≡ seats_in seat_of.now link number }
{
    seat_of.get(&(link, number)).copied()
}

/// The seat of a consumer is set.
pub fn set_seat(
    seat_of: &mut BTreeMap<(u64, u64), u64>,
    link: u64,
    number: u64,
    seat: u64,
) -> Result<(), NoMemory>
    ensures { OnOk result ((l n : ℕ) → seats_in seat_of.new l n ≡ set_at_pair link number (Some seat) (seats_in seat_of.old) l n) }
{
    drop(seat_of.insert((link, number), seat)?);
    Ok(())
}

/// A consumer has no seat. The answer is the one that it had.
pub fn drop_seat(seat_of: &mut BTreeMap<(u64, u64), u64>, link: u64, number: u64) -> Option<u64>
    ensures seat { result ≡ seats_in seat_of.old link number }
    ensures left { (l n : ℕ) → seats_in seat_of.new l n ≡ set_at_pair link number None (seats_in seat_of.old) l n }
    ensures len { btree_map_len seat_of.new + (if is_some (seats_in seat_of.old link number) then 1 else 0) ≡ btree_map_len seat_of.old }
{
    seat_of.remove(&(link, number))
}
