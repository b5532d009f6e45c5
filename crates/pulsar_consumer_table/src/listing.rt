//! The tickets of consumers, by their numbers.

ghost use Rattle.std.specs.Prelude.{◌≡◌, ◌==◌, ◌&&◌, ◌||◌, not, ℕ, OnOk};
ghost use Rattle.std.specs.Option.{option_copied};
ghost use Rattle.pulsar_consumer_table.specs.KeptConsumers.{listed_at, tickets_of};
ghost use Rattle.pulsar_calls.specs.Places.{is_listed};

use pulsar_wire::error::NoMemory;
use std::alloc::Global;
use std::collections::{BTreeMap, BTreeSet};

/// The tickets of each number.
pub type Listing = BTreeMap<u64, BTreeSet<u64>>;

/// Those that are listed of a number, if any are.
pub fn listed(listing: &Listing, number: u64) -> Option<&BTreeSet<u64>>
    ensures { tickets_of (option_copied result) ≡ listed_at listing.now number }
{
    listing.get(&number)
}

/// A ticket is listed under a number.
pub fn list(listing: &mut Listing, alloc: Global, number: u64, ticket: u64) -> Result<(), NoMemory>
    ensures { OnOk result ((n t : ℕ) → is_listed t (listed_at listing.new n) ≡ (is_listed t (listed_at listing.old n) || ((n == number) && (t == ticket)))) }
{
    let mut tickets = match listing.remove(&number) {
        Some(tickets) => tickets,
        None => BTreeSet::new(alloc),
    };
    tickets.insert(ticket)?;
    listing.insert(number, tickets)?;
    Ok(())
}

/// A ticket is listed under a number no more.
pub fn unlist(listing: &mut Listing, number: u64, ticket: u64) -> Result<(), NoMemory>
    ensures { OnOk result ((n t : ℕ) → is_listed t (listed_at listing.new n)
        ≡ (is_listed t (listed_at listing.old n) && not ((n == number) && (t == ticket)))) }
{
    let Some(mut tickets) = listing.remove(&number) else {
        return Ok(());
    };
    tickets.remove(&ticket);
    if !tickets.is_empty() {
        listing.insert(number, tickets)?;
    }
    Ok(())
}
