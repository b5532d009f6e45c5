//! Which connection an address has, and where the series of a connection stands.

ghost use Rattle.std.specs.Prelude.{◌≡◌, ℕ, List, Some, None, IfOk, OnOk, string_bytes};
ghost use Rattle.std.specs.BTreeMap.{get, get_by_text};
ghost use Rattle.std.specs.Option.{option_copied, option_map};
ghost use Rattle.std.specs.Ordering.{nat_cmp};
ghost use Rattle.pulsar_discovery.specs.Series as meaning;
ghost use Rattle.pulsar_discovery.specs.Series.{IsSeries, series};

use pulsar_addresses::content::Address;
use pulsar_wire::error::NoMemory;
use std::alloc::Global;
use std::collections::BTreeMap;

/// Where the series of an address stands.
#[derive(Clone, Copy)]
pub enum Phase {
    /// An attempt runs, behind so many retries.
    Runs { retries: u32 },
    /// The next attempt is waited for.
    Pauses { retries: u32 },
    /// A connection is ready, which was last got at this moment.
    Serves { got: u64 },
}

/// A connection's address, and where its series stands.
#[derive(Drop)]
pub struct Seat {
    pub address: Address,
    pub phase: Phase,
}

/// The series of addresses. A connection is found by its address, and its address by the connection.
#[derive(Drop)]
pub struct Addresses {
    alloc: Global,
    /// The newest connection of an address, by the address's key.
    link_of: BTreeMap<String, u64>,
    /// The connections that have not ended, and those whose next attempt is waited for.
    seats: BTreeMap<u64, Seat>,
}

impl Addresses {
    /// No series.
    pub fn new(alloc: Global) -> Addresses
        ensures { IsSeries (series result) meaning.no_series }
    {
        Addresses {
            alloc,
            link_of: BTreeMap::new(alloc),
            seats: BTreeMap::new(alloc),
        }
    }

    /// Where the series of an address stands, and its newest connection.
    pub fn standing(&self, address: &Address) -> Result<Option<(u64, Phase)>, NoMemory>
        ensures { IfOk result (λ s. s ≡ meaning.standing address.now (series self.now)) }
    {
        let key = address.key(self.alloc)?;
        Ok(match self.link_of.get(key.as_str()) {
            Some(link) => standing_of(&self.seats, *link),
            None => None,
        })
    }

    /// Where the series of a connection stands.
    pub fn phase(&self, link: u64) -> Option<Phase>
        ensures { result ≡ option_map (λ s. s.phase) ((series self.now).seat link) }
    {
        match self.seats.get(&link) {
            Some(seat) => Some(seat.phase),
            None => None,
        }
    }

    /// An attempt of this number runs, behind so many retries.
    pub fn begin(&mut self, link: u64, address: Address, retries: u32) -> Result<(), NoMemory>
        ensures { OnOk result (IsSeries (series self.new) (meaning.begun link address retries (series self.old))) }
    {
        let key = address.key(self.alloc)?;
        let phase = Phase::Runs { retries };
        set_link(&mut self.link_of, key, Some(link))?;
        set(&mut self.seats, link, Some(Seat { address, phase }))
    }

    /// The series of a connection is taken out.
    pub fn take(&mut self, link: u64) -> Option<Seat>
        ensures seat { result ≡ (series self.old).seat link }
        ensures left { IsSeries (series self.new) (meaning.without link (series self.old)) }
    {
        self.seats.remove(&link)
    }

    /// Where a series goes on it stands in this phase, and where not its address is free.
    pub fn put(&mut self, link: u64, address: Address, phase: Option<Phase>) -> Result<(), NoMemory>
        ensures { OnOk result (IsSeries (series self.new) (meaning.reseated link address phase (series self.old))) }
    {
        match phase {
            Some(phase) => set(&mut self.seats, link, Some(Seat { address, phase })),
            None => self.free(link, address),
        }
    }

    /// The series of a connection is over.
    fn free(&mut self, link: u64, address: Address) -> Result<(), NoMemory>
        ensures { OnOk result (IsSeries (series self.new) (meaning.reseated link address None (series self.old))) }
    {
        let key = address.key(self.alloc)?;
        set(&mut self.seats, link, None)?;
        set_link(&mut self.link_of, key, None)
    }
}

/// Where the series of a connection stands.
fn standing_of(seats: &BTreeMap<u64, Seat>, link: u64) -> Option<(u64, Phase)>
    ensures { result ≡ meaning.standing_at (Some link) (λ l. get nat_cmp seats.now l) }
{
    match seats.get(&link) {
        Some(seat) => Some((link, seat.phase)),
        None => None,
    }
}

/// What is known under a number is set, or forgotten.
pub fn set<T: Drop>(
    all: &mut BTreeMap<u64, T>,
    number: u64,
    value: Option<T>,
) -> Result<(), NoMemory>
    ensures { OnOk result ((n : ℕ) → get nat_cmp all.new n ≡ meaning.put_at number value (λ m. get nat_cmp all.old m) n) }
{
    match value {
        None => {
            let _ = all.remove(&number);
        }
        Some(value) => {
            all.insert(number, value)?;
        }
    }
    Ok(())
}

/// The newest connection of an address is set, or forgotten.
#[tactic(auto, using(std::proofs::lemmas::Map::Text::text_keys))]
fn set_link(all: &mut BTreeMap<String, u64>, key: String, link: Option<u64>) -> Result<(), NoMemory>
    ensures { OnOk result ((k : List ℕ) → get_by_text all.new k ≡ meaning.put_key (string_bytes key) link (λ j. get_by_text all.old j) k) }
{
    match link {
        None => {
            let _ = all.remove(key.as_str());
        }
        Some(link) => {
            all.insert(key, link)?;
        }
    }
    Ok(())
}
