//! The numbers of consumers: those that are held while consumers are built, those that raw calls have named, and the next; and their keys.

ghost use Rattle.std.specs.Prelude.{◌≡◌, ◌==◌, [], suc, IfOk, OnOk};
ghost use Rattle.std.specs.BTreeMap.{insert_entry, is_at};
ghost use Rattle.std.specs.BTreeSet.{insert_key};
ghost use Rattle.std.specs.List.{list_any};
ghost use Rattle.std.specs.Map.{remove_entry};
ghost use Rattle.std.specs.Ordering.{nat_cmp};
ghost use Rattle.pulsar_consumer_table.specs.Consumers.{behind, is_held};

use pulsar_wire::error::NoMemory;
use std::alloc::Global;
use std::collections::{BTreeMap, BTreeSet};

/// What one who builds a consumer gets for it.
#[derive(Clone, Copy)]
pub enum Numbering {
    /// This number.
    Has(u64),
    /// None: the number that was asked for is in use.
    InUse,
    /// None: they are spent.
    Spent,
}

/// The numbers that are held while consumers are built, by the tickets of the calls that build them; those that raw calls have named; the
/// number from which on the next is drawn; and the key of the consumer that is built next.
pub struct Numbers {
    pub held: BTreeMap<u64, u64>,
    pub named: BTreeSet<u64>,
    pub next: u64,
    pub next_key: u64,
}

impl Drop for Numbers {
    fn drop(self) {
        let Numbers {
            held: _,
            named: _,
            next: _,
            next_key: _,
        } = self;
    }
}

impl Numbers {
    /// None is held or named. The first number is this, and the first key is 1.
    pub fn new(alloc: Global, first_number: u64) -> Numbers
        ensures held { result.held.entries ≡ [] }
        ensures named { result.named.keys ≡ [] }
        ensures next { result.next ≡ first_number }
        ensures key { result.next_key ≡ 1 }
    {
        Numbers {
            held: BTreeMap::new(alloc),
            named: BTreeSet::new(alloc),
            next: first_number,
            next_key: 1,
        }
    }

    /// A build holds this number.
    pub fn is_held(&self, number: u64) -> bool
        ensures { result ≡ is_held number self.now.held.entries }
    {
        self.held.iter().any(|(_, held)| *held == number)
    }

    /// A raw call has named this number.
    pub fn is_named(&self, number: u64) -> bool
        ensures { result ≡ list_any (λ k. k == number) self.now.named.keys }
    {
        self.named.contains(&number)
    }

    /// The call of this ticket holds a number.
    pub fn hold(&mut self, ticket: u64, number: u64) -> Result<(), NoMemory>
        ensures held { OnOk result (self.new.held.entries ≡ insert_entry nat_cmp self.old.held.entries ticket number) }
        ensures named { self.new.named ≡ self.old.named }
        ensures next { self.new.next ≡ self.old.next }
        ensures key { self.new.next_key ≡ self.old.next_key }
    {
        self.held.insert(ticket, number)?;
        Ok(())
    }

    /// The call of this ticket holds no number.
    pub fn free(&mut self, ticket: u64)
        ensures held { self.new.held.entries ≡ remove_entry (is_at (nat_cmp ticket)) self.old.held.entries }
        ensures named { self.new.named ≡ self.old.named }
        ensures next { self.new.next ≡ self.old.next }
        ensures key { self.new.next_key ≡ self.old.next_key }
    {
        self.held.remove(&ticket);
    }

    /// A raw call names a number.
    pub fn name(&mut self, number: u64) -> Result<(), NoMemory>
        ensures named { OnOk result (self.new.named.keys ≡ insert_key nat_cmp self.old.named.keys number) }
        ensures held { self.new.held ≡ self.old.held }
        ensures next { self.new.next ≡ self.old.next }
        ensures key { self.new.next_key ≡ self.old.next_key }
    {
        self.named.insert(number)?;
        Ok(())
    }

    /// This number was drawn, unless it is the greatest.
    pub fn pass(&mut self, number: u64)
        ensures next { self.new.next ≡ behind number }
        ensures held { self.new.held ≡ self.old.held }
        ensures named { self.new.named ≡ self.old.named }
        ensures key { self.new.next_key ≡ self.old.next_key }
    {
        self.next = number.saturating_add(1);
    }

    /// The key of a consumer that is built. No other ever has it.
    pub fn draw_key(&mut self) -> Result<u64, NoMemory>
        ensures drawn { IfOk result (λ key. key ≡ self.old.next_key) }
        ensures key { OnOk result (self.new.next_key ≡ suc self.old.next_key) }
        ensures held { self.new.held ≡ self.old.held }
        ensures named { self.new.named ≡ self.old.named }
        ensures next { self.new.next ≡ self.old.next }
    {
        let key = self.next_key;
        let Some(after) = key.checked_add(1) else {
            return Err(NoMemory);
        };
        self.next_key = after;
        Ok(key)
    }
}
