//! The ids of messages that are to be given again unless they are acknowledged.

ghost use Rattle.std.specs.Prelude.{◌≡◌, ◌==◌, ◌&&◌, ◌||◌, ℕ, [], true, false, map, IfOk, OnOk, if◌then◌else◌};
ghost use Rattle.std.specs.BTreeMap.{get};
ghost use Rattle.std.specs.BTreeSet.{IsOrdered, contains};
ghost use Rattle.std.specs.Ordering.{nat_cmp};
ghost use Rattle.pulsar_wire.specs.Orders.{id_order};
ghost use Rattle.pulsar_wire.specs.Views.{message_id_values};
ghost use Rattle.pulsar_consumer.specs.KeptIds.{is_in, is_moment};
ghost use Rattle.pulsar_consumer.specs.Redelivery.{Id, due_before, forget, forget_all, is_same_id, keep};

use crate::kept_id::KeptId;
use pulsar_wire::commands::ids::MessageIdData;
use pulsar_wire::error::NoMemory;
use std::alloc::Global;
use std::collections::{BTreeMap, BTreeSet};
use std::marker::Model;
use std::mem::replace;

/// The ids that are kept, each until it is due. Those that are due are found without a look at the others.
#[derive(Drop)]
pub struct KeptIds {
    alloc: Global,
    // by id
    moments: BTreeMap<KeptId, u64>,
    // the ids of each moment
    ids: BTreeMap<u64, BTreeSet<KeptId>>,
}

impl Model for KeptIds {
    ghost use Rattle.pulsar_consumer.specs.Redelivery.{Kept};
    ghost use Rattle.pulsar_consumer.specs.KeptIds.{AreListed};

    ghost Value = { Kept };

    ghost view = { λ i. i.moments.entries };

    ghost invariant = { AreListed };
}

impl KeptIds {
    /// No id is kept.
    pub fn new(alloc: Global) -> KeptIds
        ensures { result ≡ [] }
    {
        KeptIds {
            alloc,
            moments: BTreeMap::new(alloc),
            ids: BTreeMap::new(alloc),
        }
    }

    /// An id is kept until this moment, in the place of an earlier one.
    pub fn keep(&mut self, id: &MessageIdData, due: u64) -> Result<(), NoMemory>
        ensures { OnOk result (self.new ≡ keep due (message_id_values id.now) self.old) }
    {
        let id = KeptId::of(id)?;
        let before = replace(self, KeptIds::new(self.alloc));
        *self = before.with(id, due)?;
        Ok(())
    }

    fn with(self, id: KeptId, due: u64) -> Result<KeptIds, NoMemory>
        ensures { IfOk result (λ after. after ≡ keep due id self) }
    {
        let KeptIds {
            alloc,
            mut moments,
            mut ids,
        } = self;
        let again = id.copy()?;
        let before = moments.insert(id, due)?;
        unlist(&mut ids, before, &again)?;
        list(&mut ids, alloc, due, again)?;
        Ok(KeptIds {
            alloc,
            moments,
            ids,
        })
    }

    /// An id is kept no longer.
    pub fn forget(&mut self, id: &MessageIdData) -> Result<(), NoMemory>
        ensures { OnOk result (self.new ≡ forget (message_id_values id.now) self.old) }
    {
        let id = KeptId::of(id)?;
        self.remove(&id)
    }

    fn remove(&mut self, id: &KeptId) -> Result<(), NoMemory>
        ensures { OnOk result (self.new ≡ forget id.now self.old) }
    {
        let before = replace(self, KeptIds::new(self.alloc));
        *self = before.without(id)?;
        Ok(())
    }

    fn without(self, id: &KeptId) -> Result<KeptIds, NoMemory>
        ensures { IfOk result (λ after. after ≡ forget id.now self) }
    {
        let KeptIds {
            alloc,
            mut moments,
            mut ids,
        } = self;
        let before = moments.remove(id);
        unlist(&mut ids, before, id)?;
        Ok(KeptIds {
            alloc,
            moments,
            ids,
        })
    }

    /// The ids that are due before this moment, in their order. They are kept no longer.
    pub fn take_due(&mut self, clock: u64) -> Result<Vec<MessageIdData>, NoMemory>
        ensures named { IfOk result (λ ids. map message_id_values ids.items ≡ due_before clock self.old) }
        ensures after { OnOk result (self.new ≡ forget_all (due_before clock self.old) self.old) }
    {
        let due = self.due(clock)?;
        self.remove_all(&due)?;
        into_ids(self.alloc, due)
    }

    fn due(&self, clock: u64) -> Result<Vec<KeptId>, NoMemory>
        ensures { IfOk result (λ due. due.items ≡ due_before clock self.now) }
    {
        let mut found = BTreeSet::new(self.alloc);
        for (_, ids) in self.ids.range(..clock) {
            add_all(&mut found, ids)?;
        }
        in_order(self.alloc, found)
    }

    fn remove_all(&mut self, ids: &[KeptId]) -> Result<(), NoMemory>
        ensures { OnOk result (self.new ≡ forget_all ids.now self.old) }
    {
        for id in ids {
            self.remove(id)?;
        }
        Ok(())
    }
}

/// An id is listed no more at the moment at which it was due, where it was kept.
fn unlist(
    ids: &mut BTreeMap<u64, BTreeSet<KeptId>>,
    moment: Option<u64>,
    id: &KeptId,
) -> Result<(), NoMemory>
    ensures { OnOk result ((m : ℕ) (i : Id) → is_in i (get nat_cmp ids.new m)
        ≡ (if is_moment m moment && is_same_id id.now i then false else is_in i (get nat_cmp ids.old m))) }
{
    let Some(moment) = moment else {
        return Ok(());
    };
    take_out(ids, moment, id)
}

fn take_out(
    ids: &mut BTreeMap<u64, BTreeSet<KeptId>>,
    moment: u64,
    id: &KeptId,
) -> Result<(), NoMemory>
    ensures { OnOk result ((m : ℕ) (i : Id) → is_in i (get nat_cmp ids.new m)
        ≡ (if (moment == m) && is_same_id id.now i then false else is_in i (get nat_cmp ids.old m))) }
{
    let Some(mut others) = ids.remove(&moment) else {
        return Ok(());
    };
    others.remove(id);
    if !others.is_empty() {
        ids.insert(moment, others)?;
    }
    Ok(())
}

/// An id is listed at a moment.
fn list(
    ids: &mut BTreeMap<u64, BTreeSet<KeptId>>,
    alloc: Global,
    moment: u64,
    id: KeptId,
) -> Result<(), NoMemory>
    ensures { OnOk result ((m : ℕ) (i : Id) → is_in i (get nat_cmp ids.new m)
        ≡ (if (moment == m) && is_same_id id i then true else is_in i (get nat_cmp ids.old m))) }
{
    let mut others = match ids.remove(&moment) {
        Some(others) => others,
        None => BTreeSet::new(alloc),
    };
    others.insert(id)?;
    ids.insert(moment, others)?;
    Ok(())
}

fn add_all(found: &mut BTreeSet<KeptId>, ids: &BTreeSet<KeptId>) -> Result<(), NoMemory>
    ensures { OnOk result ((i : Id) → contains id_order found.new i ≡ (contains id_order found.old i || contains id_order ids.now i)) }
{
    for id in ids {
        let again = id.copy()?;
        found.insert(again)?;
    }
    Ok(())
}

fn in_order(alloc: Global, found: BTreeSet<KeptId>) -> Result<Vec<KeptId>, NoMemory>
    ensures ids { IfOk result (λ ids. ids.items ≡ found.keys) }
    ensures ordered { IfOk result (λ ids. IsOrdered id_order found) }
{
    let mut ids = Vec::new(alloc);
    for id in found {
        ids.push(id)?;
    }
    Ok(ids)
}

fn into_ids(alloc: Global, kept: Vec<KeptId>) -> Result<Vec<MessageIdData>, NoMemory>
    ensures { IfOk result (λ ids. map message_id_values ids.items ≡ kept.items) }
{
    let mut ids = Vec::new(alloc);
    for id in kept {
        ids.push(id.into_inner())?;
    }
    Ok(ids)
}
