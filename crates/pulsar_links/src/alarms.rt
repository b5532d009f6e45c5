//! What comes of itself at its moment.

ghost use Rattle.std.specs.Prelude.{◌≡◌, ◌==◌, ◌&&◌, ◌||◌, ℕ, [], true, false, IfOk, OnOk, map, if◌then◌else◌};
ghost use Rattle.std.specs.BTreeMap.{get};
ghost use Rattle.std.specs.BTreeSet.{IsOrdered, contains};
ghost use Rattle.std.specs.Ordering.{nat_cmp};
ghost use Rattle.pulsar_links.specs.Alarms.{alarm_cmp, clear, is_same_alarm, ringing, rings, set};
ghost use Rattle.pulsar_links.specs.Due.{is_moment};
ghost use Rattle.pulsar_links.specs.Kept.{is_in};
ghost use Rattle.pulsar_calls.specs.declared.act.Alarm.{Alarm as Meant};

use pulsar_calls::act::Alarm;
use pulsar_wire::error::NoMemory;
use std::alloc::Global;
use std::collections::{BTreeMap, BTreeSet};
use std::marker::Model;
use std::mem::replace;

/// The alarms that are set, each with its moment. Those whose moment has come are found without a look at the others.
pub struct Alarms {
    alloc: Global,
    // by alarm
    moments: BTreeMap<Alarm, u64>,
    // the alarms of each moment
    alarms: BTreeMap<u64, BTreeSet<Alarm>>,
}

impl Drop for Alarms {
    fn drop(self) {
        let Alarms {
            alloc: _,
            moments: _,
            alarms: _,
        } = self;
    }
}

impl Model for Alarms {
    ghost use Rattle.std.specs.Prelude.{ℕ, List};
    ghost use Rattle.pulsar_links.specs.Kept.{AreSet};
    ghost use Rattle.pulsar_calls.specs.declared.act.Alarm.{Alarm as Meant};

    // the alarms with their moments, in their order
    ghost Value = { List (Meant × ℕ) };

    ghost view = { λ i. i.moments.entries };

    ghost invariant = { AreSet };
}

impl Alarms {
    /// No alarm is set.
    pub fn new(alloc: Global) -> Alarms
        ensures { result ≡ [] }
    {
        Alarms {
            alloc,
            moments: BTreeMap::new(alloc),
            alarms: BTreeMap::new(alloc),
        }
    }

    /// An alarm is set to a moment, in the place of an earlier one.
    pub fn set(&mut self, alarm: Alarm, moment: u64) -> Result<(), NoMemory>
        ensures { OnOk result (self.new ≡ set alarm moment self.old) }
    {
        let before = replace(self, Alarms::new(self.alloc));
        *self = before.with(alarm, moment)?;
        Ok(())
    }

    fn with(self, alarm: Alarm, moment: u64) -> Result<Alarms, NoMemory>
        ensures { IfOk result (λ after. after ≡ set alarm moment self) }
    {
        let Alarms {
            alloc,
            mut moments,
            mut alarms,
        } = self;
        let before = moments.insert(alarm, moment)?;
        unlist(&mut alarms, before, alarm)?;
        list(&mut alarms, alloc, moment, alarm)?;
        Ok(Alarms {
            alloc,
            moments,
            alarms,
        })
    }

    /// An alarm is set no more.
    pub fn clear(&mut self, alarm: Alarm) -> Result<(), NoMemory>
        ensures { OnOk result (self.new ≡ clear alarm self.old) }
    {
        let before = replace(self, Alarms::new(self.alloc));
        *self = before.without(alarm)?;
        Ok(())
    }

    fn without(self, alarm: Alarm) -> Result<Alarms, NoMemory>
        ensures { IfOk result (λ after. after ≡ clear alarm self) }
    {
        let Alarms {
            alloc,
            mut moments,
            mut alarms,
        } = self;
        let before = moments.remove(&alarm);
        unlist(&mut alarms, before, alarm)?;
        Ok(Alarms {
            alloc,
            moments,
            alarms,
        })
    }

    /// An alarm is set, and its moment has come.
    pub fn rings(&self, now: u64, alarm: Alarm) -> bool
        ensures { result ≡ rings now alarm self.now }
    {
        match self.moments.get(&alarm) {
            Some(moment) => *moment <= now,
            None => false,
        }
    }

    /// The alarms whose moment has come, in their order.
    pub fn ringing(&self, now: u64) -> Result<Vec<Alarm>, NoMemory>
        ensures { IfOk result (λ found. found.items ≡ ringing now self.now) }
    {
        let mut found = BTreeSet::new(self.alloc);
        for (_, alarms) in self.alarms.range(..=now) {
            add_all(&mut found, alarms)?;
        }
        in_order(self.alloc, &found)
    }

    /// All alarms, in their order.
    pub fn all(&self) -> Result<Vec<Alarm>, NoMemory>
        ensures { IfOk result (λ all. all.items ≡ map (λ e. e.0) self.now) }
    {
        let mut all = Vec::new(self.alloc);
        for (alarm, _) in &self.moments {
            all.push(*alarm)?;
        }
        Ok(all)
    }
}

/// An alarm is listed no more at the moment to which it was set, where it was.
fn unlist(
    alarms: &mut BTreeMap<u64, BTreeSet<Alarm>>,
    moment: Option<u64>,
    alarm: Alarm,
) -> Result<(), NoMemory>
    ensures { OnOk result ((m : ℕ) (a : Meant) → is_in a (get nat_cmp alarms.new m)
        ≡ (if is_moment m moment && is_same_alarm alarm a then false else is_in a (get nat_cmp alarms.old m))) }
{
    let Some(moment) = moment else {
        return Ok(());
    };
    take_out(alarms, moment, alarm)
}

fn take_out(
    alarms: &mut BTreeMap<u64, BTreeSet<Alarm>>,
    moment: u64,
    alarm: Alarm,
) -> Result<(), NoMemory>
    ensures { OnOk result ((m : ℕ) (a : Meant) → is_in a (get nat_cmp alarms.new m)
        ≡ (if (moment == m) && is_same_alarm alarm a then false else is_in a (get nat_cmp alarms.old m))) }
{
    let Some(mut others) = alarms.remove(&moment) else {
        return Ok(());
    };
    others.remove(&alarm);
    if !others.is_empty() {
        alarms.insert(moment, others)?;
    }
    Ok(())
}

/// An alarm is listed at a moment.
fn list(
    alarms: &mut BTreeMap<u64, BTreeSet<Alarm>>,
    alloc: Global,
    moment: u64,
    alarm: Alarm,
) -> Result<(), NoMemory>
    ensures { OnOk result ((m : ℕ) (a : Meant) → is_in a (get nat_cmp alarms.new m)
        ≡ (if (moment == m) && is_same_alarm alarm a then true else is_in a (get nat_cmp alarms.old m))) }
{
    let mut others = match alarms.remove(&moment) {
        Some(others) => others,
        None => BTreeSet::new(alloc),
    };
    others.insert(alarm)?;
    alarms.insert(moment, others)?;
    Ok(())
}

fn add_all(found: &mut BTreeSet<Alarm>, alarms: &BTreeSet<Alarm>) -> Result<(), NoMemory>
    ensures { OnOk result ((a : Meant) → contains alarm_cmp found.new a ≡ (contains alarm_cmp found.old a || contains alarm_cmp alarms.now a)) }
{
    for alarm in alarms {
        found.insert(*alarm)?;
    }
    Ok(())
}

fn in_order(alloc: Global, found: &BTreeSet<Alarm>) -> Result<Vec<Alarm>, NoMemory>
    ensures alarms { IfOk result (λ alarms. alarms.items ≡ found.now.keys) }
    ensures ordered { IfOk result (λ alarms. IsOrdered alarm_cmp found.now) }
{
    let mut alarms = Vec::new(alloc);
    for alarm in found {
        alarms.push(*alarm)?;
    }
    Ok(alarms)
}
