//! When links are due.

ghost use Rattle.std.specs.Prelude.{◌≡◌, ◌==◌, ◌&&◌, ◌||◌, ℕ, true, false, Some, None, IfOk, OnOk, if◌then◌else◌};
ghost use Rattle.std.specs.Bool.{OnTrue};
ghost use Rattle.std.specs.BTreeSet.{contains};
ghost use Rattle.std.specs.Ordering.{nat_cmp};
ghost use Rattle.pulsar_links.specs.Due.{AreListed, is_listed, moment_at};
ghost use Rattle.pulsar_requests.specs.Soonest.{has_come};

use pulsar_wire::error::NoMemory;
use std::alloc::Global;
use std::collections::{BTreeMap, BTreeSet};
use std::marker::Model;
use std::mem::replace;

/// When links are due, for each of them its next moment. Those that are due are found without a look at the others.
pub struct DueMoments {
    alloc: Global,
    // by link
    moments: BTreeMap<u64, u64>,
    // the links of each moment
    links: BTreeMap<u64, BTreeSet<u64>>,
}

impl Drop for DueMoments {
    fn drop(self) {
        let DueMoments {
            alloc: _,
            moments: _,
            links: _,
        } = self;
    }
}

impl Model for DueMoments {
    ghost use Rattle.std.specs.Prelude.{ℕ, List};
    ghost use Rattle.pulsar_links.specs.Due.{IsWhole};

    // the links with their moments
    ghost Value = { List (ℕ × ℕ) };

    ghost view = { λ i. i.moments.entries };

    ghost invariant = { IsWhole };
}

impl DueMoments {
    /// No link is due at any moment.
    pub fn new(alloc: Global) -> DueMoments
        ensures { (l : ℕ) → moment_at result l ≡ None }
    {
        DueMoments {
            alloc,
            moments: BTreeMap::new(alloc),
            links: BTreeMap::new(alloc),
        }
    }

    /// A link is due next at this moment, or at none.
    pub fn set(&mut self, link: u64, moment: Option<u64>) -> Result<(), NoMemory>
        ensures { OnOk result ((l : ℕ) → moment_at self.new l ≡ (if l == link then moment else moment_at self.old l)) }
    {
        if is_kept(&self.moments, link, moment) {
            return Ok(());
        }
        let before = replace(self, DueMoments::new(self.alloc));
        *self = before.with(link, moment)?;
        Ok(())
    }

    fn with(self, link: u64, moment: Option<u64>) -> Result<DueMoments, NoMemory>
        ensures { IfOk result (λ after. (l : ℕ) → moment_at after l ≡ (if l == link then moment else moment_at self l)) }
    {
        let DueMoments {
            alloc,
            mut moments,
            mut links,
        } = self;
        forget(&mut moments, &mut links, link)?;
        turn(&mut moments, &mut links, alloc, link, moment)?;
        Ok(DueMoments {
            alloc,
            moments,
            links,
        })
    }

    /// The links that are due by now, in their order.
    pub fn come(&self, now: u64) -> Result<BTreeSet<u64>, NoMemory>
        ensures { IfOk result (λ found. (l : ℕ) → contains nat_cmp found l ≡ has_come now (moment_at self.now l)) }
    {
        let mut found = BTreeSet::new(self.alloc);
        for (_, links) in self.links.range(..=now) {
            add_all(&mut found, links)?;
        }
        Ok(found)
    }
}

/// This is the moment of a link already.
fn is_kept(moments: &BTreeMap<u64, u64>, link: u64, moment: Option<u64>) -> bool
    ensures { OnTrue result (moment_at moments.now.entries link ≡ moment) }
{
    match (moments.get(&link), moment) {
        (Some(kept), Some(moment)) => *kept == moment,
        (None, None) => true,
        _ => false,
    }
}

/// A link is due at no moment.
fn forget(
    moments: &mut BTreeMap<u64, u64>,
    links: &mut BTreeMap<u64, BTreeSet<u64>>,
    link: u64,
) -> Result<(), NoMemory>
    ensures moments { OnOk result ((l : ℕ) → moment_at moments.new.entries l ≡ (if l == link then None else moment_at moments.old.entries l)) }
    ensures listed { OnOk result (AreListed moments.old.entries links.old → AreListed moments.new.entries links.new) }
{
    let Some(moment) = moments.remove(&link) else {
        return Ok(());
    };
    unlist(links, moment, link)?;
    Ok(())
}

/// A link that was due at no moment is due at this one, or at none.
fn turn(
    moments: &mut BTreeMap<u64, u64>,
    links: &mut BTreeMap<u64, BTreeSet<u64>>,
    alloc: Global,
    link: u64,
    moment: Option<u64>,
) -> Result<(), NoMemory>
    ensures moments { OnOk result (moment_at moments.old.entries link ≡ None
        → (l : ℕ) → moment_at moments.new.entries l ≡ (if l == link then moment else moment_at moments.old.entries l)) }
    ensures listed { OnOk result (moment_at moments.old.entries link ≡ None
        → AreListed moments.old.entries links.old → AreListed moments.new.entries links.new) }
{
    let Some(moment) = moment else {
        return Ok(());
    };
    note(moments, links, alloc, link, moment)?;
    Ok(())
}

/// A link that was due at no moment is due at this one.
fn note(
    moments: &mut BTreeMap<u64, u64>,
    links: &mut BTreeMap<u64, BTreeSet<u64>>,
    alloc: Global,
    link: u64,
    moment: u64,
) -> Result<(), NoMemory>
    ensures moments { OnOk result ((l : ℕ) → moment_at moments.new.entries l ≡ (if l == link then Some moment else moment_at moments.old.entries l)) }
    ensures listed { OnOk result (moment_at moments.old.entries link ≡ None → AreListed moments.old.entries links.old
        → AreListed moments.new.entries links.new) }
{
    list(links, alloc, moment, link)?;
    moments.insert(link, moment)?;
    Ok(())
}

fn unlist(links: &mut BTreeMap<u64, BTreeSet<u64>>, moment: u64, link: u64) -> Result<(), NoMemory>
    ensures { OnOk result ((m l : ℕ) → is_listed links.new m l ≡ (if (m == moment) && (l == link) then false else is_listed links.old m l)) }
{
    let Some(mut others) = links.remove(&moment) else {
        return Ok(());
    };
    others.remove(&link);
    if !others.is_empty() {
        links.insert(moment, others)?;
    }
    Ok(())
}

fn list(
    links: &mut BTreeMap<u64, BTreeSet<u64>>,
    alloc: Global,
    moment: u64,
    link: u64,
) -> Result<(), NoMemory>
    ensures { OnOk result ((m l : ℕ) → is_listed links.new m l ≡ (if (m == moment) && (l == link) then true else is_listed links.old m l)) }
{
    let mut others = match links.remove(&moment) {
        Some(others) => others,
        None => BTreeSet::new(alloc),
    };
    others.insert(link)?;
    links.insert(moment, others)?;
    Ok(())
}

fn add_all(found: &mut BTreeSet<u64>, links: &BTreeSet<u64>) -> Result<(), NoMemory>
    ensures { OnOk result ((l : ℕ) → contains nat_cmp found.new l ≡ (contains nat_cmp found.old l || contains nat_cmp links.now l)) }
{
    for link in links {
        found.insert(*link)?;
    }
    Ok(())
}
