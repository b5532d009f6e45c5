//! The requests that wait for an answer.

ghost use Rattle.std.specs.Prelude.{◌≡◌, ◌+◌, ◌==◌, ◌&&◌, ◌||◌, ℕ, List, not, false, [], Some, IfOk, OnOk};
ghost use Rattle.std.specs.List.{list_any};
ghost use Rattle.std.specs.Ordering.{nat_cmp};
ghost use Rattle.std.specs.BTreeMap as maps;
ghost use Rattle.std.specs.BTreeSet.{contains, insert_key};
ghost use Rattle.pulsar_wire.specs.Sink.{capped};
ghost use Rattle.pulsar_wire.specs.Awaited.{is_same};
ghost use Rattle.pulsar_requests.specs.Kept.{AreTimed, AreUntimed, IsTimedToo, Taken, excuses, is_timed, places_of};
ghost use Rattle.pulsar_requests.specs.Soonest.{due_at};
ghost use Rattle.pulsar_requests.specs.Waits.{Waits, answered_by, any_due, ended, found, is_empty, is_excused, is_listed, is_overdue, later_of, named, places, told, with_next, without};

use pulsar_wire::awaited::{Awaited, Claim};
use pulsar_wire::error::NoMemory;
use std::alloc::Global;
use std::collections::{BTreeMap, BTreeSet};
use std::marker::Model;

/// A request that waits.
#[derive(Clone, Copy)]
pub struct Waiter {
    pub awaits: Awaited,
    pub deadline: u64,
    /// It makes a producer.
    pub creates: bool,
}

/// How many frames were queued on a connection, and which of them wait for an answer. Those that a frame answers, and the
/// one that is due first, are found without a look at the others.
#[derive(Drop)]
pub struct Requests {
    alloc: Global,
    clock: u64,
    timeout: u64,
    queued: u64,
    // by place
    waiters: BTreeMap<u64, Waiter>,
    // the places of those that wait for the same
    index: BTreeMap<Awaited, Vec<u64>>,
    // the numbers under which a producer is not ready yet
    excused: BTreeSet<u64>,
    // the places of those that are not excused
    timed: BTreeSet<u64>,
}

impl Model for Requests {
    ghost use Rattle.pulsar_requests.specs.Waits.{Waits};

    ghost Value = { Waits };

    ghost use Rattle.pulsar_requests.specs.Kept.{IsWhole, waits_of};

    ghost view = { waits_of };

    ghost invariant = { IsWhole };
}

impl Requests {
    /// Nothing is queued and nobody waits. `timeout` is how long a request may wait, in milliseconds, and `now` the moment at
    /// which the clock stands. It takes no memory.
    pub fn new(alloc: Global, timeout: u64, now: u64) -> Requests
        ensures { result ≡ record { clock = now; timeout = timeout; queued = 0; waiting = []; excused = [] } }
    {
        Requests {
            alloc,
            clock: now,
            timeout,
            queued: 0,
            waiters: BTreeMap::new(alloc),
            index: BTreeMap::new(alloc),
            excused: BTreeSet::new(alloc),
            timed: BTreeSet::new(alloc),
        }
    }

    /// How many frames were queued.
    pub fn queued(&self) -> u64
        ensures { result ≡ self.now.queued }
    {
        self.queued
    }

    /// The clock is not before this moment.
    pub fn tell(&mut self, now: u64)
        ensures { self.new ≡ told now self.old }
    {
        self.clock = later_of(self.clock, now);
    }

    /// One more frame is queued. Where an answer to it is awaited, it waits.
    pub fn with_next(self, claim: Option<Claim>) -> Result<Requests, NoMemory>
        ensures { IfOk result (λ w. w ≡ with_next claim self) }
    {
        match claim {
            Some(claim) => self.with_claim(claim),
            None => self.with_frame(),
        }
    }

    fn with_frame(self) -> Result<Requests, NoMemory>
        ensures { IfOk result (λ w. w ≡ record self { queued = self.queued + 1 }) }
    {
        let Requests {
            alloc,
            clock,
            timeout,
            queued,
            waiters,
            index,
            excused,
            timed,
        } = self;
        let Some(after) = queued.checked_add(1) else {
            return Err(NoMemory);
        };
        Ok(Requests {
            alloc,
            clock,
            timeout,
            queued: after,
            waiters,
            index,
            excused,
            timed,
        })
    }

    fn with_claim(self, claim: Claim) -> Result<Requests, NoMemory>
        ensures { IfOk result (λ w. w ≡ with_next (Some claim) self) }
    {
        let Requests {
            alloc,
            clock,
            timeout,
            queued,
            mut waiters,
            mut index,
            excused,
            mut timed,
        } = self;
        let Some(after) = queued.checked_add(1) else {
            return Err(NoMemory);
        };
        let waiter = Waiter {
            awaits: claim.awaits,
            deadline: moment(clock, timeout),
            creates: claim.creates,
        };
        let mut places = match index.remove(&waiter.awaits) {
            Some(places) => places,
            None => Vec::new(alloc),
        };
        places.push(queued)?;
        index.insert(waiter.awaits, places)?;
        waiters.insert(queued, waiter)?;
        time(&mut timed, &excused, queued, waiter)?;
        Ok(Requests {
            alloc,
            clock,
            timeout,
            queued: after,
            waiters,
            index,
            excused,
            timed,
        })
    }

    /// Those that wait for this wait no longer. The answer has their places, and all others.
    pub fn settle(self, awaited: Option<Awaited>) -> Result<(Vec<u64>, Requests), NoMemory>
        ensures places { IfOk result (λ r. r.0.items ≡ places (found awaited self.waiting)) }
        ensures left { IfOk result (λ r. r.1 ≡ answered_by awaited self) }
    {
        match awaited {
            Some(awaited) => Ok(self.take(awaited)),
            None => Ok((Vec::new(self.alloc), self)),
        }
    }

    /// Those that wait for this, and all others.
    fn take(self, awaited: Awaited) -> (Vec<u64>, Requests)
        ensures places { result.0.items ≡ places (found (Some awaited) self.waiting) }
        ensures left { result.1 ≡ answered_by (Some awaited) self }
    {
        let Requests {
            alloc,
            clock,
            timeout,
            queued,
            mut waiters,
            mut index,
            excused,
            mut timed,
        } = self;
        let places = match index.remove(&awaited) {
            Some(places) => places,
            None => Vec::new(alloc),
        };
        take_all(&mut waiters, &mut timed, &places);
        let left = Requests {
            alloc,
            clock,
            timeout,
            queued,
            waiters,
            index,
            excused: without(excused, awaited),
            timed,
        };
        (places, left)
    }

    /// A producer is not ready yet, whose request of this number waits.
    pub fn name(self, number: u64) -> Result<Requests, NoMemory>
        ensures { IfOk result (λ w. w ≡ named number self) }
    {
        if self.is_awaited(Awaited::Reply { number }) {
            return self.excuse(number);
        }
        Ok(self)
    }

    fn is_awaited(&self, awaited: Awaited) -> bool
        ensures { result ≡ list_any (λ p. is_same awaited p.awaits) self.now.waiting }
    {
        match self.index.get(&awaited) {
            Some(places) => !places.is_empty(),
            None => false,
        }
    }

    /// Those that make a producer under this number are due at no moment.
    fn excuse(self, number: u64) -> Result<Requests, NoMemory>
        ensures { IfOk result (λ w. w ≡ record self { excused = insert_key nat_cmp self.excused number }) }
    {
        let Requests {
            alloc,
            clock,
            timeout,
            queued,
            waiters,
            index,
            mut excused,
            mut timed,
        } = self;
        excused.insert(number)?;
        match index.get(&Awaited::Reply { number }) {
            Some(places) => untime(&mut timed, &waiters, number, places),
            None => {}
        }
        Ok(Requests {
            alloc,
            clock,
            timeout,
            queued,
            waiters,
            index,
            excused,
            timed,
        })
    }

    /// Nobody waits any longer. The answer has the places of those that did, and what is left.
    pub fn end(self) -> Result<(Vec<u64>, Requests), NoMemory>
        ensures places { IfOk result (λ r. r.0.items ≡ places self.waiting) }
        ensures left { IfOk result (λ r. r.1 ≡ ended self) }
    {
        let Requests {
            alloc,
            clock,
            timeout,
            queued,
            waiters,
            index: _,
            excused: _,
            timed: _,
        } = self;
        let mut places = Vec::new(alloc);
        for (place, _) in waiters {
            places.push(place)?;
        }
        let left = Requests {
            alloc,
            clock,
            timeout,
            queued,
            waiters: BTreeMap::new(alloc),
            index: BTreeMap::new(alloc),
            excused: BTreeSet::new(alloc),
            timed: BTreeSet::new(alloc),
        };
        Ok((places, left))
    }

    /// Nobody waits.
    pub fn is_empty(&self) -> bool
        ensures { result ≡ is_empty self.now.waiting }
    {
        self.waiters.is_empty()
    }

    /// The places of those that wait.
    pub fn places(&self) -> Result<Vec<u64>, NoMemory>
        ensures { IfOk result (λ ps. ps.items ≡ places self.now.waiting) }
    {
        let mut places = Vec::new(self.alloc);
        for (place, _) in &self.waiters {
            places.push(*place)?;
        }
        Ok(places)
    }

    /// A request is due. The first that is not excused decides, since no deadline is before an earlier one.
    pub fn any_due(&self, now: u64) -> bool
        ensures { result ≡ any_due now self.now }
    {
        match self.timed.first() {
            Some(place) => match self.waiters.get(place) {
                Some(waiter) => waiter.deadline <= now,
                None => false,
            },
            None => false,
        }
    }

    /// The first moment at which one of those that wait is due.
    pub fn due_at(&self) -> Option<u64>
        ensures { result ≡ due_at self.now }
    {
        match self.timed.first() {
            Some(place) => match self.waiters.get(place) {
                Some(waiter) => Some(waiter.deadline),
                None => None,
            },
            None => None,
        }
    }

    /// The request of this place waits, and is due.
    pub fn is_overdue(&self, place: u64, now: u64) -> bool
        ensures { result ≡ is_overdue place now self.now }
    {
        match self.waiters.get(&place) {
            Some(waiter) => waiter.deadline <= now && !is_excused(&self.excused, waiter),
            None => false,
        }
    }
}

/// It makes a producer, and is due at no moment.
fn is_excused(excused: &BTreeSet<u64>, waiter: &Waiter) -> bool
    ensures { result ≡ is_excused excused.now.keys waiter.now.creates waiter.now.awaits }
{
    waiter.creates && is_listed(excused, waiter.awaits)
}

fn is_listed(excused: &BTreeSet<u64>, awaited: Awaited) -> bool
    ensures { result ≡ is_listed excused.now.keys awaited }
{
    match awaited {
        Awaited::Reply { number } => excused.contains(&number),
        Awaited::Pong | Awaited::Receipt { .. } => false,
    }
}

fn later_of(a: u64, b: u64) -> u64
    ensures { result ≡ later_of a b }
{
    if a < b { b } else { a }
}

/// The moment after this time. It is not past the greatest.
pub fn moment(now: u64, time: u64) -> u64
    ensures { result ≡ capped (now + time) }
{
    now.saturating_add(time)
}

/// One that waits at this place is timed, unless it is excused.
fn time(
    timed: &mut BTreeSet<u64>,
    excused: &BTreeSet<u64>,
    place: u64,
    waiter: Waiter,
) -> Result<(), NoMemory>
    ensures { OnOk result (IsTimedToo place (is_timed excused.now.keys (Some waiter)) timed.old timed.new) }
{
    if !is_excused(excused, &waiter) {
        timed.insert(place)?;
    }
    Ok(())
}

/// Takes those out that wait at these places.
fn take_all(waiters: &mut BTreeMap<u64, Waiter>, timed: &mut BTreeSet<u64>, places: &Vec<u64>)
    ensures waiters { (a : Awaited) → places_of a waiters.old.entries ≡ places.now.items
        → Taken a waiters.old.entries waiters.new.entries [] }
    ensures ordered { maps.IsOrdered nat_cmp waiters.old → maps.IsOrdered nat_cmp waiters.new }
    ensures timed { (excused : List ℕ) → AreTimed excused timed.old waiters.old → AreTimed excused timed.new waiters.new }
{
    for place in places {
        waiters.remove(place);
        timed.remove(place);
    }
}

/// The number that is answered is excused no longer.
fn without(mut excused: BTreeSet<u64>, awaited: Awaited) -> BTreeSet<u64>
    ensures keys { result.keys ≡ without (Some awaited) excused.keys }
    ensures others { (b : Awaited) → is_same awaited b ≡ false → is_listed result.keys b ≡ is_listed excused.keys b }
{
    if let Awaited::Reply { number } = awaited {
        excused.remove(&number);
    }
    excused
}

/// Those at these places that make a producer under this number are timed no longer.
fn untime(
    timed: &mut BTreeSet<u64>,
    waiters: &BTreeMap<u64, Waiter>,
    number: u64,
    places: &Vec<u64>,
)
    ensures { AreUntimed (λ n. list_any (λ p. p == n) places.now.items) number waiters.now timed.old timed.new }
{
    for place in places {
        untime_at(timed, waiters, number, *place);
    }
}

fn untime_at(timed: &mut BTreeSet<u64>, waiters: &BTreeMap<u64, Waiter>, number: u64, place: u64)
    ensures { AreUntimed (λ n. place == n) number waiters.now timed.old timed.new }
{
    if let Some(waiter) = waiters.get(&place)
        && waiter.creates
        && waiter.awaits == (Awaited::Reply { number })
    {
        timed.remove(&place);
    }
}
