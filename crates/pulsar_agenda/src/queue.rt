//! Those whom a cause serves.

ghost use Rattle.std.specs.Prelude.{◌≡◌, ◌≤◌, ◌++◌, ◌∷◌, [], drop, take, IfOk, MatchOption, MatchBool, OnOk};
ghost use Rattle.std.specs.VecDeque.{deque_len};
ghost use Rattle.pulsar_run.specs.Order.{InOrder, arranged, put};
ghost use Rattle.pulsar_calls.specs.Order.{below};
ghost use Rattle.pulsar_calls.specs.declared.act.Notice.{Notice as Meant};

use pulsar_calls::act::{Notice, Who};
use pulsar_calls::who::{is_before, rank};
use pulsar_wire::error::NoMemory;
use std::alloc::Global;
use std::collections::VecDeque;
use std::marker::Model;

/// Those whom a cause still serves, by rank; those that rank alike stand as they came.
pub struct Queue {
    notices: VecDeque<Notice>,
}

impl Drop for Queue {
    fn drop(self) {
        let Queue { notices: _ } = self;
    }
}

impl Model for Queue {
    ghost use Rattle.std.specs.Prelude.{List};
    ghost use Rattle.pulsar_run.specs.Order.{InOrder};
    ghost use Rattle.pulsar_calls.specs.Order.{below};
    ghost use Rattle.pulsar_calls.specs.declared.act.Notice.{Notice as Meant};
    ghost use Rattle.pulsar_wire.specs.FailureCode.{failure_code};
    ghost use Rattle.std.specs.Coded.{codes};

    ghost Value = { List Meant };

    ghost coded = { Prim.hlevel (codes, failure_code (Prim.hlevel codes)) };

    ghost view = { λ i. i.notices.items };

    ghost invariant = { λ i. InOrder below i.notices.items };
}

impl Queue {
    /// None is served.
    pub fn new(alloc: Global) -> Queue
        ensures { result ≡ [] }
    {
        Queue {
            notices: VecDeque::new(alloc),
        }
    }

    /// Those that an act serves.
    pub fn ranked(alloc: Global, notices: Vec<Notice>) -> Result<Queue, NoMemory>
        ensures { IfOk result (λ queue. queue ≡ arranged below notices.items) }
    {
        let notices = in_order(alloc, notices)?;
        Ok(Queue { notices })
    }

    /// One alone.
    pub fn of_one(alloc: Global, notice: Notice) -> Result<Queue, NoMemory>
        ensures { IfOk result (λ queue. queue ≡ notice ∷ []) }
    {
        let mut notices = VecDeque::new(alloc);
        notices.push_back(notice)?;
        Ok(Queue { notices })
    }

    /// Nobody is served any longer.
    pub fn is_empty(&self) -> bool
        ensures { MatchBool result (self.now ≡ []) (self.now ≡ [] → ⊥) }
    {
        self.notices.is_empty()
    }

    /// The first, who is served no longer.
    pub fn next(&mut self) -> Option<Notice>
        ensures { MatchOption result ((self.old ≡ []) × (self.new ≡ [])) (λ n. self.old ≡ n ∷ self.new) }
    {
        self.notices.pop_front()
    }

    /// One joins them, behind those that rank as high.
    pub fn join(&mut self, notice: Notice) -> Result<(), NoMemory>
        ensures { OnOk result (self.new ≡ put below notice self.old) }
    {
        let place = place_in(&self.notices, notice.who);
        self.notices.insert(place, notice)?;
        Ok(())
    }
}

/// How many of those whom a cause serves come before this one. Most that join stand behind all, so they are looked at from the last on.
fn place_in(here: &VecDeque<Notice>, who: Who) -> usize
    requires { InOrder below here.now.items }
    ensures within { result ≤ deque_len here.now }
    ensures put { (n : Meant) → n.who ≡ who → put below n here.now.items ≡ take result here.now.items ++ n ∷ drop result here.now.items }
{
    let mut place = here.len();
    while place > 0 {
        if !is_before(who, here[place - 1].who) {
            return place;
        }
        place -= 1;
    }
    place
}

fn in_order(alloc: Global, mut notices: Vec<Notice>) -> Result<VecDeque<Notice>, NoMemory>
    ensures { IfOk result (λ ordered. ordered.items ≡ arranged below notices.items) }
{
    sort(&mut notices)?;
    let mut ordered = VecDeque::new(alloc);
    for notice in notices {
        ordered.push_back(notice)?;
    }
    Ok(ordered)
}

fn sort(notices: &mut Vec<Notice>) -> Result<(), NoMemory>
    ensures { OnOk result (notices.new.items ≡ arranged below notices.old.items) }
{
    notices.sort_by_key(|n| rank(n.who))?;
    Ok(())
}
