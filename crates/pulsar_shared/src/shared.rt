//! The client behind a lock, with a ledger that counts its events.

ghost use Rattle.std.specs.Prelude.{◌≡◌, ◌∷◌, ◌++◌, ◌+◌, ◌<◌, ◌≤◌, [], ℕ, true, List, IfOk, IfSome, MatchOption, OnErr, OnOk, drop, length, reverse, sum_by};
ghost use Rattle.pulsar_calls.specs.Steps.{Step};
ghost use Rattle.pulsar_machine.specs.Options.{Options};
ghost use Rattle.pulsar_machine.specs.Machine.{step};
ghost use Rattle.pulsar_shared.specs.Trace.{Had, Legal, has_news, steps};
ghost use Rattle.pulsar_shared.specs.Unset.{unset};

use crate::traced::Traced;
use pulsar_calls::effect::Effect;
use pulsar_calls::event::Event;
use pulsar_machine::Machine;
use pulsar_pumps::submitter::Receipt;
use pulsar_wire::error::NoMemory;
use std::marker::Brand;
use std::sync::ledger::{Blank, Book, Ledger, Share};
use std::sync::{Condvar, Mutex, Wait};

/// Names the ledger of one shared client, and says how long its trace was and what its options are. Each call of a program picks it.
pub trait Opening: Ledger {
    /// How long the trace was when the client was shared.
    ghost opening: { ℕ };

    /// What the options of the client say.
    ghost given: { Options };
}

impl Opening for Brand {
    ghost opening = { 0 };

    ghost given = { unset };
}

/// How many parts the opening pass has: all there are.
pub const PARTS: u64 = 4294967295;

/// What lies under the lock.
#[derive(Drop)]
struct Desk<L: Opening, C: Machine> {
    traced: Traced<C>,
    events: Book<L>,
    ghost counted: { length traced.trace.items ≡ L.opening + events.total },
    ghost same: { C.given traced.client ≡ L.given },
}

/// The right to call one shared client: a share of the ledger that counts its events. It belongs to the shared client of the same ledger.
#[derive(Drop)]
pub struct Pass<L: Opening> {
    share: Share<L>,
    parts: u64,
    ghost held: { share.parts ≡ parts },
    ghost some: { 0 < parts },
}

/// A client that several threads share.
#[derive(Drop)]
pub struct Shared<L: Opening, C: Machine> {
    desk: Mutex<Desk<L, C>>,
    moved: Condvar,
}

impl<L: Opening> Pass<L> {
    /// How many parts it has. It takes no memory.
    pub fn parts(&self) -> u64
        ensures { result ≡ self.now.parts }
    {
        self.parts
    }
}

impl<L: Opening, C: Machine> Desk<L, C> {
    fn submit(&mut self, pass: &mut Pass<L>, event: Event) -> Result<Receipt, NoMemory>
        ensures stands { IfOk result (λ r. (ss : List Step) × Had C.good L.given (L.opening + pass.old.share.amount) ss × (r.index ≡ length ss)
            × Legal C.good L.given (ss ++ step event r.effects.items ∷ [])) }
        ensures counted { OnOk result (pass.new.share.amount ≡ pass.old.share.amount + 1) }
        ensures err { OnErr result (pass.new.share.amount ≡ pass.old.share.amount) }
        ensures parts { pass.new.parts ≡ pass.old.parts }
    {
        let Desk { traced, events } = self;
        let Pass { share, parts: _ } = pass;
        events.audit(share);
        match traced.apply(event) {
            Ok(receipt) => {
                events.add(share, 1);
                Ok(receipt)
            }
            Err(e) => Err(e),
        }
    }

    /// None while it has neither run out of memory nor has news from this place on.
    fn news(&mut self, pass: &mut Pass<L>, seen: u64) -> Option<Result<(), NoMemory>>
        ensures had { IfSome result (λ r. OnOk r ((ss : List Step) × Had C.good L.given (L.opening + pass.old.share.amount) ss
            × (has_news (drop seen ss) ≡ true))) }
        ensures same { (pass.new.parts ≡ pass.old.parts) × (pass.new.share.amount ≡ pass.old.share.amount) }
    {
        let Desk { traced, events } = self;
        let Pass { share, parts: _ } = pass;
        events.audit(share);
        if traced.has_failed() {
            return Some(Err(NoMemory));
        }
        if traced.has_news(seen) {
            return Some(Ok(()));
        }
        None
    }

    fn ended(&mut self, pass: &mut Pass<L>, link: u64) -> Result<bool, NoMemory>
        ensures had { IfOk result (λ b. (ss : List Step) × Had C.good L.given (L.opening + pass.old.share.amount) ss
            × ∥ C.says_ended L.given (reverse ss) link b ∥₁) }
        ensures same { (pass.new.parts ≡ pass.old.parts) × (pass.new.share.amount ≡ pass.old.share.amount) }
    {
        let Desk { traced, events } = self;
        let Pass { share, parts: _ } = pass;
        events.audit(share);
        traced.link_ended(link)
    }

    fn since(
        &mut self,
        pass: &mut Pass<L>,
        from: u64,
    ) -> Result<Vec<(Event, Vec<Effect>)>, NoMemory>
        ensures had { IfOk result (λ v. (ss : List Step) × Had C.good L.given (L.opening + pass.old.share.amount) ss × (steps v.items ≡ drop from ss)) }
        ensures same { (pass.new.parts ≡ pass.old.parts) × (pass.new.share.amount ≡ pass.old.share.amount) }
    {
        let Desk { traced, events } = self;
        let Pass { share, parts: _ } = pass;
        events.audit(share);
        traced.copies(from)
    }

    fn close(self, all: Share<L>) -> Traced<C>
        requires { L.parts ≡ 4294967295 }
        ensures count { all.parts ≡ 4294967295 → length result.trace.items ≡ L.opening + all.amount }
        ensures same { C.given result.client ≡ L.given }
    {
        let Desk { traced, mut events } = self;
        let mut all = all;
        events.audit(&mut all);
        traced
    }
}

impl<L: Opening, C: Machine> Shared<L, C> {
    /// The client is shared. The pass has all parts, and has submitted nothing. The blank is a new ledger of this name.
    pub fn new(blank: Blank, traced: Traced<C>) -> Result<(Shared<L, C>, Pass<L>), NoMemory>
        requires name { blank.name ≡ L.name }
        requires parts { blank.parts ≡ L.parts }
        requires all { L.parts ≡ 4294967295 }
        requires opening { length traced.trace.items ≡ L.opening }
        requires given { C.given traced.client ≡ L.given }
        ensures parts { IfOk result (λ r. r.1.parts ≡ 4294967295) }
        ensures amount { IfOk result (λ r. r.1.share.amount ≡ 0) }
    {
        let (events, share) = blank.open::<L>();
        let desk = Desk { traced, events };
        let shared = Shared {
            desk: Mutex::new(desk),
            moved: Condvar::new(),
        };
        let pass = Pass {
            share,
            parts: PARTS,
        };
        Ok((shared, pass))
    }

    /// One part for a new pass, which has submitted nothing. It needs a pass of two parts at least. After a refusal the pass is as before.
    pub fn split(&self, pass: &mut Pass<L>) -> Result<Pass<L>, NoMemory>
        requires { 2 ≤ pass.old.parts }
        ensures new { IfOk result (λ p. (p.parts ≡ 1) × (p.share.amount ≡ 0)) }
        ensures left { OnOk result ((pass.new.parts + 1 ≡ pass.old.parts) × (pass.new.share.amount ≡ pass.old.share.amount)) }
        ensures err { OnErr result (pass.new ≡ pass.old) }
    {
        let Pass { share, parts } = pass;
        let theirs = share.split_off(1, 0);
        *parts -= 1;
        Ok(Pass {
            share: theirs,
            parts: 1,
        })
    }

    /// Waits for the lock, and makes the step of this event. Its place in the trace is not before the opening and what the pass has submitted.
    /// The share of the pass rises by one.
    pub fn submit<R: Wait>(
        &self,
        rt: &R,
        pass: &mut Pass<L>,
        event: Event,
    ) -> Result<Receipt, NoMemory>
        ensures stands { IfOk result (λ r. (ss : List Step) × Had C.good L.given (L.opening + pass.old.share.amount) ss × (r.index ≡ length ss)
            × Legal C.good L.given (ss ++ step event r.effects.items ∷ [])) }
        ensures counted { OnOk result (pass.new.share.amount ≡ pass.old.share.amount + 1) }
        ensures err { OnErr result (pass.new.share.amount ≡ pass.old.share.amount) }
        ensures parts { pass.new.parts ≡ pass.old.parts }
    {
        let answer = self.desk.lock(rt).submit(pass, event);
        self.moved.notify_all();
        answer
    }

    /// Waits for the lock, and copies the entries of the trace from this place on, in order. It answers none where the trace is not longer.
    pub fn since<R: Wait>(
        &self,
        rt: &R,
        pass: &mut Pass<L>,
        from: u64,
    ) -> Result<Vec<(Event, Vec<Effect>)>, NoMemory>
        ensures entries { IfOk result (λ v. (ss : List Step) × Had C.good L.given (L.opening + pass.old.share.amount) ss × (steps v.items ≡ drop from ss)) }
        ensures same { (pass.new.parts ≡ pass.old.parts) × (pass.new.share.amount ≡ pass.old.share.amount) }
    {
        self.desk.lock(rt).since(pass, from)
    }

    /// Waits until an entry that is no Drain stands at this place of the trace or later. Once the client has run out of memory it answers that,
    /// also where it waits already.
    pub fn wait<R: Wait>(&self, rt: &R, pass: &mut Pass<L>, seen: u64) -> Result<(), NoMemory>
        ensures had { OnOk result ((ss : List Step) × Had C.good L.given (L.opening + pass.old.share.amount) ss × (has_news (drop seen ss) ≡ true)) }
        ensures same { (pass.new.parts ≡ pass.old.parts) × (pass.new.share.amount ≡ pass.old.share.amount) }
    {
        let mut desk = self.desk.lock(rt);
        for _ in rt.forever() {
            if let Some(answer) = desk.news(pass, seen) {
                return answer;
            }
            desk = self.moved.wait(rt, desk);
        }
        unreachable!()
    }

    /// Waits for the lock, and says whether the link has ended. Once the client has run out of memory it answers that.
    pub fn ended<R: Wait>(&self, rt: &R, pass: &mut Pass<L>, link: u64) -> Result<bool, NoMemory>
        ensures had { IfOk result (λ b. (ss : List Step) × Had C.good L.given (L.opening + pass.old.share.amount) ss
            × ∥ C.says_ended L.given (reverse ss) link b ∥₁) }
        ensures same { (pass.new.parts ≡ pass.old.parts) × (pass.new.share.amount ≡ pass.old.share.amount) }
    {
        self.desk.lock(rt).ended(pass, link)
    }

    /// The pass takes the other's share and parts.
    pub fn join(&self, pass: &mut Pass<L>, other: Pass<L>) -> Result<(), NoMemory>
        requires { L.parts ≡ 4294967295 }
        ensures parts { OnOk result (pass.new.parts ≡ pass.old.parts + other.parts) }
        ensures amount { OnOk result (pass.new.share.amount ≡ pass.old.share.amount + other.share.amount) }
        ensures err { OnErr result (pass.new ≡ pass.old) }
    {
        let Pass { share, parts } = pass;
        let Pass {
            share: theirs,
            parts: more,
        } = other;
        share.merge(theirs);
        *parts += more;
        Ok(())
    }

    /// The client comes back. With all passes, its trace is longer than the opening one by the sum of their shares.
    pub fn finish(self, passes: Vec<Pass<L>>) -> Result<Traced<C>, NoMemory>
        requires { L.parts ≡ 4294967295 }
        ensures count { IfOk result (λ t. sum_by (λ p. p.parts) passes.items ≡ 4294967295 → length t.trace.items
            ≡ L.opening + sum_by (λ p. p.share.amount) passes.items) }
        ensures same { IfOk result (λ t. C.given t.client ≡ L.given) }
    {
        let Shared { desk, moved: _ } = self;
        let desk = desk.into_inner();
        match merge_all(passes) {
            Some(all) => Ok(desk.close(all)),
            None => {
                let Desk { traced, events: _ } = desk;
                Ok(traced)
            }
        }
    }
}

/// All shares in one; none where there is no pass.
fn merge_all<L: Opening>(mut passes: Vec<Pass<L>>) -> Option<Share<L>>
    ensures parts { MatchOption result (sum_by (λ p. p.parts) passes.items ≡ 0) (λ s. s.parts ≡ sum_by (λ p. p.parts) passes.items) }
    ensures amount { IfSome result (λ s. s.amount ≡ sum_by (λ p. p.share.amount) passes.items) }
{
    let Pass {
        share: mut all,
        parts: _,
    } = passes.pop()?;
    while let Some(pass) = passes.pop() {
        let Pass { share, parts: _ } = pass;
        all.merge(share);
    }
    Some(all)
}
