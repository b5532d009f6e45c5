//! A client with the record of its run.

ghost use Rattle.std.specs.Prelude.{◌≡◌, ◌∷◌, ◌++◌, ◌+◌, [], List, false, true, IfOk, IsErr, OnErr, OnOk, Some, drop, length};
ghost use Rattle.pulsar_calls.specs.Content.{heard};
ghost use Rattle.pulsar_calls.specs.Steps.{Step};
ghost use Rattle.pulsar_machine.specs.Options.{Options};
ghost use Rattle.pulsar_machine.specs.Machine.{step};
ghost use Rattle.pulsar_shared.specs.Trace.{has_news, history, numbered, steps};

use crate::copies::{any_news, copy_effects, copy_entries, copy_in_box, rest};
use pulsar_calls::effect::Effect;
use pulsar_calls::event::Event;
use pulsar_machine::Machine;
use pulsar_pumps::submitter::{Receipt, Submitter};
use pulsar_wire::error::NoMemory;
use std::alloc::Global;

/// A client, and all that has happened to it with the effects. Only its own calls change it, so what stands in the trace is what the client
/// did.
pub struct Traced<C: Machine> {
    client: C,
    trace: Vec<(Event, Vec<Effect>)>,
    // a call ran out of memory
    failed: bool,
    alloc: Global,
    ghost legal: { ∥ C.good (C.given client) (history trace.items) ∥₁ },
    ghost stands: { failed ≡ false → ∥ C.stands (C.given client) client (history trace.items) ∥₁ },
}

impl<C: Machine> Drop for Traced<C> {
    fn drop(self) {
        let Traced {
            client: _,
            trace: _,
            failed: _,
            alloc: _,
        } = self;
    }
}

impl<C: Machine> Traced<C> {
    /// A client to which nothing has happened.
    pub fn new(alloc: Global, options: C::Options) -> Result<Traced<C>, NoMemory>
        ensures { IfOk result (λ t. (t.trace.items ≡ []) × (C.given t.client ≡ C.means options) × (t.failed ≡ false)) }
    {
        let client = match C::new(alloc, options) {
            Ok(client) => client,
            Err(e) => return Err(e),
        };
        Ok(Traced {
            client,
            trace: Vec::new(alloc),
            failed: false,
            alloc,
        })
    }

    /// The client.
    pub fn client(&self) -> &C
        ensures client { result.now ≡ self.now.client }
        ensures stands { self.now.failed ≡ false → ∥ C.stands (C.given result.now) result.now (history self.now.trace.items) ∥₁ }
    {
        &self.client
    }

    /// What has happened, each event with its effects, in order.
    pub fn trace(&self) -> &[(Event, Vec<Effect>)]
        ensures trace { result.now ≡ self.now.trace.items }
        ensures legal { ∥ C.good (C.given self.now.client) (history result.now) ∥₁ }
    {
        &self.trace
    }

    /// The trace by itself.
    pub fn into_trace(self) -> Vec<(Event, Vec<Effect>)>
        ensures trace { result.items ≡ self.trace.items }
        ensures legal { ∥ C.good (C.given self.client) (history result.items) ∥₁ }
    {
        let Traced {
            client,
            trace,
            failed: _,
            alloc: _,
        } = self;
        drop(client);
        trace
    }

    /// It has run out of memory: then every `apply` answers that.
    pub fn has_failed(&self) -> bool
        ensures { result ≡ self.now.failed }
    {
        self.failed
    }

    /// Makes the step, and keeps the event with its effects. After want of memory it answers that for ever, unchanged.
    pub fn apply(&mut self, event: Event) -> Result<Receipt, NoMemory>
        ensures entry { IfOk result (λ r. steps self.new.trace.items ≡ steps self.old.trace.items ++ step event r.effects.items ∷ []) }
        ensures index { IfOk result (λ r. r.index ≡ length self.old.trace.items) }
        ensures one { OnOk result (length self.new.trace.items ≡ length self.old.trace.items + 1) }
        ensures ok { OnOk result (self.new.failed ≡ false) }
        ensures unchanged { OnErr result (self.new.trace.items ≡ self.old.trace.items) }
        ensures failed { OnErr result (self.new.failed ≡ true) }
        ensures stays { self.old.failed ≡ true → IsErr result × (self.new ≡ self.old) }
        ensures given { C.given self.new.client ≡ C.given self.old.client }
    {
        if self.failed {
            drop(event);
            return Err(NoMemory);
        }
        self.failed = true;
        match self.make(event) {
            Ok(receipt) => {
                self.failed = false;
                Ok(receipt)
            }
            Err(e) => Err(e),
        }
    }

    /// The link has ended. After want of memory it answers that.
    pub fn link_ended(&self, link: u64) -> Result<bool, NoMemory>
        ensures ended { IfOk result (λ b. ∥ C.says_ended (C.given self.now.client) (history self.now.trace.items) link b ∥₁) }
        ensures ok { OnOk result (self.now.failed ≡ false) }
        ensures failed { OnErr result (self.now.failed ≡ true) }
    {
        if self.failed {
            return Err(NoMemory);
        }
        Ok(self.client.link_ended(link))
    }

    /// Copies of the entries from this place on, in order.
    pub fn copies(&self, from: u64) -> Result<Vec<(Event, Vec<Effect>)>, NoMemory>
        ensures { IfOk result (λ v. steps v.items ≡ steps (drop from self.now.trace.items)) }
    {
        copy_entries(self.alloc, rest(&self.trace, from))
    }

    /// An entry that is no Drain stands at this place or later.
    pub fn has_news(&self, from: u64) -> bool
        ensures { result ≡ has_news (steps (drop from self.now.trace.items)) }
    {
        any_news(rest(&self.trace, from))
    }

    fn make(&mut self, event: Event) -> Result<Receipt, NoMemory>
        requires stands { ∥ C.stands (C.given self.old.client) self.old.client (history self.old.trace.items) ∥₁ }
        requires busy { self.old.failed ≡ true }
        ensures entry { IfOk result (λ r. steps self.new.trace.items ≡ steps self.old.trace.items ++ step event r.effects.items ∷ []) }
        ensures index { IfOk result (λ r. r.index ≡ length self.old.trace.items) }
        ensures one { OnOk result (length self.new.trace.items ≡ length self.old.trace.items + 1) }
        ensures stands { OnOk result (∥ C.stands (C.given self.new.client) self.new.client (history self.new.trace.items) ∥₁) }
        ensures unchanged { OnErr result (self.new.trace.items ≡ self.old.trace.items) }
        ensures failed { self.new.failed ≡ self.old.failed }
        ensures given { C.given self.new.client ≡ C.given self.old.client }
    {
        let Traced {
            client,
            trace,
            failed: _,
            alloc,
        } = self;
        let (kept, effects) = advance(client, *alloc, event)?;
        let receipt = keep(trace, *alloc, kept, effects)?;
        Ok(receipt)
    }
}

/// Makes the step. It answers a copy of the event beside the effects.
fn advance<C: Machine>(
    client: &mut C,
    alloc: Global,
    event: Event,
) -> Result<(Box<Event>, Vec<Effect>), NoMemory>
    ensures kept { IfOk result (λ r. heard r.0.value ≡ heard event) }
    ensures stands { IfOk result (λ r. (o : Options) (h : List Step) → C.stands o client.old h → C.stands o client.new (step event r.1.items ∷ h)) }
    ensures given { C.given client.new ≡ C.given client.old }
{
    match copy_in_box(alloc, &event) {
        Ok(kept) => match client.step(event) {
            Ok(effects) => Ok((kept, effects)),
            Err(e) => Err(e),
        },
        Err(e) => {
            drop(event);
            Err(e)
        }
    }
}

/// Puts an entry behind the trace, with copies of the effects.
fn keep(
    trace: &mut Vec<(Event, Vec<Effect>)>,
    alloc: Global,
    event: Box<Event>,
    effects: Vec<Effect>,
) -> Result<Receipt, NoMemory>
    ensures entry { OnOk result (steps trace.new.items ≡ steps trace.old.items ++ step event.value effects.items ∷ []) }
    ensures receipt { IfOk result (λ r. (r.index ≡ length trace.old.items) × (r.effects.items ≡ effects.items)) }
    ensures one { OnOk result (length trace.new.items ≡ length trace.old.items + 1) }
    ensures unchanged { OnErr result (trace.new.items ≡ trace.old.items) }
{
    trace.reserve(1)?;
    let told = copy_effects(alloc, &effects)?;
    let index = trace.len() as u64;
    trace.push_reserved((Box::into_inner(event), told));
    Ok(Receipt { index, effects })
}

impl<C: Machine> Submitter for Traced<C> {
    ghost told = { λ t. Some (numbered 0 (steps t.trace.items)) };

    ghost over = { λ t link b. ∥ C.says_ended (C.given t.client) (history t.trace.items) link b ∥₁ };

    ghost others = { false };

    fn submit(&mut self, event: Event) -> Result<Receipt, NoMemory> {
        self.apply(event)
    }

    fn ended(&mut self, link: u64) -> Result<bool, NoMemory> {
        self.link_ended(link)
    }

    fn wait(&mut self, _seen: u64) -> Result<bool, NoMemory> {
        Ok(false)
    }
}
