//! The record of a client whose options stay what they are.

ghost use Rattle.std.specs.Prelude.{◌≡◌, ◌∷◌, Some, IfOk, OnErr, OnOk, false};
ghost use Rattle.pulsar_machine.specs.Options.{Options};
ghost use Rattle.pulsar_machine.specs.Machine.{step};
ghost use Rattle.pulsar_shared.specs.Trace.{history, numbered, steps};
ghost use Rattle.pulsar_shared.specs.Unset.{unset};

use pulsar_calls::event::Event;
use pulsar_machine::Machine;
use pulsar_pumps::{Receipt, Submitter};
use pulsar_shared::Traced;
use pulsar_wire::NoMemory;
use std::marker::{Brand, PhantomData};

/// Names what the client of a run is made with. Each call of a program picks it.
pub trait Terms {
    ghost given: { Options };
}

impl Terms for Brand {
    ghost given = { unset };
}

/// The record of a client that was made with these options.
#[derive(Drop)]
pub struct Kept<T: Terms, C: Machine> {
    traced: Traced<C>,
    terms: PhantomData<T>,
    ghost same: { C.given traced.client ≡ T.given },
}

impl<T: Terms, C: Machine> Kept<T, C> {
    /// A record is kept from now on.
    pub fn new(traced: Traced<C>) -> Kept<T, C>
        requires { C.given traced.client ≡ T.given }
        ensures { result.traced ≡ traced }
    {
        Kept {
            traced,
            terms: PhantomData,
        }
    }

    /// The record by itself.
    pub fn into_traced(self) -> Traced<C>
        ensures traced { result ≡ self.traced }
        ensures given { C.given result.client ≡ T.given }
    {
        let Kept { traced, terms: _ } = self;
        traced
    }

    /// The record.
    pub fn traced(&self) -> &Traced<C>
        ensures traced { result.now ≡ self.now.traced }
    {
        &self.traced
    }

    /// Makes the step of this event.
    pub fn apply(&mut self, event: Event) -> Result<Receipt, NoMemory>
        ensures { IfOk result (λ r. history self.new.traced.trace.items ≡ step event r.effects.items ∷ history self.old.traced.trace.items) }
    {
        self.traced.apply(event)
    }
}

impl<T: Terms, C: Machine> Submitter for Kept<T, C> {
    ghost told = { λ k. Some (numbered 0 (steps k.traced.trace.items)) };

    // nobody asks it for that
    ghost over = { λ _ _ _. Unit {0} };

    ghost others = { false };

    fn submit(&mut self, event: Event) -> Result<Receipt, NoMemory> {
        self.traced.apply(event)
    }

    fn ended(&mut self, link: u64) -> Result<bool, NoMemory> {
        self.traced.link_ended(link)
    }

    fn wait(&mut self, _seen: u64) -> Result<bool, NoMemory> {
        Ok(false)
    }
}
