//! Whoever events are submitted to.

ghost use Rattle.std.specs.Prelude.{◌≡◌, ◌∷◌, [], ℕ, Bool, Option, List, IfOk, OnErr};
ghost use Rattle.pulsar_pumps.specs.Made.{Made, made_by};
ghost use Rattle.pulsar_pumps.specs.Outside.{Grows};

use pulsar_calls::effect::Effect;
use pulsar_calls::event::Event;
use pulsar_wire::error::NoMemory;

/// An event's place in the trace, and its effects.
#[derive(Debug)]
pub struct Receipt {
    /// How many events stand before it in the trace.
    pub index: u64,
    /// What the client wants done for it.
    pub effects: Vec<Effect>,
}

impl Drop for Receipt {
    fn drop(self) {
        let Receipt {
            index: _,
            effects: _,
        } = self;
    }
}

/// Takes events for a client.
pub trait Submitter {
    /// The events that it answered Ok, each with its receipt, where it tells them.
    ghost told: { Self → Option (List Made) };

    /// It is right of this link to say that it has ended, or that it has not. Who does not tell that holds everything for right.
    ghost over: { Self → ℕ → Bool → Type 0 };

    /// Others submit too.
    ghost others: { Bool };

    /// Makes the step of this event.
    fn submit(&mut self, event: Event) -> Result<Receipt, NoMemory>
        ensures told { IfOk result (λ r. Grows (told self.old) (told self.new) (made_by event r ∷ [])) }
        ensures err { OnErr result (told self.new ≡ told self.old) };

    /// The link has ended.
    fn ended(&mut self, link: u64) -> Result<bool, NoMemory>
        ensures over { IfOk result (λ b. over self.old link b × over self.new link b) }
        ensures same { told self.new ≡ told self.old };

    /// Waits until an entry that is no Drain stands at this place of the trace or later; or answers false at once, where nobody else submits.
    fn wait(&mut self, seen: u64) -> Result<bool, NoMemory>
        ensures others { IfOk result (λ b. b ≡ others) }
        ensures same { told self.new ≡ told self.old };
}
