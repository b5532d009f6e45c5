//! What the calls of a client ended with, until it is taken.

ghost use Rattle.std.specs.Prelude.{◌≡◌, ◌==◌, ℕ, IfOk, List, None, OnOk, Some, if◌then◌else◌, map};
ghost use Rattle.std.specs.Option.{option_map};
ghost use Rattle.pulsar_calls.specs.Content.{said, shown};
ghost use Rattle.pulsar_client.specs.Taken.{Held, drawn_to, ended_in, held_in, left_after, taken_left, taken_of};

use pulsar_calls::content::Said;
use pulsar_calls::copying::copy_answer;
use pulsar_calls::effect::{Answer, Effect};
use pulsar_wire::error::{Error, NoMemory};
use std::alloc::Global;
use std::collections::BTreeMap;

/// What there is of a ticket.
#[derive(Drop)]
pub enum Taken {
    /// Its call has ended so. It is told once.
    Answer(Result<Answer, Error>),
    /// Its call has not ended.
    Waiting,
    /// It was never drawn, or its answer was taken.
    Unknown,
}

/// The tickets whose answers were not taken: those of the calls that wait, and what the others ended with.
pub struct Answers {
    pub alloc: Global,
    pub held: BTreeMap<u64, Option<Said>>,
}

impl Drop for Answers {
    fn drop(self) {
        let Answers { alloc: _, held: _ } = self;
    }
}

impl Answers {
    /// No ticket was drawn.
    pub fn new(alloc: Global) -> Answers
        ensures { (t : ℕ) → held_in result.held t ≡ None }
    {
        Answers {
            alloc,
            held: BTreeMap::new(alloc),
        }
    }

    /// The tickets from one on up to another were drawn in a step with these effects.
    pub fn note(&mut self, from: u64, to: u64, effects: &[Effect]) -> Result<(), NoMemory>
        ensures { OnOk result ((t : ℕ) → held_in self.new.held t ≡ ended_in (map shown effects.now) t (drawn_to from to t (held_in self.old.held t))) }
    {
        for ticket in from..to {
            self.held.insert(ticket, None)?;
        }
        for effect in effects {
            self.note_effect(effect)?;
        }
        Ok(())
    }

    /// A call whose ticket was drawn has ended.
    fn note_effect(&mut self, effect: &Effect) -> Result<(), NoMemory>
        ensures { OnOk result ((t : ℕ) → held_in self.new.held t ≡ left_after (shown effect.now) t (held_in self.old.held t)) }
    {
        if let Effect::Ended { ticket, answer } = effect {
            if self.held.contains_key(ticket) {
                let said = Said::new(self.alloc, copy_answer(self.alloc, answer)?)?;
                self.held.insert(*ticket, Some(said))?;
            }
        }
        Ok(())
    }

    /// What a call ended with is taken.
    pub fn take(&mut self, ticket: u64) -> Taken
        ensures taken { taken_of result ≡ held_in self.old.held ticket }
        ensures left { (t : ℕ) → held_in self.new.held t ≡ (if t == ticket then taken_left (held_in self.old.held t) else held_in self.old.held t) }
    {
        match self.held.get(&ticket) {
            None => return Taken::Unknown,
            Some(None) => return Taken::Waiting,
            Some(Some(_)) => {}
        }
        match self.held.remove(&ticket) {
            Some(Some(said)) => Taken::Answer(said.into_inner()),
            Some(None) | None => Taken::Unknown,
        }
    }
}
