//! A thread's way to a shared client.

ghost use Rattle.std.specs.Prelude.{None, true};

use crate::shared::{Opening, Pass, Shared};
use pulsar_calls::event::Event;
use pulsar_machine::Machine;
use pulsar_pumps::submitter::{Receipt, Submitter};
use pulsar_wire::error::NoMemory;
use std::sync::Wait;

/// A thread's way to a shared client, for rounds and pumps. It tells nothing of what the others submit.
#[derive(Drop)]
pub struct Caller<'a, L: Opening, C: Machine, R: Wait> {
    pub rt: &'a R,
    pub shared: &'a Shared<L, C>,
    pub pass: Pass<L>,
}

impl<'a, L: Opening, C: Machine, R: Wait> Submitter for Caller<'a, L, C, R> {
    ghost told = { λ _. None };

    ghost over = { λ _ _ _. Unit {0} };

    ghost others = { true };

    fn submit(&mut self, event: Event) -> Result<Receipt, NoMemory> {
        self.shared.submit(self.rt, &mut self.pass, event)
    }

    fn ended(&mut self, link: u64) -> Result<bool, NoMemory> {
        self.shared.ended(self.rt, &mut self.pass, link)
    }

    fn wait(&mut self, seen: u64) -> Result<bool, NoMemory> {
        match self.shared.wait(self.rt, &mut self.pass, seen) {
            Ok(()) => Ok(true),
            Err(e) => Err(e),
        }
    }
}
