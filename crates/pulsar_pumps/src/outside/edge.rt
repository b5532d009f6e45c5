//! Where connections come from, and the time.

ghost use Rattle.std.specs.Prelude.{◌≡◌, ◌≤◌, ◌+◌, [], ℕ, false, List, Option, Some, None, IfOk, OnErr, MatchResult};
ghost use Rattle.pulsar_wire.specs.declared.error.IoKind.{IoKind};
ghost use Rattle.pulsar_pumps.specs.Outside.{Grows, Rose, failures_of, first_of, later_of};

use crate::outside::input::{Input, MemoryInput};
use crate::outside::output::{MemoryOutput, Output};
use pulsar_wire::error::IoKind;
use std::alloc::Global;

/// Opens connections, and says what time it is.
pub trait Edge {
    /// The half of a link that gives what comes.
    type Input: Input + Send + Drop;

    /// The half of a link that takes what is written.
    type Output: Output + Send + Drop;

    /// How many dials failed with this kind. The count never falls, and has risen at each such failure.
    ghost failures: { Self → IoKind → ℕ };

    /// The first moment that `now` has answered.
    ghost first: { Self → Option ℕ };

    /// The greatest moment that `now` has answered.
    ghost greatest: { Self → Option ℕ };

    /// Opens a connection to this host and port. Its halves have given and taken nothing, and have had no fault.
    fn dial(&mut self, host: &str, port: u16) -> Result<(Self::Input, Self::Output), IoKind>
        ensures input { IfOk result (λ halves. (Self.Input.faults halves.0 ≡ 0) × ((xs : List ℕ) → Self.Input.given halves.0 ≡ Some xs → xs ≡ [])) }
        ensures output { IfOk result (λ halves. (Self.Output.faults halves.1 ≡ 0) × ((xs : List ℕ) → Self.Output.taken halves.1 ≡ Some xs → xs ≡ [])) }
        ensures grows { (k : IoKind) → failures self.old k ≤ failures self.new k }
        ensures rises { MatchResult result (λ _. Unit {0}) (λ kind. Rose (failures self.old kind) (failures self.new kind)) }
        ensures first { first self.new ≡ first self.old }
        ensures greatest { greatest self.new ≡ greatest self.old };

    /// The present moment, in milliseconds since 1970.
    fn now(&mut self) -> u64
        ensures first { first self.new ≡ Some (first_of (first self.old) result) }
        ensures greatest { greatest self.new ≡ Some (later_of (greatest self.old) result) }
        ensures grows { (k : IoKind) → failures self.old k ≤ failures self.new k };

    /// Lets so many milliseconds pass.
    fn pause(&mut self, ms: u64)
        ensures first { first self.new ≡ first self.old }
        ensures greatest { greatest self.new ≡ greatest self.old }
        ensures grows { (k : IoKind) → failures self.old k ≤ failures self.new k };
}

/// Links in memory: each dial opens the next one, and a link beyond the last gives nothing. Its clock goes on by a fixed step at each look, and by
/// each pause.
#[derive(Drop)]
pub struct MemoryEdge {
    alloc: Global,
    // what each link is to give, the next one last
    scripts: Vec<Vec<u8>>,
    clock: u64,
    step: u64,
    first: Option<u64>,
    greatest: Option<u64>,
}

impl MemoryEdge {
    /// The links are to give these bytes, the first link the first of them.
    pub fn new(alloc: Global, mut scripts: Vec<Vec<u8>>, clock: u64, step: u64) -> MemoryEdge
        ensures failures { (k : IoKind) → ⟦<MemoryEdge as Edge>⟧.failures result k ≡ 0 }
        ensures first { ⟦<MemoryEdge as Edge>⟧.first result ≡ None }
        ensures greatest { ⟦<MemoryEdge as Edge>⟧.greatest result ≡ None }
    {
        scripts.reverse();
        MemoryEdge {
            alloc,
            scripts,
            clock,
            step,
            first: None,
            greatest: None,
        }
    }

    fn open(&mut self) -> (MemoryInput, MemoryOutput)
        ensures input { (⟦<MemoryInput as Input>⟧.given result.0 ≡ Some []) × (⟦<MemoryInput as Input>⟧.faults result.0 ≡ 0) }
        ensures output { (⟦<MemoryOutput as Output>⟧.taken result.1 ≡ Some []) × (⟦<MemoryOutput as Output>⟧.faults result.1 ≡ 0) }
        ensures first { self.new.first ≡ self.old.first }
        ensures greatest { self.new.greatest ≡ self.old.greatest }
    {
        let bytes = match self.scripts.pop() {
            Some(bytes) => bytes,
            None => Vec::new(self.alloc),
        };
        (MemoryInput::new(bytes), MemoryOutput::new(self.alloc))
    }

    fn look(&mut self) -> u64
        ensures first { self.new.first ≡ Some (first_of self.old.first result) }
        ensures greatest { self.new.greatest ≡ Some (later_of self.old.greatest result) }
    {
        let now = self.clock;
        self.clock = now.saturating_add(self.step);
        if self.first.is_none() {
            self.first = Some(now);
        }
        self.greatest = match self.greatest {
            Some(then) => Some(then.max(now)),
            None => Some(now),
        };
        now
    }

    fn pass(&mut self, ms: u64)
        ensures first { self.new.first ≡ self.old.first }
        ensures greatest { self.new.greatest ≡ self.old.greatest }
    {
        self.clock = self.clock.saturating_add(ms);
    }
}

impl Edge for MemoryEdge {
    type Input = MemoryInput;

    type Output = MemoryOutput;

    ghost failures = { λ _ _. 0 };

    ghost first = { λ e. e.first };

    ghost greatest = { λ e. e.greatest };

    fn dial(&mut self, _host: &str, _port: u16) -> Result<(MemoryInput, MemoryOutput), IoKind> {
        Ok(self.open())
    }

    fn now(&mut self) -> u64 {
        self.look()
    }

    fn pause(&mut self, ms: u64) {
        self.pass(ms);
    }
}

/// Links in memory, some of which cannot be opened.
#[derive(Drop)]
pub struct FailingEdge {
    edge: MemoryEdge,
    fails: Vec<Option<IoKind>>,
    then: Option<IoKind>,
    dials: usize,
    refused: u64,
    timed_out: u64,
    other: u64,
}

impl FailingEdge {
    /// The links that open are those of `edge`. `fails` says of each dial in turn how it fails, if it does, and `then` of each one behind
    /// them.
    pub fn new(edge: MemoryEdge, fails: Vec<Option<IoKind>>, then: Option<IoKind>) -> FailingEdge
        ensures failures { (k : IoKind) → ⟦<FailingEdge as Edge>⟧.failures result k ≡ 0 }
        ensures first { ⟦<FailingEdge as Edge>⟧.first result ≡ ⟦<MemoryEdge as Edge>⟧.first edge }
        ensures greatest { ⟦<FailingEdge as Edge>⟧.greatest result ≡ ⟦<MemoryEdge as Edge>⟧.greatest edge }
    {
        FailingEdge {
            edge,
            fails,
            then,
            dials: 0,
            refused: 0,
            timed_out: 0,
            other: 0,
        }
    }

    fn count(&mut self, kind: IoKind)
        ensures grows { (k : IoKind) → failures_of self.old k ≤ failures_of self.new k }
        ensures rises { Rose (failures_of self.old kind) (failures_of self.new kind) }
        ensures edge { self.new.edge ≡ self.old.edge }
    {
        match kind {
            IoKind::ConnectionRefused => self.refused = self.refused.saturating_add(1),
            IoKind::TimedOut => self.timed_out = self.timed_out.saturating_add(1),
            IoKind::Other => self.other = self.other.saturating_add(1),
        }
    }
}

impl Edge for FailingEdge {
    type Input = MemoryInput;

    type Output = MemoryOutput;

    ghost failures = { λ e k. failures_of e k };

    ghost first = { λ e. e.edge.first };

    ghost greatest = { λ e. e.edge.greatest };

    fn dial(&mut self, _host: &str, _port: u16) -> Result<(MemoryInput, MemoryOutput), IoKind> {
        let fault = match self.fails.get(self.dials) {
            Some(fault) => *fault,
            None => self.then,
        };
        self.dials = self.dials.saturating_add(1);
        match fault {
            Some(kind) => {
                self.count(kind);
                Err(kind)
            }
            None => Ok(self.edge.open()),
        }
    }

    fn now(&mut self) -> u64 {
        self.edge.look()
    }

    fn pause(&mut self, ms: u64) {
        self.edge.pass(ms);
    }
}
