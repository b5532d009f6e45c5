//! Where what is written to a link goes.

ghost use Rattle.std.specs.Prelude.{◌≡◌, ◌≤◌, ◌<◌, ◌++◌, [], ℕ, Bool, true, false, List, Option, Some, IfOk, OnErr, length, take};
ghost use Rattle.pulsar_pumps.specs.Outside.{Grows, Rose};

use crate::outside::Failed;
use std::alloc::Global;

/// Says that a round has ended the output of a link. Nothing else makes one.
#[derive(Drop)]
pub struct EndMark {
    made: (),
}

impl EndMark {
    /// For the rounds alone.
    pub(crate) fn new() -> EndMark {
        EndMark { made: () }
    }
}

/// The half of a link that takes what is written to it. It counts its faults, and where it tells that, it says what it has taken. Dropping it
/// ends both halves of the link.
pub trait Output {
    /// How many faults there were. The count never falls, and has risen at each `Failed`, and at each 0 for bytes that are not empty.
    ghost faults: { Self → ℕ };

    /// The bytes that it has taken, where it tells them.
    ghost taken: { Self → Option (List ℕ) };

    /// It was shut.
    ghost is_shut: { Self → Bool };

    /// Takes the first of these bytes, and answers how many. The answer 0 for bytes that are not empty is a fault.
    fn put(&mut self, bytes: &[u8]) -> Result<usize, Failed>
        ensures within { IfOk result (λ n. n ≤ length bytes.now) }
        ensures taken { IfOk result (λ n. Grows (taken self.old) (taken self.new) (take n bytes.now)) }
        ensures grows { faults self.old ≤ faults self.new }
        ensures rises { OnErr result (Rose (faults self.old) (faults self.new)) }
        ensures full { IfOk result (λ n. n ≡ 0 → 0 < length bytes.now → Rose (faults self.old) (faults self.new)) }
        ensures kept { OnErr result (taken self.new ≡ taken self.old) }
        ensures stays { is_shut self.new ≡ is_shut self.old };

    /// Ends both halves of the link.
    fn shut(&mut self, mark: &EndMark)
        ensures shut { is_shut self.new ≡ true }
        ensures kept { taken self.new ≡ taken self.old }
        ensures grows { faults self.old ≤ faults self.new };
}

/// Bytes in memory. It has a fault only where memory runs out.
#[derive(Drop)]
pub struct MemoryOutput {
    bytes: Vec<u8>,
    faults: u64,
    shut: bool,
}

impl MemoryOutput {
    /// It has taken nothing.
    pub fn new(alloc: Global) -> MemoryOutput
        ensures taken { ⟦<MemoryOutput as Output>⟧.taken result ≡ Some [] }
        ensures faults { ⟦<MemoryOutput as Output>⟧.faults result ≡ 0 }
        ensures shut { ⟦<MemoryOutput as Output>⟧.is_shut result ≡ false }
    {
        MemoryOutput {
            bytes: Vec::new(alloc),
            faults: 0,
            shut: false,
        }
    }

    /// What it has taken.
    pub fn bytes(&self) -> &[u8]
        ensures { ⟦<MemoryOutput as Output>⟧.taken self.now ≡ Some result.now }
    {
        &self.bytes
    }

    /// It was shut.
    pub fn is_shut(&self) -> bool
        ensures { result ≡ ⟦<MemoryOutput as Output>⟧.is_shut self.now }
    {
        self.shut
    }
}

impl Output for MemoryOutput {
    ghost faults = { λ s. s.faults };

    ghost taken = { λ s. Some s.bytes.items };

    ghost is_shut = { λ s. s.shut };

    fn put(&mut self, bytes: &[u8]) -> Result<usize, Failed> {
        match self.bytes.extend_from_slice(bytes) {
            Ok(()) => Ok(bytes.len()),
            Err(_) => {
                self.faults = self.faults.saturating_add(1);
                Err(Failed)
            }
        }
    }

    fn shut(&mut self, _mark: &EndMark) {
        self.shut = true;
    }
}

/// Bytes in memory. It fails at some of its calls, counted from 0, and takes few bytes at a time.
#[derive(Drop)]
pub struct FailingOutput {
    bytes: Vec<u8>,
    fails: Vec<u64>,
    most: usize,
    calls: u64,
    faults: u64,
    shut: bool,
}

impl FailingOutput {
    /// It has taken nothing, fails at these calls, and takes `most` bytes at a time at the most.
    pub fn new(alloc: Global, fails: Vec<u64>, most: usize) -> FailingOutput
        ensures taken { ⟦<FailingOutput as Output>⟧.taken result ≡ Some [] }
        ensures faults { ⟦<FailingOutput as Output>⟧.faults result ≡ 0 }
        ensures shut { ⟦<FailingOutput as Output>⟧.is_shut result ≡ false }
    {
        FailingOutput {
            bytes: Vec::new(alloc),
            fails,
            most,
            calls: 0,
            faults: 0,
            shut: false,
        }
    }

    /// What it has taken.
    pub fn bytes(&self) -> &[u8]
        ensures { ⟦<FailingOutput as Output>⟧.taken self.now ≡ Some result.now }
    {
        &self.bytes
    }

    /// It was shut.
    pub fn is_shut(&self) -> bool
        ensures { result ≡ ⟦<FailingOutput as Output>⟧.is_shut self.now }
    {
        self.shut
    }

    /// How many faults there were.
    pub fn faults(&self) -> u64
        ensures { result ≡ ⟦<FailingOutput as Output>⟧.faults self.now }
    {
        self.faults
    }
}

impl Output for FailingOutput {
    ghost faults = { λ s. s.faults };

    ghost taken = { λ s. Some s.bytes.items };

    ghost is_shut = { λ s. s.shut };

    fn put(&mut self, bytes: &[u8]) -> Result<usize, Failed> {
        let fails = self.fails.contains(&self.calls);
        self.calls = self.calls.saturating_add(1);
        let n = bytes.len().min(self.most);
        if fails || (n == 0 && !bytes.is_empty()) {
            self.faults = self.faults.saturating_add(1);
            return Err(Failed);
        }
        match self.bytes.extend_from_slice(&bytes[..n]) {
            Ok(()) => Ok(n),
            Err(_) => {
                self.faults = self.faults.saturating_add(1);
                Err(Failed)
            }
        }
    }

    fn shut(&mut self, _mark: &EndMark) {
        self.shut = true;
    }
}
