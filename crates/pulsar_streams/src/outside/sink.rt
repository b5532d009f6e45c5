//! Where bytes go to.

ghost use Rattle.std.specs.Prelude.{◌≡◌, ◌≤◌, ◌<◌, ◌++◌, [], ℕ, List, Option, Some, IfOk, OnErr, length, take};
ghost use Rattle.pulsar_streams.specs.Outside.{Rose};

use crate::outside::Failed;
use std::alloc::Global;

/// A sink of bytes. It counts its faults, and where it tells that, it says what it holds.
pub trait Sink {
    /// How many faults there were. The count never falls, and has risen at each `Failed`, and at each 0 for bytes that
    /// are not empty.
    ghost faults: { Self → ℕ };

    /// The bytes that it holds, where the sink tells them.
    ghost holds: { Self → Option (List ℕ) };

    /// Takes the first of these bytes, and answers how many. The answer 0 for bytes that are not empty is a fault.
    fn put(&mut self, bytes: &[u8]) -> Result<usize, Failed>
        ensures within { IfOk result (λ n. n ≤ length bytes.now) }
        ensures held { IfOk result (λ n. (held : List ℕ) → holds self.old ≡ Some held → holds self.new ≡ Some (held ++ take n bytes.now)) }
        ensures grows { faults self.old ≤ faults self.new }
        ensures rises { OnErr result (Rose (faults self.old) (faults self.new)) }
        ensures full { IfOk result (λ n. n ≡ 0 → 0 < length bytes.now → Rose (faults self.old) (faults self.new)) }
        ensures kept { OnErr result (holds self.new ≡ holds self.old) };
}

/// Bytes in memory. It has a fault only where memory runs out.
#[derive(Drop)]
pub struct MemorySink {
    bytes: Vec<u8>,
    faults: u64,
}

impl MemorySink {
    /// It holds nothing.
    pub fn new(alloc: Global) -> MemorySink
        ensures holds { ⟦<MemorySink as Sink>⟧.holds result ≡ Some [] }
        ensures faults { ⟦<MemorySink as Sink>⟧.faults result ≡ 0 }
    {
        MemorySink {
            bytes: Vec::new(alloc),
            faults: 0,
        }
    }

    /// What it holds.
    pub fn bytes(&self) -> &[u8]
        ensures { ⟦<MemorySink as Sink>⟧.holds self.now ≡ Some result.now }
    {
        &self.bytes
    }
}

impl Sink for MemorySink {
    ghost faults = { λ s. s.faults };

    ghost holds = { λ s. Some s.bytes.items };

    fn put(&mut self, bytes: &[u8]) -> Result<usize, Failed> {
        match self.bytes.extend_from_slice(bytes) {
            Ok(()) => Ok(bytes.len()),
            Err(_) => {
                self.faults = self.faults.saturating_add(1);
                Err(Failed)
            }
        }
    }
}

/// A sink that fails at some of its calls, counted from 0, and takes few bytes at a time.
#[derive(Drop)]
pub struct FailingSink {
    bytes: Vec<u8>,
    fails: Vec<u64>,
    most: usize,
    calls: u64,
    faults: u64,
}

impl FailingSink {
    /// It holds nothing, fails at these calls, and takes `most` bytes at a time at the most.
    pub fn new(alloc: Global, fails: Vec<u64>, most: usize) -> FailingSink
        ensures holds { ⟦<FailingSink as Sink>⟧.holds result ≡ Some [] }
        ensures faults { ⟦<FailingSink as Sink>⟧.faults result ≡ 0 }
    {
        FailingSink {
            bytes: Vec::new(alloc),
            fails,
            most,
            calls: 0,
            faults: 0,
        }
    }

    /// What it holds.
    pub fn bytes(&self) -> &[u8]
        ensures { ⟦<FailingSink as Sink>⟧.holds self.now ≡ Some result.now }
    {
        &self.bytes
    }
}

impl Sink for FailingSink {
    ghost faults = { λ s. s.faults };

    ghost holds = { λ s. Some s.bytes.items };

    fn put(&mut self, bytes: &[u8]) -> Result<usize, Failed> {
        let fails = self.fails.contains(&self.calls);
        self.calls = self.calls.saturating_add(1);
        let n = bytes.len().min(self.most);
        if fails || (n == 0 && !bytes.is_empty()) {
            self.faults = self.faults.saturating_add(1);
            return Err(Failed);
        }
        match self.bytes.extend_from_slice(&bytes[..n]) {
            Ok(()) => Ok(n),
            Err(_) => {
                self.faults = self.faults.saturating_add(1);
                Err(Failed)
            }
        }
    }
}
