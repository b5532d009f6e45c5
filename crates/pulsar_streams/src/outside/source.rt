//! Where bytes come from.

ghost use Rattle.std.specs.Prelude.{◌≡◌, ◌≤◌, ◌-◌, ℕ, List, Option, Some, IfOk, OnErr, length, take, drop, vec_len};
ghost use Rattle.pulsar_streams.specs.Outside.{Rose, Takes};

use crate::outside::Failed;
use std::marker::Model;

/// A source of bytes. It counts its faults, and where it tells that, it says what it has left.
pub trait Source {
    /// How many faults there were. The count never falls, and has risen at each `Failed`.
    ghost faults: { Self → ℕ };

    /// The bytes that are still to come, where the source tells them.
    ghost left: { Self → Option (List ℕ) };

    /// Takes the next bytes, as many as fit into the buffer at the most, to its front. The answer 0 on a buffer that is
    /// not empty ends the input.
    fn take(&mut self, buf: &mut [u8]) -> Result<usize, Failed>
        ensures within { IfOk result (λ n. n ≤ length buf.old) }
        ensures taken { IfOk result (λ n. (bytes : List ℕ) → left self.old ≡ Some bytes → Takes bytes n buf.new) }
        ensures rest { IfOk result (λ n. (bytes : List ℕ) → left self.old ≡ Some bytes → left self.new ≡ Some (drop n bytes)) }
        ensures grows { faults self.old ≤ faults self.new }
        ensures rises { OnErr result (Rose (faults self.old) (faults self.new)) }
        ensures kept { OnErr result (left self.new ≡ left self.old) };
}

/// Bytes in memory, without faults.
#[derive(Drop)]
pub struct MemorySource {
    bytes: Vec<u8>,
    // how many were taken
    taken: usize,
}

impl Model for MemorySource {
    ghost Value = { List ℕ };

    ghost view = { λ s. drop s.taken s.bytes.items };

    ghost invariant = { λ s. s.taken ≤ vec_len s.bytes };
}

impl MemorySource {
    /// It has these bytes left.
    pub fn new(bytes: Vec<u8>) -> MemorySource
        ensures { result ≡ bytes.items }
    {
        MemorySource { bytes, taken: 0 }
    }
}

impl Source for MemorySource {
    ghost faults = { λ _. 0 };

    ghost left = { λ s. Some s };

    fn take(&mut self, buf: &mut [u8]) -> Result<usize, Failed> {
        let rest = &self.bytes[self.taken..];
        let n = rest.len().min(buf.len());
        copy_front(buf, &rest[..n]);
        self.taken += n;
        Ok(n)
    }
}

/// Puts bytes to the front of a buffer.
fn copy_front(buf: &mut [u8], bytes: &[u8])
    requires { length bytes.now ≤ length buf.old }
    ensures { take (length bytes.now) buf.new ≡ bytes.now }
{
    buf[..bytes.len()].copy_from_slice(bytes);
}

/// A source that fails at some of its calls, counted from 0.
#[derive(Drop)]
pub struct FailingSource {
    source: MemorySource,
    fails: Vec<u64>,
    calls: u64,
    faults: u64,
}

impl FailingSource {
    /// It has these bytes left, and fails at these calls.
    pub fn new(bytes: Vec<u8>, fails: Vec<u64>) -> FailingSource
        ensures left { ⟦<FailingSource as Source>⟧.left result ≡ Some bytes.items }
        ensures faults { ⟦<FailingSource as Source>⟧.faults result ≡ 0 }
    {
        FailingSource {
            source: MemorySource::new(bytes),
            fails,
            calls: 0,
            faults: 0,
        }
    }
}

impl Source for FailingSource {
    ghost faults = { λ s. s.faults };

    ghost left = { λ s. Some s.source };

    fn take(&mut self, buf: &mut [u8]) -> Result<usize, Failed> {
        let fails = self.fails.contains(&self.calls);
        self.calls = self.calls.saturating_add(1);
        if fails {
            self.faults = self.faults.saturating_add(1);
            return Err(Failed);
        }
        self.source.take(buf)
    }
}
