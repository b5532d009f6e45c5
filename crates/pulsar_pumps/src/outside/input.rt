//! What comes on a link.

ghost use Rattle.std.specs.Prelude.{◌≡◌, ◌≤◌, ◌<◌, ◌++◌, [], ℕ, List, Option, Some, IfOk, OnErr, length, take, vec_len};
ghost use Rattle.pulsar_pumps.specs.Outside.{Grows, Rose};

use crate::outside::Failed;

/// The half of a link that gives what comes on it. It counts its faults, and where it tells that, it says what it has given.
pub trait Input {
    /// How many faults there were. The count never falls, and has risen at each `Failed`, and at each 0 for a buffer that is not empty.
    ghost faults: { Self → ℕ };

    /// The bytes that it has given, where it tells them.
    ghost given: { Self → Option (List ℕ) };

    /// Takes the next bytes to the front of the buffer, and answers how many. The answer 0 for a buffer that is not empty is a fault:
    /// nothing more comes.
    fn take(&mut self, buf: &mut [u8]) -> Result<usize, Failed>
        ensures within { IfOk result (λ n. n ≤ length buf.old) }
        ensures given { IfOk result (λ n. Grows (given self.old) (given self.new) (take n buf.new)) }
        ensures grows { faults self.old ≤ faults self.new }
        ensures rises { OnErr result (Rose (faults self.old) (faults self.new)) }
        ensures none { IfOk result (λ n. n ≡ 0 → 0 < length buf.old → Rose (faults self.old) (faults self.new)) }
        ensures kept { OnErr result (given self.new ≡ given self.old) };
}

/// Bytes in memory. Its one fault is that they end.
#[derive(Drop)]
pub struct MemoryInput {
    bytes: Vec<u8>,
    given: usize,
    faults: u64,
    ghost within: { given ≤ vec_len bytes },
}

impl MemoryInput {
    /// It is to give these bytes.
    pub fn new(bytes: Vec<u8>) -> MemoryInput
        ensures given { ⟦<MemoryInput as Input>⟧.given result ≡ Some [] }
        ensures faults { ⟦<MemoryInput as Input>⟧.faults result ≡ 0 }
    {
        MemoryInput {
            bytes,
            given: 0,
            faults: 0,
        }
    }

    /// How many faults there were.
    pub fn faults(&self) -> u64
        ensures { result ≡ ⟦<MemoryInput as Input>⟧.faults self.now }
    {
        self.faults
    }

    /// What it has given.
    pub fn given(&self) -> &[u8]
        ensures { ⟦<MemoryInput as Input>⟧.given self.now ≡ Some result.now }
    {
        &self.bytes[..self.given]
    }
}

impl Input for MemoryInput {
    ghost faults = { λ s. s.faults };

    ghost given = { λ s. Some (take s.given s.bytes.items) };

    fn take(&mut self, buf: &mut [u8]) -> Result<usize, Failed> {
        let rest = &self.bytes[self.given..];
        let n = rest.len().min(buf.len());
        copy_front(buf, &rest[..n]);
        if n == 0 {
            self.faults = self.faults.saturating_add(1);
        }
        self.given += n;
        Ok(n)
    }
}

/// Puts bytes to the front of a buffer.
fn copy_front(buf: &mut [u8], bytes: &[u8])
    requires { length bytes.now ≤ length buf.old }
    ensures { take (length bytes.now) buf.new ≡ bytes.now }
{
    buf[..bytes.len()].copy_from_slice(bytes);
}

/// Bytes in memory. It fails at some of its calls, counted from 0.
#[derive(Drop)]
pub struct FailingInput {
    bytes: Vec<u8>,
    given: usize,
    fails: Vec<u64>,
    calls: u64,
    faults: u64,
    ghost within: { given ≤ vec_len bytes },
}

impl FailingInput {
    /// It is to give these bytes, and fails at these calls.
    pub fn new(bytes: Vec<u8>, fails: Vec<u64>) -> FailingInput
        ensures given { ⟦<FailingInput as Input>⟧.given result ≡ Some [] }
        ensures faults { ⟦<FailingInput as Input>⟧.faults result ≡ 0 }
    {
        FailingInput {
            bytes,
            given: 0,
            fails,
            calls: 0,
            faults: 0,
        }
    }

    /// How many faults there were.
    pub fn faults(&self) -> u64
        ensures { result ≡ ⟦<FailingInput as Input>⟧.faults self.now }
    {
        self.faults
    }
}

impl Input for FailingInput {
    ghost faults = { λ s. s.faults };

    ghost given = { λ s. Some (take s.given s.bytes.items) };

    fn take(&mut self, buf: &mut [u8]) -> Result<usize, Failed> {
        let fails = self.fails.contains(&self.calls);
        self.calls = self.calls.saturating_add(1);
        let rest = &self.bytes[self.given..];
        let n = rest.len().min(buf.len());
        if fails {
            self.faults = self.faults.saturating_add(1);
            return Err(Failed);
        }
        copy_front(buf, &rest[..n]);
        if n == 0 {
            self.faults = self.faults.saturating_add(1);
        }
        self.given += n;
        Ok(n)
    }
}
