//! Links in memory that open and await gates.

ghost use Rattle.std.specs.Prelude.{◌≡◌, None};

use pulsar_shared::{EndMark, Failed, Input, MemoryOutput, Output};
use std::alloc::Global;
use std::sync::atomic::{AtomicU64, Ordering};
use std::thread::yield_now;

/// How often an input looks at its gate.
const LOOKS: u64 = 50_000_000;

/// Gives a piece once its gate is open. It fails where the gate stays shut, and where it has given all.
#[derive(Drop)]
pub struct GateInput<'a> {
    gate: &'a AtomicU64,
    piece: &'a [u8],
    faults: u64,
}

impl<'a> GateInput<'a> {
    /// It has given nothing.
    pub fn new(gate: &'a AtomicU64, piece: &'a [u8]) -> GateInput<'a> {
        GateInput {
            gate,
            piece,
            faults: 0,
        }
    }

    /// How many faults there were.
    pub fn faults(&self) -> u64 {
        self.faults
    }
}

/// The gate is open before it was looked at too often.
fn opens(gate: &AtomicU64) -> bool {
    for _ in 0..LOOKS {
        if gate.load(Ordering::SeqCst) != 0 {
            return true;
        }
        yield_now();
    }
    false
}

impl<'a> Input for GateInput<'a> {
    ghost faults = { λ s. s.faults };

    ghost given = { λ _. None };

    fn take(&mut self, buf: &mut [u8]) -> Result<usize, Failed> {
        let n = self.piece.len().min(buf.len());
        if n == 0 || !opens(self.gate) {
            self.faults = self.faults.saturating_add(1);
            return Err(Failed);
        }
        buf[..n].copy_from_slice(&self.piece[..n]);
        self.piece = &self.piece[n..];
        Ok(n)
    }
}

/// Keeps what is put to it, and opens its gate.
#[derive(Drop)]
pub struct GateOutput<'a> {
    gate: &'a AtomicU64,
    output: MemoryOutput,
}

impl<'a> GateOutput<'a> {
    /// It has taken nothing.
    pub fn new(alloc: Global, gate: &'a AtomicU64) -> GateOutput<'a> {
        GateOutput {
            gate,
            output: MemoryOutput::new(alloc),
        }
    }

    /// What it has taken.
    pub fn into_inner(self) -> MemoryOutput {
        self.output
    }
}

impl<'a> Output for GateOutput<'a> {
    ghost faults = { λ s. ⟦<MemoryOutput as Output>⟧.faults s.output };

    ghost taken = { λ s. ⟦<MemoryOutput as Output>⟧.taken s.output };

    ghost is_shut = { λ s. ⟦<MemoryOutput as Output>⟧.is_shut s.output };

    fn put(&mut self, bytes: &[u8]) -> Result<usize, Failed> {
        self.gate.store(1, Ordering::SeqCst);
        self.output.put(bytes)
    }

    fn shut(&mut self, mark: &EndMark) {
        self.output.shut(mark);
    }
}
