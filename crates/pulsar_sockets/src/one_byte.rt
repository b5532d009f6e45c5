//! Links that write one byte at a time.

ghost use Rattle.std.specs.Prelude.{◌≡◌, ◌≤◌};

use pulsar_pumps::{Edge, EndMark, Failed, Output};
use pulsar_wire::error::IoKind;

/// Where links come from, each of which writes one byte at a time.
#[derive(Drop)]
pub struct OneByteEdge<E: Edge + Drop> {
    pub edge: E,
}

/// The half of a link that takes one byte at a time.
#[derive(Drop)]
pub struct OneByte<O: Output + Drop> {
    output: O,
}

impl<E: Edge + Drop> Edge for OneByteEdge<E> {
    type Input = E::Input;

    type Output = OneByte<E::Output>;

    ghost failures = { λ e k. E.failures e.edge k };

    ghost first = { λ e. E.first e.edge };

    ghost greatest = { λ e. E.greatest e.edge };

    fn dial(&mut self, host: &str, port: u16) -> Result<(E::Input, OneByte<E::Output>), IoKind> {
        match self.edge.dial(host, port) {
            Ok((input, output)) => Ok((input, OneByte { output })),
            Err(kind) => Err(kind),
        }
    }

    fn now(&mut self) -> u64 {
        self.edge.now()
    }

    fn pause(&mut self, ms: u64) {
        self.edge.pause(ms);
    }
}

impl<O: Output + Drop> Output for OneByte<O> {
    ghost faults = { λ s. O.faults s.output };

    ghost taken = { λ s. O.taken s.output };

    ghost is_shut = { λ s. O.is_shut s.output };

    fn put(&mut self, bytes: &[u8]) -> Result<usize, Failed> {
        self.output.put(&bytes[..bytes.len().min(1)])
    }

    fn shut(&mut self, mark: &EndMark) {
        self.output.shut(mark);
    }
}
