//! A source whose bytes come in small pieces.

ghost use Rattle.std.specs.Prelude.{None};

use pulsar_streams::outside::Failed;
use pulsar_streams::outside::source::{FailingSource, Source};

/// A source that gives few bytes at a time. It tells no content.
#[derive(Drop)]
pub struct Pieces {
    source: FailingSource,
    most: usize,
}

impl Pieces {
    /// It gives `most` bytes at a time at the most.
    pub fn new(source: FailingSource, most: usize) -> Pieces {
        Pieces { source, most }
    }
}

impl Source for Pieces {
    ghost faults = { λ s. ⟦<FailingSource as Source>⟧.faults s.source };

    ghost left = { λ _. None };

    fn take(&mut self, buf: &mut [u8]) -> Result<usize, Failed> {
        let n = buf.len().min(self.most);
        self.source.take(&mut buf[..n])
    }
}
