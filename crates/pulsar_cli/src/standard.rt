//! Standard input and output as a source and a sink. They count their faults and tell no content.

ghost use Rattle.std.specs.Prelude.{None};

use pulsar_streams::outside::Failed;
use pulsar_streams::outside::sink::Sink;
use pulsar_streams::outside::source::Source;
use std::io::{Read, Write};

/// Standard input.
#[derive(Drop)]
pub struct StandardInput<R: Read + Drop> {
    reader: R,
    faults: u64,
}

impl<R: Read + Drop> StandardInput<R> {
    pub fn new(reader: R) -> StandardInput<R> {
        StandardInput { reader, faults: 0 }
    }
}

impl<R: Read + Drop> Source for StandardInput<R> {
    ghost faults = { λ s. s.faults };

    ghost left = { λ _. None };

    fn take(&mut self, buf: &mut [u8]) -> Result<usize, Failed> {
        match self.reader.read(buf) {
            Ok(n) => Ok(n),
            Err(_) => {
                self.faults = self.faults.saturating_add(1);
                Err(Failed)
            }
        }
    }
}

/// Standard output.
#[derive(Drop)]
pub struct StandardOutput<W: Write + Drop> {
    writer: W,
    faults: u64,
}

impl<W: Write + Drop> StandardOutput<W> {
    pub fn new(writer: W) -> StandardOutput<W> {
        StandardOutput { writer, faults: 0 }
    }
}

impl<W: Write + Drop> Sink for StandardOutput<W> {
    ghost faults = { λ s. s.faults };

    ghost holds = { λ _. None };

    fn put(&mut self, bytes: &[u8]) -> Result<usize, Failed> {
        match self.writer.write(bytes) {
            Ok(n) if n > 0 || bytes.is_empty() => Ok(n),
            _ => {
                self.faults = self.faults.saturating_add(1);
                Err(Failed)
            }
        }
    }
}
