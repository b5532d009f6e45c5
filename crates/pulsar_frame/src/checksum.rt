//! The checksum CRC-32C of bytes, and of bytes that come in pieces.

ghost use Rattle.std.specs.Prelude.{◌≡◌};
ghost use Rattle.pulsar_frame.specs.Checksum.{start, turned, after, crc32c};

mod blocks;
mod folding;
pub mod laws;
mod tables;

use crate::checksum::folding::after_all;
use std::marker::Model;

/// The state before the first byte, and what turns each bit of the state behind the last.
const ONES: u32 = 0xffff_ffff;

/// The checksum of bytes that come in pieces.
#[derive(Clone, Copy, Debug)]
pub struct Checksum {
    state: u32,
}

impl Model for Checksum {
    ghost use Rattle.std.specs.Prelude.{ℕ};

    ghost Value = { ℕ };

    ghost view = { λ c. c.state };

    ghost inverse = { λ n. record { state = n } };
}

impl Checksum {
    /// The checksum before the first byte.
    pub fn new() -> Self
        ensures { result ≡ start }
    {
        Checksum { state: ONES }
    }

    /// Goes on over the next piece.
    pub fn update(&mut self, bytes: &[u8])
        ensures { self.new ≡ after self.old bytes.now }
    {
        self.state = after_all(self.state, bytes);
    }

    /// The checksum of all pieces so far, as one.
    pub fn value(&self) -> u32
        ensures { result ≡ turned self.now }
    {
        self.state ^ ONES
    }
}

/// The CRC-32C of the bytes.
pub fn crc32c(bytes: &[u8]) -> u32
    ensures { result ≡ crc32c bytes.now }
{
    let mut checksum = Checksum::new();
    checksum.update(bytes);
    checksum.value()
}
