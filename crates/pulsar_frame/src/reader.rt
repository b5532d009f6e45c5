//! Frames from the pieces of a stream.

ghost use Rattle.std.specs.Prelude.{◌≡◌, [], ◌++◌, OnOk, OnErr};
ghost use Rattle.pulsar_frame.specs.Shown.{Takes};

use crate::frame::{read_content, split_frame};
use crate::message::Message;
use pulsar_wire::error::{ConnectionError, NoMemory};
use std::alloc::Global;
use std::marker::Model;

/// The bytes of a stream that were fed and not yet taken. Pieces may be cut anywhere.
#[derive(Debug)]
pub struct FrameReader {
    bytes: Vec<u8>,
    // how many bytes in front were taken
    taken: usize,
}

impl Drop for FrameReader {
    fn drop(self) {
        let FrameReader { bytes: _, taken: _ } = self;
    }
}

impl Model for FrameReader {
    ghost use Rattle.std.specs.Prelude.{ℕ, List, ◌≤◌, drop, vec_len};

    ghost Value = { List ℕ };

    ghost view = { λ r. drop r.taken r.bytes.items };

    ghost invariant = { λ r. r.taken ≤ vec_len r.bytes };
}

impl FrameReader {
    /// A reader that was fed nothing. It takes no memory.
    pub fn new(alloc: Global) -> Self
        ensures { result ≡ [] }
    {
        FrameReader {
            bytes: Vec::new(alloc),
            taken: 0,
        }
    }

    /// Puts a piece behind the bytes that are there. Where memory ran out, these stay as they were.
    pub fn feed(&mut self, piece: &[u8]) -> Result<(), NoMemory>
        ensures ok { OnOk result (self.new ≡ self.old ++ piece.now) }
        ensures err { OnErr result (self.new ≡ self.old) }
    {
        self.compact();
        self.bytes.extend_from_slice(piece)?;
        Ok(())
    }

    /// Takes the frame that stands in front, and no byte more. The answer is `None` exactly where no whole frame stands
    /// there, and `Decoding` with the first reason that holds exactly where a whole one is refused: so it stays,
    /// whatever is fed. In these, and where memory ran out, no byte is taken.
    #[tactic(auto, unfolding(crate::specs::Frame::front))]
    pub fn next(&mut self) -> Result<Option<Message>, ConnectionError>
        ensures { Takes result self.old self.new }
    {
        let alloc = *self.bytes.allocator();
        let Some((content, len)) = split_frame(&self.bytes[self.taken..]) else {
            return Ok(None);
        };
        let message = read_content(alloc, content)?;
        self.taken += len;
        Ok(Some(message))
    }

    /// Moves the bytes to the front of the memory, where no more than were taken are to be moved: so over a stream no
    /// more bytes are moved than were fed.
    fn compact(&mut self)
        ensures { self.new ≡ self.old }
    {
        let left = self.bytes.len() - self.taken;
        if self.taken < left {
            return;
        }
        self.bytes.copy_within(self.taken.., 0);
        self.bytes.truncate(left);
        self.taken = 0;
    }
}
