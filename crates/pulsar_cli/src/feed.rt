//! The bytes that a script's source gives, piece by piece.

ghost use Rattle.std.specs.Prelude.{◌≡◌, ◌≤◌, ◌<◌, ◌+◌, ◌-◌, ◌++◌, [], ℕ, List, Option, IfErr, IfOk, length, false, true};
ghost use Rattle.pulsar_cli.specs.Script.{since};
ghost use Rattle.pulsar_cli.specs.Shown.{Fed, IsAtEnd, IsFull, remaining, unread};

use crate::stop::Stop;
use pulsar_client::Event;
use pulsar_streams::outside::source::Source;
use std::alloc::Global;

/// The most bytes that a script may have.
const LIMIT: u64 = 268_435_456;

/// How many bytes are taken from the source at a time.
const PIECE: usize = 65_536;

/// An event that was read, and whether the source ends with it.
#[derive(Drop)]
pub struct Next {
    pub event: Event,
    pub last: bool,
}

/// The piece that was taken last: its bytes in `from..to` are not read yet.
#[derive(Drop)]
pub struct Feed {
    pub piece: Vec<u8>,
    pub from: usize,
    pub to: usize,
    // how many bytes may still be taken
    pub left: u64,
}

impl Feed {
    /// Nothing is taken yet.
    pub fn new(alloc: Global) -> Result<Feed, Stop>
        ensures fed { IfOk result (λ f. (content : Option (List ℕ)) (faults : ℕ) → Fed f (since content faults (λ _. content) (λ _. faults) f) []) }
        ensures err { IfErr result (λ stop. stop ≡ Stop.NoMemory) }
    {
        let Ok(piece) = vec![in alloc; 0u8; PIECE] else {
            return Err(Stop::NoMemory);
        };
        Ok(Feed {
            piece,
            from: 0,
            to: 0,
            left: LIMIT,
        })
    }

    /// The bytes that were taken and not read.
    pub fn unread(&self) -> &[u8]
        ensures bytes { self.now.from ≤ self.now.to → self.now.to ≤ length self.now.piece.items → result.now ≡ unread self.now }
        ensures size { length result.now ≤ self.now.to - self.now.from }
    {
        if self.from <= self.to && self.to <= self.piece.len() {
            &self.piece[self.from..self.to]
        } else {
            &self.piece[..0]
        }
    }

    /// Just so many bytes are not read yet.
    pub fn keep(&mut self, count: usize)
        ensures from { self.new.from ≡ self.old.to - count }
        ensures rest { (self.new.to ≡ self.old.to) × (self.new.left ≡ self.old.left) × (self.new.piece ≡ self.old.piece) }
    {
        self.from = self.to.saturating_sub(count);
    }

    /// The next piece, once all was read. None is there where the source has ended.
    pub fn refill<S: Source>(&mut self, source: &mut S) -> Result<bool, Stop>
        ensures fed { IfOk result (λ _. (content : Option (List ℕ)) (faults : ℕ) (bytes : List ℕ)
            → Fed self.old (since content faults S.left S.faults source.old) bytes
            → Fed self.new (since content faults S.left S.faults source.new) (bytes ++ unread self.old)) }
        ensures ends { IfOk result (λ more. more ≡ false → (content : Option (List ℕ)) (faults : ℕ) (bytes : List ℕ)
            → Fed self.old (since content faults S.left S.faults source.old) bytes
            → IsAtEnd (since content faults S.left S.faults source.new) × (unread self.new ≡ [])) }
        ensures stops { IfErr result (λ stop. (content : Option (List ℕ)) (faults : ℕ) (bytes : List ℕ)
            → Fed self.old (since content faults S.left S.faults source.old) bytes
            → IsFull stop (since content faults S.left S.faults source.new) (bytes ++ unread self.old)) }
        ensures remaining { IfOk result (λ _. remaining self.new ≤ self.old.left) }
        ensures less { IfOk result (λ more. more ≡ true → self.new.left < self.old.left) }
    {
        let Ok(n) = source.take(&mut self.piece) else {
            return Err(Stop::Source);
        };
        let Some(left) = self.left.checked_sub(n as u64) else {
            return Err(Stop::TooLong);
        };
        self.left = left;
        self.from = 0;
        self.to = n;
        Ok(n > 0)
    }
}
