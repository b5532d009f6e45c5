//! A broker.

ghost use Rattle.std.specs.Prelude.{◌≡◌, ◌==◌, ◌∷◌, ◌++◌, [], ℕ, List, false, IfOk, IsErr, OnErr, OnOk, string_bytes};
ghost use Rattle.std.specs.BTreeMap.{get};
ghost use Rattle.std.specs.Ordering.{nat_cmp};
ghost use Rattle.pulsar_frame.specs.Frame.{bad, left};
ghost use Rattle.pulsar_frame.specs.Shown.{message_values};
ghost use Rattle.pulsar_broker.specs.Kept.{IsKept, state_in};
ghost use Rattle.pulsar_broker.specs.State.{turn};
ghost use Rattle.pulsar_broker.specs.History.{Act, Ended, Fed, Taken, Takes};
ghost use Rattle.pulsar_broker.specs.Stands.{HasAnswered, HasFailed, HasGoneOn, HasHeard, HasRead, IsReading, ReadsOn, StandsFor};

use crate::outbox::Outbox;
use crate::tables::Tables;
use pulsar_frame::{FrameReader, Message};
use pulsar_wire::{ConnectionError, NoMemory};
use std::alloc::Global;
use std::collections::BTreeMap;

/// What a broker still reads of a link.
#[derive(Drop)]
enum Reading {
    Reads(FrameReader),
    /// Bytes that are no frame stood there, and nothing behind them is read.
    Refused,
}

/// A broker in memory, of one URL, over any number of links. What is fed to a link is answered at once: the answers wait until they are
/// taken. After want of memory it answers that for ever.
///
/// It answers connect, ping, producer, send, subscribe, close_producer and close_consumer; a lookup by its own URL, and a question for
/// partitions by none. It serves its consumers as they grant permits, takes acknowledgements without a word, and refuses each other request.
pub struct Broker {
    alloc: Global,
    url: String,
    readings: BTreeMap<u64, Reading>,
    outbox: Outbox,
    tables: Tables,
    // a call ran out of memory
    failed: bool,
}

impl Drop for Broker {
    fn drop(self) {
        let Broker {
            alloc: _,
            url: _,
            readings: _,
            outbox: _,
            tables: _,
            failed: _,
        } = self;
    }
}

impl Broker {
    /// A broker of this URL, which has no topic yet.
    pub fn new(alloc: Global, url: &str) -> Result<Broker, NoMemory>
        ensures { IfOk result (StandsFor url.now []) }
    {
        Ok(Broker {
            alloc,
            url: String::from_str(alloc, url)?,
            readings: BTreeMap::new(alloc),
            outbox: Outbox::new(alloc),
            tables: Tables::new(alloc),
            failed: false,
        })
    }

    /// A piece of the bytes that a client has written on a link: each frame that ends in it is answered. Pieces may be cut anywhere.
    /// Behind bytes that are no frame nothing more of this link is read.
    pub fn feed(&mut self, link: u64, piece: &[u8]) -> Result<(), NoMemory>
        ensures ok { OnOk result ((url : List ℕ) (h : List Act) → StandsFor url h self.old → StandsFor url (Fed link piece.now ∷ h) self.new) }
        ensures failed { OnErr result (HasFailed self.new) }
        ensures stays { HasFailed self.old → IsErr result × HasFailed self.new }
    {
        if self.failed {
            return Err(NoMemory);
        }
        self.failed = true;
        let reading = resume(self.alloc, &mut self.readings, link);
        let after = self.go_on(link, reading, piece)?;
        drop(self.readings.insert(link, after)?);
        self.failed = false;
        Ok(())
    }

    /// The bytes that the broker writes on a link: the frames that were given and not taken yet.
    pub fn take(&mut self, link: u64) -> Result<Vec<u8>, NoMemory>
        ensures answer { IfOk result (λ bytes. (url : List ℕ) (h : List Act) → StandsFor url h self.old → Takes url h link bytes.items) }
        ensures ok { OnOk result ((url : List ℕ) (h : List Act) → StandsFor url h self.old → StandsFor url (Taken link ∷ h) self.new) }
        ensures failed { OnErr result (HasFailed self.new) }
        ensures stays { HasFailed self.old → IsErr result × HasFailed self.new }
    {
        if self.failed {
            return Err(NoMemory);
        }
        Ok(self.outbox.take(link))
    }

    /// A link has ended: its producers and its consumers leave as if each had been closed, with no answer, and what it is owed is dropped. What is
    /// fed to it next begins a new stream. The cursors of its subscriptions stay: what was sent to a consumer and not acknowledged is not
    /// sent again. It takes no memory, and its time is by what the link has.
    pub fn end(&mut self, link: u64)
        ensures ok { (url : List ℕ) (h : List Act) → StandsFor url h self.old → StandsFor url (Ended link ∷ h) self.new }
        ensures stays { HasFailed self.old → HasFailed self.new }
    {
        drop(self.readings.remove(&link));
        drop(self.outbox.take(link));
        self.tables.end(link);
    }

    /// A link is read on.
    fn go_on(&mut self, link: u64, reading: Reading, piece: &[u8]) -> Result<Reading, NoMemory>
        ensures after { IfOk result (λ after. IsKept self.old.tables → (stream : List ℕ) → IsReading reading (left stream) (bad stream)
            → HasGoneOn (string_bytes self.old.url) link piece.now stream after self.old self.new) }
        ensures failed { self.new.failed ≡ self.old.failed }
    {
        match reading {
            Reading::Reads(reader) => Ok(self.read(link, reader, piece)?),
            Reading::Refused => Ok(Reading::Refused),
        }
    }

    fn read(
        &mut self,
        link: u64,
        mut reader: FrameReader,
        piece: &[u8],
    ) -> Result<Reading, NoMemory>
        ensures read { IfOk result (λ reading. IsKept self.old.tables
            → HasRead (string_bytes self.old.url) link (reader ++ piece.now) reading self.old self.new) }
        ensures failed { self.new.failed ≡ self.old.failed }
    {
        reader.feed(piece)?;
        let is_whole = self.hear(link, &mut reader)?;
        if is_whole {
            return Ok(Reading::Reads(reader));
        }
        Ok(Reading::Refused)
    }

    /// All frames that stand in front are answered. The answer is whether more can be read.
    fn hear(&mut self, link: u64, reader: &mut FrameReader) -> Result<bool, NoMemory>
        ensures heard { IfOk result (λ whole. IsKept self.old.tables
            → HasHeard (string_bytes self.old.url) link reader.old reader.new whole self.old self.new) }
        ensures failed { self.new.failed ≡ self.old.failed }
    {
        loop {
            match reader.next() {
                Ok(Some(message)) => self.answer(link, message)?,
                Ok(None) => return Ok(true),
                Err(ConnectionError::Decoding(_)) => return Ok(false),
                Err(_) => return Err(NoMemory),
            }
        }
    }

    /// A frame is answered.
    fn answer(&mut self, link: u64, mut message: Message) -> Result<(), NoMemory>
        ensures answered { OnOk result (IsKept self.old.tables
            → HasAnswered (turn (string_bytes self.old.url) link (message_values message) (state_in self.old.tables)) self.old self.new) }
        ensures failed { self.new.failed ≡ self.old.failed }
    {
        let url = self.url.as_str();
        let turned = self.tables.turn(
            url,
            link,
            &message.command,
            &mut message.payload,
            &mut self.outbox,
        );
        drop(message);
        turned?;
        Ok(())
    }
}

/// What is read of a link is taken out. A link that was fed nothing is read from its beginning on.
fn resume(alloc: Global, readings: &mut BTreeMap<u64, Reading>, link: u64) -> Reading
    ensures reading { (stream : List ℕ) → ReadsOn (get nat_cmp readings.old link) stream → IsReading result (left stream) (bad stream) }
    ensures others { (l : ℕ) → (l == link) ≡ false → get nat_cmp readings.new l ≡ get nat_cmp readings.old l }
{
    match readings.remove(&link) {
        Some(reading) => reading,
        None => Reading::Reads(FrameReader::new(alloc)),
    }
}
