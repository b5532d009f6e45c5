//! The bytes that are owed to links.

ghost use Rattle.std.specs.Prelude.{◌≡◌, ◌==◌, ◌++◌, ℕ, [], IfOk, OnOk, if◌then◌else◌};
ghost use Rattle.pulsar_frame.specs.Frame.{frame_bytes};
ghost use Rattle.pulsar_frame.specs.Shown.{message_values};
ghost use Rattle.pulsar_broker.specs.History.{bytes_for};
ghost use Rattle.pulsar_broker.specs.Kept.{owed_on};
ghost use Rattle.pulsar_broker.specs.State.{owed_to};

use pulsar_frame::Message;
use pulsar_wire::NoMemory;
use std::alloc::Global;
use std::collections::BTreeMap;

/// The frames that are owed to links, as they are written: those of a link joined, in order.
#[derive(Drop)]
pub struct Outbox {
    alloc: Global,
    owed: BTreeMap<u64, Vec<u8>>,
}

impl Outbox {
    pub fn new(alloc: Global) -> Outbox
        ensures { (l : ℕ) → owed_on result l ≡ [] }
    {
        Outbox {
            alloc,
            owed: BTreeMap::new(alloc),
        }
    }

    /// One more frame is owed to a link. A message too large for a frame is want of memory.
    pub fn post(&mut self, link: u64, message: Message) -> Result<(), NoMemory>
        ensures { OnOk result ((l : ℕ) → owed_on self.new l ≡ owed_on self.old l ++ bytes_for l (owed_to link (message_values message))) }
    {
        let frame = frame_of(self.alloc, message)?;
        self.push(link, frame)?;
        Ok(())
    }

    fn push(&mut self, link: u64, frame: Vec<u8>) -> Result<(), NoMemory>
        ensures { OnOk result ((l : ℕ) → owed_on self.new l ≡ (if l == link then owed_on self.old l ++ frame.items else owed_on self.old l)) }
    {
        match self.owed.get_mut(&link) {
            Some(owed) => owed.extend_from_slice(&frame)?,
            None => drop(self.owed.insert(link, frame)?),
        }
        Ok(())
    }

    /// Takes what is owed to a link. It takes no memory.
    pub fn take(&mut self, link: u64) -> Vec<u8>
        ensures answer { result.items ≡ owed_on self.old link }
        ensures left { (l : ℕ) → owed_on self.new l ≡ (if l == link then [] else owed_on self.old l) }
    {
        match self.owed.remove(&link) {
            Some(owed) => owed,
            None => Vec::new(self.alloc),
        }
    }
}

/// The frame of a message.
fn frame_of(alloc: Global, message: Message) -> Result<Vec<u8>, NoMemory>
    ensures { IfOk result (λ frame. frame.items ≡ frame_bytes (message_values message)) }
{
    let frame = message.to_frame(alloc);
    drop(message);
    match frame {
        Ok(frame) => Ok(frame),
        Err(_) => Err(NoMemory),
    }
}
