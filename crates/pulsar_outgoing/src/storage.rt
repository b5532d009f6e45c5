//! What a producer of batches stores, until it is cut into a batch.

ghost use Rattle.std.specs.Prelude.{◌≡◌, ◌++◌, IfOk, OnErr, OnOk, Some, map};
ghost use Rattle.pulsar_outgoing.specs.Storage.{empty, emptied, ends_in_flush, is_ready, item_of, pushed, size_of, size_said};
ghost use Rattle.pulsar_outgoing.specs.Storage.{is_nothing, ticket_of};

use pulsar_frame::batch::BatchedMessage;
use pulsar_wire::error::NoMemory;
use std::alloc::Global;
use std::marker::Model;
use std::mem;

/// What is stored: the message of a send, by the ticket of that, or a flush, by the ticket of its call.
#[derive(Drop)]
pub enum BatchItem {
    SingleMessage(u64, BatchedMessage),
    Flush(u64),
}

/// How many items a batch has at most, and from how many bytes on it is sent.
#[derive(Clone, Copy)]
pub struct Limits {
    pub max_size: Option<u32>,
    pub max_byte_size: Option<usize>,
}

/// What a producer of batches stores, until it is cut into a batch.
#[derive(Drop)]
pub struct BatchStorage {
    limits: Limits,
    items: Vec<BatchItem>,
    bytes: usize,
}

impl Model for BatchStorage {
    ghost use Rattle.std.specs.Prelude.{◌≡◌, map};
    ghost use Rattle.pulsar_wire.specs.Sink.{capped};
    ghost use Rattle.pulsar_outgoing.specs.Storage.{Storage, bytes_of, item_of};

    ghost Value = { Storage };

    ghost view = { λ s. record { limits = s.limits; items = map item_of s.items.items } };

    ghost invariant = { λ s. s.bytes ≡ capped (bytes_of (map item_of s.items.items)) };
}

impl BatchStorage {
    /// Nothing is stored. A batch has at most `max_size` items, a flush among them, and is sent from `max_byte_size` bytes on.
    pub fn new(alloc: Global, max_size: Option<u32>, max_byte_size: Option<usize>) -> BatchStorage
        ensures { result ≡ empty (record { max_size = max_size; max_byte_size = max_byte_size }) }
    {
        BatchStorage {
            limits: Limits {
                max_size,
                max_byte_size,
            },
            items: Vec::new(alloc),
            bytes: 0,
        }
    }

    /// One more item behind what is stored. A refusal leaves that unchanged.
    pub fn push_back(&mut self, item: BatchItem) -> Result<(), NoMemory>
        ensures ok { OnOk result (self.new ≡ pushed (item_of item) self.old) }
        ensures refused { OnErr result (self.new ≡ self.old) }
    {
        let size = size_of(&item);
        self.items.push(item)?;
        self.bytes = self.bytes.saturating_add(size);
        Ok(())
    }

    /// All that is stored, in order. Nothing is stored then. A refusal leaves it unchanged.
    pub fn get_messages(&mut self) -> Result<Vec<BatchItem>, NoMemory>
        ensures items { IfOk result (λ all. map item_of all.items ≡ self.old.items) }
        ensures ok { OnOk result (self.new ≡ emptied self.old) }
        ensures refused { OnErr result (self.new ≡ self.old) }
    {
        let empty = Vec::new(*self.items.allocator());
        let all = mem::replace(&mut self.items, empty);
        self.bytes = 0;
        Ok(all)
    }

    /// What is stored is to be sent: there are as many items as a batch may have, or as many bytes, or the last one is a flush. It takes
    /// no memory.
    pub fn ready_to_flush(&self) -> bool
        ensures { result ≡ is_ready self.now }
    {
        let is_full = match self.limits.max_size {
            Some(limit) => self.items.len() >= limit as usize,
            None => false,
        };
        let is_heavy = match self.limits.max_byte_size {
            Some(limit) => self.bytes >= limit,
            None => false,
        };
        is_full || is_heavy || ends_in_flush(self.items.as_slice())
    }

    /// Nothing is stored.
    pub fn is_empty(&self) -> bool
        ensures { result ≡ is_nothing self.now.items }
    {
        self.items.is_empty()
    }

    /// What is stored is dropped.
    pub fn clear(&mut self)
        ensures { self.new ≡ emptied self.old }
    {
        self.items.clear();
        self.bytes = 0;
    }

    /// The tickets of those that wait for what is stored, behind others.
    pub fn push_tickets(&self, tickets: &mut Vec<u64>) -> Result<(), NoMemory>
        ensures { OnOk result (tickets.new.items ≡ tickets.old.items ++ map ticket_of self.now.items) }
    {
        push_tickets(&self.items, tickets)
    }
}

/// The last item is a flush.
fn ends_in_flush(items: &[BatchItem]) -> bool
    ensures { result ≡ ends_in_flush (map item_of items.now) }
{
    match items.last() {
        Some(BatchItem::Flush(_)) => true,
        Some(BatchItem::SingleMessage(_, _)) => false,
        None => false,
    }
}

/// The bytes of an item, as it says; a negative number counts as none.
#[tactic(auto, unfolding(pulsar_wire::specs::Views::single_message_metadata_values))]
fn size_of(item: &BatchItem) -> usize
    ensures { result ≡ size_of (item_of item.now) }
{
    match item {
        BatchItem::SingleMessage(_, message) => size_said(message.metadata.payload_size),
        BatchItem::Flush(_) => 0,
    }
}

fn size_said(size: i32) -> usize
    ensures { result ≡ size_said (Some size) }
{
    usize::try_from(size).unwrap_or(0)
}

/// The tickets of these items, behind others.
pub(crate) fn push_tickets(items: &[BatchItem], tickets: &mut Vec<u64>) -> Result<(), NoMemory>
    ensures { OnOk result (tickets.new.items ≡ tickets.old.items ++ map ticket_of (map item_of items.now)) }
{
    for item in items {
        tickets.push(ticket_of(item))?;
    }
    Ok(())
}

/// Who waits for an item.
fn ticket_of(item: &BatchItem) -> u64
    ensures { result ≡ ticket_of (item_of item.now) }
{
    match item {
        BatchItem::SingleMessage(ticket, _) => *ticket,
        BatchItem::Flush(ticket) => *ticket,
    }
}
