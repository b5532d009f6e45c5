//! How messages become a batch, and what each sender is told of that.

ghost use Rattle.std.specs.Prelude.{◌≡◌, [], ◌∷◌, ◌++◌, IfOk, Some, None, map, length};
ghost use Rattle.pulsar_frame.specs.Batch.{batch_bytes, entry_bytes, entry_values};
ghost use Rattle.pulsar_messages.specs.Content.{message_content};
ghost use Rattle.pulsar_frame.specs.Reply.{receipt_in};
ghost use Rattle.pulsar_wire.specs.Views.{body_values, message_id_values, send_receipt_values};
ghost use Rattle.pulsar_outgoing.specs.Batch as meaning;
ghost use Rattle.pulsar_outgoing.specs.Storage.{item_of};

use crate::content::Outgoing;
use crate::copying::copy_refusal;
use crate::failing::in_producer;
use crate::storage::BatchItem;
use pulsar_addresses::content::Refusal;
use pulsar_frame::batch::BatchedMessage;
use pulsar_frame::received::Received;
use pulsar_messages::into_properties;
use pulsar_messages::producer_message::{Message, ProducerMessage};
use pulsar_wire::commands::base::Body;
use pulsar_wire::commands::ids::MessageIdData;
use pulsar_wire::commands::metadata::SingleMessageMetadata;
use pulsar_wire::commands::producer::CommandSendReceipt;
use pulsar_wire::error::{ConnectionError, Error, NoMemory, ProducerError, Reason};
use std::alloc::Global;
use std::collections::VecDeque;
use std::marker::Model;

/// What a receipt says.
pub struct Receipt {
    receipt: Box<CommandSendReceipt>,
}

impl Drop for Receipt {
    fn drop(self) {
        let Receipt { receipt: _ } = self;
    }
}

impl Model for Receipt {
    ghost use Rattle.pulsar_wire.specs.Row.{Values};
    ghost use Rattle.pulsar_wire.specs.Rows.{send_receipt};
    ghost use Rattle.pulsar_wire.specs.Views.{send_receipt_values};

    ghost Value = { Values send_receipt };

    ghost view = { λ r. send_receipt_values r.receipt.value };
}

impl Receipt {
    /// What this command says.
    pub fn new(alloc: Global, receipt: CommandSendReceipt) -> Result<Receipt, NoMemory>
        ensures { IfOk result (λ r. r ≡ send_receipt_values receipt) }
    {
        let receipt = Box::new(alloc, receipt)?;
        Ok(Receipt { receipt })
    }

    /// The receipt of the message at this index among so many: its id says so, where there is one.
    pub fn placed(&self, alloc: Global, index: usize, count: usize) -> Result<Receipt, NoMemory>
        ensures { IfOk result (λ r. r ≡ meaning.placed index count self.now) }
    {
        Receipt::new(alloc, placed(self.receipt.copy()?, index, count))
    }

    /// The command without its box.
    pub fn into_inner(self) -> CommandSendReceipt
        ensures { send_receipt_values result ≡ self }
    {
        let Receipt { receipt } = self;
        Box::into_inner(receipt)
    }
}

/// Who is told what becomes of a batch: a send, or a call that flushes, by its ticket.
#[derive(Clone, Copy)]
pub enum Member {
    Message(u64),
    Flush(u64),
}

/// What becomes of a batch, and of a message in it.
#[derive(Drop)]
pub enum Fate {
    /// Its receipt came.
    Receipt(Receipt),
    /// It could not be sent.
    Failed(Refusal),
    /// The client was stopped before it was queued.
    Halted,
    /// It is settled, whatever came of it.
    Flushed,
}

/// What the one of a ticket is told.
#[derive(Drop)]
pub struct Report {
    pub ticket: u64,
    pub fate: Fate,
}

impl Fate {
    /// A batch failed for this cause.
    pub fn failed(alloc: Global, cause: Refusal) -> Result<Fate, NoMemory>
        ensures { IfOk result (λ f. f ≡ meaning.failed cause) }
    {
        let cause = Box::new(alloc, cause.into_inner())?;
        let error = Error::Producer(ProducerError::Batch(cause));
        Ok(Fate::Failed(Refusal::new(alloc, error)?))
    }

    /// A batch could not be written.
    pub fn not_written(alloc: Global, reason: Reason) -> Result<Fate, NoMemory>
        ensures { IfOk result (λ f. f ≡ meaning.not_written reason) }
    {
        Fate::failed(
            alloc,
            in_producer(alloc, ConnectionError::Encoding(reason))?,
        )
    }

    /// What the reply to a batch says: a receipt, or nothing that is waited for.
    pub fn of_reply(alloc: Global, reply: &Received) -> Result<Fate, NoMemory>
        ensures { IfOk result (λ f. f ≡ meaning.receipt_fate reply.now) }
    {
        match receipt_in(alloc, reply)? {
            Some(receipt) => Ok(Fate::Receipt(receipt)),
            None => Fate::failed(alloc, in_producer(alloc, ConnectionError::Disconnected)?),
        }
    }

    /// What becomes of the message at this index among so many, where this became of all of them.
    pub fn at(&self, alloc: Global, index: usize, count: usize) -> Result<Fate, NoMemory>
        ensures { IfOk result (λ f. f ≡ meaning.fate_at index count self.now) }
    {
        match self {
            Fate::Receipt(receipt) => Ok(Fate::Receipt(receipt.placed(alloc, index, count)?)),
            Fate::Failed(refusal) => Ok(Fate::Failed(copy_refusal(alloc, refusal)?)),
            Fate::Halted => Ok(Fate::Halted),
            Fate::Flushed => Ok(Fate::Flushed),
        }
    }

    /// What becomes of a flush, where this became of its batch.
    pub fn of_flush(&self) -> Fate
        ensures { result ≡ meaning.flush_fate self.now }
    {
        match self {
            Fate::Halted => Fate::Halted,
            Fate::Receipt(_) | Fate::Failed(_) | Fate::Flushed => Fate::Flushed,
        }
    }
}

/// The size of a payload, or the count of a batch, as an i32 says it. There is none exactly where no i32 does.
pub fn size_in_i32(n: usize) -> Option<i32>
    ensures { result ≡ meaning.size_in_i32 n }
{
    i32::try_from(n).ok()
}

/// A message as an entry, behind the size of its payload.
#[tactic(auto, unfolding(pulsar_wire::specs::Views::single_message_metadata_values))]
pub(crate) fn entry_of(
    alloc: Global,
    size: i32,
    message: Message,
) -> Result<BatchedMessage, NoMemory>
    ensures { IfOk result (λ e. entry_values e ≡ meaning.entry_with size (message_content message)) }
{
    let metadata = SingleMessageMetadata {
        properties: into_properties(alloc, message.properties)?,
        partition_key: message.partition_key,
        payload_size: size,
        event_time: message.event_time,
        ordering_key: message.ordering_key,
    };
    Ok(BatchedMessage {
        metadata,
        payload: message.payload,
    })
}

/// How many of these items are messages.
pub(crate) fn count(items: &[BatchItem]) -> usize
    ensures { result ≡ length (meaning.entries_in (map item_of items.now)) }
{
    let mut count = 0;
    for item in items {
        count += messages_in(item);
    }
    count
}

fn messages_in(item: &BatchItem) -> usize
    ensures { result ≡ length (meaning.entries_in (item_of item.now ∷ [])) }
{
    match item {
        BatchItem::SingleMessage(_, _) => 1,
        BatchItem::Flush(_) => 0,
    }
}

/// Who is told what becomes of a batch of these items.
pub(crate) fn members(alloc: Global, items: &[BatchItem]) -> Result<Vec<Member>, NoMemory>
    ensures { IfOk result (λ all. all.items ≡ map meaning.member_of (map item_of items.now)) }
{
    let mut all = Vec::new(alloc);
    for item in items {
        all.push(member_of(item))?;
    }
    Ok(all)
}

fn member_of(item: &BatchItem) -> Member
    ensures { result ≡ meaning.member_of (item_of item.now) }
{
    match item {
        BatchItem::SingleMessage(ticket, _) => Member::Message(*ticket),
        BatchItem::Flush(ticket) => Member::Flush(*ticket),
    }
}

/// The message of a batch of these items, or why it can't be written.
pub(crate) fn message(
    alloc: Global,
    items: &[BatchItem],
) -> Result<Result<Outgoing, Reason>, NoMemory>
    ensures { IfOk result (λ m. m ≡ meaning.batch_of (meaning.entries_in (map item_of items.now))) }
{
    match size_in_i32(count(items)) {
        Some(count) => counted(alloc, count, items),
        None => Ok(Err(Reason::Batch)),
    }
}

fn counted(
    alloc: Global,
    count: i32,
    items: &[BatchItem],
) -> Result<Result<Outgoing, Reason>, NoMemory>
    ensures { IfOk result (λ m. m ≡ meaning.batch_counted (Some count) (meaning.entries_in (map item_of items.now))) }
{
    let mut message = ProducerMessage::new(alloc);
    if let Some(reason) = write(items, &mut message.payload)? {
        return Ok(Err(reason));
    }
    message.num_messages_in_batch = Some(count);
    Ok(Ok(Outgoing::new(alloc, message)?))
}

/// The entries of these items, behind what is written. The answer says why one of them can't be written; then some may have been.
fn write(items: &[BatchItem], payload: &mut Vec<u8>) -> Result<Option<Reason>, NoMemory>
    ensures refusal { IfOk result (λ r. r ≡ meaning.first_refusal (meaning.entries_in (map item_of items.now))) }
    ensures written { IfOk result (λ r. r ≡ None →
        payload.new.items ≡ payload.old.items ++ batch_bytes (meaning.entries_in (map item_of items.now))) }
{
    for item in items {
        if let Some(reason) = write_item(item, payload)? {
            return Ok(Some(reason));
        }
    }
    Ok(None)
}

/// The entry of an item behind what is written, or why that can't be.
fn write_item(item: &BatchItem, payload: &mut Vec<u8>) -> Result<Option<Reason>, NoMemory>
    ensures refusal { IfOk result (λ r. r ≡ meaning.first_refusal (meaning.entries_in (item_of item.now ∷ []))) }
    ensures written { IfOk result (λ r. r ≡ None →
        payload.new.items ≡ payload.old.items ++ batch_bytes (meaning.entries_in (item_of item.now ∷ []))) }
{
    match item {
        BatchItem::SingleMessage(_, message) => write_entry(message, payload),
        BatchItem::Flush(_) => Ok(None),
    }
}

fn write_entry(message: &BatchedMessage, payload: &mut Vec<u8>) -> Result<Option<Reason>, NoMemory>
    ensures refusal { IfOk result (λ r. r ≡ meaning.entry_refusal (entry_values message.now)) }
    ensures written { IfOk result (λ r. r ≡ None → payload.new.items ≡ payload.old.items ++ entry_bytes (entry_values message.now)) }
{
    match message.serialize(payload) {
        Ok(()) => Ok(None),
        Err(ConnectionError::Encoding(reason)) => Ok(Some(reason)),
        Err(_) => Err(NoMemory),
    }
}

/// What each of these is told of a batch of so many messages.
pub(crate) fn reports(
    alloc: Global,
    members: &[Member],
    count: usize,
    fate: &Fate,
) -> Result<VecDeque<Report>, NoMemory>
    ensures { IfOk result (λ all. all.items ≡ meaning.reports count fate.now members.now) }
{
    let mut all = VecDeque::new(alloc);
    for index in 0..members.len() {
        all.push_back(report_at(alloc, index, count, fate, members[index])?)?;
    }
    Ok(all)
}

fn report_at(
    alloc: Global,
    index: usize,
    count: usize,
    fate: &Fate,
    member: Member,
) -> Result<Report, NoMemory>
    ensures { IfOk result (λ r. r ≡ meaning.report_at index count fate.now member) }
{
    match member {
        Member::Message(ticket) => Ok(Report {
            ticket,
            fate: fate.at(alloc, index, count)?,
        }),
        Member::Flush(ticket) => Ok(Report {
            ticket,
            fate: fate.of_flush(),
        }),
    }
}

/// The receipt of the message at this index among so many.
#[tactic(auto, unfolding(pulsar_wire::specs::Views::send_receipt_values))]
fn placed(receipt: CommandSendReceipt, index: usize, count: usize) -> CommandSendReceipt
    ensures { send_receipt_values result ≡ meaning.placed index count (send_receipt_values receipt) }
{
    let CommandSendReceipt {
        producer_id,
        sequence_id,
        message_id,
        highest_sequence_id,
    } = receipt;
    let message_id = match message_id {
        Some(id) => Some(placed_id(id, index, count)),
        None => None,
    };
    CommandSendReceipt {
        producer_id,
        sequence_id,
        message_id,
        highest_sequence_id,
    }
}

#[tactic(auto, unfolding(pulsar_wire::specs::Views::message_id_values))]
fn placed_id(id: MessageIdData, index: usize, count: usize) -> MessageIdData
    ensures { message_id_values result ≡ meaning.placed_id index count (message_id_values id) }
{
    MessageIdData {
        batch_index: Some(signed(index)),
        batch_size: Some(signed(count)),
        ..id
    }
}

/// A number as an id has it: none is above the greatest.
fn signed(n: usize) -> i32
    ensures { result ≡ meaning.signed n }
{
    i32::try_from(n).unwrap_or(i32::MAX)
}

/// The receipt that a reply is.
fn receipt_in(alloc: Global, reply: &Received) -> Result<Option<Receipt>, NoMemory>
    ensures { IfOk result (λ r. r ≡ reply.now.receipt) }
{
    let message = reply.message();
    match &message.command.body {
        Some(body) => receipt_of(alloc, body),
        None => Ok(None),
    }
}

fn receipt_of(alloc: Global, body: &Body) -> Result<Option<Receipt>, NoMemory>
    ensures { IfOk result (λ r. r ≡ receipt_in (body_values body.now)) }
{
    match body {
        Body::SendReceipt(receipt) => Ok(Some(Receipt::new(alloc, receipt.copy()?)?)),
        _ => Ok(None),
    }
}

/// What those of a batch are told whose receipt is waited for, where the client is stopped.
pub(crate) fn cut_reports(alloc: Global, members: &[Member]) -> Result<VecDeque<Report>, NoMemory>
    ensures { IfOk result (λ all. all.items ≡ map meaning.cut_report members.now) }
{
    let mut all = VecDeque::new(alloc);
    for member in members {
        all.push_back(cut_report(alloc, *member)?)?;
    }
    Ok(all)
}

fn cut_report(alloc: Global, member: Member) -> Result<Report, NoMemory>
    ensures { IfOk result (λ r. r ≡ meaning.cut_report member) }
{
    match member {
        Member::Message(ticket) => {
            let cause = in_producer(alloc, ConnectionError::Disconnected)?;
            Ok(Report {
                ticket,
                fate: Fate::failed(alloc, cause)?,
            })
        }
        Member::Flush(ticket) => Ok(Report {
            ticket,
            fate: Fate::Halted,
        }),
    }
}
