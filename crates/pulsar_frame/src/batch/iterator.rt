//! The messages of a batch.

ghost use Rattle.std.specs.Prelude.{◌≡◌, ◌^◌, ◌<◌, length, map, IfOk, IfSome};
ghost use Rattle.pulsar_wire.specs.Shown.{Gives};
ghost use Rattle.pulsar_wire.specs.Views.{message_id_values, message_metadata_values};
ghost use Rattle.pulsar_frame.specs.Batch.{IsDescribed, ReadsBatch, batch_count, item_made, item_values, items_made, items_under, with_index};

use crate::batch::{BatchedMessage, read_entries};
use crate::payload::{Metadata, Payload};
use crate::refused::refusal;
use pulsar_wire::commands::ids::MessageIdData;
use pulsar_wire::commands::metadata::{MessageMetadata, SingleMessageMetadata};
use pulsar_wire::encoding::copying::{copy_messages, copy_optional, copy_values};
use pulsar_wire::encoding::plain::Plain;
use pulsar_wire::encoding::read_error::ReadError;
use pulsar_wire::error::{ConnectionError, Reason};
use std::alloc::AllocError;
use std::marker::Model;
use std::vec::IntoIter;

/// The messages of a batch, each with its own id. It has them all from the start, and takes no memory.
#[derive(Drop)]
pub struct BatchedMessageIterator {
    items: IntoIter<(MessageIdData, Payload)>,
}

impl Model for BatchedMessageIterator {
    ghost use Rattle.std.specs.Prelude.{List, map};
    ghost use Rattle.std.specs.Vec.Iter.{into_iter_items};
    ghost use Rattle.pulsar_frame.specs.Batch.{Item, item_values};

    ghost Value = { List Item };

    ghost view = { λ it. map item_values (into_iter_items it.items) };
}

impl BatchedMessageIterator {
    /// The messages of the batch that came under this id. Each has the id with its index, and the metadata of the
    /// payload with what its entry says in place of it. It is `Decoding(Batch)` exactly where the metadata does not say
    /// how many entries there are, or they are not there, and there is no other error but want of memory.
    pub fn new(message_id: MessageIdData, payload: Payload) -> Result<Self, ConnectionError>
        ensures { ReadsBatch (λ items. items) result (items_under message_id payload) }
    {
        match read_items(&message_id, &payload) {
            Ok(items) => Ok(BatchedMessageIterator {
                items: items.into_iter(),
            }),
            Err(e) => Err(refusal(Reason::Batch, e)),
        }
    }
}

impl Iterator for BatchedMessageIterator {
    ghost use Rattle.std.specs.Iterator.{YieldsFirstBy, item_count};
    ghost use Rattle.pulsar_frame.specs.Batch.{item_values};

    type Item = (MessageIdData, Payload);

    ghost next_gives = { YieldsFirstBy item_values (λ rest. rest) };

    ghost remaining = { item_count (λ rest. rest) };

    fn next(&mut self) -> Option<(MessageIdData, Payload)> {
        self.items.next()
    }
}

fn read_items(
    message_id: &MessageIdData,
    payload: &Payload,
) -> Result<Vec<(MessageIdData, Payload)>, ReadError>
    ensures { Gives (λ items. map item_values items.items) result (items_under message_id.now payload.now) }
{
    let Some(count) = message_count(&payload.metadata) else {
        return Err(ReadError::Malformed);
    };
    let entries = read_entries(*payload.bytes.allocator(), count, &payload.bytes)?;
    Ok(make_items(message_id, &payload.metadata, entries)?)
}

/// How many entries a payload has, where its metadata says so.
#[tactic(auto, unfolding(pulsar_wire::specs::Views::message_metadata_values))]
fn message_count(metadata: &Metadata) -> Option<u32>
    ensures count { result ≡ batch_count (message_metadata_values metadata.now) }
    ensures small { IfSome result (λ count. count < 2 ^ 31) }
{
    u32::try_from(metadata.num_messages_in_batch?).ok()
}

fn make_items(
    message_id: &MessageIdData,
    metadata: &Metadata,
    entries: Vec<BatchedMessage>,
) -> Result<Vec<(MessageIdData, Payload)>, AllocError>
    requires { length entries.items < 2 ^ 31 }
    ensures { IfOk result (λ items. map item_values items.items ≡ items_made message_id.now metadata.now entries.items) }
{
    let mut items = Vec::with_capacity(*entries.allocator(), entries.len())?;
    for entry in entries {
        let index = items.len();
        let item = make_item(message_id, metadata, index, entry)?;
        items.push(item)?;
    }
    Ok(items)
}

fn make_item(
    message_id: &MessageIdData,
    metadata: &Metadata,
    index: usize,
    entry: BatchedMessage,
) -> Result<(MessageIdData, Payload), AllocError>
    requires { index < 2 ^ 31 }
    ensures { IfOk result (λ x. item_values x ≡ item_made index message_id.now metadata.now entry) }
{
    let message_id = indexed(message_id, index)?;
    let metadata = described(metadata, entry.metadata)?;
    Ok((
        message_id,
        Payload {
            metadata,
            bytes: entry.payload,
        },
    ))
}

/// The id with this index.
#[tactic(auto, unfolding(pulsar_wire::specs::Views::message_id_values))]
fn indexed(message_id: &MessageIdData, index: usize) -> Result<MessageIdData, AllocError>
    requires { index < 2 ^ 31 }
    ensures { IfOk result (λ id. message_id_values id ≡ with_index index (message_id_values message_id.now)) }
{
    Ok(MessageIdData {
        ledger_id: message_id.ledger_id,
        entry_id: message_id.entry_id,
        partition: message_id.partition,
        batch_index: Some(index as i32),
        ack_set: copy_values(&message_id.ack_set)?,
        batch_size: message_id.batch_size,
    })
}

/// The metadata, with what an entry says in place of its own.
#[tactic(auto, unfolding(pulsar_wire::specs::Views::message_metadata_values, pulsar_wire::specs::Views::single_message_metadata_values))]
fn described(metadata: &Metadata, entry: SingleMessageMetadata) -> Result<Metadata, AllocError>
    ensures { IfOk result (IsDescribed metadata.now entry) }
{
    Ok(MessageMetadata {
        producer_name: metadata.producer_name.copy()?,
        sequence_id: metadata.sequence_id,
        publish_time: metadata.publish_time,
        properties: entry.properties,
        replicated_from: copy_optional(&metadata.replicated_from)?,
        partition_key: entry.partition_key,
        replicate_to: copy_values(&metadata.replicate_to)?,
        compression: metadata.compression,
        uncompressed_size: metadata.uncompressed_size,
        num_messages_in_batch: metadata.num_messages_in_batch,
        event_time: entry.event_time,
        encryption_keys: copy_messages(&metadata.encryption_keys)?,
        encryption_algo: copy_optional(&metadata.encryption_algo)?,
        encryption_param: copy_optional(&metadata.encryption_param)?,
        schema_version: copy_optional(&metadata.schema_version)?,
        ordering_key: entry.ordering_key,
        deliver_at_time: metadata.deliver_at_time,
    })
}
