//! What is stored for a batch.

use pulsar_frame::batch::BatchedMessage;
use pulsar_messages::ProducerOptions;
use pulsar_messages::serialize::message_from_text;
use pulsar_outgoing::batch::{Receipt, size_in_i32};
use pulsar_outgoing::content::{Entry, Settings};
use pulsar_outgoing::storage::{BatchItem, BatchStorage};
use pulsar_wire::commands::ids::MessageIdData;
use pulsar_wire::commands::producer::CommandSendReceipt;
use pulsar_wire::error::NoMemory;
use std::alloc::Global;
use std::test::Fail;

#[test]
fn a_size_is_said_up_to_the_greatest(rt: HostRuntime) {
    assert!(rt; size_in_i32(0) == Some(0));
    assert!(rt; size_in_i32(2147483647) == Some(2147483647));
    assert!(rt; size_in_i32(2147483648).is_none());
}

fn entry(alloc: Global, text: &str) -> Result<Entry, Fail> {
    match Entry::of_message(alloc, message_from_text(alloc, text)?)? {
        Some(entry) => Ok(entry),
        None => Err(Fail::new("no entry")),
    }
}

fn batched(alloc: Global, text: &str) -> Result<BatchedMessage, Fail> {
    Ok(entry(alloc, text)?.into_inner())
}

#[test]
fn a_message_becomes_an_entry(rt: HostRuntime) -> Result<(), Fail> {
    let entry = batched(rt.alloc(), "abc")?;
    assert!(rt; entry.payload.as_slice() == b"abc".as_slice());
    assert!(rt; entry.metadata.payload_size == 3 && entry.metadata.properties.is_empty());
    Ok(())
}

#[test]
fn as_many_items_as_a_batch_may_have_are_ready(rt: HostRuntime) -> Result<(), Fail> {
    let alloc = rt.alloc();
    let mut storage = BatchStorage::new(alloc, Some(2), None);
    storage.push_back(BatchItem::SingleMessage(1, batched(alloc, "a")?))?;
    assert!(rt; !storage.ready_to_flush());
    storage.push_back(BatchItem::SingleMessage(2, batched(alloc, "b")?))?;
    assert!(rt; storage.ready_to_flush());
    assert!(rt; storage.get_messages()?.len() == 2 && storage.is_empty());
    Ok(())
}

#[test]
fn as_many_bytes_as_a_batch_may_have_are_ready(rt: HostRuntime) -> Result<(), Fail> {
    let alloc = rt.alloc();
    let mut storage = BatchStorage::new(alloc, None, Some(3));
    storage.push_back(BatchItem::SingleMessage(1, batched(alloc, "ab")?))?;
    assert!(rt; !storage.ready_to_flush());
    storage.push_back(BatchItem::SingleMessage(2, batched(alloc, "c")?))?;
    assert!(rt; storage.ready_to_flush());
    storage.clear();
    assert!(rt; storage.is_empty() && !storage.ready_to_flush());
    Ok(())
}

#[test]
fn a_flush_is_ready(rt: HostRuntime) -> Result<(), Fail> {
    let mut storage = BatchStorage::new(rt.alloc(), None, None);
    assert!(rt; !storage.ready_to_flush());
    storage.push_back(BatchItem::Flush(1))?;
    assert!(rt; storage.ready_to_flush());
    Ok(())
}

#[test]
fn a_batch_of_one_is_no_batching(rt: HostRuntime) -> Result<(), Fail> {
    let alloc = rt.alloc();
    let mut options = ProducerOptions::new(alloc);
    options.batch_size = Some(1);
    options.batch_timeout = Some(10);
    let settings = Settings::new(alloc, options)?;
    assert!(rt; !settings.is_batching() && settings.batch_timeout() == Some(10));
    assert!(rt; settings.limits().max_size == Some(1));
    Ok(())
}

fn received(alloc: Global) -> Result<Receipt, NoMemory> {
    let mut command = CommandSendReceipt::new();
    command.message_id = Some(MessageIdData::new(alloc));
    Receipt::new(alloc, command)
}

#[test]
fn a_receipt_has_its_place(rt: HostRuntime) -> Result<(), Fail> {
    let alloc = rt.alloc();
    let placed = received(alloc)?.placed(alloc, 1, 2)?.into_inner();
    match placed.message_id {
        Some(id) => {
            assert!(rt; id.batch_index == Some(1) && id.batch_size == Some(2));
            Ok(())
        }
        None => Err(Fail::new("no id")),
    }
}
