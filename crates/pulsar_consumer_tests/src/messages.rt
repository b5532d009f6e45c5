//! Messages as a consumer hands them out, and what their payloads are read as.

use pulsar_frame::payload::Payload;
use pulsar_incoming::deserialize::DeserializeMessage;
use pulsar_incoming::message::{Message, MessageData};
use pulsar_wire::commands::ids::MessageIdData;
use pulsar_wire::commands::metadata::MessageMetadata;
use std::alloc::Global;
use std::test::Fail;

fn payload(alloc: Global, bytes: &[u8]) -> Result<Payload, Fail> {
    let mut metadata = MessageMetadata::new(alloc);
    metadata.partition_key = Some(String::from_str(alloc, "k")?);
    Ok(Payload {
        metadata,
        bytes: bytes.to_vec(alloc)?,
    })
}

fn data(alloc: Global) -> MessageData {
    let mut id = MessageIdData::new(alloc);
    id.entry_id = 7;
    MessageData {
        id,
        batch_size: Some(3),
    }
}

fn message<T>(alloc: Global, bytes: &[u8]) -> Result<Message<T>, Fail> {
    let topic = String::from_str(alloc, "t")?;
    Ok(Message::new(topic, data(alloc), payload(alloc, bytes)?))
}

#[test]
fn a_message_says_what_it_is(rt: HostRuntime) -> Result<(), Fail> {
    let message: Message<Vec<u8>> = message(rt.alloc(), b"abc")?;
    assert!(rt; message.topic.as_str() == "t");
    assert!(rt; message.key() == Some("k"));
    assert!(rt; message.message_id().entry_id == 7);
    assert!(rt; message.metadata().sequence_id == 0);
    Ok(())
}

fn bytes(alloc: Global) -> Result<Vec<u8>, Fail> {
    let message: Message<Vec<u8>> = message(alloc, b"abc")?;
    Ok(message.deserialize()?)
}

#[test]
fn a_payload_is_read_as_its_bytes(rt: HostRuntime) -> Result<(), Fail> {
    let bytes = bytes(rt.alloc())?;
    assert!(rt; bytes.as_slice() == b"abc".as_slice());
    Ok(())
}

#[test]
fn a_copy_of_an_id_is_equal(rt: HostRuntime) -> Result<(), Fail> {
    let data = data(rt.alloc());
    let copy = data.copy()?;
    assert!(rt; copy == data);
    Ok(())
}

fn is_text(alloc: Global, bytes: &[u8]) -> Result<bool, Fail> {
    let text = String::deserialize_message(&payload(alloc, bytes)?)?;
    Ok(text.is_ok())
}

#[test]
fn a_payload_is_read_as_a_text(rt: HostRuntime) -> Result<(), Fail> {
    assert!(rt; is_text(rt.alloc(), b"a\xc3\xa4")?);
    assert!(rt; !is_text(rt.alloc(), b"a\xc3")?);
    Ok(())
}
