//! What is sent, by what is said of it.

use pulsar_messages::message_builder::MessageBuilder;
use pulsar_messages::serialize::{SerializeMessage, message_from_bytes, message_from_text};
use pulsar_messages::{Message, ProducerMessage, ProducerOptions};
use pulsar_outgoing::producer_builder::ProducerBuilder;
use std::alloc::Global;
use std::test::Fail;

fn put_texts(alloc: Global, message: &mut Message) -> Result<(), Fail> {
    message.partition_key = Some(String::from_str(alloc, "x")?);
    message.replicate_to.push(String::from_str(alloc, "c")?)?;
    message.properties.insert(String::from_str(alloc, "a")?, String::from_str(alloc, "1")?)?;
    Ok(())
}

fn put_bytes(alloc: Global, message: &mut Message) -> Result<(), Fail> {
    message.ordering_key = Some(b"ok".to_vec(alloc)?);
    message.schema_version = Some(b"v1".to_vec(alloc)?);
    Ok(())
}

/// A message with each of its fields.
fn full(alloc: Global) -> Result<Message, Fail> {
    let mut message = message_from_bytes(alloc, b"abc")?;
    put_texts(alloc, &mut message)?;
    put_bytes(alloc, &mut message)?;
    message.event_time = Some(40);
    message.deliver_at_time = Some(-5);
    Ok(message)
}

fn is_bytes(bytes: &Option<Vec<u8>>, wanted: &[u8]) -> bool {
    match bytes {
        Some(bytes) => bytes.as_slice() == wanted,
        None => false,
    }
}

fn is_text(text: &Option<String>, wanted: &str) -> bool {
    match text {
        Some(text) => text.as_str() == wanted,
        None => false,
    }
}

/// Whether it has the eight fields of the message, and no other.
fn has_eight_fields(sent: &ProducerMessage) -> bool {
    sent.payload.as_slice() == b"abc".as_slice()
        && sent.properties.get("a").is_some()
        && sent.properties.len() == 1
        && is_text(&sent.partition_key, "x")
        && is_bytes(&sent.ordering_key, b"ok")
        && sent.replicate_to.len() == 1
        && sent.event_time == Some(40)
        && is_bytes(&sent.schema_version, b"v1")
        && sent.deliver_at_time == Some(-5)
        && sent.compression.is_none()
        && sent.num_messages_in_batch.is_none()
}

fn keeps_fields(alloc: Global) -> Result<bool, Fail> {
    let sent = ProducerMessage::from(full(alloc)?);
    Ok(has_eight_fields(&sent))
}

#[test]
fn a_message_keeps_its_eight_fields(rt: HostRuntime) -> Result<(), Fail> {
    assert!(rt; keeps_fields(rt.alloc())?);
    Ok(())
}

/// Whether it has the payload of the content and its schema version, and nothing that a builder says.
fn is_as_built(sent: &Message) -> bool {
    sent.partition_key.is_none()
        && sent.ordering_key.is_none()
        && sent.properties.is_empty()
        && sent.deliver_at_time.is_none()
        && sent.payload.as_slice() == b"abc".as_slice()
        && is_bytes(&sent.schema_version, b"v1")
}

fn builder_counts(alloc: Global) -> Result<bool, Fail> {
    let content = full(alloc)?;
    let builder = MessageBuilder::new(alloc, 3).with_content(content);
    let (producer, sent) = builder.send_non_blocking()?;
    Ok(producer == 3 && is_as_built(&sent))
}

#[test]
fn what_a_builder_says_counts(rt: HostRuntime) -> Result<(), Fail> {
    assert!(rt; builder_counts(rt.alloc())?);
    Ok(())
}

fn built(alloc: Global) -> Result<Message, Fail> {
    let content = String::from_str(alloc, "abc")?;
    let builder = MessageBuilder::new(alloc, 0).with_content(content);
    let builder = builder.event_time(7).delay(u64::MAX, 1).with_key("k")?;
    let builder = builder.with_property("a", "1")?.with_property("a", "2")?;
    let (_, message) = builder.send()?;
    Ok(message)
}

fn has_what_was_said(sent: &Message) -> bool {
    is_text(&sent.partition_key, "k")
        && sent.payload.as_slice() == b"abc".as_slice()
        && sent.properties.len() == 1
        && sent.event_time == Some(7)
        && sent.deliver_at_time == Some(i64::MAX)
}

fn builds(alloc: Global) -> Result<bool, Fail> {
    let sent = built(alloc)?;
    Ok(has_what_was_said(&sent))
}

#[test]
fn a_message_is_built(rt: HostRuntime) -> Result<(), Fail> {
    assert!(rt; builds(rt.alloc())?);
    Ok(())
}

fn is_nothing(alloc: Global) -> Result<bool, Fail> {
    let empty = <() as SerializeMessage>::serialize_message(alloc, ())?;
    Ok(empty.payload.is_empty())
}

fn is_its_bytes(alloc: Global) -> Result<bool, Fail> {
    let sent = message_from_text(alloc, "t")?;
    Ok(sent.payload.as_slice() == b"t".as_slice())
}

#[test]
fn a_text_is_sent_as_its_bytes(rt: HostRuntime) -> Result<(), Fail> {
    assert!(rt; is_nothing(rt.alloc())?);
    assert!(rt; is_its_bytes(rt.alloc())?);
    Ok(())
}

fn wanted(alloc: Global) -> Result<ProducerBuilder, Fail> {
    let wanted = ProducerBuilder::new(alloc).with_options(ProducerOptions::new(alloc));
    Ok(wanted.with_topic("t")?.with_name("p")?)
}

fn copy(alloc: Global) -> Result<ProducerBuilder, Fail> {
    let copy = wanted(alloc)?.build().copy()?;
    Ok(copy.build_multi_topic())
}

fn wants(alloc: Global) -> Result<bool, Fail> {
    let copy = copy(alloc)?;
    Ok(is_text(&copy.topic, "t") && is_text(&copy.name, "p"))
}

#[test]
fn a_producer_is_wanted(rt: HostRuntime) -> Result<(), Fail> {
    assert!(rt; wants(rt.alloc())?);
    Ok(())
}
