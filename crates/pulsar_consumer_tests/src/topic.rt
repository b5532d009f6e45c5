//! Consumers of one topic, frame by frame and poll by poll.

use pulsar_addresses::content::Text;
use pulsar_consumer::frame::Frame;
use pulsar_consumer::topic_consumer::TopicConsumer;
use pulsar_consumer::{ConsumerOptions, SubType};
use pulsar_exchange::content::{Received, Subscribed};
use pulsar_exchange::raw_call::Subscription;
use pulsar_frame::message::Message;
use pulsar_frame::payload::Payload;
use pulsar_incoming::config::ConsumerConfig;
use pulsar_incoming::polled::{Ending, Polled};
use pulsar_incoming::settings::Settings;
use pulsar_wire::commands::base::{BaseCommand, Body};
use pulsar_wire::commands::consumer::delivery::{CommandMessage, CommandReachedEndOfTopic};
use pulsar_wire::commands::metadata::MessageMetadata;
use std::alloc::Global;
use std::test::Fail;
use url::Url;

fn url(alloc: Global) -> Result<Url, Fail> {
    Ok(Url::parse(alloc, "pulsar://127.0.0.1:6650")?)
}

fn settings(alloc: Global, queue: Option<u32>, batch: Option<u32>) -> Result<Settings, Fail> {
    let mut config = ConsumerConfig::new(alloc);
    config.options.receiver_queue_size = queue;
    config.batch_size = batch;
    Ok(Settings::new(alloc, config)?)
}

/// One whose subscription is live on link 0.
fn subscribed(alloc: Global, settings: Settings) -> Result<Box<TopicConsumer>, Fail> {
    let topic = Text::new(String::from_str(alloc, "t")?);
    let consumer = TopicConsumer::new(alloc, 0, topic, 0, settings, false);
    let mut consumer = Box::new(alloc, consumer)?;
    consumer.subscribe(0, url(alloc)?)?;
    Ok(consumer)
}

fn consumer(alloc: Global, queue: Option<u32>) -> Result<Box<TopicConsumer>, Fail> {
    subscribed(alloc, settings(alloc, queue, None)?)
}

/// The frame of a message.
fn frame(alloc: Global, message: Message) -> Result<Frame, Fail> {
    Ok(Frame::received(alloc, Received::new(alloc, message)?)?)
}

/// A message of so many entries, and this payload.
fn message(alloc: Global, count: Option<i32>, bytes: &[u8]) -> Result<Frame, Fail> {
    let mut metadata = MessageMetadata::new(alloc);
    metadata.num_messages_in_batch = count;
    let payload = Payload {
        metadata,
        bytes: bytes.to_vec(alloc)?,
    };
    let body = Body::Message(CommandMessage::new(alloc));
    let command = BaseCommand {
        kind: 9,
        body: Some(body),
    };
    frame(
        alloc,
        Message {
            command,
            payload: Some(payload),
        },
    )
}

/// 0: there is nothing now; 1: the end; 2: a message; 3: an error.
fn polls(consumer: &mut TopicConsumer) -> Result<u8, Fail> {
    match consumer.poll(7)? {
        Polled::Empty => Ok(0),
        Polled::End => Ok(1),
        Polled::Item(item) => { if item.is_message() { Ok(2) } else { Ok(3) } }
    }
}

/// Each entry: the size of what it says, the length of its payload, and a letter.
const ABC: &[u8] = b"\x00\x00\x00\x02\x18\x01a\x00\x00\x00\x02\x18\x01b\x00\x00\x00\x02\x18\x01c";

#[test]
fn what_came_is_given_behind_a_lost_link(rt: HostRuntime) -> Result<(), Fail> {
    let alloc = rt.alloc();
    let mut consumer = consumer(alloc, Some(0))?;
    consumer.hear(0, message(alloc, None, b"a")?)?;
    assert!(rt; consumer.resubscribes(0));
    consumer.lose(0);
    assert!(rt; consumer.link().is_none());
    consumer.hear(0, message(alloc, None, b"b")?)?;
    assert!(rt; polls(&mut consumer)? == 2);
    assert!(rt; polls(&mut consumer)? == 0);
    Ok(())
}

#[test]
fn what_came_is_given_behind_the_end(rt: HostRuntime) -> Result<(), Fail> {
    let alloc = rt.alloc();
    let mut consumer = consumer(alloc, None)?;
    consumer.hear(0, message(alloc, None, b"a")?)?;
    consumer.end(Ending::TopicEnded);
    assert!(rt; polls(&mut consumer)? == 2);
    assert!(rt; polls(&mut consumer)? == 1);
    Ok(())
}

#[test]
fn an_ended_consumer_takes_no_subscription(rt: HostRuntime) -> Result<(), Fail> {
    let alloc = rt.alloc();
    let mut consumer = consumer(alloc, None)?;
    consumer.end(Ending::TopicEnded);
    consumer.end(Ending::Closed);
    consumer.subscribe(1, url(alloc)?)?;
    assert!(rt; consumer.link().is_none() && consumer.ask().is_none());
    assert!(rt; consumer.ending() == Some(Ending::TopicEnded));
    Ok(())
}

/// A frame without a payload costs one permit, and waits behind a full queue like each other.
#[test]
fn one_poll_may_finish_two_frames(rt: HostRuntime) -> Result<(), Fail> {
    let alloc = rt.alloc();
    let mut consumer = small(alloc)?;
    assert!(rt; consumer.ask() == Some(1));
    consumer.hear(0, message(alloc, None, b"a")?)?;
    assert!(rt; consumer.ask() == Some(1));
    consumer.hear(0, message(alloc, None, b"b")?)?;
    consumer.hear(0, bare(alloc)?)?;
    assert!(rt; consumer.ask().is_none());
    assert!(rt; polls(&mut consumer)? == 2);
    assert!(rt; consumer.ask() == Some(1));
    assert!(rt; consumer.ask() == Some(1));
    assert!(rt; consumer.ask().is_none());
    Ok(())
}

/// One that lets the broker send one message at once, and holds one.
fn small(alloc: Global) -> Result<Box<TopicConsumer>, Fail> {
    subscribed(alloc, settings(alloc, Some(1), Some(1))?)
}

/// A message command without a payload.
fn bare(alloc: Global) -> Result<Frame, Fail> {
    let command = BaseCommand {
        kind: 9,
        body: Some(Body::Message(CommandMessage::new(alloc))),
    };
    frame(
        alloc,
        Message {
            command,
            payload: None,
        },
    )
}

/// A command that is no message costs nothing, and gives nothing.
#[test]
fn another_command_costs_nothing(rt: HostRuntime) -> Result<(), Fail> {
    let alloc = rt.alloc();
    let mut consumer = small(alloc)?;
    assert!(rt; consumer.is_due() && consumer.ask() == Some(1));
    let command = BaseCommand {
        kind: 27,
        body: Some(Body::ReachedEndOfTopic(CommandReachedEndOfTopic::new())),
    };
    let frame = frame(
        alloc,
        Message {
            command,
            payload: None,
        },
    )?;
    assert!(rt; frame.weight() == 0);
    consumer.hear(0, frame)?;
    assert!(rt; !consumer.is_due() && polls(&mut consumer)? == 0);
    Ok(())
}

/// A consumer that a raw call makes on link 0.
fn raw(alloc: Global) -> Result<Box<TopicConsumer>, Fail> {
    let made = Subscription {
        topic: String::from_str(alloc, "t")?,
        subscription: String::from_str(alloc, "s")?,
        sub_type: SubType::Shared,
        consumer: 7,
        name: None,
        options: ConsumerOptions::new(alloc),
    };
    let consumer = TopicConsumer::of_raw(alloc, Subscribed::new(alloc, made)?)?;
    let mut consumer = Box::new(alloc, consumer)?;
    consumer.subscribe(0, url(alloc)?)?;
    Ok(consumer)
}

#[test]
fn a_raw_consumer_asks_for_nothing_and_ends_with_its_link(rt: HostRuntime) -> Result<(), Fail> {
    let alloc = rt.alloc();
    let mut consumer = raw(alloc)?;
    assert!(rt; consumer.topic() == "t" && consumer.number() == 7 && !consumer.is_due());
    consumer.hear(0, message(alloc, Some(3), ABC)?)?;
    assert!(rt; !consumer.is_due() && !consumer.resubscribes(0));
    consumer.lose(0);
    consumer.hear(0, message(alloc, None, b"d")?)?;
    assert!(rt; polls(&mut consumer)? == 2);
    assert!(rt; polls(&mut consumer)? == 2);
    assert!(rt; polls(&mut consumer)? == 2);
    assert!(rt; polls(&mut consumer)? == 1);
    assert!(rt; consumer.ending() == Some(Ending::LinkLost));
    Ok(())
}
