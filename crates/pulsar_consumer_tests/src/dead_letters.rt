//! Dead letters, and messages that are given again, case by case.

use pulsar_addresses::content::Text;
use pulsar_consumer::frame::Frame;
use pulsar_consumer::letter::LetterCopy;
use pulsar_consumer::topic_consumer::TopicConsumer;
use pulsar_exchange::content::Received;
use pulsar_frame::message::Message;
use pulsar_frame::payload::Payload;
use pulsar_incoming::config::{ConsumerConfig, DeadLetterPolicy};
use pulsar_incoming::polled::{Ending, Polled};
use pulsar_incoming::settings::Settings;
use pulsar_messages::Message as Copy;
use pulsar_wire::commands::base::{BaseCommand, Body};
use pulsar_wire::commands::consumer::delivery::CommandMessage;
use pulsar_wire::commands::ids::MessageIdData;
use pulsar_wire::commands::metadata::{KeyValue, MessageMetadata};
use pulsar_wire::error::ConnectionError;
use std::alloc::Global;
use std::test::Fail;
use url::Url;

/// The key of the consumer.
const KEY: u64 = 9;

/// One of topic t whose subscription is live on link 0 since moment 0. A message that was given again once is a dead letter; one that is not
/// acknowledged is asked for again after a second.
fn consumer(alloc: Global) -> Result<Box<TopicConsumer>, Fail> {
    let mut config = ConsumerConfig::new(alloc);
    config.unacked_message_redelivery_delay = Some(1000);
    config.dead_letter_policy = Some(DeadLetterPolicy {
        max_redeliver_count: 1,
        dead_letter_topic: String::from_str(alloc, "d")?,
    });
    let settings = Settings::new(alloc, config)?;
    let topic = Text::new(String::from_str(alloc, "t")?);
    let consumer = TopicConsumer::new(alloc, KEY, topic, 0, settings, false);
    let mut consumer = Box::new(alloc, consumer)?;
    consumer.subscribe(0, Url::parse(alloc, "pulsar://127.0.0.1:6650")?)?;
    Ok(consumer)
}

fn id(alloc: Global, ledger: u64, entry: u64) -> MessageIdData {
    let mut id = MessageIdData::new(alloc);
    id.ledger_id = ledger;
    id.entry_id = entry;
    id
}

fn property(alloc: Global, key: &str, value: &str) -> Result<KeyValue, Fail> {
    Ok(KeyValue {
        key: String::from_str(alloc, key)?,
        value: String::from_str(alloc, value)?,
    })
}

/// A message of this id and payload, given again so often, with so many entries.
fn message(
    alloc: Global,
    id: MessageIdData,
    again: u32,
    count: Option<i32>,
    bytes: &[u8],
) -> Result<Frame, Fail> {
    let mut metadata = MessageMetadata::new(alloc);
    metadata.num_messages_in_batch = count;
    metadata.event_time = Some(5);
    metadata.properties.push(property(alloc, "k_2", "v_2")?)?;
    metadata.properties.push(property(alloc, "k_1", "v_1")?)?;
    let payload = Payload {
        metadata,
        bytes: bytes.to_vec(alloc)?,
    };
    frame(alloc, id, again, payload)
}

fn frame(alloc: Global, id: MessageIdData, again: u32, payload: Payload) -> Result<Frame, Fail> {
    let mut told = CommandMessage::new(alloc);
    told.message_id = id;
    told.redelivery_count = Some(again);
    let command = BaseCommand {
        kind: 9,
        body: Some(Body::Message(told)),
    };
    let message = Message {
        command,
        payload: Some(payload),
    };
    Ok(Frame::received(alloc, Received::new(alloc, message)?)?)
}

/// e: there is nothing now; E: the end; the first byte of a message; !: an error.
fn poll(consumer: &mut TopicConsumer) -> Result<u8, Fail> {
    match consumer.poll(0)? {
        Polled::Empty => Ok(b'e'),
        Polled::End => Ok(b'E'),
        Polled::Item(item) => {
            if item.is_message() {
                Ok(b'm')
            } else {
                Ok(b'!')
            }
        }
    }
}

/// Its properties, one after another.
fn properties(alloc: Global, copy: &Copy) -> Result<String, Fail> {
    let mut text = String::new(alloc);
    for (key, value) in &copy.properties {
        text.push_str(format!(in alloc; "{key}={value};")?.as_str())?;
    }
    Ok(text)
}

#[test]
fn a_copy_says_where_it_comes_from(rt: HostRuntime) -> Result<(), Fail> {
    let alloc = rt.alloc();
    let mut consumer = consumer(alloc)?;
    consumer.hear(0, message(alloc, id(alloc, 1, 2), 1, None, b"x")?)?;
    assert!(rt; consumer.is_copy_due() && poll(&mut consumer)? == b'e');
    let LetterCopy { key, message } = consumer.take_copy()?.ok_or(ConnectionError::NotFound)?;
    let copy = Box::into_inner(message);
    assert!(rt; key == KEY);
    assert!(rt; copy.payload.as_slice() == b"x".as_slice() && copy.event_time == Some(5));
    let text = properties(alloc, &copy)?;
    assert!(rt; text.as_str() == "ORIGIN_MESSAGE_ID=1:2:-1;REAL_TOPIC=t;k_1=v_1;k_2=v_2;");
    assert!(rt; !consumer.is_copy_due() && poll(&mut consumer)? == b'e');
    let acked = consumer.copy_sent(KEY, 0)?;
    assert!(rt; acked == Some(id(alloc, 1, 2)));
    assert!(rt; poll(&mut consumer)? == b'e' && !consumer.is_copy_due());
    Ok(())
}

const AB: &[u8] = b"\x00\x00\x00\x02\x18\x01a\x00\x00\x00\x02\x18\x01b";

#[test]
fn a_failed_copy_skips_the_rest_of_its_frame_alone(rt: HostRuntime) -> Result<(), Fail> {
    let alloc = rt.alloc();
    let mut consumer = consumer(alloc)?;
    consumer.hear(0, message(alloc, id(alloc, 1, 2), 1, Some(2), AB)?)?;
    consumer.hear(0, message(alloc, id(alloc, 1, 3), 0, None, b"n")?)?;
    assert!(rt; consumer.take_copy()?.is_some() && poll(&mut consumer)? == b'e');
    consumer.copy_failed(KEY, 0)?;
    assert!(rt; !consumer.is_copy_due());
    assert!(rt; poll(&mut consumer)? == b'!');
    assert!(rt; poll(&mut consumer)? == b'm');
    assert!(rt; poll(&mut consumer)? == b'e');
    Ok(())
}

#[test]
fn dead_letters_fail_at_a_stop(rt: HostRuntime) -> Result<(), Fail> {
    let alloc = rt.alloc();
    let mut consumer = consumer(alloc)?;
    consumer.hear(0, message(alloc, id(alloc, 1, 2), 1, None, b"x")?)?;
    consumer.hear(0, message(alloc, id(alloc, 1, 3), 2, None, b"y")?)?;
    consumer.end(Ending::Closed);
    assert!(rt; poll(&mut consumer)? == b'e' && consumer.is_copy_due() && !consumer.is_over());
    consumer.end(Ending::Stopped);
    consumer.stop()?;
    assert!(rt; poll(&mut consumer)? == b'!');
    assert!(rt; poll(&mut consumer)? == b'!');
    assert!(rt; poll(&mut consumer)? == b'E');
    Ok(())
}

#[test]
fn a_check_names_what_is_due_in_the_order_of_ids(rt: HostRuntime) -> Result<(), Fail> {
    let alloc = rt.alloc();
    let mut consumer = consumer(alloc)?;
    consumer.hear(0, message(alloc, id(alloc, 2, 0), 0, None, b"b")?)?;
    consumer.hear(0, message(alloc, id(alloc, 1, 1), 0, None, b"a")?)?;
    consumer.hear(0, message(alloc, id(alloc, 1, 0), 0, None, b"c")?)?;
    consumer.forget(&id(alloc, 1, 0))?;
    assert!(rt; consumer.check(1000)?.is_empty());
    let named = consumer.check(1500)?;
    assert!(rt; named.len() == 2 && named[0] == id(alloc, 1, 1) && named[1] == id(alloc, 2, 0));
    assert!(rt; consumer.check(2000)?.is_empty());
    Ok(())
}

#[test]
fn checks_come_behind_the_first_subscription_and_behind_each_other(
    rt: HostRuntime,
) -> Result<(), Fail> {
    let alloc = rt.alloc();
    let mut consumer = consumer(alloc)?;
    assert!(rt; consumer.next_check() == Some(500));
    consumer.lose(0);
    consumer.tell(700);
    assert!(rt; consumer.check(700)?.is_empty() && consumer.next_check() == Some(1200));
    consumer.subscribe(1, Url::parse(alloc, "pulsar://127.0.0.1:6650")?)?;
    assert!(rt; consumer.next_check() == Some(1200));
    consumer.end(Ending::TopicEnded);
    assert!(rt; consumer.next_check().is_none());
    Ok(())
}

/// A consumer that was built again has another key.
#[test]
fn an_outcome_of_another_changes_nothing(rt: HostRuntime) -> Result<(), Fail> {
    let alloc = rt.alloc();
    let mut consumer = consumer(alloc)?;
    consumer.hear(0, message(alloc, id(alloc, 1, 2), 1, Some(2), AB)?)?;
    assert!(rt; consumer.key() == KEY && consumer.take_copy()?.is_some());
    assert!(rt; consumer.copy_sent(KEY + 1, 0)?.is_none() && !consumer.is_copy_due());
    consumer.copy_failed(KEY + 1, 0)?;
    assert!(rt; poll(&mut consumer)? == b'e' && !consumer.is_copy_due());
    assert!(rt; consumer.copy_sent(KEY, 0)?.is_some() && consumer.is_copy_due());
    Ok(())
}

/// A receipt that comes while no subscription is live acknowledges nothing, also later.
#[test]
fn a_receipt_without_a_subscription_acknowledges_nothing(rt: HostRuntime) -> Result<(), Fail> {
    let alloc = rt.alloc();
    let mut consumer = consumer(alloc)?;
    consumer.hear(0, message(alloc, id(alloc, 1, 2), 1, None, b"x")?)?;
    assert!(rt; consumer.take_copy()?.is_some());
    consumer.lose(0);
    assert!(rt; consumer.copy_sent(KEY, 0)?.is_none());
    consumer.subscribe(1, Url::parse(alloc, "pulsar://127.0.0.1:6650")?)?;
    assert!(rt; consumer.copy_sent(KEY, 0)?.is_none() && poll(&mut consumer)? == b'e');
    Ok(())
}
