//! A producer of many topics, step by step, and who waits at a topic producer.

use pulsar_addresses::content::Text;
use pulsar_messages::ProducerOptions;
use pulsar_messages::serialize::message_from_text;
use pulsar_outgoing::content::Settings;
use pulsar_outgoing::multi_topic::{Dispatch, Handing, MultiAsk, MultiSaid, Taker, UserMessage};
use pulsar_producer::line::Line;
use pulsar_producer::multi_topic::closing;
use pulsar_producer::multi_topic::deed::{MultiDeed, MultiNews};
use pulsar_producer::routing::Partition;
use pulsar_producer::{MultiTopicProducer, Producer};
use pulsar_searches::transition::Transition;
use std::alloc::Global;
use std::test::Fail;

fn text(alloc: Global, text: &str) -> Result<Text, Fail> {
    Ok(Text::new(String::from_str(alloc, text)?))
}

fn settings(alloc: Global, batch_size: Option<u32>) -> Result<Settings, Fail> {
    let mut options = ProducerOptions::new(alloc);
    options.batch_size = batch_size;
    Ok(Settings::new(alloc, options)?)
}

/// One that has a producer for this topic, under the number 5.
fn multi(
    alloc: Global,
    topic: &str,
    batch_size: Option<u32>,
) -> Result<Box<MultiTopicProducer>, Fail> {
    let name = text(alloc, "p")?;
    let mut multi = MultiTopicProducer::new(alloc, Some(name), settings(alloc, batch_size)?);
    multi.join(text(alloc, topic)?, producer(alloc, topic, batch_size)?)?;
    Ok(Box::new(alloc, multi)?)
}

fn producer(alloc: Global, topic: &str, batch_size: Option<u32>) -> Result<Producer, Fail> {
    let mut partitions = Vec::new(alloc);
    partitions.push(Partition {
        name: text(alloc, topic)?,
        number: 5,
    })?;
    let settings = settings(alloc, batch_size)?;
    match Producer::new(text(alloc, topic)?, settings, partitions, 0) {
        Some(producer) => Ok(producer),
        None => Err(Fail::new("no producer")),
    }
}

fn handing(alloc: Global, topic: &str) -> Result<Handing, Fail> {
    let message = message_from_text(alloc, "abc")?;
    Ok(Handing {
        topic: text(alloc, topic)?,
        message: UserMessage::new(alloc, message)?,
    })
}

#[test]
fn topics_are_in_the_order_of_texts(rt: HostRuntime) -> Result<(), Fail> {
    let alloc = rt.alloc();
    let mut multi = multi(alloc, "b", None)?;
    multi.join(text(alloc, "a")?, producer(alloc, "a", None)?)?;
    let topics = multi.topics()?;
    assert!(rt; topics.len() == 2 && topics[0].as_str() == "a" && topics[1].as_str() == "b");
    assert!(rt; multi.remove("a").is_some() && multi.remove("a").is_none());
    assert!(rt; multi.producer("b").is_some() && multi.producer("a").is_none());
    Ok(())
}

#[test]
fn first_come_first_served(rt: HostRuntime) -> Result<(), Fail> {
    let mut multi = multi(rt.alloc(), "t", None)?;
    assert!(rt; multi.take_turn(Taker::Call(7))?);
    assert!(rt; !multi.take_turn(Taker::Call(9))? && !multi.take_turn(Taker::Call(8))?);
    assert!(rt; multi.waiting().len() == 2);
    assert!(rt; multi.pass_turn() == Some(Taker::Call(9)));
    assert!(rt; multi.pass_turn() == Some(Taker::Call(8)) && multi.pass_turn().is_none());
    Ok(())
}

/// The number of the topic producer that takes a message, and whether it stores it.
fn taken(said: MultiSaid) -> Option<(u64, bool)> {
    match said {
        MultiSaid::Handed(Ok(Dispatch::Send { errand, .. })) => Some((errand.producer, false)),
        MultiSaid::Handed(Ok(Dispatch::Store { number, .. })) => Some((number, true)),
        _ => None,
    }
}

#[test]
fn a_message_goes_to_the_producer_of_its_topic(rt: HostRuntime) -> Result<(), Fail> {
    let alloc = rt.alloc();
    let said = multi(alloc, "t", None)?.hand(alloc, handing(alloc, "t")?, None)?;
    assert!(rt; taken(said) == Some((5, false)));
    let said = multi(alloc, "t", Some(2))?.hand(alloc, handing(alloc, "t")?, None)?;
    assert!(rt; taken(said) == Some((5, true)));
    Ok(())
}

fn is_missed(said: MultiSaid) -> bool {
    match said {
        MultiSaid::Absent(missing) => missing.order.topic.as_str() == "u",
        _ => false,
    }
}

#[test]
fn a_topic_without_producer_is_missed(rt: HostRuntime) -> Result<(), Fail> {
    let alloc = rt.alloc();
    let said = multi(alloc, "t", None)?.hand(alloc, handing(alloc, "u")?, None)?;
    assert!(rt; is_missed(said));
    Ok(())
}

fn removes(alloc: Global) -> Result<bool, Fail> {
    let Transition::Stays(closing, _) = closing::begins(text(alloc, "t")?) else {
        return Ok(false);
    };
    let step = closing::told(alloc, closing, MultiNews::Said(MultiSaid::HasTurn))?;
    match step {
        Transition::Stays(_, deed) => Ok(is_removal(deed)),
        Transition::Gives(_) => Ok(false),
    }
}

fn is_removal(deed: MultiDeed) -> bool {
    match deed {
        MultiDeed::Asks(MultiAsk::Remove(topic)) => topic.as_str() == "t",
        _ => false,
    }
}

#[test]
fn a_close_removes_the_producer(rt: HostRuntime) -> Result<(), Fail> {
    assert!(rt; removes(rt.alloc())?);
    Ok(())
}

fn copy(key: u64) -> Taker {
    Taker::Copy {
        consumer: 1,
        ticket: 2,
        key,
    }
}

#[test]
fn a_copy_stays_between_two_sends(rt: HostRuntime) -> Result<(), Fail> {
    let mut line = Line::new(rt.alloc());
    line.join(Taker::Call(7))?;
    line.join(copy(3))?;
    line.join(Taker::Call(8))?;
    line.join(copy(3))?;
    assert!(rt; line.next() == Some(Taker::Call(7)) && line.next() == Some(copy(3)));
    assert!(rt; line.next() == Some(Taker::Call(8)) && line.next() == Some(copy(3)));
    assert!(rt; line.next().is_none());
    Ok(())
}

#[test]
fn calls_wait_in_the_order_of_their_tickets(rt: HostRuntime) -> Result<(), Fail> {
    let mut line = Line::new(rt.alloc());
    line.join(Taker::Call(7))?;
    line.join(copy(3))?;
    line.join(Taker::Call(5))?;
    line.join(Taker::Call(7))?;
    assert!(rt; line.next() == Some(Taker::Call(5)) && line.next() == Some(Taker::Call(7)));
    assert!(rt; line.next() == Some(copy(3)) && line.next().is_none());
    Ok(())
}
