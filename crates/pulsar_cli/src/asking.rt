//! The events of a demo.

ghost use Rattle.std.specs.Prelude.{◌≡◌, ◌∷◌, IfOk, MatchOption, None, Some, false, map};
ghost use Rattle.std.specs.Option.{option_map};
ghost use Rattle.pulsar_wire.specs.Views.{message_id_values};
ghost use Rattle.pulsar_messages.specs.Message.{bare};
ghost use Rattle.pulsar_calls.specs.Content.{Ack, Called, Consumer, Producer, Send, heard, shown};
ghost use Rattle.pulsar_cli.specs.Demo.{IsAck, demo_consumer, demo_producer, item_of, payload, producer_ticket};
ghost use Rattle.pulsar_cli.specs.Played.{heard_in, item_in};

use crate::generated::payload;
use crate::tally::item_of;
use pulsar_client::{Call, ConsumerOptions, Effect, Event, Handed, InitialPosition};
use pulsar_incoming::builder::ConsumerBuilder;
use pulsar_messages::serialize::message_from_bytes;
use pulsar_outgoing::producer_builder::ProducerBuilder;
use pulsar_wire::NoMemory;
use std::alloc::Global;

/// The topic, and its subscription.
const NAME: &str = "demo";

/// The ticket of the producer.
pub const PRODUCER: u64 = 1;

/// The call that makes the producer.
pub fn producer(alloc: Global) -> Result<Box<Event>, NoMemory>
    ensures { IfOk result (λ event. heard event.value ≡ Called (Producer demo_producer)) }
{
    let builder = ProducerBuilder::new(alloc).with_topic(NAME)?;
    Ok(Box::new(alloc, Event::Call(Call::Producer(builder)))?)
}

/// The call that sends the message of a place.
pub fn send(alloc: Global, seed: u64, place: u64) -> Result<Box<Event>, NoMemory>
    ensures { IfOk result (λ event. heard event.value ≡ Called (Send producer_ticket (bare (payload seed place)))) }
{
    let bytes = payload(alloc, seed, place)?;
    let message = message_from_bytes(alloc, &bytes)?;
    let call = Call::Send {
        producer: PRODUCER,
        message,
    };
    Ok(Box::new(alloc, Event::Call(call))?)
}

/// The call that makes the consumer.
pub fn consumer(alloc: Global) -> Result<Box<Event>, NoMemory>
    ensures { IfOk result (λ event. heard event.value ≡ Called (Consumer demo_consumer)) }
{
    let options = ConsumerOptions::new(alloc).with_initial_position(InitialPosition::Earliest);
    let builder = ConsumerBuilder::new(alloc)
        .with_topic(NAME)?
        .with_subscription(NAME)?
        .with_options(options);
    Ok(Box::new(alloc, Event::Call(Call::Consumer(builder)))?)
}

/// The call that acknowledges the item that a poll gave.
pub fn ack_of(
    alloc: Global,
    consumer: u64,
    effects: &[Effect],
) -> Result<Option<Box<Event>>, NoMemory>
    ensures { IfOk result (λ ack. IsAck consumer (heard_in ack) (item_of (map shown effects.now))) }
{
    match item_of(effects) {
        Some(item) => Ok(Some(ack(alloc, consumer, item)?)),
        None => Ok(None),
    }
}

fn ack(alloc: Global, consumer: u64, item: &Handed) -> Result<Box<Event>, NoMemory>
    ensures { IfOk result (λ event. heard event.value
        ≡ Called (Ack consumer (item_in item.now).topic (message_id_values item.now.id.id) false)) }
{
    let topic = item.topic.clone()?;
    let id = item.id.id.copy()?;
    let call = Call::Ack {
        consumer,
        topic,
        id,
        cumulative: false,
    };
    Ok(Box::new(alloc, Event::Call(call))?)
}
