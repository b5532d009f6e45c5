//! A send by a producer of many topics, until the producer of its topic has taken its message.

ghost use Rattle.std.specs.Prelude.{◌≡◌, IfOk};
ghost use Rattle.pulsar_producer.specs.MultiPlans as meaning;

use crate::building::{self, BuildingProducer, Builds};
use crate::deed::Deed;
use crate::multi_topic::deed::{MultiDeed, MultiNews, multi_failure};
use pulsar_addresses::content::{Refusal, Text};
use pulsar_outgoing::content::Parts;
use pulsar_outgoing::multi_topic::{
    Dispatch, Handing, Joining, Missing, MultiAsk, MultiSaid, UserMessage,
};
use pulsar_outgoing::orders::ProducerOrder;
use pulsar_searches::transition::Transition;
use pulsar_searches::turn::Ways;
use pulsar_wire::error::NoMemory;
use std::alloc::Global;

/// Where a send stands.
#[derive(Drop)]
pub enum MultiSending {
    /// It waits for its turn.
    Waiting {
        topic: Text,
        message: UserMessage,
    },
    /// It has its turn, and its message goes to the producer of its topic.
    Handing,
    /// There is none, and it builds one.
    Building {
        order: ProducerOrder,
        message: UserMessage,
        building: BuildingProducer,
    },
    /// It has built one.
    Joining {
        topic: Text,
        message: UserMessage,
    },
    /// Its turn is over, and then it gives this.
    Passing(Result<Dispatch, Refusal>),
}

/// What a send gives at its end: how its message goes on.
pub type Dispatches = Transition<MultiSending, MultiDeed, Result<Dispatch, Refusal>>;

/// Where it begins.
pub fn begins(topic: Text, message: UserMessage) -> Dispatches
    ensures { result ≡ meaning.send_begins topic message }
{
    Transition::Stays(
        MultiSending::Waiting { topic, message },
        MultiDeed::Asks(MultiAsk::TakeTurn),
    )
}

/// What news make of it.
pub fn told(
    alloc: Global,
    ways: &Ways,
    sending: MultiSending,
    news: MultiNews,
) -> Result<Dispatches, NoMemory>
    ensures { IfOk result (λ step. step ≡ meaning.multi_send_told ways.now sending news) }
{
    match sending {
        MultiSending::Waiting { topic, message } => in_waiting(alloc, topic, message, news),
        MultiSending::Handing => in_handing(alloc, ways, news),
        MultiSending::Building {
            order,
            message,
            building,
        } => in_building(alloc, ways, order, message, building, news),
        MultiSending::Joining { topic, message } => in_joining(alloc, topic, message, news),
        MultiSending::Passing(given) => Ok(Transition::Gives(given)),
    }
}

fn in_waiting(
    alloc: Global,
    topic: Text,
    message: UserMessage,
    news: MultiNews,
) -> Result<Dispatches, NoMemory>
    ensures { IfOk result (λ step. step ≡ meaning.in_waiting topic message news) }
{
    match news {
        MultiNews::Said(MultiSaid::HasTurn) => Ok(hands(topic, message)),
        news => Ok(Transition::Gives(Err(multi_failure(alloc, news)?))),
    }
}

fn in_handing(alloc: Global, ways: &Ways, news: MultiNews) -> Result<Dispatches, NoMemory>
    ensures { IfOk result (λ step. step ≡ meaning.in_handing ways.now news) }
{
    match news {
        MultiNews::Said(MultiSaid::Handed(given)) => Ok(passes(given)),
        MultiNews::Said(MultiSaid::Absent(missing)) => builds(alloc, ways, missing),
        news => Ok(passes(Err(multi_failure(alloc, news)?))),
    }
}

fn in_building(
    alloc: Global,
    ways: &Ways,
    order: ProducerOrder,
    message: UserMessage,
    building: BuildingProducer,
    news: MultiNews,
) -> Result<Dispatches, NoMemory>
    ensures { IfOk result (λ step. step ≡ meaning.in_building ways.now order message building news) }
{
    match news {
        MultiNews::Told(news) => {
            let step = building::told(alloc, ways, &order, building, news)?;
            goes(order, message, step)
        }
        MultiNews::Said(_) => Ok(stays(order, message, building, Deed::Rests)),
    }
}

fn in_joining(
    alloc: Global,
    topic: Text,
    message: UserMessage,
    news: MultiNews,
) -> Result<Dispatches, NoMemory>
    ensures { IfOk result (λ step. step ≡ meaning.in_joining topic message news) }
{
    match news {
        MultiNews::Said(MultiSaid::Done) => Ok(hands(topic, message)),
        news => Ok(passes(Err(multi_failure(alloc, news)?))),
    }
}

/// Its message goes to the producer of its topic.
fn hands(topic: Text, message: UserMessage) -> Dispatches
    ensures { result ≡ meaning.send_hands topic message }
{
    Transition::Stays(
        MultiSending::Handing,
        MultiDeed::Asks(MultiAsk::Hand(Handing { topic, message })),
    )
}

/// There is no producer of its topic: one is built.
fn builds(alloc: Global, ways: &Ways, missing: Missing) -> Result<Dispatches, NoMemory>
    ensures { IfOk result (λ step. step ≡ meaning.in_handing ways.now (MultiNews.Said (MultiSaid.Absent missing))) }
{
    let Missing { order, message } = missing;
    let step = building::begins(alloc, ways, &order)?;
    goes(order, message, step)
}

/// The building goes on, or it ends.
fn goes(order: ProducerOrder, message: UserMessage, step: Builds) -> Result<Dispatches, NoMemory>
    ensures { IfOk result (λ d. d ≡ meaning.send_builds order message step) }
{
    match step {
        Transition::Stays(building, deed) => Ok(stays(order, message, building, deed)),
        Transition::Gives(Ok(parts)) => joins(order, message, parts),
        Transition::Gives(Err(refusal)) => Ok(passes(Err(refusal))),
    }
}

fn stays(
    order: ProducerOrder,
    message: UserMessage,
    building: BuildingProducer,
    deed: Deed,
) -> Dispatches
    ensures { result ≡ meaning.send_builds order message (Transition.Stays building deed) }
{
    Transition::Stays(
        MultiSending::Building {
            order,
            message,
            building,
        },
        MultiDeed::Does(deed),
    )
}

/// The producer of its topic was built.
fn joins(order: ProducerOrder, message: UserMessage, parts: Parts) -> Result<Dispatches, NoMemory>
    ensures { IfOk result (λ d. d ≡ meaning.send_joins order message parts) }
{
    let ProducerOrder {
        topic,
        name: _,
        options,
    } = order;
    let joining = Joining {
        topic: topic.copy()?,
        settings: options,
        parts,
    };
    Ok(Transition::Stays(
        MultiSending::Joining { topic, message },
        MultiDeed::Asks(MultiAsk::Join(joining)),
    ))
}

/// Its turn is over.
fn passes(given: Result<Dispatch, Refusal>) -> Dispatches
    ensures { result ≡ meaning.send_passes given }
{
    Transition::Stays(
        MultiSending::Passing(given),
        MultiDeed::Asks(MultiAsk::PassTurn),
    )
}
