//! A close of a topic: the producer of that is removed in the turn of the close.

ghost use Rattle.std.specs.Prelude.{◌≡◌, IfOk};
ghost use Rattle.pulsar_producer.specs.MultiPlans as meaning;

use crate::multi_topic::deed::{MultiDeed, MultiNews, multi_failure};
use pulsar_addresses::content::{Refusal, Text};
use pulsar_outgoing::content::Numbers;
use pulsar_outgoing::multi_topic::{MultiAsk, MultiSaid};
use pulsar_searches::transition::Transition;
use pulsar_wire::error::NoMemory;
use std::alloc::Global;

/// Where a close stands.
#[derive(Drop)]
pub enum MultiClosing {
    /// It waits for its turn, to remove the producer of this topic.
    Waiting(Text),
    /// It removes that.
    Removing,
    /// Its turn is over, and then it gives this.
    Passing(Result<Numbers, Refusal>),
}

/// What a close gives at its end: the numbers of the topic producers that are to be closed.
pub type Closes = Transition<MultiClosing, MultiDeed, Result<Numbers, Refusal>>;

/// Where it begins.
pub fn begins(topic: Text) -> Closes
    ensures { result ≡ meaning.close_begins topic }
{
    Transition::Stays(
        MultiClosing::Waiting(topic),
        MultiDeed::Asks(MultiAsk::TakeTurn),
    )
}

/// What news make of it.
pub fn told(alloc: Global, closing: MultiClosing, news: MultiNews) -> Result<Closes, NoMemory>
    ensures { IfOk result (λ step. step ≡ meaning.close_told closing news) }
{
    match closing {
        MultiClosing::Waiting(topic) => in_waiting(alloc, topic, news),
        MultiClosing::Removing => in_removing(alloc, news),
        MultiClosing::Passing(given) => Ok(Transition::Gives(given)),
    }
}

fn in_waiting(alloc: Global, topic: Text, news: MultiNews) -> Result<Closes, NoMemory>
    ensures { IfOk result (λ step. step ≡ meaning.in_close_waiting topic news) }
{
    match news {
        MultiNews::Said(MultiSaid::HasTurn) => Ok(Transition::Stays(
            MultiClosing::Removing,
            MultiDeed::Asks(MultiAsk::Remove(topic)),
        )),
        news => Ok(Transition::Gives(Err(multi_failure(alloc, news)?))),
    }
}

fn in_removing(alloc: Global, news: MultiNews) -> Result<Closes, NoMemory>
    ensures { IfOk result (λ step. step ≡ meaning.in_removing news) }
{
    match news {
        MultiNews::Said(MultiSaid::Removed(numbers)) => Ok(passes(Ok(numbers))),
        news => Ok(passes(Err(multi_failure(alloc, news)?))),
    }
}

/// Its turn is over.
fn passes(given: Result<Numbers, Refusal>) -> Closes
    ensures { result ≡ meaning.close_passes given }
{
    Transition::Stays(
        MultiClosing::Passing(given),
        MultiDeed::Asks(MultiAsk::PassTurn),
    )
}
