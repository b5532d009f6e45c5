//! How many partitions a topic has.

ghost use Rattle.std.specs.Prelude.{◌≡◌, IfOk};
ghost use Rattle.pulsar_wire.specs.Failures.{fault};
ghost use Rattle.pulsar_searches.specs.Plans as meaning;
ghost use Rattle.pulsar_addresses.specs.Address.{in_discovery};

use crate::question::Request;
use crate::replies::{Heard, count_in};
use crate::transition::Transition;
use crate::turn::{Action, SearchOutcome, SearchTransition, Ways, error_of, is_lost};
use pulsar_addresses::content::{Refusal, Text};
use pulsar_wire::error::{ConnectionError, NoMemory};
use std::alloc::Global;

/// Where the question stands. `again`: it may be asked once more. `retries`: the retries so far.
#[derive(Clone, Copy)]
pub enum Counting {
    /// It waits for a link to the service.
    Getting {
        again: bool,
        retries: u32,
    },
    /// It waits for the answer.
    Asked {
        again: bool,
        retries: u32,
        link: u64,
    },
    /// It waits for the moment of its retry.
    Resting {
        retries: u32,
        link: u64,
    },
}

/// Where it begins.
pub fn begins(
    alloc: Global,
    ways: &Ways,
    topic: &Text,
) -> Result<SearchTransition<Counting, Result<u32, Refusal>>, NoMemory>
    ensures { IfOk result (λ turn. turn ≡ meaning.count_begins ways.now topic.now) }
{
    if is_partition(topic.as_str()) {
        return Ok(Transition::Gives(Ok(0)));
    }
    gets(alloc, ways, true, 0)
}

/// A topic is itself a partition.
fn is_partition(topic: &str) -> bool
    ensures { result ≡ meaning.is_partition topic.now }
{
    topic.contains("-partition-")
}

/// What an outcome makes of it.
pub fn told(
    alloc: Global,
    ways: &Ways,
    topic: &Text,
    counting: Counting,
    outcome: SearchOutcome,
) -> Result<SearchTransition<Counting, Result<u32, Refusal>>, NoMemory>
    ensures { IfOk result (λ turn. turn ≡ meaning.count_told ways.now topic.now counting outcome) }
{
    match counting {
        Counting::Getting { again, retries } => match outcome {
            SearchOutcome::GotLink(link) => asks(alloc, topic, again, retries, link),
            outcome => fails(alloc, error_of(outcome)),
        },
        Counting::Asked {
            again,
            retries,
            link,
        } => match outcome {
            SearchOutcome::Replied(reply) => {
                let heard = count_in(alloc, ways, retries, &reply)?;
                Ok(told_by(ways, retries, link, heard))
            }
            outcome => failed(alloc, ways, again, retries, error_of(outcome)),
        },
        Counting::Resting { retries, link } => match outcome {
            SearchOutcome::Woken => asks(alloc, topic, true, retries.saturating_add(1), link),
            outcome => fails(alloc, error_of(outcome)),
        },
    }
}

fn gets(
    alloc: Global,
    ways: &Ways,
    again: bool,
    retries: u32,
) -> Result<SearchTransition<Counting, Result<u32, Refusal>>, NoMemory>
    ensures { IfOk result (λ turn. turn ≡ meaning.count_gets ways.now again retries) }
{
    Ok(Transition::Stays(
        Counting::Getting { again, retries },
        Action::Get(ways.base.copy(alloc)?),
    ))
}

fn asks(
    alloc: Global,
    topic: &Text,
    again: bool,
    retries: u32,
    link: u64,
) -> Result<SearchTransition<Counting, Result<u32, Refusal>>, NoMemory>
    ensures { IfOk result (λ turn. turn ≡ meaning.count_asks topic.now again retries link) }
{
    let request = Request::lookup_partitioned_topic(alloc, topic.as_str())?;
    Ok(Transition::Stays(
        Counting::Asked {
            again,
            retries,
            link,
        },
        Action::Ask { link, request },
    ))
}

fn fails(
    alloc: Global,
    error: ConnectionError,
) -> Result<SearchTransition<Counting, Result<u32, Refusal>>, NoMemory>
    ensures { IfOk result (λ turn. turn ≡ meaning.fails (in_discovery (fault error))) }
{
    Ok(Transition::Gives(Err(Refusal::in_discovery(alloc, error)?)))
}

fn failed(
    alloc: Global,
    ways: &Ways,
    again: bool,
    retries: u32,
    error: ConnectionError,
) -> Result<SearchTransition<Counting, Result<u32, Refusal>>, NoMemory>
    ensures { IfOk result (λ turn. turn ≡ meaning.count_failed ways.now again retries (fault error)) }
{
    if again && is_lost(&error) {
        gets(alloc, ways, false, retries)
    } else {
        fails(alloc, error)
    }
}

/// What a reply says.
fn told_by(
    ways: &Ways,
    retries: u32,
    link: u64,
    heard: Heard<u32>,
) -> SearchTransition<Counting, Result<u32, Refusal>>
    ensures { result ≡ meaning.count_heard ways.now retries link heard }
{
    match heard {
        Heard::Says(count) => Transition::Gives(Ok(count)),
        Heard::Later => Transition::Stays(
            Counting::Resting { retries, link },
            Action::Wait(ways.retry_delay),
        ),
        Heard::Denies(refusal) => Transition::Gives(Err(refusal)),
    }
}
