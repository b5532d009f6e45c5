//! All plans of this crate as one machine.

ghost use Rattle.std.specs.Prelude.{◌≡◌, Ok, IfOk};
ghost use Rattle.pulsar_searches.specs.Plans as meaning;
ghost use Rattle.pulsar_searches.specs.declared.transition.Transition.TheVariants.{Gives};

use crate::count::{self, Counting};
use crate::look::{self, Looking};
use crate::making::{self, Command, Making, Served};
use crate::names::{self, Naming};
use crate::retry::{self, Retrying};
use crate::transition::Transition;
use crate::turn::{SearchOutcome, SearchTransition, Ways};
use pulsar_addresses::content::{Address, Cause, Names, Refusal, Text};
use pulsar_wire::error::NoMemory;
use std::alloc::Global;

/// What is to be done.
#[derive(Drop)]
pub enum Sought {
    /// Find how many partitions a topic has.
    CountPartitions(Text),
    /// Find the broker of a topic.
    Look(Text),
    /// Find the names of a topic with their brokers.
    Name(Text),
    /// Wait and find the broker of a topic again, after a command on it failed so, behind so many retries.
    Retry {
        topic: Text,
        retries: u32,
        cause: Cause,
    },
    /// Ask a command at an address until it succeeds.
    Make {
        command: Command,
        address: Address,
    },
}

/// What a plan finds.
#[derive(Drop)]
pub enum Answer {
    Address(Address),
    Count(u32),
    Addresses(Names),
    Reply(Served),
}

/// Where a plan stands.
#[derive(Drop)]
pub enum SearchPlan {
    Counting { topic: Text, counting: Counting },
    Looking { topic: Text, looking: Looking },
    Naming { topic: Text, naming: Naming },
    Retrying { topic: Text, retrying: Retrying },
    Making { command: Command, making: Making },
}

/// Where a procedure begins.
pub fn begins(
    alloc: Global,
    ways: &Ways,
    procedure: Sought,
) -> Result<SearchTransition<SearchPlan, Result<Answer, Refusal>>, NoMemory>
    ensures { IfOk result (λ turn. turn ≡ meaning.begins ways.now procedure) }
{
    match procedure {
        Sought::CountPartitions(topic) => {
            let turn = count::begins(alloc, ways, &topic)?;
            Ok(after_count(topic, turn))
        }
        Sought::Look(topic) => {
            let turn = look::begins(alloc, ways)?;
            Ok(after_look(topic, turn))
        }
        Sought::Name(topic) => {
            let turn = names::begins(alloc, ways, &topic)?;
            Ok(after_names(topic, turn))
        }
        Sought::Retry {
            topic,
            retries,
            cause,
        } => {
            let turn = retry::begins(alloc, ways, retries, cause.into_inner())?;
            Ok(after_retry(topic, turn))
        }
        Sought::Make { command, address } => Ok(after_making(command, making::gets(0, address))),
    }
}

/// What an outcome makes of a plan.
pub fn told(
    alloc: Global,
    ways: &Ways,
    plan: SearchPlan,
    outcome: SearchOutcome,
) -> Result<SearchTransition<SearchPlan, Result<Answer, Refusal>>, NoMemory>
    ensures { IfOk result (λ turn. turn ≡ meaning.told ways.now plan outcome) }
{
    match plan {
        SearchPlan::Counting { topic, counting } => {
            let turn = count::told(alloc, ways, &topic, counting, outcome)?;
            Ok(after_count(topic, turn))
        }
        SearchPlan::Looking { topic, looking } => {
            let turn = look::told(alloc, ways, &topic, looking, outcome)?;
            Ok(after_look(topic, turn))
        }
        SearchPlan::Naming { topic, naming } => {
            let turn = names::told(alloc, ways, &topic, naming, outcome)?;
            Ok(after_names(topic, turn))
        }
        SearchPlan::Retrying { topic, retrying } => {
            let turn = retry::told(alloc, ways, &topic, retrying, outcome)?;
            Ok(after_retry(topic, turn))
        }
        SearchPlan::Making { command, making } => {
            let turn = making::told(alloc, ways, &command, making, outcome)?;
            Ok(after_making(command, turn))
        }
    }
}

fn after_count(
    topic: Text,
    turn: SearchTransition<Counting, Result<u32, Refusal>>,
) -> SearchTransition<SearchPlan, Result<Answer, Refusal>>
    ensures { result ≡ meaning.and_then turn (SearchPlan.Counting topic) (λ n. Gives (Ok (Answer.Count n))) }
{
    match turn {
        Transition::Stays(counting, action) => Transition::Stays(
            SearchPlan::Counting { topic, counting },
            action,
        ),
        Transition::Gives(Ok(count)) => Transition::Gives(Ok(Answer::Count(count))),
        Transition::Gives(Err(refusal)) => Transition::Gives(Err(refusal)),
    }
}

fn after_look(
    topic: Text,
    turn: SearchTransition<Looking, Result<Address, Refusal>>,
) -> SearchTransition<SearchPlan, Result<Answer, Refusal>>
    ensures { result ≡ meaning.and_then turn (SearchPlan.Looking topic) (λ place. Gives (Ok (Answer.Address place))) }
{
    match turn {
        Transition::Stays(looking, action) => Transition::Stays(
            SearchPlan::Looking { topic, looking },
            action,
        ),
        Transition::Gives(Ok(address)) => Transition::Gives(Ok(Answer::Address(address))),
        Transition::Gives(Err(refusal)) => Transition::Gives(Err(refusal)),
    }
}

fn after_names(
    topic: Text,
    turn: SearchTransition<Naming, Result<Names, Refusal>>,
) -> SearchTransition<SearchPlan, Result<Answer, Refusal>>
    ensures { result ≡ meaning.and_then turn (SearchPlan.Naming topic) (λ names. Gives (Ok (Answer.Addresses names))) }
{
    match turn {
        Transition::Stays(naming, action) => Transition::Stays(
            SearchPlan::Naming { topic, naming },
            action,
        ),
        Transition::Gives(Ok(names)) => Transition::Gives(Ok(Answer::Addresses(names))),
        Transition::Gives(Err(refusal)) => Transition::Gives(Err(refusal)),
    }
}

fn after_retry(
    topic: Text,
    turn: SearchTransition<Retrying, Result<Address, Refusal>>,
) -> SearchTransition<SearchPlan, Result<Answer, Refusal>>
    ensures { result ≡ meaning.and_then turn (SearchPlan.Retrying topic) (λ place. Gives (Ok (Answer.Address place))) }
{
    match turn {
        Transition::Stays(retrying, action) => Transition::Stays(
            SearchPlan::Retrying { topic, retrying },
            action,
        ),
        Transition::Gives(Ok(address)) => Transition::Gives(Ok(Answer::Address(address))),
        Transition::Gives(Err(refusal)) => Transition::Gives(Err(refusal)),
    }
}

fn after_making(
    command: Command,
    turn: SearchTransition<Making, Result<Served, Refusal>>,
) -> SearchTransition<SearchPlan, Result<Answer, Refusal>>
    ensures { result ≡ meaning.and_then turn (SearchPlan.Making command) (λ s. Gives (Ok (Answer.Reply s))) }
{
    match turn {
        Transition::Stays(making, action) => Transition::Stays(
            SearchPlan::Making { command, making },
            action,
        ),
        Transition::Gives(Ok(served)) => Transition::Gives(Ok(Answer::Reply(served))),
        Transition::Gives(Err(refusal)) => Transition::Gives(Err(refusal)),
    }
}
