//! A subscription that was lost is made again.

ghost use Rattle.std.specs.Prelude.{◌≡◌, IfOk};
ghost use Rattle.pulsar_consumer.specs.Plans as meaning;

use pulsar_addresses::content::{Address, Refusal};
use pulsar_searches::look::{self, Looking};
use pulsar_searches::making::{self, Command, Making, Served};
use pulsar_searches::transition::Transition;
use pulsar_searches::turn::{SearchOutcome, SearchTransition, Ways};
use pulsar_wire::error::NoMemory;
use std::alloc::Global;

/// Where it stands.
#[derive(Drop)]
pub enum Resuming {
    /// It looks for the broker of the topic.
    Looking(Looking),
    /// It subscribes there.
    Making(Making),
}

/// What it gives at its end: the link of the new subscription.
pub type Resumes = SearchTransition<Resuming, Result<u64, Refusal>>;

/// Where it begins.
pub fn begins(alloc: Global, ways: &Ways) -> Result<Resumes, NoMemory>
    ensures { IfOk result (λ turn. turn ≡ meaning.resume_begins ways.now) }
{
    Ok(looks(look::begins(alloc, ways)?))
}

/// What an outcome makes of it. The consumer subscribes by this command.
pub fn told(
    alloc: Global,
    ways: &Ways,
    command: &Command,
    resuming: Resuming,
    outcome: SearchOutcome,
) -> Result<Resumes, NoMemory>
    ensures { IfOk result (λ turn. turn ≡ meaning.resume_told ways.now command.now resuming outcome) }
{
    match resuming {
        Resuming::Looking(looking) => Ok(looks(look::told(
            alloc,
            ways,
            &command.topic,
            looking,
            outcome,
        )?)),
        Resuming::Making(making) => Ok(makes(making::told(alloc, ways, command, making, outcome)?)),
    }
}

/// The broker of the topic is looked for.
fn looks(turn: SearchTransition<Looking, Result<Address, Refusal>>) -> Resumes
    ensures { result ≡ meaning.resume_looks turn }
{
    match turn {
        Transition::Stays(looking, action) => Transition::Stays(Resuming::Looking(looking), action),
        Transition::Gives(Ok(address)) => makes(making::gets(0, address)),
        Transition::Gives(Err(refusal)) => Transition::Gives(Err(refusal)),
    }
}

/// The consumer subscribes.
fn makes(turn: SearchTransition<Making, Result<Served, Refusal>>) -> Resumes
    ensures { result ≡ meaning.resume_makes turn }
{
    match turn {
        Transition::Stays(making, action) => Transition::Stays(Resuming::Making(making), action),
        Transition::Gives(Ok(served)) => Transition::Gives(Ok(served.link)),
        Transition::Gives(Err(refusal)) => Transition::Gives(Err(refusal)),
    }
}
