//! A command that is asked until it succeeds: a producer or a subscription is made.

ghost use Rattle.std.specs.Prelude.{◌≡◌, ◌+◌, Ok, Err, IfOk, MatchResult};
ghost use Rattle.pulsar_wire.specs.Failures.{OfConnection, fault};
ghost use Rattle.pulsar_addresses.specs.Backoff.{one_more};
ghost use Rattle.pulsar_searches.specs.Plans as meaning;

use crate::question::Request;
use crate::replies::why_refused;
use crate::retry::{self, Retrying};
use crate::transition::Transition;
use crate::turn::{Action, SearchOutcome, SearchTransition, Ways, error_of};
use pulsar_addresses::content::{Address, Refusal, Text};
use pulsar_frame::received::Received;
use pulsar_wire::error::{ConnectionError, NoMemory};
use std::alloc::Global;

/// A command on a topic, and the number of the body that answers it.
#[derive(Drop)]
pub struct Command {
    pub topic: Text,
    pub request: Request,
    pub answer: u32,
}

/// The link of a command, and the reply that answers it.
#[derive(Drop)]
pub struct Served {
    pub link: u64,
    pub reply: Received,
}

/// Where the command stands, after so many retries.
#[derive(Drop)]
pub enum Making {
    /// It waits for a link to its broker.
    Getting { retries: u32 },
    /// It waits for its answer.
    Asked { retries: u32, link: u64 },
    /// It waits for its retry.
    Retrying { retrying: Retrying, retries: u32 },
}

/// A link to the address is got, after so many retries.
pub fn gets(retries: u32, address: Address) -> SearchTransition<Making, Result<Served, Refusal>>
    ensures { result ≡ meaning.made_gets retries address }
{
    Transition::Stays(Making::Getting { retries }, Action::Get(address))
}

/// What an outcome makes of it.
pub fn told(
    alloc: Global,
    ways: &Ways,
    command: &Command,
    making: Making,
    outcome: SearchOutcome,
) -> Result<SearchTransition<Making, Result<Served, Refusal>>, NoMemory>
    ensures { IfOk result (λ turn. turn ≡ meaning.made_told ways.now command.now making outcome) }
{
    match making {
        Making::Getting { retries } => match outcome {
            SearchOutcome::GotLink(link) => asks(alloc, command, retries, link),
            outcome => fails(alloc, error_of(outcome)),
        },
        Making::Asked { retries, link } => match verdict(alloc, command.answer, outcome)? {
            Ok(reply) => Ok(Transition::Gives(Ok(Served { link, reply }))),
            Err(error) => {
                let turn = retry::begins(alloc, ways, retries, error)?;
                Ok(after_retry(retries, turn))
            }
        },
        Making::Retrying { retrying, retries } => {
            let turn = retry::told(alloc, ways, &command.topic, retrying, outcome)?;
            Ok(after_retry(retries, turn))
        }
    }
}

fn asks(
    alloc: Global,
    command: &Command,
    retries: u32,
    link: u64,
) -> Result<SearchTransition<Making, Result<Served, Refusal>>, NoMemory>
    ensures { IfOk result (λ turn. turn ≡ meaning.made_asks command.now retries link) }
{
    let request = command.request.copy(alloc)?;
    Ok(Transition::Stays(
        Making::Asked { retries, link },
        Action::Ask { link, request },
    ))
}

fn fails(
    alloc: Global,
    error: ConnectionError,
) -> Result<SearchTransition<Making, Result<Served, Refusal>>, NoMemory>
    ensures { IfOk result (λ turn. turn ≡ meaning.fails (OfConnection (fault error))) }
{
    Ok(Transition::Gives(Err(Refusal::in_connection(alloc, error)?)))
}

/// A retry is under way.
fn after_retry(
    retries: u32,
    turn: SearchTransition<Retrying, Result<Address, Refusal>>,
) -> SearchTransition<Making, Result<Served, Refusal>>
    ensures { result ≡ meaning.and_then turn (λ r. Making.Retrying r retries) (meaning.made_gets (one_more retries)) }
{
    match turn {
        Transition::Stays(retrying, action) => Transition::Stays(
            Making::Retrying { retrying, retries },
            action,
        ),
        Transition::Gives(Ok(address)) => gets(retries.saturating_add(1), address),
        Transition::Gives(Err(refusal)) => Transition::Gives(Err(refusal)),
    }
}

/// What an outcome says to a command that is answered by the body of this number.
pub fn verdict(
    alloc: Global,
    answer: u32,
    outcome: SearchOutcome,
) -> Result<Result<Received, ConnectionError>, NoMemory>
    ensures { IfOk result (λ v. MatchResult v (λ r. meaning.verdict answer outcome ≡ Ok r) (λ e. meaning.verdict answer outcome ≡ Err (fault e))) }
{
    match outcome {
        SearchOutcome::Replied(reply) => answered(alloc, answer, reply),
        outcome => Ok(Err(error_of(outcome))),
    }
}

fn answered(
    alloc: Global,
    answer: u32,
    reply: Received,
) -> Result<Result<Received, ConnectionError>, NoMemory>
    ensures { IfOk result (λ v. MatchResult v (λ r. meaning.answered answer reply ≡ Ok r) (λ e. meaning.answered answer reply ≡ Err (fault e))) }
{
    if reply.is(answer) {
        return Ok(Ok(reply));
    }
    Ok(Err(why_refused(alloc, &reply)?))
}
