//! A retry of a command: a wait, and then the search for its broker.

ghost use Rattle.std.specs.Prelude.{◌≡◌, IfOk};
ghost use Rattle.pulsar_wire.specs.Failures.{OfConnection, fault};
ghost use Rattle.pulsar_searches.specs.Plans as meaning;
ghost use Rattle.pulsar_searches.specs.declared.transition.Transition.TheVariants.{Gives};

use crate::look::{self, Looking};
use crate::transition::Transition;
use crate::turn::{Action, SearchOutcome, SearchTransition, Ways, error_of};
use pulsar_addresses::content::{Address, Refusal, Text};
use pulsar_addresses::options::allow_retry;
use pulsar_wire::commands::enumerations::ServerError;
use pulsar_wire::error::{ConnectionError, IoKind, NoMemory};
use std::alloc::Global;

/// Where the retry stands.
#[derive(Drop)]
pub enum Retrying {
    /// It waits for its moment.
    Resting,
    /// It looks for the broker.
    Looking(Looking),
}

/// A command that failed so may be asked again.
fn is_retryable(error: &ConnectionError) -> bool
    ensures { result ≡ meaning.is_retryable (fault error.now) }
{
    match error {
        ConnectionError::Io(kind) => matches!(kind, IoKind::TimedOut),
        ConnectionError::PulsarError(error, _) => is_passing(*error),
        _ => false,
    }
}

fn is_passing(error: Option<ServerError>) -> bool
    ensures { result ≡ meaning.is_passing error }
{
    matches!(
        error,
        Some(
            ServerError::ConsumerBusy
                | ServerError::ServiceNotReady
                | ServerError::ProducerBlockedQuotaExceededError
                | ServerError::ProducerBlockedQuotaExceededException
                | ServerError::ProducerBusy
        )
    )
}

/// Where it begins, after a command failed so.
pub fn begins(
    alloc: Global,
    ways: &Ways,
    retries: u32,
    error: ConnectionError,
) -> Result<SearchTransition<Retrying, Result<Address, Refusal>>, NoMemory>
    ensures { IfOk result (λ turn. turn ≡ meaning.retry_begins ways.now retries (fault error)) }
{
    if is_retryable(&error) && allow_retry(ways.max_retries, retries) {
        Ok(Transition::Stays(Retrying::Resting, Action::Wait(ways.retry_delay)))
    } else {
        fails(alloc, error)
    }
}

/// What an outcome makes of it.
pub fn told(
    alloc: Global,
    ways: &Ways,
    topic: &Text,
    retrying: Retrying,
    outcome: SearchOutcome,
) -> Result<SearchTransition<Retrying, Result<Address, Refusal>>, NoMemory>
    ensures { IfOk result (λ turn. turn ≡ meaning.retry_told ways.now topic.now retrying outcome) }
{
    match retrying {
        Retrying::Resting => match outcome {
            SearchOutcome::Woken => {
                let turn = look::begins(alloc, ways)?;
                Ok(after_look(turn))
            }
            outcome => fails(alloc, error_of(outcome)),
        },
        Retrying::Looking(look) => {
            let turn = look::told(alloc, ways, topic, look, outcome)?;
            Ok(after_look(turn))
        }
    }
}

fn fails(
    alloc: Global,
    error: ConnectionError,
) -> Result<SearchTransition<Retrying, Result<Address, Refusal>>, NoMemory>
    ensures { IfOk result (λ turn. turn ≡ meaning.fails (OfConnection (fault error))) }
{
    Ok(Transition::Gives(Err(Refusal::in_connection(alloc, error)?)))
}

/// The broker is looked for.
fn after_look(
    turn: SearchTransition<Looking, Result<Address, Refusal>>,
) -> SearchTransition<Retrying, Result<Address, Refusal>>
    ensures { result ≡ meaning.nested turn Retrying.Looking Gives }
{
    match turn {
        Transition::Stays(look, action) => Transition::Stays(Retrying::Looking(look), action),
        Transition::Gives(found) => Transition::Gives(found),
    }
}
