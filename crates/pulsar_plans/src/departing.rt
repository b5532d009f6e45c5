//! Calls on a consumer: its acknowledgements, and its close.

ghost use Rattle.std.specs.Prelude.{◌≡◌, IfOk};
ghost use Rattle.pulsar_messages.specs.Words.{CloseConsumer};
ghost use Rattle.pulsar_wire.specs.Failures.{ConsumerClosed, OfConsumer};
ghost use Rattle.pulsar_plans.specs.Plan.{acknowledges, departs, fails_with, in_departing};

use crate::plan::{Plan, PlanTransition, asks, error_of, fails, left};
use crate::serving::over;
use pulsar_addresses::content::Refusal;
use pulsar_calls::act::{Action, ConsumerAsk, Outcome, Says, Verdict, Word};
use pulsar_exchange::content::Request;
use pulsar_exchange::raw_call::RawCall;
use pulsar_searches::transition::Transition;
use pulsar_wire::error::{ConsumerError, Error, NoMemory};
use std::alloc::Global;

/// An acknowledgement is asked for where a subscription is live.
pub fn acknowledges(
    alloc: Global,
    link: Option<u64>,
    request: Request,
) -> Result<PlanTransition, NoMemory>
    ensures { IfOk result (λ turn. turn ≡ acknowledges link request) }
{
    match link {
        Some(link) => Ok(Transition::Stays(Plan::Acknowledging, Action::Ask { link, request })),
        None => over(alloc),
    }
}

/// The link of the consumer is found.
pub fn begins(consumer: u64, number: u64) -> PlanTransition
    ensures { result ≡ departs consumer number }
{
    Transition::Stays(
        Plan::Departing { consumer, number },
        Action::OfConsumer(ConsumerAsk::Find(consumer)),
    )
}

/// Its close is asked for there. One that has ended is closed.
pub fn told(
    alloc: Global,
    consumer: u64,
    number: u64,
    outcome: Outcome,
) -> Result<PlanTransition, NoMemory>
    ensures { IfOk result (λ turn. turn ≡ in_departing consumer number outcome) }
{
    match outcome {
        Outcome::GotLink(link) => asks(alloc, link, closes(alloc, number)?, Says::Nothing),
        Outcome::Word(Word::Again) => Ok(begins(consumer, number)),
        Outcome::Word(Word::Closed) => is_closed(alloc),
        outcome => fails(alloc, error_of(outcome)),
    }
}

/// The close of a consumer, as it is asked of a link.
fn closes(alloc: Global, number: u64) -> Result<Request, NoMemory>
    ensures { IfOk result (λ r. r ≡ CloseConsumer number) }
{
    Request::new(
        alloc,
        RawCall::CloseConsumer {
            consumer_id: number,
        },
    )
}

fn is_closed(alloc: Global) -> Result<PlanTransition, NoMemory>
    ensures { IfOk result (λ turn. turn ≡ fails_with (OfConsumer ConsumerClosed)) }
{
    let error = Error::Consumer(ConsumerError::Closed);
    left(alloc, Refusal::new(alloc, error)?)
}
