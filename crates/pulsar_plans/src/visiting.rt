//! Calls that ask each topic producer of a producer, one after the other, each in its turn.

ghost use Rattle.std.specs.Prelude.{◌≡◌, IfOk};
ghost use Rattle.pulsar_wire.specs.Failures.{fault};
ghost use Rattle.pulsar_exchange.specs.Request.{request_number};
ghost use Rattle.pulsar_plans.specs.Plan.{asks_of, failure_in, fails_in, goes_round, in_asking, in_awaiting, in_finding, in_passing, in_settling, in_turning, is_settled, quits, stays_at, told, told_at, visits};
ghost use Rattle.pulsar_plans.specs.declared.plan.Plan.TheVariants.{Shutting, Visiting};

use crate::answers;
use crate::plan::{At, Plan, PlanTransition, done, error_of, fails, left, of_topic, overrides};
use crate::producing::closes;
use pulsar_addresses::content::Refusal;
use pulsar_calls::act::{Action, Makes, Outcome, Round, TopicAsk, Verdict};
use pulsar_exchange::content::{Received, Request};
use pulsar_exchange::raw_call::RawCall;
use pulsar_outgoing::content::Numbers;
use pulsar_outgoing::failing::in_producer;
use pulsar_producer::deed::{News, error_told};
use pulsar_searches::transition::Transition;
use pulsar_wire::bodies;
use pulsar_wire::error::{ConnectionError, NoMemory};
use std::alloc::Global;

/// The next of those that are left.
pub fn next(alloc: Global, round: Round, mut left: Numbers) -> Result<PlanTransition, NoMemory>
    ensures { IfOk result (λ turn. turn ≡ goes_round round left) }
{
    match left.next() {
        Some(number) => Ok(visits(round, number, left)),
        None => done(alloc, Makes::Nothing),
    }
}

/// What a topic producer stores is settled before it is closed, and before its flush is done.
fn visits(round: Round, number: u64, left: Numbers) -> PlanTransition
    ensures { result ≡ visits round number left }
{
    match round {
        Round::Checks => asks_it(round, number, left, At::Turning, TopicAsk::TakeTurn),
        Round::Flushes | Round::Closes => {
            asks_it(round, number, left, At::Settling, TopicAsk::Flush)
        }
    }
}

/// It asks this of the topic producer.
fn asks_it(round: Round, number: u64, left: Numbers, at: At, ask: TopicAsk) -> PlanTransition
    ensures { result ≡ stays_at round number left at (Action.OfTopic number ask) }
{
    stays(round, number, left, at, of_topic(number, ask))
}

/// The producer takes no sends any more.
pub fn shut(alloc: Global, numbers: Numbers, outcome: Outcome) -> Result<PlanTransition, NoMemory>
    ensures { IfOk result (λ turn. turn ≡ told (Shutting numbers) outcome) }
{
    match outcome {
        Outcome::Granted(granted) => is_shut(alloc, numbers, granted.into_inner()),
        outcome => fails(alloc, error_of(outcome)),
    }
}

fn is_shut(alloc: Global, numbers: Numbers, news: News) -> Result<PlanTransition, NoMemory>
    ensures { IfOk result (λ turn. turn ≡ told (Shutting numbers) (Outcome.Granted news)) }
{
    match news {
        News::Done => next(alloc, Round::Closes, numbers),
        news => fails(alloc, error_told(news)),
    }
}

/// What an outcome makes of a visit. The stop of the client overrides it.
pub fn told(
    alloc: Global,
    round: Round,
    number: u64,
    left: Numbers,
    at: At,
    outcome: Outcome,
) -> Result<PlanTransition, NoMemory>
    ensures { IfOk result (λ turn. turn ≡ told (Visiting round number left at) outcome) }
{
    if overrides(&outcome) {
        fails(alloc, error_of(outcome))
    } else {
        goes_on(alloc, round, number, left, at, outcome)
    }
}

fn goes_on(
    alloc: Global,
    round: Round,
    number: u64,
    left: Numbers,
    at: At,
    outcome: Outcome,
) -> Result<PlanTransition, NoMemory>
    ensures { IfOk result (λ turn. turn ≡ told_at round number left at outcome) }
{
    match at {
        At::Settling => in_settling(alloc, round, number, left, outcome),
        At::Turning => in_turning(alloc, round, number, left, outcome),
        At::Finding => in_finding(alloc, round, number, left, outcome),
        At::Asking => in_asking(alloc, round, number, left, outcome),
        At::Passing => in_passing(alloc, round, number, left, outcome),
        At::Awaiting => in_awaiting(alloc, round, number, left, outcome),
    }
}

/// All that was stored is settled.
fn in_settling(
    alloc: Global,
    round: Round,
    number: u64,
    left: Numbers,
    outcome: Outcome,
) -> Result<PlanTransition, NoMemory>
    ensures { IfOk result (λ turn. turn ≡ in_settling round number left outcome) }
{
    match outcome {
        Outcome::Granted(granted) => settled(alloc, round, number, left, granted.into_inner()),
        outcome => failed(alloc, round, error_of(outcome)),
    }
}

fn settled(
    alloc: Global,
    round: Round,
    number: u64,
    left: Numbers,
    news: News,
) -> Result<PlanTransition, NoMemory>
    ensures { IfOk result (λ turn. turn ≡ in_settling round number left (Outcome.Granted news)) }
{
    match news {
        News::Done => is_settled(alloc, round, number, left),
        news => failed(alloc, round, error_told(news)),
    }
}

fn is_settled(
    alloc: Global,
    round: Round,
    number: u64,
    left: Numbers,
) -> Result<PlanTransition, NoMemory>
    ensures { IfOk result (λ turn. turn ≡ is_settled round number left) }
{
    match round {
        Round::Flushes => next(alloc, round, left),
        Round::Checks | Round::Closes => {
            Ok(asks_it(round, number, left, At::Turning, TopicAsk::TakeTurn))
        }
    }
}

/// It has its turn.
fn in_turning(
    alloc: Global,
    round: Round,
    number: u64,
    left: Numbers,
    outcome: Outcome,
) -> Result<PlanTransition, NoMemory>
    ensures { IfOk result (λ turn. turn ≡ in_turning round number left outcome) }
{
    match outcome {
        Outcome::Granted(granted) => turned(alloc, round, number, left, granted.into_inner()),
        outcome => failed(alloc, round, error_of(outcome)),
    }
}

fn turned(
    alloc: Global,
    round: Round,
    number: u64,
    left: Numbers,
    news: News,
) -> Result<PlanTransition, NoMemory>
    ensures { IfOk result (λ turn. turn ≡ in_turning round number left (Outcome.Granted news)) }
{
    match news {
        News::HasTurn(_) => Ok(asks_it(round, number, left, At::Finding, TopicAsk::Find)),
        news => failed(alloc, round, error_told(news)),
    }
}

/// Its turn is over: the reply is waited for.
fn in_passing(
    alloc: Global,
    round: Round,
    number: u64,
    left: Numbers,
    outcome: Outcome,
) -> Result<PlanTransition, NoMemory>
    ensures { IfOk result (λ turn. turn ≡ in_passing round number left outcome) }
{
    match outcome {
        Outcome::Granted(granted) => passed(alloc, round, number, left, granted.into_inner()),
        outcome => failed(alloc, round, error_of(outcome)),
    }
}

fn passed(
    alloc: Global,
    round: Round,
    number: u64,
    left: Numbers,
    news: News,
) -> Result<PlanTransition, NoMemory>
    ensures { IfOk result (λ turn. turn ≡ in_passing round number left (Outcome.Granted news)) }
{
    match news {
        News::Done => Ok(stays(round, number, left, At::Awaiting, Action::Rest)),
        news => failed(alloc, round, error_told(news)),
    }
}

/// Its link is known: it is asked there.
fn in_finding(
    alloc: Global,
    round: Round,
    number: u64,
    left: Numbers,
    outcome: Outcome,
) -> Result<PlanTransition, NoMemory>
    ensures { IfOk result (λ turn. turn ≡ in_finding round number left outcome) }
{
    match outcome {
        Outcome::GotLink(link) => {
            let request = asks(alloc, round, number)?;
            let action = Action::Ask { link, request };
            Ok(stays(round, number, left, At::Asking, action))
        }
        outcome => quits(alloc, round, number, error_of(outcome)),
    }
}

/// Once its frame is queued, or stands in the line, the turn is over.
fn in_asking(
    alloc: Global,
    round: Round,
    number: u64,
    left: Numbers,
    outcome: Outcome,
) -> Result<PlanTransition, NoMemory>
    ensures { IfOk result (λ turn. turn ≡ in_asking round number left outcome) }
{
    match outcome {
        Outcome::Queued | Outcome::InLine => {
            Ok(asks_it(round, number, left, At::Passing, TopicAsk::PassTurn))
        }
        outcome => quits(alloc, round, number, error_of(outcome)),
    }
}

/// Once its reply has come, the next one is visited.
fn in_awaiting(
    alloc: Global,
    round: Round,
    number: u64,
    left: Numbers,
    outcome: Outcome,
) -> Result<PlanTransition, NoMemory>
    ensures { IfOk result (λ turn. turn ≡ in_awaiting round number left outcome) }
{
    match outcome {
        Outcome::Replied(reply) => replied(alloc, round, left, reply),
        Outcome::Queued => Ok(stays(round, number, left, At::Awaiting, Action::Rest)),
        outcome => failed(alloc, round, error_of(outcome)),
    }
}

fn replied(
    alloc: Global,
    round: Round,
    left: Numbers,
    reply: Received,
) -> Result<PlanTransition, NoMemory>
    ensures { IfOk result (λ turn. (n : _) → turn ≡ in_awaiting round n left (Outcome.Replied reply)) }
{
    if answers::is_answer(body_of(round), &reply) {
        return next(alloc, round, left);
    }
    let error = reply.refusal(alloc)?;
    failed(alloc, round, error)
}

/// The turn is over, and then it fails.
fn quits(
    alloc: Global,
    round: Round,
    number: u64,
    error: ConnectionError,
) -> Result<PlanTransition, NoMemory>
    ensures { IfOk result (λ turn. turn ≡ quits round number (fault error)) }
{
    let refusal = refusal_of(alloc, round, error)?;
    Ok(Transition::Stays(Plan::Leaving(refusal), of_topic(number, TopicAsk::PassTurn)))
}

fn failed(alloc: Global, round: Round, error: ConnectionError) -> Result<PlanTransition, NoMemory>
    ensures { IfOk result (λ turn. turn ≡ fails_in round (fault error)) }
{
    left(alloc, refusal_of(alloc, round, error)?)
}

/// Why a round fails: that of closes as a producer.
fn refusal_of(alloc: Global, round: Round, error: ConnectionError) -> Result<Refusal, NoMemory>
    ensures { IfOk result (λ r. r ≡ failure_in round (fault error)) }
{
    match round {
        Round::Checks | Round::Flushes => Refusal::in_connection(alloc, error),
        Round::Closes => in_producer(alloc, error),
    }
}

/// What is asked of a topic producer.
fn asks(alloc: Global, round: Round, number: u64) -> Result<Request, NoMemory>
    ensures { IfOk result (λ r. r ≡ asks_of round number) }
{
    match round {
        Round::Checks | Round::Flushes => Request::new(alloc, RawCall::SendPing),
        Round::Closes => closes(alloc, number),
    }
}

/// The number of its body.
fn body_of(round: Round) -> u32
    ensures { (n : _) → result ≡ request_number (asks_of round n) }
{
    match round {
        Round::Checks | Round::Flushes => bodies::PING,
        Round::Closes => bodies::CLOSE_PRODUCER,
    }
}

fn stays(round: Round, number: u64, left: Numbers, at: At, action: Action) -> PlanTransition
    ensures { result ≡ stays_at round number left at action }
{
    Transition::Stays(
        Plan::Visiting {
            round,
            number,
            left,
            at,
        },
        action,
    )
}
