//! Messages that are stored until they are sent in a batch, and the batches of a topic producer as a plan of its own.

ghost use Rattle.std.specs.Prelude.{◌≡◌, IfOk, Ok, map};
ghost use Rattle.pulsar_producer.specs.Batching as meaning;
ghost use Rattle.pulsar_plans.specs.Plan.{batches_on, in_stored, in_storing, news_of, settled, told_batch, told_of, told_to};
ghost use Rattle.pulsar_plans.specs.Plan as plan;
ghost use Rattle.pulsar_wire.specs.Failures.{OfConnection, fault};

use crate::plan::{Plan, PlanTransition, error_of, fails, left, overrides};
use crate::producing::{action_of, news_of};
use crate::sends::{parted, tell};
use crate::states::BatchState;
use pulsar_addresses::content::Refusal;
use pulsar_calls::act::{Action, Makes, Notice, Outcome, Share, Verdict, Who};
use pulsar_calls::content::{Granted, Notices, Said};
use pulsar_calls::effect::Answer;
use pulsar_outgoing::batch::{Fate, Receipt, Report};
use pulsar_outgoing::content::Reports;
use pulsar_outgoing::orders::Errand;
use pulsar_producer::batching::{self, Goes};
use pulsar_producer::deed::{News, error_told};
use pulsar_searches::transition::Transition;
use pulsar_searches::turn::Ways;
use pulsar_wire::error::NoMemory;
use std::alloc::Global;

/// A message was stored.
pub fn stores(
    alloc: Global,
    share: Option<Share>,
    outcome: Outcome,
) -> Result<PlanTransition, NoMemory>
    ensures { IfOk result (λ turn. turn ≡ in_storing share outcome) }
{
    match outcome {
        Outcome::Granted(granted) => is_stored(alloc, share, granted.into_inner()),
        outcome => fails(alloc, error_of(outcome)),
    }
}

fn is_stored(alloc: Global, share: Option<Share>, news: News) -> Result<PlanTransition, NoMemory>
    ensures { IfOk result (λ turn. turn ≡ in_storing share (Outcome.Granted news)) }
{
    match news {
        News::Done => Ok(waits(share)),
        news => fails(alloc, error_told(news)),
    }
}

/// It waits for what becomes of its batch. The call that it is a part of is told at once.
fn waits(share: Option<Share>) -> PlanTransition
    ensures { result ≡ plan.stored share }
{
    match share {
        Some(share) => Transition::Stays(Plan::Stored, tell(share, parted(share, None))),
        None => Transition::Stays(Plan::Stored, Action::Rest),
    }
}

/// What an outcome makes of a message that is stored.
pub fn stored(alloc: Global, outcome: Outcome) -> Result<PlanTransition, NoMemory>
    ensures { IfOk result (λ turn. turn ≡ in_stored outcome) }
{
    match outcome {
        Outcome::Settled(fate) => is_settled(alloc, fate),
        Outcome::Granted(granted) => is_told(alloc, granted.into_inner()),
        outcome => fails(alloc, error_of(outcome)),
    }
}

/// The call that it is a part of was told.
fn is_told(alloc: Global, news: News) -> Result<PlanTransition, NoMemory>
    ensures { IfOk result (λ turn. turn ≡ in_stored (Outcome.Granted news)) }
{
    match news {
        News::Done => Ok(Transition::Stays(Plan::Stored, Action::Rest)),
        news => fails(alloc, error_told(news)),
    }
}

fn is_settled(alloc: Global, fate: Result<Receipt, Refusal>) -> Result<PlanTransition, NoMemory>
    ensures { IfOk result (λ turn. turn ≡ settled fate) }
{
    match fate {
        Ok(receipt) => {
            let answer = Answer::Receipt(receipt.into_inner());
            Ok(Transition::Gives(Verdict {
                makes: Makes::Nothing,
                said: Said::new(alloc, Ok(answer))?,
            }))
        }
        Err(refusal) => left(alloc, refusal),
    }
}

/// The plan of a topic producer that sends batches begins.
pub fn begins(alloc: Global, ways: Ways, errand: Errand) -> Result<PlanTransition, NoMemory>
    ensures { IfOk result (λ turn. turn ≡ batches_on ways errand meaning.begins) }
{
    goes(alloc, ways, errand, batching::begins())
}

/// What an outcome makes of it. The stop of the client overrides it.
pub fn told(
    alloc: Global,
    ways: Ways,
    errand: Errand,
    batching: BatchState,
    outcome: Outcome,
) -> Result<PlanTransition, NoMemory>
    ensures { IfOk result (λ turn. turn ≡ told_batch ways errand batching outcome) }
{
    if overrides(&outcome) {
        drop(outcome);
        halts(alloc, ways, errand, batching)
    } else {
        tells(alloc, ways, errand, batching, outcome)
    }
}

fn halts(
    alloc: Global,
    ways: Ways,
    errand: Errand,
    batching: BatchState,
) -> Result<PlanTransition, NoMemory>
    ensures { IfOk result (λ turn. turn ≡ batches_on ways errand (meaning.halted batching)) }
{
    let step = batching::halted(alloc, batching.into_inner())?;
    goes(alloc, ways, errand, step)
}

fn tells(
    alloc: Global,
    ways: Ways,
    errand: Errand,
    batching: BatchState,
    outcome: Outcome,
) -> Result<PlanTransition, NoMemory>
    ensures { IfOk result (λ turn. turn ≡ batches_on ways errand (meaning.told ways errand batching (news_of outcome))) }
{
    let news = news_of(alloc, outcome)?;
    let step = batching::told(alloc, &ways, errand, batching.into_inner(), news)?;
    goes(alloc, ways, errand, step)
}

/// It goes on so.
fn goes(alloc: Global, ways: Ways, errand: Errand, step: Goes) -> Result<PlanTransition, NoMemory>
    ensures { IfOk result (λ turn. turn ≡ batches_on ways errand step) }
{
    let Goes { state, deed } = step;
    let batching = BatchState::new(alloc, state)?;
    let action = action_of(alloc, deed)?;
    Ok(Transition::Stays(
        Plan::Batching {
            ways,
            errand,
            batching,
        },
        action,
    ))
}

/// Those of a batch are told what became of it.
pub fn tells_all(alloc: Global, mut reports: Reports) -> Result<Action, NoMemory>
    ensures { IfOk result (λ a. a ≡ Action.TellAll (map told_to reports)) }
{
    let mut notices = Notices::new(alloc);
    while let Some(report) = reports.next() {
        notices = notices.with(notice_of(alloc, report)?)?;
    }
    Ok(Action::TellAll(notices))
}

fn notice_of(alloc: Global, report: Report) -> Result<Notice, NoMemory>
    ensures { IfOk result (λ n. n ≡ told_to report) }
{
    let Report { ticket, fate } = report;
    Ok(Notice {
        who: Who::Call(ticket),
        outcome: outcome_of(alloc, fate)?,
    })
}

fn outcome_of(alloc: Global, fate: Fate) -> Result<Outcome, NoMemory>
    ensures { IfOk result (λ o. o ≡ told_of fate) }
{
    match fate {
        Fate::Receipt(receipt) => Ok(Outcome::Settled(Ok(receipt))),
        Fate::Failed(refusal) => Ok(Outcome::Settled(Err(refusal))),
        Fate::Halted => Ok(Outcome::Stopped),
        Fate::Flushed => Ok(Outcome::Granted(Granted::new(alloc, News::Done)?)),
    }
}
