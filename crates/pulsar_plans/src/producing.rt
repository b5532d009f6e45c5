//! The building of producers as plans of calls, and what plans of producers do and are told.

ghost use Rattle.std.specs.Prelude.{◌≡◌, IfOk};
ghost use Rattle.pulsar_messages.specs.Words.{CloseProducer, Send as Sends};
ghost use Rattle.pulsar_producer.specs.Plans as meaning;
ghost use Rattle.pulsar_calls.specs.Content.{Done};
ghost use Rattle.pulsar_plans.specs.Plan.{action_of, built_of, builds, news_of, told, verdict};
ghost use Rattle.pulsar_plans.specs.declared.plan.Plan.TheVariants.{Producing};

use crate::batches::tells_all;
use crate::plan::{Plan, PlanTransition, error_of, fails, left, of_topic, overrides};
use crate::search::{news_in, wished};
use crate::states::BuildState;
use pulsar_calls::act::{Action, Makes, Outcome, TopicAsk, Verdict};
use pulsar_calls::content::{BuiltProducer as Built, Made, Remade, Remaking, Said};
use pulsar_calls::effect::Answer;
use pulsar_exchange::content::Request;
use pulsar_exchange::raw_call::RawCall;
use pulsar_outgoing::content::Parts;
use pulsar_outgoing::orders::ProducerOrder;
use pulsar_producer::building::{self, BuildingProducer, Builds};
use pulsar_producer::deed::{Deed, News, Send};
use pulsar_searches::transition::Transition;
use pulsar_searches::turn::Ways;
use pulsar_wire::error::NoMemory;
use std::alloc::Global;

/// A building begins.
pub fn begins(alloc: Global, ways: Ways, order: ProducerOrder) -> Result<PlanTransition, NoMemory>
    ensures { IfOk result (λ turn. turn ≡ builds ways order (meaning.build_begins ways order)) }
{
    let step = building::begins(alloc, &ways, &order)?;
    goes(alloc, ways, order, step)
}

/// What an outcome makes of a building. The stop of the client overrides it.
pub fn told(
    alloc: Global,
    ways: Ways,
    order: ProducerOrder,
    building: BuildState,
    outcome: Outcome,
) -> Result<PlanTransition, NoMemory>
    ensures { IfOk result (λ turn. turn ≡ told (Producing ways order building) outcome) }
{
    if overrides(&outcome) {
        fails(alloc, error_of(outcome))
    } else {
        tells(alloc, ways, order, building, outcome)
    }
}

/// A building is told an outcome.
fn tells(
    alloc: Global,
    ways: Ways,
    order: ProducerOrder,
    building: BuildState,
    outcome: Outcome,
) -> Result<PlanTransition, NoMemory>
    ensures { IfOk result (λ turn. turn ≡ builds ways order (meaning.build_told ways order building (news_of outcome))) }
{
    let news = news_of(alloc, outcome)?;
    let step = building::told(alloc, &ways, &order, building.into_inner(), news)?;
    goes(alloc, ways, order, step)
}

/// A building goes on, or it ends with a producer.
fn goes(
    alloc: Global,
    ways: Ways,
    order: ProducerOrder,
    step: Builds,
) -> Result<PlanTransition, NoMemory>
    ensures { IfOk result (λ turn. turn ≡ builds ways order step) }
{
    match step {
        Transition::Stays(building, deed) => stays(alloc, ways, order, building, deed),
        Transition::Gives(Ok(parts)) => made(alloc, order, parts),
        Transition::Gives(Err(refusal)) => left(alloc, refusal),
    }
}

/// A building stands there, and does this.
fn stays(
    alloc: Global,
    ways: Ways,
    order: ProducerOrder,
    building: BuildingProducer,
    deed: Deed,
) -> Result<PlanTransition, NoMemory>
    ensures { IfOk result (λ turn. turn ≡ builds ways order (Transition.Stays building deed)) }
{
    let building = BuildState::new(alloc, building)?;
    let action = action_of(alloc, deed)?;
    Ok(Transition::Stays(
        Plan::Producing {
            ways,
            order,
            building,
        },
        action,
    ))
}

/// A producer was built.
fn made(alloc: Global, order: ProducerOrder, parts: Parts) -> Result<PlanTransition, NoMemory>
    ensures { IfOk result (λ turn. turn ≡ Transition.Gives (verdict (built_of order parts) Done)) }
{
    let ProducerOrder {
        topic,
        name: _,
        options,
    } = order;
    let made = Made::new(
        alloc,
        Built {
            topic,
            settings: options,
            parts,
        },
    )?;
    let said = Said::new(alloc, Ok(Answer::Done))?;
    Ok(Transition::Gives(Verdict {
        makes: Makes::Producer(made),
        said,
    }))
}

/// What a plan of producers does, as the client does it.
pub fn action_of(alloc: Global, deed: Deed) -> Result<Action, NoMemory>
    ensures { IfOk result (λ a. a ≡ action_of deed) }
{
    match deed {
        Deed::Does(wish) => wished(alloc, wish),
        Deed::TakesTurn(number) => Ok(of_topic(number, TopicAsk::TakeTurn)),
        Deed::Draws(number) => Ok(of_topic(number, TopicAsk::Draw)),
        Deed::Sends { link, send } => Ok(Action::Ask {
            link,
            request: request_of(alloc, send)?,
        }),
        Deed::PassesTurn(number) => Ok(of_topic(number, TopicAsk::PassTurn)),
        Deed::Recalls(number) => Ok(of_topic(number, TopicAsk::Recall)),
        Deed::Remakes {
            number,
            link,
            given,
        } => {
            let remade = Remade::new(alloc, Remaking { link, given })?;
            Ok(of_topic(number, TopicAsk::Remake(remade)))
        }
        Deed::Numbers => Ok(Action::Number),
        Deed::Holds { link, number } => Ok(Action::Hold { link, number }),
        Deed::ClosesProducer { link, number } => Ok(Action::Ask {
            link,
            request: closes(alloc, number)?,
        }),
        Deed::TakesBatch(number) => Ok(of_topic(number, TopicAsk::TakeBatch)),
        Deed::Settles(reports) => tells_all(alloc, reports),
        Deed::Rests => Ok(Action::Rest),
    }
}

/// A message, as it is asked of a link.
fn request_of(alloc: Global, send: Send) -> Result<Request, NoMemory>
    ensures { IfOk result (λ r. r ≡ Sends send.producer send.name send.sequence send.message send.block) }
{
    Request::new(
        alloc,
        RawCall::Send {
            producer_id: send.producer,
            name: send.name.into_inner(),
            sequence_id: send.sequence,
            message: send.message.into_inner(),
            block: send.block,
        },
    )
}

/// The close of a topic producer, as it is asked of a link.
pub fn closes(alloc: Global, number: u64) -> Result<Request, NoMemory>
    ensures { IfOk result (λ r. r ≡ CloseProducer number) }
{
    Request::new(
        alloc,
        RawCall::CloseProducer {
            producer_id: number,
        },
    )
}

/// What a plan of producers is told.
pub fn news_of(alloc: Global, outcome: Outcome) -> Result<News, NoMemory>
    ensures { IfOk result (λ n. n ≡ news_of outcome) }
{
    match outcome {
        Outcome::Queued => Ok(News::Queued),
        Outcome::InLine => Ok(News::InLine),
        Outcome::Granted(granted) => Ok(granted.into_inner()),
        outcome => Ok(News::Told(news_in(alloc, outcome)?)),
    }
}
