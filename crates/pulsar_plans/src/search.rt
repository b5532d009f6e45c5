//! The searches of pulsar_searches as plans of calls: what they do, what they are told, what they find.

ghost use Rattle.std.specs.Prelude.{◌≡◌, IfOk};
ghost use Rattle.std.specs.Option.{option_to_list};
ghost use Rattle.pulsar_calls.specs.Content.{Replies};
ghost use Rattle.pulsar_searches.specs.Plans as meaning;
ghost use Rattle.pulsar_plans.specs.Plan.{found, found_so, goes, news_in, told, wished};
ghost use Rattle.pulsar_plans.specs.declared.plan.Plan.TheVariants.{Searching};

use crate::plan::{Plan, PlanTransition, error_of, failure};
use crate::states::SearchState;
use pulsar_addresses::content::{Cause, Refusal};
use pulsar_calls::act::{Action, Makes, Outcome, Verdict};
use pulsar_calls::content::Said;
use pulsar_calls::effect::Answer;
use pulsar_exchange::content::Request;
use pulsar_exchange::raw_call::RawCall;
use pulsar_frame::message::Message;
use pulsar_frame::received::Received;
use pulsar_searches::making::Served;
use pulsar_searches::plan::{self, Answer as Found, SearchPlan as Search, Sought};
use pulsar_searches::question::{Question, Request as Wanted};
use pulsar_searches::transition::Transition;
use pulsar_searches::turn::{Action as Wish, SearchOutcome as News, SearchTransition, Ways};
use pulsar_wire::error::{ConnectionError, NoMemory};
use std::alloc::Global;

/// A search begins.
pub fn begins(alloc: Global, ways: Ways, what: Sought) -> Result<PlanTransition, NoMemory>
    ensures { IfOk result (λ turn. turn ≡ goes ways (meaning.begins ways what)) }
{
    let turn = plan::begins(alloc, &ways, what)?;
    goes(alloc, ways, turn)
}

/// What an outcome makes of a search. The stop of the client overrides it.
pub fn told(
    alloc: Global,
    ways: Ways,
    search: SearchState,
    outcome: Outcome,
) -> Result<PlanTransition, NoMemory>
    ensures { IfOk result (λ turn. turn ≡ told (Searching ways search) outcome) }
{
    match outcome {
        Outcome::Queued | Outcome::InLine => Ok(Transition::Stays(
            Plan::Searching { ways, search },
            Action::Rest,
        )),
        Outcome::Cut => Ok(Transition::Gives(failure(alloc, ConnectionError::Disconnected)?)),
        Outcome::Stopped => Ok(Transition::Gives(failure(alloc, ConnectionError::Shutdown)?)),
        outcome => tells(alloc, ways, search, outcome),
    }
}

/// A search is told an outcome.
fn tells(
    alloc: Global,
    ways: Ways,
    search: SearchState,
    outcome: Outcome,
) -> Result<PlanTransition, NoMemory>
    ensures { IfOk result (λ turn. turn ≡ goes ways (meaning.told ways search (news_in outcome))) }
{
    let news = news_in(alloc, outcome)?;
    let turn = plan::told(alloc, &ways, search.into_inner(), news)?;
    goes(alloc, ways, turn)
}

/// A search goes on, or it ends with what it found.
fn goes(
    alloc: Global,
    ways: Ways,
    turn: SearchTransition<Search, Result<Found, Refusal>>,
) -> Result<PlanTransition, NoMemory>
    ensures { IfOk result (λ t. t ≡ goes ways turn) }
{
    match turn {
        Transition::Stays(search, wish) => stays(alloc, ways, search, wish),
        Transition::Gives(found) => {
            let said = found_so(alloc, found)?;
            Ok(Transition::Gives(Verdict {
                makes: Makes::Nothing,
                said,
            }))
        }
    }
}

/// A search stands there, and does this.
fn stays(alloc: Global, ways: Ways, search: Search, wish: Wish) -> Result<PlanTransition, NoMemory>
    ensures { IfOk result (λ t. t ≡ Transition.Stays (Searching ways search) (wished wish)) }
{
    let search = SearchState::new(alloc, search)?;
    let action = wished(alloc, wish)?;
    Ok(Transition::Stays(Plan::Searching { ways, search }, action))
}

/// What a search does.
pub fn wished(alloc: Global, wish: Wish) -> Result<Action, NoMemory>
    ensures { IfOk result (λ a. a ≡ wished wish) }
{
    match wish {
        Wish::Get(address) => Ok(Action::Get(address)),
        Wish::Ask { link, request } => Ok(Action::Ask {
            link,
            request: asked(alloc, request)?,
        }),
        Wish::Wait(delay) => Ok(Action::Wait(delay)),
    }
}

/// What it asks, as it is asked of a link.
fn asked(alloc: Global, request: Wanted) -> Result<Request, NoMemory>
    ensures { IfOk result (λ r. r ≡ request) }
{
    match request.into_inner() {
        Question::LookupTopic {
            topic,
            authoritative,
        } => Request::new(
            alloc,
            RawCall::LookupTopic {
                topic,
                authoritative,
            },
        ),
        Question::LookupPartitionedTopic { topic } => {
            Request::new(alloc, RawCall::LookupPartitionedTopic { topic })
        }
        Question::CreateProducer {
            topic,
            producer_id,
            name,
            options,
        } => Request::new(
            alloc,
            RawCall::CreateProducer {
                topic,
                producer_id,
                name,
                options,
            },
        ),
        Question::Subscribe {
            topic,
            subscription,
            sub_type,
            consumer_id,
            name,
            options,
        } => Request::new(
            alloc,
            RawCall::Subscribe {
                topic,
                subscription,
                sub_type,
                consumer_id,
                name,
                options,
            },
        ),
    }
}

/// What a search is told.
pub fn news_in(alloc: Global, outcome: Outcome) -> Result<News, NoMemory>
    ensures { IfOk result (λ n. n ≡ news_in outcome) }
{
    match outcome {
        Outcome::GotLink(link) => Ok(News::GotLink(link)),
        Outcome::Replied(reply) => Ok(News::Replied(reply.into_reply(alloc)?)),
        Outcome::Woken => Ok(News::Woken),
        outcome => Ok(News::Failed(Cause::new(alloc, error_of(outcome))?)),
    }
}

/// What a search found, or why it failed.
fn found_so(alloc: Global, found: Result<Found, Refusal>) -> Result<Said, NoMemory>
    ensures { IfOk result (λ s. s ≡ found_so found) }
{
    match found {
        Ok(found) => said(alloc, found),
        Err(refusal) => Said::new(alloc, Err(refusal.into_inner())),
    }
}

fn said(alloc: Global, answer: Found) -> Result<Said, NoMemory>
    ensures { IfOk result (λ s. s ≡ found answer) }
{
    match answer {
        Found::Address(address) => Said::new(alloc, Ok(Answer::Address(address.into_inner()))),
        Found::Count(count) => Said::new(alloc, Ok(Answer::Count(count))),
        Found::Addresses(names) => Said::new(alloc, Ok(Answer::Addresses(names.into_inner()))),
        Found::Reply(Served { link: _, reply }) => body_of(alloc, reply),
    }
}

/// The body of a reply.
fn body_of(alloc: Global, reply: Received) -> Result<Said, NoMemory>
    ensures { IfOk result (λ s. s ≡ Replies (option_to_list reply.body)) }
{
    let Message {
        command,
        payload: _,
    } = reply.into_message();
    let mut bodies = Vec::new(alloc);
    match command.body {
        Some(body) => bodies.push(body)?,
        None => {}
    }
    Said::new(alloc, Ok(Answer::Replies(bodies)))
}
