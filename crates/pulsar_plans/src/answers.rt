//! What replies say to those who asked.

ghost use Rattle.std.specs.Prelude.{◌≡◌, ℕ, [], ◌∷◌, None, Some, IfOk, if◌then◌else◌};
ghost use Rattle.pulsar_wire.specs.Views.{body_values};
ghost use Rattle.pulsar_frame.specs.Key.{answers};
ghost use Rattle.pulsar_exchange.specs.Messages.{read_body, written};
ghost use Rattle.pulsar_calls.specs.Content.{Replies};
ghost use Rattle.pulsar_plans.specs.Plan.{accepted, answer_with, is_answer, reply_says};
ghost use Rattle.pulsar_exchange.specs.Request.{answer_of, is_answered};

use pulsar_calls::act::Says;
use pulsar_calls::content::Said;
use pulsar_calls::effect::Answer;
use pulsar_exchange::content::Received;
use pulsar_frame::message::Message;
use pulsar_wire::bodies;
use pulsar_wire::commands::base::Body;
use pulsar_wire::commands::topics::CommandGetTopicsOfNamespaceResponse;
use pulsar_wire::error::{Error, NoMemory};
use std::alloc::Global;

/// The number of the body that answers the body of this number: a pong a ping.
fn answer_of(request: u32) -> Option<u32>
    ensures { result ≡ answer_of request }
{
    match request {
        bodies::PING => Some(bodies::PONG),
        request => reply_of(request),
    }
}

/// The same for all but a ping.
fn reply_of(request: u32) -> Option<u32>
    ensures { result ≡ answers request }
{
    match request {
        bodies::SEND => Some(bodies::SEND_RECEIPT),
        bodies::PRODUCER => Some(bodies::PRODUCER_SUCCESS),
        bodies::SUBSCRIBE
        | bodies::UNSUBSCRIBE
        | bodies::CLOSE_PRODUCER
        | bodies::CLOSE_CONSUMER
        | bodies::SEEK => Some(bodies::SUCCESS),
        bodies::PARTITION_METADATA => Some(bodies::PARTITION_METADATA_RESPONSE),
        bodies::LOOKUP_TOPIC => Some(bodies::LOOKUP_TOPIC_RESPONSE),
        bodies::CONSUMER_STATS => Some(bodies::CONSUMER_STATS_RESPONSE),
        bodies::GET_LAST_MESSAGE_ID => Some(bodies::GET_LAST_MESSAGE_ID_RESPONSE),
        bodies::GET_TOPICS_OF_NAMESPACE => Some(bodies::GET_TOPICS_OF_NAMESPACE_RESPONSE),
        bodies::GET_SCHEMA => Some(bodies::GET_SCHEMA_RESPONSE),
        _ => None,
    }
}

/// A request with the body of this number has a reply.
pub fn is_answered(request: u32) -> bool
    ensures { result ≡ is_answered request }
{
    answer_of(request).is_some()
}

/// A reply has the body that answers the body of this number.
pub fn is_answer(request: u32, reply: &Received) -> bool
    ensures { result ≡ is_answer request reply.now.content.body }
{
    match answer_of(request) {
        Some(answer) => reply.is(answer),
        None => false,
    }
}

/// What a reply says to the request with the body of this number.
pub fn said(alloc: Global, says: Says, request: u32, reply: Received) -> Result<Said, NoMemory>
    ensures { IfOk result (λ s. s ≡ reply_says says request reply) }
{
    if is_answer(request, &reply) {
        return accepted(alloc, says, reply);
    }
    let error = reply.refusal(alloc)?;
    Said::new(alloc, Err(Error::Connection(error)))
}

/// What the expected reply says.
fn accepted(alloc: Global, says: Says, reply: Received) -> Result<Said, NoMemory>
    ensures { IfOk result (λ s. s ≡ accepted says reply) }
{
    match says {
        Says::Names | Says::Bodies => answered(alloc, says, reply),
        Says::Nothing => Said::new(alloc, Ok(Answer::Done)),
    }
}

/// The answer that a reply gives.
fn answered(alloc: Global, says: Says, reply: Received) -> Result<Said, NoMemory>
    ensures { IfOk result (λ s. s ≡ answer_with says reply reply.content.body) }
{
    let Message {
        command,
        payload: _,
    } = reply.into_message();
    match command.body {
        Some(body) => answer(alloc, says, body),
        None => Said::new(alloc, Ok(Answer::Replies(Vec::new(alloc)))),
    }
}

/// The topics that a body names.
#[tactic(auto, unfolding(pulsar_wire::specs::Views::get_topics_of_namespace_response_values))]
fn names(alloc: Global, body: CommandGetTopicsOfNamespaceResponse) -> Result<Said, NoMemory>
    ensures { IfOk result (λ s. s ≡ answer_with Says.Names (read_body None [] 0 (Some (body_values (Body.GetTopicsOfNamespaceResponse body))))
        (Some (written (body_values (Body.GetTopicsOfNamespaceResponse body))))) }
{
    let said = Said::new(alloc, Ok(Answer::Topics(body.topics)))?;
    Ok(said)
}

/// A body as it is.
fn replies(alloc: Global, body: Body) -> Result<Said, NoMemory>
    ensures { IfOk result (λ s. s ≡ Replies (written (body_values body) ∷ [])) }
{
    let mut bodies = Vec::new(alloc);
    bodies.push(body)?;
    Said::new(alloc, Ok(Answer::Replies(bodies)))
}

/// The answer that a body gives.
fn answer(alloc: Global, says: Says, body: Body) -> Result<Said, NoMemory>
    ensures { IfOk result (λ s. s ≡ answer_with says (read_body None [] 0 (Some (body_values body))) (Some (written (body_values body)))) }
{
    match body {
        Body::GetTopicsOfNamespaceResponse(body) => match says {
            Says::Names => names(alloc, body),
            Says::Bodies => replies(alloc, Body::GetTopicsOfNamespaceResponse(body)),
            Says::Nothing => Said::new(alloc, Ok(Answer::Done)),
        },
        Body::SendReceipt(receipt) => Said::new(alloc, Ok(Answer::Receipt(receipt))),
        body => replies(alloc, body),
    }
}
