//! What a reply says to a question.

ghost use Rattle.std.specs.Prelude.{◌≡◌, ◌||◌, None, Some, IfOk, string_bytes};
ghost use Rattle.std.specs.Option.{option_map};
ghost use Rattle.pulsar_wire.specs.Views.{body_values};
ghost use Rattle.pulsar_wire.specs.Failures.{OfDiscovery, DiscoveryNotFound, UnexpectedResponse, fault};
ghost use Rattle.pulsar_frame.specs.Reply.{read_body, written};
ghost use Rattle.pulsar_searches.specs.Replies as meaning;
ghost use Rattle.pulsar_addresses.specs.Address as addresses;

use crate::turn::Ways;
use pulsar_addresses::content::{Address, Refusal};
use pulsar_addresses::options::allow_retry;
use pulsar_frame::received::Received;
use pulsar_wire::commands::base::Body;
use pulsar_wire::commands::connection::CommandError;
use pulsar_wire::commands::enumerations::server_error;
use pulsar_wire::commands::lookup::{
    CommandLookupTopicResponse, CommandPartitionedTopicMetadataResponse,
};
use pulsar_wire::encoding::copying::copy_optional;
use pulsar_wire::error::{ConnectionError, Error, NoMemory, ServiceDiscoveryError};
use std::alloc::Global;

/// The error of a service that is not ready.
const NOT_READY: i32 = 6;

/// A response to the question for partitions that failed.
const FAILED_COUNT: i32 = 1;

/// A response to a lookup that failed.
const FAILED_LOOKUP: i32 = 2;

/// A response to a lookup that names another broker to ask.
const REDIRECT: i32 = 0;

/// What a reply says to a question.
#[derive(Drop)]
pub enum Heard<T> {
    Says(T),
    /// The same is to be asked again later.
    Later,
    Denies(Refusal),
}

/// Where a reply points.
#[derive(Drop)]
pub enum Pointed {
    /// Another broker is to be asked, and whether it has the authority to answer.
    Redirects(Address, bool),
    /// This broker serves the topic.
    Serves(Address),
}

/// How many partitions a reply tells of.
#[tactic(auto, unfolding(crate::specs::Replies::count_in))]
pub fn count_in(
    alloc: Global,
    ways: &Ways,
    retries: u32,
    reply: &Received,
) -> Result<Heard<u32>, NoMemory>
    ensures { IfOk result (λ h. h ≡ meaning.count_in ways.now retries reply.now) }
{
    let message = reply.message();
    match &message.command.body {
        Some(body) => count_in_body(alloc, ways, retries, body),
        None => Ok(Heard::Denies(no_answer(alloc)?)),
    }
}

#[tactic(auto, unfolding(crate::specs::Replies::count_in))]
fn count_in_body(
    alloc: Global,
    ways: &Ways,
    retries: u32,
    body: &Body,
) -> Result<Heard<u32>, NoMemory>
    ensures { IfOk result (λ h. h ≡ meaning.count_in ways.now retries (read_body None (Some (body_values body.now)))) }
{
    match body {
        Body::PartitionedTopicMetadataResponse(body) => count_told(alloc, ways, retries, body),
        body => Ok(Heard::Denies(other_body(alloc, body)?)),
    }
}

#[tactic(auto, unfolding(pulsar_wire::specs::Views::partition_metadata_response_values, crate::specs::Replies::count_in))]
fn count_told(
    alloc: Global,
    ways: &Ways,
    retries: u32,
    body: &CommandPartitionedTopicMetadataResponse,
) -> Result<Heard<u32>, NoMemory>
    ensures { IfOk result (λ h. h ≡ meaning.count_in ways.now retries
        (read_body None (Some (body_values (Body.PartitionedTopicMetadataResponse body.now))))) }
{
    if fails_by(FAILED_COUNT, body.response) {
        return failing(alloc, ways, retries, body.error, &body.message);
    }
    match body.partitions {
        Some(count) => Ok(Heard::Says(count)),
        None => Ok(Heard::Denies(query(alloc, body.error, &body.message)?)),
    }
}

/// What a reply says that fails.
fn failing<T>(
    alloc: Global,
    ways: &Ways,
    retries: u32,
    error: Option<i32>,
    message: &Option<String>,
) -> Result<Heard<T>, NoMemory>
    ensures { IfOk result (λ h. h ≡ meaning.failing ways.now retries error (option_map string_bytes message.now)) }
{
    if error == Some(NOT_READY) && allow_retry(ways.max_retries, retries) {
        Ok(Heard::Later)
    } else {
        Ok(Heard::Denies(query(alloc, error, message)?))
    }
}

fn query(alloc: Global, error: Option<i32>, message: &Option<String>) -> Result<Refusal, NoMemory>
    ensures { IfOk result (λ r. r ≡ meaning.query error (option_map string_bytes message.now)) }
{
    let error = match error {
        Some(error) => server_error(error),
        None => None,
    };
    let text = copy_optional(message)?;
    Refusal::new(
        alloc,
        Error::ServiceDiscovery(ServiceDiscoveryError::Query(error, text)),
    )
}

/// Where a reply points. `proxy` says whether an earlier one has named a proxy.
#[tactic(auto, unfolding(crate::specs::Replies::place_heard))]
pub fn place_in(
    alloc: Global,
    ways: &Ways,
    proxy: bool,
    retries: u32,
    reply: &Received,
) -> Result<Heard<Pointed>, NoMemory>
    ensures { IfOk result (λ h. h ≡ meaning.place_heard ways.now proxy retries reply.now) }
{
    let message = reply.message();
    match &message.command.body {
        Some(body) => place_in_body(alloc, ways, proxy, retries, body),
        None => Ok(Heard::Denies(no_answer(alloc)?)),
    }
}

#[tactic(auto, unfolding(crate::specs::Replies::place_heard))]
fn place_in_body(
    alloc: Global,
    ways: &Ways,
    proxy: bool,
    retries: u32,
    body: &Body,
) -> Result<Heard<Pointed>, NoMemory>
    ensures { IfOk result (λ h. h ≡ meaning.place_heard ways.now proxy retries (read_body None (Some (body_values body.now)))) }
{
    match body {
        Body::LookupTopicResponse(body) => place_told(alloc, ways, proxy, retries, body),
        body => Ok(Heard::Denies(other_body(alloc, body)?)),
    }
}

#[tactic(auto, unfolding(pulsar_wire::specs::Views::lookup_topic_response_values, crate::specs::Replies::place_heard))]
fn place_told(
    alloc: Global,
    ways: &Ways,
    proxy: bool,
    retries: u32,
    body: &CommandLookupTopicResponse,
) -> Result<Heard<Pointed>, NoMemory>
    ensures { IfOk result (λ h. h ≡ meaning.place_heard ways.now proxy retries
        (read_body None (Some (body_values (Body.LookupTopicResponse body.now))))) }
{
    if fails_by(FAILED_LOOKUP, body.response) {
        return failing(alloc, ways, retries, body.error, &body.message);
    }
    let proxy = is_behind_proxy(proxy, body.proxy_through_service_url);
    let place = broker_of(alloc, &ways.base, proxy, &body.broker_service_url)?;
    pointed_at(alloc, body.response, body.authoritative, place)
}

/// A response of this number fails, and so does a missing one.
fn fails_by(failed: i32, response: Option<i32>) -> bool
    ensures { result ≡ meaning.fails_by failed response }
{
    match response {
        None => true,
        Some(response) => response == failed,
    }
}

/// A flag is there and set.
fn is_set(flag: Option<bool>) -> bool
    ensures { result ≡ meaning.is_set flag }
{
    match flag {
        None => false,
        Some(flag) => flag,
    }
}

/// A proxy stays, and a reply may name one.
fn is_behind_proxy(before: bool, named: Option<bool>) -> bool
    ensures { result ≡ (before || meaning.is_set named) }
{
    before || is_set(named)
}

/// Where a reply points that names this address.
fn pointed_at(
    alloc: Global,
    response: Option<i32>,
    authority: Option<bool>,
    place: Option<Address>,
) -> Result<Heard<Pointed>, NoMemory>
    ensures { IfOk result (λ h. h ≡ meaning.pointed_at response authority place) }
{
    let Some(place) = place else {
        return Ok(Heard::Denies(no_topic(alloc)?));
    };
    if response == Some(REDIRECT) {
        Ok(Heard::Says(Pointed::Redirects(place, is_set(authority))))
    } else {
        Ok(Heard::Says(Pointed::Serves(place)))
    }
}

fn no_topic(alloc: Global) -> Result<Refusal, NoMemory>
    ensures { IfOk result (λ r. r ≡ OfDiscovery DiscoveryNotFound) }
{
    Refusal::new(
        alloc,
        Error::ServiceDiscovery(ServiceDiscoveryError::NotFound),
    )
}

/// The address in a text that may be absent.
fn broker_of(
    alloc: Global,
    base: &Address,
    proxy: bool,
    text: &Option<String>,
) -> Result<Option<Address>, NoMemory>
    ensures { IfOk result (λ a. a ≡ meaning.place_at base.now proxy (option_map string_bytes text.now)) }
{
    match text {
        Some(text) => base.broker(alloc, proxy, text),
        None => Ok(None),
    }
}

/// Why a reply without a body fails a search.
fn no_answer(alloc: Global) -> Result<Refusal, NoMemory>
    ensures { IfOk result (λ r. r ≡ addresses.in_discovery (meaning.unexpected (read_body None None) None)) }
{
    let error = no_body(alloc)?;
    Refusal::in_discovery(alloc, error)
}

/// Why a body that is not the answer fails a search.
fn other_body(alloc: Global, body: &Body) -> Result<Refusal, NoMemory>
    ensures { IfOk result (λ r. r ≡ addresses.in_discovery
        (meaning.unexpected (read_body None (Some (body_values body.now))) (Some (written (body_values body.now))))) }
{
    let error = unexpected(alloc, body)?;
    Refusal::in_discovery(alloc, error)
}

/// Why a reply fails a question that expects another body.
#[tactic(auto, unfolding(crate::specs::Replies::unexpected))]
pub fn why_refused(alloc: Global, reply: &Received) -> Result<ConnectionError, NoMemory>
    ensures { IfOk result (λ e. fault e ≡ meaning.unexpected reply.now reply.now.body) }
{
    let message = reply.message();
    match &message.command.body {
        Some(body) => unexpected(alloc, body),
        None => no_body(alloc),
    }
}

/// Why a body that is not the answer fails a question.
fn unexpected(alloc: Global, body: &Body) -> Result<ConnectionError, NoMemory>
    ensures { IfOk result (λ e. fault e ≡ meaning.unexpected
        (read_body None (Some (body_values body.now))) (Some (written (body_values body.now)))) }
{
    match body {
        Body::Error(error) => told_error(error),
        other => unexpected_name(alloc, other.name()),
    }
}

/// Why a reply without a body fails a question.
#[tactic(auto, unfolding(crate::specs::Replies::unexpected))]
fn no_body(alloc: Global) -> Result<ConnectionError, NoMemory>
    ensures { IfOk result (λ e. fault e ≡ meaning.unexpected (read_body None None) None) }
{
    unexpected_name(alloc, "none")
}

/// The error that the broker tells.
#[tactic(auto, unfolding(pulsar_wire::specs::Views::error_values, crate::specs::Replies::unexpected))]
fn told_error(body: &CommandError) -> Result<ConnectionError, NoMemory>
    ensures { IfOk result (λ e. fault e ≡ meaning.unexpected
        (read_body None (Some (body_values (Body.Error body.now)))) (Some (written (body_values (Body.Error body.now))))) }
{
    let text = body.message.clone()?;
    Ok(ConnectionError::PulsarError(server_error(body.error), Some(text)))
}

/// Another body than the one that is expected, by its name.
fn unexpected_name(alloc: Global, name: &str) -> Result<ConnectionError, NoMemory>
    ensures { IfOk result (λ e. fault e ≡ UnexpectedResponse name.now) }
{
    Ok(ConnectionError::UnexpectedResponse(String::from_str(alloc, name)?))
}
