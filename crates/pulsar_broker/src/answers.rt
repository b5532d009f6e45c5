//! The commands that a broker writes.

ghost use Rattle.std.specs.Prelude.{◌≡◌, IfOk, string_bytes};
ghost use Rattle.std.specs.Option.{option_copied};
ghost use Rattle.pulsar_wire.specs.Views.{body_values, message_id_values};
ghost use Rattle.pulsar_frame.specs.Payload.{payload_values};
ghost use Rattle.pulsar_frame.specs.Shown.{message_values};
ghost use Rattle.pulsar_broker.specs.Answers as meaning;

use pulsar_frame::{Message, Payload};
use pulsar_wire::NoMemory;
use pulsar_wire::commands::base::{BaseCommand, Body};
use pulsar_wire::commands::connection::{
    CommandConnected, CommandError, CommandPong, CommandSuccess,
};
use pulsar_wire::commands::consumer::delivery::CommandMessage;
use pulsar_wire::commands::ids::MessageIdData;
use pulsar_wire::commands::lookup::{
    CommandLookupTopicResponse, CommandPartitionedTopicMetadataResponse,
};
use pulsar_wire::commands::producer::{CommandProducerSuccess, CommandSendReceipt};
use std::alloc::Global;

/// `Success` of a partition_metadata_response.
const PARTITIONS_FOUND: i32 = 0;

/// `Connect` of a lookup_topic_response.
const CONNECT_THERE: i32 = 1;

/// `UnknownError` of an error.
const UNKNOWN_ERROR: i32 = 0;

/// A command without a payload.
fn alone(body: Body) -> Message
    ensures { message_values result ≡ meaning.alone (body_values body) }
{
    Message {
        command: BaseCommand::with_body(body),
        payload: None,
    }
}

/// Connected, of a broker that does not say its version.
#[tactic(auto, unfolding(pulsar_wire::specs::Views::connected_values))]
pub fn greeting(alloc: Global) -> Message
    ensures { message_values result ≡ meaning.greeting }
{
    alone(Body::Connected(CommandConnected::new(alloc)))
}

#[tactic(auto, unfolding(pulsar_wire::specs::Views::pong_values))]
pub fn ponged() -> Message
    ensures { message_values result ≡ meaning.ponged }
{
    alone(Body::Pong(CommandPong))
}

#[tactic(auto, unfolding(pulsar_wire::specs::Views::success_values))]
pub fn succeeded(request: u64) -> Message
    ensures { message_values result ≡ meaning.succeeded request }
{
    alone(Body::Success(CommandSuccess {
        request_id: request,
        schema: None,
    }))
}

/// A request that is not served.
#[tactic(auto, unfolding(pulsar_wire::specs::Views::error_values))]
pub fn unsupported(alloc: Global, request: u64) -> Result<Message, NoMemory>
    ensures { IfOk result (λ m. message_values m ≡ meaning.unsupported request) }
{
    Ok(alone(Body::Error(CommandError {
        request_id: request,
        error: UNKNOWN_ERROR,
        message: String::from_str(alloc, "unsupported")?,
    })))
}

/// A topic has no partitions.
#[tactic(auto, unfolding(pulsar_wire::specs::Views::partition_metadata_response_values))]
pub fn not_partitioned(request: u64) -> Message
    ensures { message_values result ≡ meaning.not_partitioned request }
{
    alone(Body::PartitionedTopicMetadataResponse(CommandPartitionedTopicMetadataResponse {
        partitions: Some(0),
        request_id: request,
        response: Some(PARTITIONS_FOUND),
        error: None,
        message: None,
    }))
}

/// A topic is at the broker of this URL.
#[tactic(auto, unfolding(pulsar_wire::specs::Views::lookup_topic_response_values))]
pub fn found_here(alloc: Global, url: &str, request: u64) -> Result<Message, NoMemory>
    ensures { IfOk result (λ m. message_values m ≡ meaning.found_here url.now request) }
{
    Ok(alone(Body::LookupTopicResponse(CommandLookupTopicResponse {
        broker_service_url: Some(String::from_str(alloc, url)?),
        broker_service_url_tls: None,
        response: Some(CONNECT_THERE),
        request_id: request,
        authoritative: None,
        error: None,
        message: None,
        proxy_through_service_url: None,
    })))
}

/// A producer is made. One without a name is called p and its number.
#[tactic(auto, unfolding(pulsar_wire::specs::Views::producer_success_values))]
pub fn producer_made(
    alloc: Global,
    producer: u64,
    request: u64,
    name: Option<&str>,
) -> Result<Message, NoMemory>
    ensures { IfOk result (λ m. message_values m ≡ meaning.producer_made producer request (option_copied name.entry)) }
{
    Ok(alone(Body::ProducerSuccess(CommandProducerSuccess {
        request_id: request,
        producer_name: producer_name(alloc, producer, name)?,
        last_sequence_id: None,
        schema_version: None,
        topic_epoch: None,
        producer_ready: None,
    })))
}

fn producer_name(alloc: Global, producer: u64, name: Option<&str>) -> Result<String, NoMemory>
    ensures { IfOk result (λ s. string_bytes s ≡ meaning.producer_name producer (option_copied name.entry)) }
{
    match name {
        Some(name) => Ok(String::from_str(alloc, name)?),
        None => Ok(format!(in alloc; "p{producer}")?),
    }
}

/// The message of a topic at this place.
#[tactic(auto, unfolding(pulsar_wire::specs::Views::message_id_values))]
fn id_at(alloc: Global, place: u64) -> MessageIdData
    ensures { message_id_values result ≡ meaning.id_at place }
{
    MessageIdData {
        ledger_id: 0,
        entry_id: place,
        partition: None,
        batch_index: None,
        ack_set: Vec::new(alloc),
        batch_size: None,
    }
}

/// A message is stored at this place.
#[tactic(auto, unfolding(pulsar_wire::specs::Views::send_receipt_values))]
pub fn receipt(alloc: Global, producer: u64, sequence: u64, place: u64) -> Message
    ensures { message_values result ≡ meaning.receipt producer sequence place }
{
    alone(Body::SendReceipt(CommandSendReceipt {
        producer_id: producer,
        sequence_id: sequence,
        message_id: Some(id_at(alloc, place)),
        highest_sequence_id: None,
    }))
}

/// The message of this place, for a consumer.
#[tactic(auto, unfolding(pulsar_wire::specs::Views::message_values))]
pub fn delivery(
    alloc: Global,
    consumer: u64,
    place: u64,
    payload: &Payload,
) -> Result<Message, NoMemory>
    ensures { IfOk result (λ m. message_values m ≡ meaning.delivery consumer place (payload_values payload.now)) }
{
    let payload = payload.copy()?;
    let body = CommandMessage {
        consumer_id: consumer,
        message_id: id_at(alloc, place),
        redelivery_count: None,
        ack_set: Vec::new(alloc),
    };
    Ok(Message {
        command: BaseCommand::with_body(Body::Message(body)),
        payload: Some(payload),
    })
}
