//! What a command asks of a broker.

ghost use Rattle.std.specs.Prelude.{◌≡◌, Some};
ghost use Rattle.std.specs.Option.{option_map};
ghost use Rattle.pulsar_wire.specs.Rows.{producer, subscribe};
ghost use Rattle.pulsar_wire.specs.Views.{body_values, producer_values, subscribe_values};
ghost use Rattle.pulsar_broker.specs.Asked.{AsksElse, asked, makes_producer, subscribes};
ghost use Rattle.pulsar_broker.specs.Kept.{asked_in};

use pulsar_wire::commands::base::Body;
use pulsar_wire::commands::consumer::subscription::CommandSubscribe;
use pulsar_wire::commands::producer::CommandProducer;

/// What a command asks. A number names a producer, a consumer or a request of the connection on which it came.
#[derive(Clone, Copy)]
pub enum Asked<'a> {
    Connects,
    Pings,
    CountsPartitions {
        request: u64,
    },
    LooksUp {
        request: u64,
    },
    MakesProducer {
        topic: &'a str,
        producer: u64,
        request: u64,
        name: Option<&'a str>,
    },
    Sends {
        producer: u64,
        sequence: u64,
    },
    Subscribes {
        topic: &'a str,
        subscription: &'a str,
        consumer: u64,
        request: u64,
        position: Option<i32>,
    },
    Grants {
        consumer: u64,
        permits: u32,
    },
    Acknowledges,
    ClosesProducer {
        producer: u64,
        request: u64,
    },
    ClosesConsumer {
        consumer: u64,
        request: u64,
    },
    /// Another command with a request number.
    AsksElse {
        request: u64,
    },
    /// Another one, without it.
    SaysElse,
}

/// What a command with this body asks.
pub fn read(body: &Option<Body>) -> Asked<'_>
    ensures { asked_in result ≡ asked (option_map body_values body.now) }
{
    match body {
        Some(body) => read_body(body),
        None => Asked::SaysElse,
    }
}

fn read_body(body: &Body) -> Asked<'_>
    ensures { asked_in result ≡ asked (Some (body_values body.now)) }
{
    match body {
        Body::Connect(_) => Asked::Connects,
        Body::Ping(_) => Asked::Pings,
        Body::Ack(_) => Asked::Acknowledges,
        Body::PartitionedTopicMetadata(body) => Asked::CountsPartitions {
            request: body.request_id,
        },
        Body::LookupTopic(body) => Asked::LooksUp {
            request: body.request_id,
        },
        Body::Producer(body) => made_by(body),
        Body::Send(body) => Asked::Sends {
            producer: body.producer_id,
            sequence: body.sequence_id,
        },
        Body::Subscribe(body) => subscribed_by(body),
        Body::Flow(body) => Asked::Grants {
            consumer: body.consumer_id,
            permits: body.message_permits,
        },
        Body::CloseProducer(body) => Asked::ClosesProducer {
            producer: body.producer_id,
            request: body.request_id,
        },
        Body::CloseConsumer(body) => Asked::ClosesConsumer {
            consumer: body.consumer_id,
            request: body.request_id,
        },
        Body::Unsubscribe(body) => asks_else(body.request_id),
        Body::Success(body) => asks_else(body.request_id),
        Body::Error(body) => asks_else(body.request_id),
        Body::ProducerSuccess(body) => asks_else(body.request_id),
        Body::PartitionedTopicMetadataResponse(body) => asks_else(body.request_id),
        Body::LookupTopicResponse(body) => asks_else(body.request_id),
        Body::ConsumerStats(body) => asks_else(body.request_id),
        Body::ConsumerStatsResponse(body) => asks_else(body.request_id),
        Body::Seek(body) => asks_else(body.request_id),
        Body::GetLastMessageId(body) => asks_else(body.request_id),
        Body::GetLastMessageIdResponse(body) => asks_else(body.request_id),
        Body::GetTopicsOfNamespace(body) => asks_else(body.request_id),
        Body::GetTopicsOfNamespaceResponse(body) => asks_else(body.request_id),
        Body::GetSchema(body) => asks_else(body.request_id),
        Body::GetSchemaResponse(body) => asks_else(body.request_id),
        Body::Connected(_)
        | Body::SendReceipt(_)
        | Body::SendError(_)
        | Body::Message(_)
        | Body::Pong(_)
        | Body::RedeliverUnacknowledgedMessages(_)
        | Body::ReachedEndOfTopic(_)
        | Body::ActiveConsumerChange(_)
        | Body::AuthChallenge(_)
        | Body::AuthResponse(_) => Asked::SaysElse,
    }
}

fn asks_else(request: u64) -> Asked<'static>
    ensures { asked_in result ≡ AsksElse request }
{
    Asked::AsksElse { request }
}

#[tactic(auto, unfolding(pulsar_wire::specs::Views::producer_values))]
fn made_by(body: &CommandProducer) -> Asked<'_>
    ensures { Some (asked_in result) ≡ makes_producer (record { number = 5; row = producer; values = producer_values body.now }) }
{
    Asked::MakesProducer {
        topic: body.topic.as_str(),
        producer: body.producer_id,
        request: body.request_id,
        name: body.producer_name.as_deref(),
    }
}

#[tactic(auto, unfolding(pulsar_wire::specs::Views::subscribe_values))]
fn subscribed_by(body: &CommandSubscribe) -> Asked<'_>
    ensures { Some (asked_in result) ≡ subscribes (record { number = 4; row = subscribe; values = subscribe_values body.now }) }
{
    Asked::Subscribes {
        topic: body.topic.as_str(),
        subscription: body.subscription.as_str(),
        consumer: body.consumer_id,
        request: body.request_id,
        position: body.initial_position,
    }
}
