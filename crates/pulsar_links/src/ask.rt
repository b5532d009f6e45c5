//! A request is asked for on a connection.

ghost use Rattle.std.specs.Prelude.{◌≡◌};
ghost use Rattle.pulsar_exchange.specs.RawCall.{words_of};
ghost use Rattle.pulsar_session.specs.Kept.{OnAnswer};
ghost use Rattle.pulsar_session.specs.Link.{Asks, after, asked};

use pulsar_exchange::content::{Kind, Request};
use pulsar_exchange::raw_call::RawCall;
use pulsar_messages::authentication::Authentication;
use pulsar_messages::producer_message::ProducerMessage;
use pulsar_session::connection::Connection;
use pulsar_session::states::Asked;
use pulsar_wire::error::ConnectionError;
use std::mem::{replace, take};

/// Asks for a request at this moment. The answer is the place that its frame has or will have, or why it has none.
pub fn ask(
    connection: &mut Connection,
    now: u64,
    request: Request,
) -> Result<Asked, ConnectionError>
    ensures answer { OnAnswer result (result ≡ asked now request connection.old) }
    ensures seen { OnAnswer result (connection.new ≡ after (Asks now request) connection.old) }
{
    match request.into_inner() {
        Kind::Call(call) => {
            let mut call = call;
            ask_call(connection, now, &mut call)
        }
        Kind::Closing(consumer) => connection.send_close_consumer(now, consumer),
    }
}

/// Asks for what a user wants. What is sent by value is taken out of the call, since a call is taken apart in its own crate alone.
fn ask_call(
    connection: &mut Connection,
    now: u64,
    call: &mut RawCall,
) -> Result<Asked, ConnectionError>
    ensures answer { OnAnswer result (result ≡ asked now (words_of call.old) connection.old) }
    ensures seen { OnAnswer result (connection.new ≡ after (Asks now (words_of call.old)) connection.old) }
{
    match call {
        RawCall::Send {
            producer_id,
            name,
            sequence_id,
            message,
            block,
        } => {
            let empty = ProducerMessage::new(*name.allocator());
            let message = replace(message, empty);
            connection.send(now, *producer_id, name, *sequence_id, message, *block)
        }
        RawCall::SendPing => connection.send_ping(now),
        RawCall::LookupTopic {
            topic,
            authoritative,
        } => connection.lookup_topic(now, topic, *authoritative),
        RawCall::LookupPartitionedTopic { topic } => connection.lookup_partitioned_topic(
            now, topic,
        ),
        RawCall::GetConsumerStats { consumer_id } => {
            connection.get_consumer_stats(now, *consumer_id)
        }
        RawCall::GetLastMessageId { consumer_id } => {
            connection.get_last_message_id(now, *consumer_id)
        }
        RawCall::CreateProducer {
            topic,
            producer_id,
            name,
            options,
        } => connection.create_producer(now, topic, *producer_id, name.as_deref(), options),
        RawCall::GetTopicsOfNamespace { namespace, mode } => {
            connection.get_topics_of_namespace(now, namespace, *mode)
        }
        RawCall::CloseProducer { producer_id } => connection.close_producer(now, *producer_id),
        RawCall::Subscribe {
            topic,
            subscription,
            sub_type,
            consumer_id,
            name,
            options,
        } => connection.subscribe(
            now,
            topic,
            subscription,
            *sub_type,
            *consumer_id,
            name.as_deref(),
            options,
        ),
        RawCall::SendFlow {
            consumer_id,
            permits,
        } => connection.send_flow(now, *consumer_id, *permits),
        RawCall::SendAck {
            consumer_id,
            ids,
            cumulative,
        } => {
            let ids = replace(ids, Vec::new(*ids.allocator()));
            connection.send_ack(now, *consumer_id, ids, *cumulative)
        }
        RawCall::SendRedeliver { consumer_id, ids } => {
            let ids = replace(ids, Vec::new(*ids.allocator()));
            connection.send_redeliver_unacknowleged_messages(now, *consumer_id, ids)
        }
        RawCall::CloseConsumer { consumer_id } => connection.close_consumer(now, *consumer_id),
        RawCall::Seek {
            consumer_id,
            id,
            time,
        } => connection.seek(now, *consumer_id, take(id), *time),
        RawCall::Unsubscribe { consumer_id } => connection.unsubscribe(now, *consumer_id),
        RawCall::AuthChallenge { auth } => connection.auth_challenge(now, taken(auth)),
        RawCall::GetSchema { topic, version } => {
            connection.get_schema(now, topic, version.as_deref())
        }
    }
}

/// The credential, of which an empty one stays.
fn taken(auth: &mut Authentication) -> Authentication
    ensures { result ≡ auth.old }
{
    let name = String::new(*auth.name.allocator());
    let auth_data = Vec::new(*auth.auth_data.allocator());
    replace(auth, Authentication { name, auth_data })
}
