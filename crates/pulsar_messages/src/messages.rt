//! The messages that a client writes: the command of each, and the payload of one that is sent.

ghost use Rattle.std.specs.Prelude.{◌≡◌, ℕ, Bool, IfOk, IsOkAnd, map, string_bytes};
ghost use Rattle.std.specs.Option.{option_copied, option_map};
ghost use Rattle.pulsar_wire.specs.Views.{command_values, message_id_values, message_metadata_values};
ghost use Rattle.pulsar_messages.specs.Content.{authentication_values, consumer_options_values, producer_message_values, producer_options_values};
ghost use Rattle.pulsar_messages.specs.Words.{SendPing, SendPong, AuthChallenge, LookupTopic, LookupPartitionedTopic, GetTopicsOfNamespace, GetSchema, CreateProducer, Send, CloseProducer, Subscribe, SendFlow, SendAck, SendRedeliver, Seek, GetLastMessageId, GetConsumerStats, Unsubscribe, CloseConsumer, CloseConsumerUnawaited};
ghost use Rattle.pulsar_messages.specs.Messages.{ack_type, command_of, connect_command, metadata_of, payload_content, sent_payload};

use crate::authentication::Authentication;
use crate::consumer_options::ConsumerOptions;
use crate::producer_message::ProducerMessage;
use crate::producer_options::ProducerOptions;
use crate::properties::{into_properties, properties_of};
use pulsar_wire::commands::auth::{AuthData, CommandAuthResponse};
use pulsar_wire::commands::base::{BaseCommand, Body};
use pulsar_wire::commands::connection::{CommandConnect, CommandPing, CommandPong, client_version};
use pulsar_wire::commands::consumer::delivery::{
    CommandAck, CommandFlow, CommandRedeliverUnacknowledgedMessages,
};
use pulsar_wire::commands::consumer::position::{
    CommandConsumerStats, CommandGetLastMessageId, CommandSeek,
};
use pulsar_wire::commands::consumer::subscription::{
    CommandCloseConsumer, CommandSubscribe, CommandUnsubscribe,
};
use pulsar_wire::commands::enumerations::SubType;
use pulsar_wire::commands::ids::MessageIdData;
use pulsar_wire::commands::lookup::{CommandLookupTopic, CommandPartitionedTopicMetadata};
use pulsar_wire::commands::metadata::MessageMetadata;
use pulsar_wire::commands::producer::{CommandCloseProducer, CommandProducer, CommandSend};
use pulsar_wire::commands::schema::CommandGetSchema;
use pulsar_wire::commands::topics::{CommandGetTopicsOfNamespace, Mode};
use pulsar_wire::encoding::copying::copy_message;
use pulsar_wire::error::NoMemory;
use std::alloc::Global;

/// The version of the protocol that the client speaks.
const PROTOCOL_VERSION: i32 = 12;

/// A message of a producer: its command, what is said of the payload, and the payload.
#[derive(Debug, Drop)]
pub struct MessageParts {
    pub command: BaseCommand,
    pub metadata: MessageMetadata,
    pub payload: Vec<u8>,
}

/// What a client says first on a connection: who it is, and the broker that it wants behind a proxy.
#[tactic(auto, unfolding(pulsar_wire::specs::Views::connect_values))]
pub fn connect(
    alloc: Global,
    auth: Option<Authentication>,
    proxy: Option<&str>,
) -> Result<BaseCommand, NoMemory>
    ensures { IfOk result (λ c. command_values c
        ≡ connect_command (option_map authentication_values auth) (option_copied proxy.entry)) }
{
    let (auth_method_name, auth_data) = match auth {
        Some(auth) => (Some(auth.name), Some(auth.auth_data)),
        None => (None, None),
    };
    let body = CommandConnect {
        client_version: client_version(alloc)?,
        auth_data,
        protocol_version: Some(PROTOCOL_VERSION),
        auth_method_name,
        proxy_to_broker_url: text(alloc, proxy)?,
    };
    Ok(BaseCommand::with_body(Body::Connect(body)))
}

/// Asks whether the broker is there. It takes no memory.
#[tactic(auto, unfolding(pulsar_wire::specs::Views::ping_values))]
pub fn ping() -> Result<BaseCommand, NoMemory>
    ensures { (id : ℕ) → IsOkAnd result (λ c. command_values c ≡ command_of id SendPing) }
{
    Ok(BaseCommand::with_body(Body::Ping(CommandPing)))
}

/// Answers a ping. It takes no memory.
#[tactic(auto, unfolding(pulsar_wire::specs::Views::pong_values))]
pub fn pong() -> Result<BaseCommand, NoMemory>
    ensures { (id : ℕ) → IsOkAnd result (λ c. command_values c ≡ command_of id SendPong) }
{
    Ok(BaseCommand::with_body(Body::Pong(CommandPong)))
}

/// Makes a producer on a topic. The broker names it where no name is given.
#[tactic(auto, unfolding(pulsar_wire::specs::Views::producer_values))]
pub fn create_producer(
    alloc: Global,
    topic: &str,
    name: Option<&str>,
    producer_id: u64,
    request_id: u64,
    options: &ProducerOptions,
) -> Result<BaseCommand, NoMemory>
    ensures { IfOk result (λ c. command_values c
        ≡ command_of request_id (CreateProducer topic.now producer_id (option_copied name.entry)
        (producer_options_values options.now))) }
{
    let body = CommandProducer {
        topic: String::from_str(alloc, topic)?,
        producer_id,
        request_id,
        producer_name: text(alloc, name)?,
        encrypted: options.encrypted,
        metadata: properties_of(alloc, &options.metadata)?,
        schema: copy_message(&options.schema)?,
        producer_access_mode: options.access_mode,
    };
    Ok(BaseCommand::with_body(Body::Producer(body)))
}

/// Asks for the topics of a namespace.
#[tactic(auto, unfolding(pulsar_wire::specs::Views::get_topics_of_namespace_values))]
pub fn get_topics_of_namespace(
    alloc: Global,
    request_id: u64,
    namespace: &str,
    mode: Mode,
) -> Result<BaseCommand, NoMemory>
    ensures { IfOk result (λ c. command_values c
        ≡ command_of request_id (GetTopicsOfNamespace namespace.now mode)) }
{
    let body = CommandGetTopicsOfNamespace {
        request_id,
        namespace: String::from_str(alloc, namespace)?,
        mode: Some(mode.into()),
    };
    Ok(BaseCommand::with_body(Body::GetTopicsOfNamespace(body)))
}

/// Asks for a schema of a topic: the one of this version, or the newest.
#[tactic(auto, unfolding(pulsar_wire::specs::Views::get_schema_values))]
pub fn get_schema(
    alloc: Global,
    request_id: u64,
    topic: &str,
    version: Option<&[u8]>,
) -> Result<BaseCommand, NoMemory>
    ensures { IfOk result (λ c. command_values c
        ≡ command_of request_id (GetSchema topic.now (option_copied version.entry))) }
{
    let body = CommandGetSchema {
        request_id,
        topic: String::from_str(alloc, topic)?,
        schema_version: bytes(alloc, version)?,
    };
    Ok(BaseCommand::with_body(Body::GetSchema(body)))
}

/// Sends what a producer of this number and name sends. `publish_time` is in milliseconds since 1970.
#[tactic(auto, unfolding(pulsar_wire::specs::Views::send_values))]
pub fn send(
    alloc: Global,
    producer_id: u64,
    name: &str,
    sequence_id: u64,
    message: ProducerMessage,
    publish_time: u64,
) -> Result<MessageParts, NoMemory>
    ensures command { IfOk result (λ p. (id : ℕ) (block : Bool) → command_values p.command
        ≡ command_of id (Send producer_id name.now sequence_id (producer_message_values message) block)) }
    ensures payload { IfOk result (λ p. payload_content p
        ≡ sent_payload publish_time name.now sequence_id (producer_message_values message)) }
{
    let body = CommandSend {
        producer_id,
        sequence_id,
        num_messages: message.num_messages_in_batch,
    };
    let name = String::from_str(alloc, name)?;
    let (metadata, payload) = metadata_and_payload(
        alloc,
        name,
        sequence_id,
        message,
        publish_time,
    )?;
    Ok(MessageParts {
        command: BaseCommand::with_body(Body::Send(body)),
        metadata,
        payload,
    })
}

/// What is said of a message, and its payload.
#[tactic(auto, unfolding(pulsar_wire::specs::Views::message_metadata_values))]
fn metadata_and_payload(
    alloc: Global,
    producer_name: String,
    sequence_id: u64,
    message: ProducerMessage,
    publish_time: u64,
) -> Result<(MessageMetadata, Vec<u8>), NoMemory>
    ensures metadata { IfOk result (λ p. message_metadata_values p.0
        ≡ metadata_of publish_time (string_bytes producer_name) sequence_id (producer_message_values message)) }
    ensures payload { IfOk result (λ p. p.1.items ≡ message.payload.items) }
{
    let metadata = MessageMetadata {
        producer_name,
        sequence_id,
        publish_time,
        properties: into_properties(alloc, message.properties)?,
        replicated_from: None,
        partition_key: message.partition_key,
        replicate_to: message.replicate_to,
        compression: message.compression,
        uncompressed_size: message.uncompressed_size,
        num_messages_in_batch: message.num_messages_in_batch,
        event_time: message.event_time,
        encryption_keys: message.encryption_keys,
        encryption_algo: message.encryption_algo,
        encryption_param: message.encryption_param,
        schema_version: message.schema_version,
        ordering_key: message.ordering_key,
        deliver_at_time: message.deliver_at_time,
    };
    Ok((metadata, message.payload))
}

/// Asks which broker serves a topic.
#[tactic(auto, unfolding(pulsar_wire::specs::Views::lookup_topic_values))]
pub fn lookup_topic(
    alloc: Global,
    topic: &str,
    authoritative: bool,
    request_id: u64,
) -> Result<BaseCommand, NoMemory>
    ensures { IfOk result (λ c. command_values c
        ≡ command_of request_id (LookupTopic topic.now authoritative)) }
{
    let body = CommandLookupTopic {
        topic: String::from_str(alloc, topic)?,
        request_id,
        authoritative: Some(authoritative),
    };
    Ok(BaseCommand::with_body(Body::LookupTopic(body)))
}

/// Asks how many partitions a topic has.
#[tactic(auto, unfolding(pulsar_wire::specs::Views::partition_metadata_values))]
pub fn lookup_partitioned_topic(
    alloc: Global,
    topic: &str,
    request_id: u64,
) -> Result<BaseCommand, NoMemory>
    ensures { IfOk result (λ c. command_values c
        ≡ command_of request_id (LookupPartitionedTopic topic.now)) }
{
    let body = CommandPartitionedTopicMetadata {
        topic: String::from_str(alloc, topic)?,
        request_id,
    };
    Ok(BaseCommand::with_body(Body::PartitionedTopicMetadata(body)))
}

/// Asks what the broker counts of a consumer. It takes no memory.
#[tactic(auto, unfolding(pulsar_wire::specs::Views::consumer_stats_values))]
pub fn consumer_stats(request_id: u64, consumer_id: u64) -> Result<BaseCommand, NoMemory>
    ensures { IsOkAnd result (λ c. command_values c
        ≡ command_of request_id (GetConsumerStats consumer_id)) }
{
    let body = CommandConsumerStats {
        request_id,
        consumer_id,
    };
    Ok(BaseCommand::with_body(Body::ConsumerStats(body)))
}

/// Asks for the id of the last message of a consumer's topic. It takes no memory.
#[tactic(auto, unfolding(pulsar_wire::specs::Views::get_last_message_id_values))]
pub fn get_last_message_id(consumer_id: u64, request_id: u64) -> Result<BaseCommand, NoMemory>
    ensures { IsOkAnd result (λ c. command_values c
        ≡ command_of request_id (GetLastMessageId consumer_id)) }
{
    let body = CommandGetLastMessageId {
        consumer_id,
        request_id,
    };
    Ok(BaseCommand::with_body(Body::GetLastMessageId(body)))
}

/// Ends a consumer. It takes no memory.
#[tactic(auto, unfolding(pulsar_wire::specs::Views::close_consumer_values))]
pub fn close_consumer(consumer_id: u64, request_id: u64) -> Result<BaseCommand, NoMemory>
    ensures awaited { IsOkAnd result (λ c. command_values c
        ≡ command_of request_id (CloseConsumer consumer_id)) }
    ensures unawaited { IsOkAnd result (λ c. command_values c
        ≡ command_of request_id (CloseConsumerUnawaited consumer_id)) }
{
    let body = CommandCloseConsumer {
        consumer_id,
        request_id,
    };
    Ok(BaseCommand::with_body(Body::CloseConsumer(body)))
}

/// Ends the subscription of a consumer. It takes no memory.
#[tactic(auto, unfolding(pulsar_wire::specs::Views::unsubscribe_values))]
pub fn unsubscribe(consumer_id: u64, request_id: u64) -> Result<BaseCommand, NoMemory>
    ensures { IsOkAnd result (λ c. command_values c ≡ command_of request_id (Unsubscribe consumer_id)) }
{
    let body = CommandUnsubscribe {
        consumer_id,
        request_id,
    };
    Ok(BaseCommand::with_body(Body::Unsubscribe(body)))
}

/// Ends a producer. It takes no memory.
#[tactic(auto, unfolding(pulsar_wire::specs::Views::close_producer_values))]
pub fn close_producer(producer_id: u64, request_id: u64) -> Result<BaseCommand, NoMemory>
    ensures { IsOkAnd result (λ c. command_values c
        ≡ command_of request_id (CloseProducer producer_id)) }
{
    let body = CommandCloseProducer {
        producer_id,
        request_id,
    };
    Ok(BaseCommand::with_body(Body::CloseProducer(body)))
}

/// Makes a consumer on a subscription of a topic. The broker names it where no name is given.
#[tactic(auto, unfolding(pulsar_wire::specs::Views::subscribe_values))]
pub fn subscribe(
    alloc: Global,
    topic: &str,
    subscription: &str,
    sub_type: SubType,
    consumer_id: u64,
    request_id: u64,
    name: Option<&str>,
    options: &ConsumerOptions,
) -> Result<BaseCommand, NoMemory>
    ensures { IfOk result (λ c. command_values c
        ≡ command_of request_id (Subscribe topic.now subscription.now sub_type consumer_id (option_copied name.entry)
        (consumer_options_values options.now))) }
{
    let body = CommandSubscribe {
        topic: String::from_str(alloc, topic)?,
        subscription: String::from_str(alloc, subscription)?,
        sub_type: sub_type.into(),
        consumer_id,
        request_id,
        consumer_name: text(alloc, name)?,
        priority_level: options.priority_level,
        durable: options.durable,
        start_message_id: copy_message(&options.start_message_id)?,
        metadata: properties_of(alloc, &options.metadata)?,
        read_compacted: Some(options.read_compacted.unwrap_or(false)),
        schema: copy_message(&options.schema)?,
        initial_position: Some(options.initial_position.into()),
    };
    Ok(BaseCommand::with_body(Body::Subscribe(body)))
}

/// Allows the broker to deliver as many messages more. It takes no memory.
#[tactic(auto, unfolding(pulsar_wire::specs::Views::flow_values))]
pub fn flow(consumer_id: u64, permits: u32) -> Result<BaseCommand, NoMemory>
    ensures { (id : ℕ) → IsOkAnd result (λ c. command_values c
        ≡ command_of id (SendFlow consumer_id permits)) }
{
    let body = CommandFlow {
        consumer_id,
        message_permits: permits,
    };
    Ok(BaseCommand::with_body(Body::Flow(body)))
}

/// Acknowledges each of these messages, or all up to the one. It takes no memory.
#[tactic(auto, unfolding(pulsar_wire::specs::Views::ack_values))]
pub fn ack(
    consumer_id: u64,
    ids: Vec<MessageIdData>,
    cumulative: bool,
) -> Result<BaseCommand, NoMemory>
    ensures { (id : ℕ) → IsOkAnd result (λ c. command_values c
        ≡ command_of id (SendAck consumer_id (map message_id_values ids.items) cumulative)) }
{
    let body = CommandAck {
        consumer_id,
        ack_type: ack_type(cumulative),
        message_id: ids,
    };
    Ok(BaseCommand::with_body(Body::Ack(body)))
}

/// The type of an ack: each message by itself, or all up to the one.
fn ack_type(cumulative: bool) -> i32
    ensures { result ≡ ack_type cumulative }
{
    if cumulative { 1 } else { 0 }
}

/// Asks for these messages again, or for all that are not acknowledged where none is named. It takes no memory.
#[tactic(auto, unfolding(pulsar_wire::specs::Views::redeliver_unacknowledged_messages_values))]
pub fn redeliver_unacknowleged_messages(
    consumer_id: u64,
    ids: Vec<MessageIdData>,
) -> Result<BaseCommand, NoMemory>
    ensures { (id : ℕ) → IsOkAnd result (λ c. command_values c
        ≡ command_of id (SendRedeliver consumer_id (map message_id_values ids.items))) }
{
    let body = CommandRedeliverUnacknowledgedMessages {
        consumer_id,
        message_ids: ids,
    };
    Ok(BaseCommand::with_body(Body::RedeliverUnacknowledgedMessages(body)))
}

/// Moves a subscription to a message, or to the messages that were published at this moment, in milliseconds since 1970. It takes no
/// memory.
#[tactic(auto, unfolding(pulsar_wire::specs::Views::seek_values))]
pub fn seek(
    consumer_id: u64,
    request_id: u64,
    id: Option<MessageIdData>,
    time: Option<u64>,
) -> Result<BaseCommand, NoMemory>
    ensures { IsOkAnd result (λ c. command_values c
        ≡ command_of request_id (Seek consumer_id (option_map message_id_values id) time)) }
{
    let body = CommandSeek {
        consumer_id,
        request_id,
        message_id: id,
        message_publish_time: time,
    };
    Ok(BaseCommand::with_body(Body::Seek(body)))
}

/// Answers a challenge with a credential. It takes no memory.
#[tactic(auto, unfolding(pulsar_wire::specs::Views::auth_response_values, pulsar_wire::specs::Views::auth_data_values))]
pub fn auth_challenge(auth: Authentication) -> Result<BaseCommand, NoMemory>
    ensures { (id : ℕ) → IsOkAnd result (λ c. command_values c
        ≡ command_of id (AuthChallenge (authentication_values auth))) }
{
    let body = CommandAuthResponse {
        client_version: None,
        response: Some(AuthData {
            auth_method_name: Some(auth.name),
            auth_data: Some(auth.auth_data),
        }),
        protocol_version: None,
    };
    Ok(BaseCommand::with_body(Body::AuthResponse(body)))
}

/// A copy of a text that may be absent.
fn text(alloc: Global, text: Option<&str>) -> Result<Option<String>, NoMemory>
    ensures { IfOk result (λ copy. option_map string_bytes copy ≡ option_copied text.entry) }
{
    match text {
        Some(text) => Ok(Some(String::from_str(alloc, text)?)),
        None => Ok(None),
    }
}

/// A copy of bytes that may be absent.
fn bytes(alloc: Global, bytes: Option<&[u8]>) -> Result<Option<Vec<u8>>, NoMemory>
    ensures { IfOk result (λ copy. option_map (λ v. v.items) copy ≡ option_copied bytes.entry) }
{
    match bytes {
        Some(bytes) => Ok(Some(bytes.to_vec(alloc)?)),
        None => Ok(None),
    }
}
