//! The messages that a client writes.

ghost use Rattle.std.specs.Prelude.{◌≡◌, ℕ, Bool, Some, IfOk, IsOkAnd, map, string_bytes};
ghost use Rattle.std.specs.Option.{option_copied, option_map};
ghost use Rattle.pulsar_wire.specs.Views.{command_values, message_id_values};
ghost use Rattle.pulsar_frame.specs.Shown.{message_values};
ghost use Rattle.pulsar_messages.specs.Content.{authentication_values, consumer_options_values, producer_message_values, producer_options_values};
ghost use Rattle.pulsar_messages.specs.Messages.{connect_command};
ghost use Rattle.pulsar_messages.specs.Words.{AuthChallenge, CloseConsumer, CloseConsumerUnawaited, CloseProducer, CreateProducer, GetConsumerStats, GetLastMessageId, GetSchema, GetTopicsOfNamespace, LookupPartitionedTopic, LookupTopic, Seek, Send, SendAck, SendFlow, SendPing, SendPong, SendRedeliver, Subscribe, Unsubscribe};
ghost use Rattle.pulsar_session.specs.Link.{bare, message_of};

use crate::frames::whole;
use pulsar_frame::message::Message;
use pulsar_messages::{
    Authentication, ConsumerOptions, ProducerMessage, ProducerOptions, messages as builders,
};
use pulsar_wire::commands::base::BaseCommand;
use pulsar_wire::commands::enumerations::SubType;
use pulsar_wire::commands::ids::MessageIdData;
use pulsar_wire::commands::topics::Mode;
use pulsar_wire::error::NoMemory;
use std::alloc::Global;

/// What a client says first on a connection.
pub fn connect(
    alloc: Global,
    auth: Option<Authentication>,
    proxy: Option<&str>,
) -> Result<Message, NoMemory>
    ensures { IfOk result (λ m. message_values m ≡ bare (connect_command (option_map authentication_values auth) (option_copied proxy.entry))) }
{
    without_payload(builders::connect(alloc, auth, proxy))
}

/// Asks for a pong.
pub fn ping() -> Result<Message, NoMemory>
    ensures { IfOk result (λ m. (id now : ℕ) → message_values m ≡ message_of id now SendPing) }
{
    without_payload(builders::ping())
}

/// Answers a ping.
pub fn pong() -> Result<Message, NoMemory>
    ensures { IfOk result (λ m. (id now : ℕ) → message_values m ≡ message_of id now SendPong) }
{
    without_payload(builders::pong())
}

/// Makes a producer on a topic. The broker names it where no name is given.
pub fn create_producer(
    alloc: Global,
    topic: &str,
    name: Option<&str>,
    producer_id: u64,
    request_id: u64,
    options: &ProducerOptions,
) -> Result<Message, NoMemory>
    ensures { IfOk result (λ m. (now : ℕ) → message_values m
        ≡ message_of request_id now
        (CreateProducer topic.now producer_id (option_copied name.entry) (producer_options_values options.now))) }
{
    without_payload(builders::create_producer(alloc, topic, name, producer_id, request_id, options))
}

/// Asks for the topics of a namespace.
pub fn get_topics_of_namespace(
    alloc: Global,
    request_id: u64,
    namespace: &str,
    mode: Mode,
) -> Result<Message, NoMemory>
    ensures { IfOk result (λ m. (now : ℕ) → message_values m
        ≡ message_of request_id now
        (GetTopicsOfNamespace namespace.now mode)) }
{
    without_payload(builders::get_topics_of_namespace(alloc, request_id, namespace, mode))
}

/// Asks for a schema of a topic, the newest where no version is given.
pub fn get_schema(
    alloc: Global,
    request_id: u64,
    topic: &str,
    version: Option<&[u8]>,
) -> Result<Message, NoMemory>
    ensures { IfOk result (λ m. (now : ℕ) → message_values m
        ≡ message_of request_id now
        (GetSchema topic.now (option_copied version.entry))) }
{
    without_payload(builders::get_schema(alloc, request_id, topic, version))
}

/// Asks which broker serves a topic.
pub fn lookup_topic(
    alloc: Global,
    topic: &str,
    authoritative: bool,
    request_id: u64,
) -> Result<Message, NoMemory>
    ensures { IfOk result (λ m. (now : ℕ) → message_values m
        ≡ message_of request_id now
        (LookupTopic topic.now authoritative)) }
{
    without_payload(builders::lookup_topic(alloc, topic, authoritative, request_id))
}

/// Asks how many partitions a topic has.
pub fn lookup_partitioned_topic(
    alloc: Global,
    topic: &str,
    request_id: u64,
) -> Result<Message, NoMemory>
    ensures { IfOk result (λ m. (now : ℕ) → message_values m
        ≡ message_of request_id now
        (LookupPartitionedTopic topic.now)) }
{
    without_payload(builders::lookup_partitioned_topic(alloc, topic, request_id))
}

/// Asks how a consumer fares.
pub fn consumer_stats(request_id: u64, consumer_id: u64) -> Result<Message, NoMemory>
    ensures { IfOk result (λ m. (now : ℕ) → message_values m
        ≡ message_of request_id now
        (GetConsumerStats consumer_id)) }
{
    without_payload(builders::consumer_stats(request_id, consumer_id))
}

/// Asks for the last message of a topic.
pub fn get_last_message_id(consumer_id: u64, request_id: u64) -> Result<Message, NoMemory>
    ensures { IfOk result (λ m. (now : ℕ) → message_values m
        ≡ message_of request_id now
        (GetLastMessageId consumer_id)) }
{
    without_payload(builders::get_last_message_id(consumer_id, request_id))
}

/// Ends a consumer.
pub fn close_consumer(consumer_id: u64, request_id: u64) -> Result<Message, NoMemory>
    ensures { IfOk result (λ m. (now : ℕ) → message_values m
        ≡ message_of request_id now
        (CloseConsumer consumer_id)) }
{
    without_payload(builders::close_consumer(consumer_id, request_id))
}

/// Ends a subscription.
pub fn unsubscribe(consumer_id: u64, request_id: u64) -> Result<Message, NoMemory>
    ensures { IfOk result (λ m. (now : ℕ) → message_values m
        ≡ message_of request_id now
        (Unsubscribe consumer_id)) }
{
    without_payload(builders::unsubscribe(consumer_id, request_id))
}

/// Ends a producer.
pub fn close_producer(producer_id: u64, request_id: u64) -> Result<Message, NoMemory>
    ensures { IfOk result (λ m. (now : ℕ) → message_values m
        ≡ message_of request_id now
        (CloseProducer producer_id)) }
{
    without_payload(builders::close_producer(producer_id, request_id))
}

/// Makes a consumer on a subscription of a topic.
pub fn subscribe(
    alloc: Global,
    topic: &str,
    subscription: &str,
    sub_type: SubType,
    consumer_id: u64,
    request_id: u64,
    name: Option<&str>,
    options: &ConsumerOptions,
) -> Result<Message, NoMemory>
    ensures { IfOk result (λ m. (now : ℕ) → message_values m
        ≡ message_of request_id now
        (Subscribe topic.now subscription.now sub_type consumer_id (option_copied name.entry) (consumer_options_values options.now))) }
{
    without_payload(builders::subscribe(
        alloc,
        topic,
        subscription,
        sub_type,
        consumer_id,
        request_id,
        name,
        options,
    ))
}

/// Allows the broker to deliver as many messages more.
pub fn flow(consumer_id: u64, permits: u32) -> Result<Message, NoMemory>
    ensures { IfOk result (λ m. (id now : ℕ) → message_values m
        ≡ message_of id now
        (SendFlow consumer_id permits)) }
{
    without_payload(builders::flow(consumer_id, permits))
}

/// Acknowledges these messages, or all up to each of them.
pub fn ack(consumer_id: u64, ids: Vec<MessageIdData>, cumulative: bool) -> Result<Message, NoMemory>
    ensures { IfOk result (λ m. (id now : ℕ) → message_values m
        ≡ message_of id now
        (SendAck consumer_id (map message_id_values ids.items) cumulative)) }
{
    without_payload(builders::ack(consumer_id, ids, cumulative))
}

/// Asks for these messages again.
pub fn redeliver_unacknowleged_messages(
    consumer_id: u64,
    ids: Vec<MessageIdData>,
) -> Result<Message, NoMemory>
    ensures { IfOk result (λ m. (id now : ℕ) → message_values m
        ≡ message_of id now
        (SendRedeliver consumer_id (map message_id_values ids.items))) }
{
    without_payload(builders::redeliver_unacknowleged_messages(consumer_id, ids))
}

/// Moves a subscription to a message, or to a moment.
pub fn seek(
    consumer_id: u64,
    request_id: u64,
    id: Option<MessageIdData>,
    time: Option<u64>,
) -> Result<Message, NoMemory>
    ensures { IfOk result (λ m. (now : ℕ) → message_values m
        ≡ message_of request_id now
        (Seek consumer_id (option_map message_id_values id) time)) }
{
    without_payload(builders::seek(consumer_id, request_id, id, time))
}

/// Answers a challenge of the broker.
pub fn auth_challenge(auth: Authentication) -> Result<Message, NoMemory>
    ensures { IfOk result (λ m. (id now : ℕ) → message_values m
        ≡ message_of id now
        (AuthChallenge (authentication_values auth))) }
{
    without_payload(builders::auth_challenge(auth))
}

/// Sends a message of a producer. `publish_time` is in milliseconds since 1970.
pub fn send(
    alloc: Global,
    producer_id: u64,
    name: &str,
    sequence_id: u64,
    message: ProducerMessage,
    publish_time: u64,
) -> Result<Message, NoMemory>
    ensures { IfOk result (λ m. (id : ℕ) (block : Bool) → message_values m
        ≡ message_of id publish_time
        (Send producer_id name.now sequence_id (producer_message_values message) block)) }
{
    match builders::send(alloc, producer_id, name, sequence_id, message, publish_time) {
        Ok(parts) => Ok(whole(parts)),
        Err(_) => Err(NoMemory),
    }
}

/// A text that may be absent.
pub fn text(text: &Option<String>) -> Option<&str>
    ensures { option_copied result ≡ option_map string_bytes text.now }
{
    match text {
        Some(text) => Some(text.as_str()),
        None => None,
    }
}

/// The message of a command that was made.
fn without_payload(command: Result<BaseCommand, NoMemory>) -> Result<Message, NoMemory>
    ensures { IfOk result (λ m. IsOkAnd command (λ c. message_values m ≡ bare (command_values c))) }
{
    match command {
        Ok(command) => Ok(Message {
            command,
            payload: None,
        }),
        Err(_) => Err(NoMemory),
    }
}
