//! What a user asks of one connection.

ghost use Rattle.std.specs.Prelude.{◌≡◌, IfOk, string_bytes};
ghost use Rattle.std.specs.Option.{option_map};
ghost use Rattle.pulsar_messages.specs.Content.{consumer_options_values, producer_message_values, producer_options_values};
ghost use Rattle.pulsar_messages.specs.Words.{CreateProducer, Send, Subscribe};
ghost use Rattle.pulsar_exchange.specs.RawCall.{subscribed_by, words_of};
ghost use Rattle.pulsar_exchange.specs.Request.{closed_consumer, is_awaited, named_consumer, named_producer, request_number, subscribed};

use pulsar_messages::{Authentication, ConsumerOptions, ProducerMessage, ProducerOptions};
use pulsar_wire::bodies;
use pulsar_wire::commands::enumerations::SubType;
use pulsar_wire::commands::ids::MessageIdData;
use pulsar_wire::commands::topics::Mode;
use pulsar_wire::encoding::copying::{copy_message, copy_messages, copy_optional};
use pulsar_wire::error::NoMemory;

/// What a user asks of one connection. Producers and consumers have the numbers that the user gives them.
#[derive(Debug)]
pub enum RawCall {
    /// Sends a message of a producer. `block` says that it may wait for room.
    Send {
        producer_id: u64,
        name: String,
        sequence_id: u64,
        message: ProducerMessage,
        block: bool,
    },
    /// Asks for a pong.
    SendPing,
    /// Asks which broker serves a topic.
    LookupTopic {
        topic: String,
        authoritative: bool,
    },
    /// Asks how many partitions a topic has.
    LookupPartitionedTopic {
        topic: String,
    },
    /// Asks how a consumer fares.
    GetConsumerStats {
        consumer_id: u64,
    },
    /// Asks for the last message of a topic.
    GetLastMessageId {
        consumer_id: u64,
    },
    /// Makes a producer on a topic. The broker names it where no name is given.
    CreateProducer {
        topic: String,
        producer_id: u64,
        name: Option<String>,
        options: ProducerOptions,
    },
    /// Asks for the topics of a namespace.
    GetTopicsOfNamespace {
        namespace: String,
        mode: Mode,
    },
    /// Ends a producer.
    CloseProducer {
        producer_id: u64,
    },
    /// Makes a consumer on a subscription of a topic.
    Subscribe {
        topic: String,
        subscription: String,
        sub_type: SubType,
        consumer_id: u64,
        name: Option<String>,
        options: ConsumerOptions,
    },
    /// Allows the broker to deliver as many messages more.
    SendFlow {
        consumer_id: u64,
        permits: u32,
    },
    /// Acknowledges these messages, or all up to each of them.
    SendAck {
        consumer_id: u64,
        ids: Vec<MessageIdData>,
        cumulative: bool,
    },
    /// Asks for these messages again.
    SendRedeliver {
        consumer_id: u64,
        ids: Vec<MessageIdData>,
    },
    /// Ends a consumer.
    CloseConsumer {
        consumer_id: u64,
    },
    /// Moves a subscription to a message, or to a moment.
    Seek {
        consumer_id: u64,
        id: Option<MessageIdData>,
        time: Option<u64>,
    },
    /// Ends a subscription.
    Unsubscribe {
        consumer_id: u64,
    },
    /// Answers a challenge of the broker.
    AuthChallenge {
        auth: Authentication,
    },
    /// Asks for a schema of a topic, the newest where no version is given.
    GetSchema {
        topic: String,
        version: Option<Vec<u8>>,
    },
}

impl Drop for RawCall {
    fn drop(self) {
        match self {
            RawCall::Send {
                producer_id: _,
                name: _,
                sequence_id: _,
                message: _,
                block: _,
            }
            | RawCall::SendPing
            | RawCall::LookupTopic {
                topic: _,
                authoritative: _,
            }
            | RawCall::LookupPartitionedTopic { topic: _ }
            | RawCall::GetConsumerStats { consumer_id: _ }
            | RawCall::GetLastMessageId { consumer_id: _ }
            | RawCall::CreateProducer {
                topic: _,
                producer_id: _,
                name: _,
                options: _,
            }
            | RawCall::GetTopicsOfNamespace {
                namespace: _,
                mode: _,
            }
            | RawCall::CloseProducer { producer_id: _ }
            | RawCall::Subscribe {
                topic: _,
                subscription: _,
                sub_type: _,
                consumer_id: _,
                name: _,
                options: _,
            }
            | RawCall::SendFlow {
                consumer_id: _,
                permits: _,
            }
            | RawCall::SendAck {
                consumer_id: _,
                ids: _,
                cumulative: _,
            }
            | RawCall::SendRedeliver {
                consumer_id: _,
                ids: _,
            }
            | RawCall::CloseConsumer { consumer_id: _ }
            | RawCall::Seek {
                consumer_id: _,
                id: _,
                time: _,
            }
            | RawCall::Unsubscribe { consumer_id: _ }
            | RawCall::AuthChallenge { auth: _ }
            | RawCall::GetSchema {
                topic: _,
                version: _,
            } => {}
        }
    }
}

/// A consumer that a call makes, with all that is said of it.
#[derive(Drop)]
pub struct Subscription {
    pub topic: String,
    pub subscription: String,
    pub sub_type: SubType,
    /// Its number.
    pub consumer: u64,
    pub name: Option<String>,
    pub options: ConsumerOptions,
}

impl RawCall {
    /// A call with the same content.
    pub fn copy(&self) -> Result<RawCall, NoMemory>
        ensures { IfOk result (λ c. words_of c ≡ words_of self.now) }
    {
        match self {
            RawCall::Send {
                producer_id,
                name,
                sequence_id,
                message,
                block,
            } => copy_send(*producer_id, name, *sequence_id, message, *block),
            RawCall::SendPing => Ok(RawCall::SendPing),
            RawCall::LookupTopic {
                topic,
                authoritative,
            } => Ok(RawCall::LookupTopic {
                topic: topic.clone()?,
                authoritative: *authoritative,
            }),
            RawCall::LookupPartitionedTopic { topic } => Ok(RawCall::LookupPartitionedTopic {
                topic: topic.clone()?,
            }),
            RawCall::GetConsumerStats { consumer_id } => Ok(RawCall::GetConsumerStats {
                consumer_id: *consumer_id,
            }),
            RawCall::GetLastMessageId { consumer_id } => Ok(RawCall::GetLastMessageId {
                consumer_id: *consumer_id,
            }),
            RawCall::CreateProducer {
                topic,
                producer_id,
                name,
                options,
            } => copy_create_producer(topic, *producer_id, name, options),
            RawCall::GetTopicsOfNamespace { namespace, mode } => Ok(
                RawCall::GetTopicsOfNamespace {
                    namespace: namespace.clone()?,
                    mode: *mode,
                },
            ),
            RawCall::CloseProducer { producer_id } => Ok(RawCall::CloseProducer {
                producer_id: *producer_id,
            }),
            RawCall::Subscribe {
                topic,
                subscription,
                sub_type,
                consumer_id,
                name,
                options,
            } => copy_subscribe(topic, subscription, *sub_type, *consumer_id, name, options),
            RawCall::SendFlow {
                consumer_id,
                permits,
            } => Ok(RawCall::SendFlow {
                consumer_id: *consumer_id,
                permits: *permits,
            }),
            RawCall::SendAck {
                consumer_id,
                ids,
                cumulative,
            } => Ok(RawCall::SendAck {
                consumer_id: *consumer_id,
                ids: copy_messages(ids)?,
                cumulative: *cumulative,
            }),
            RawCall::SendRedeliver { consumer_id, ids } => Ok(RawCall::SendRedeliver {
                consumer_id: *consumer_id,
                ids: copy_messages(ids)?,
            }),
            RawCall::CloseConsumer { consumer_id } => Ok(RawCall::CloseConsumer {
                consumer_id: *consumer_id,
            }),
            RawCall::Seek {
                consumer_id,
                id,
                time,
            } => Ok(RawCall::Seek {
                consumer_id: *consumer_id,
                id: copy_message(id)?,
                time: *time,
            }),
            RawCall::Unsubscribe { consumer_id } => Ok(RawCall::Unsubscribe {
                consumer_id: *consumer_id,
            }),
            RawCall::AuthChallenge { auth } => Ok(RawCall::AuthChallenge { auth: auth.copy()? }),
            RawCall::GetSchema { topic, version } => Ok(RawCall::GetSchema {
                topic: topic.clone()?,
                version: copy_optional(version)?,
            }),
        }
    }

    /// The number of the body that is asked.
    pub fn number(&self) -> u32
        ensures { result ≡ request_number (words_of self.now) }
    {
        match self {
            RawCall::Send { .. } => bodies::SEND,
            RawCall::SendPing => bodies::PING,
            RawCall::LookupTopic { .. } => bodies::LOOKUP_TOPIC,
            RawCall::LookupPartitionedTopic { .. } => bodies::PARTITION_METADATA,
            RawCall::GetConsumerStats { .. } => bodies::CONSUMER_STATS,
            RawCall::GetLastMessageId { .. } => bodies::GET_LAST_MESSAGE_ID,
            RawCall::CreateProducer { .. } => bodies::PRODUCER,
            RawCall::GetTopicsOfNamespace { .. } => bodies::GET_TOPICS_OF_NAMESPACE,
            RawCall::CloseProducer { .. } => bodies::CLOSE_PRODUCER,
            RawCall::Subscribe { .. } => bodies::SUBSCRIBE,
            RawCall::SendFlow { .. } => bodies::FLOW,
            RawCall::SendAck { .. } => bodies::ACK,
            RawCall::SendRedeliver { .. } => bodies::REDELIVER_UNACKNOWLEDGED_MESSAGES,
            RawCall::CloseConsumer { .. } => bodies::CLOSE_CONSUMER,
            RawCall::Seek { .. } => bodies::SEEK,
            RawCall::Unsubscribe { .. } => bodies::UNSUBSCRIBE,
            RawCall::AuthChallenge { .. } => bodies::AUTH_RESPONSE,
            RawCall::GetSchema { .. } => bodies::GET_SCHEMA,
        }
    }

    /// Its answer is waited for.
    pub fn is_awaited(&self) -> bool
        ensures { result ≡ is_awaited (words_of self.now) }
    {
        match self {
            RawCall::SendFlow { .. }
            | RawCall::SendAck { .. }
            | RawCall::SendRedeliver { .. }
            | RawCall::AuthChallenge { .. } => false,
            RawCall::Send { .. }
            | RawCall::SendPing
            | RawCall::LookupTopic { .. }
            | RawCall::LookupPartitionedTopic { .. }
            | RawCall::GetConsumerStats { .. }
            | RawCall::GetLastMessageId { .. }
            | RawCall::CreateProducer { .. }
            | RawCall::GetTopicsOfNamespace { .. }
            | RawCall::CloseProducer { .. }
            | RawCall::Subscribe { .. }
            | RawCall::CloseConsumer { .. }
            | RawCall::Seek { .. }
            | RawCall::Unsubscribe { .. }
            | RawCall::GetSchema { .. } => true,
        }
    }

    /// The number of the consumer that is closed, where one is.
    pub fn closed_consumer(&self) -> Option<u64>
        ensures { result ≡ closed_consumer (words_of self.now) }
    {
        match self {
            RawCall::CloseConsumer { consumer_id } => Some(*consumer_id),
            _ => None,
        }
    }

    /// The number of the producer that it names, where it names one.
    pub fn named_producer(&self) -> Option<u64>
        ensures { result ≡ named_producer (words_of self.now) }
    {
        match self {
            RawCall::Send { producer_id, .. }
            | RawCall::CreateProducer { producer_id, .. }
            | RawCall::CloseProducer { producer_id } => Some(*producer_id),
            RawCall::SendPing
            | RawCall::LookupTopic { .. }
            | RawCall::LookupPartitionedTopic { .. }
            | RawCall::GetConsumerStats { .. }
            | RawCall::GetLastMessageId { .. }
            | RawCall::GetTopicsOfNamespace { .. }
            | RawCall::Subscribe { .. }
            | RawCall::SendFlow { .. }
            | RawCall::SendAck { .. }
            | RawCall::SendRedeliver { .. }
            | RawCall::CloseConsumer { .. }
            | RawCall::Seek { .. }
            | RawCall::Unsubscribe { .. }
            | RawCall::AuthChallenge { .. }
            | RawCall::GetSchema { .. } => None,
        }
    }

    /// The number of the consumer that it names, where it names one.
    pub fn named_consumer(&self) -> Option<u64>
        ensures { result ≡ named_consumer (words_of self.now) }
    {
        match self {
            RawCall::Subscribe { consumer_id, .. }
            | RawCall::SendFlow { consumer_id, .. }
            | RawCall::SendAck { consumer_id, .. }
            | RawCall::SendRedeliver { consumer_id, .. }
            | RawCall::Seek { consumer_id, .. }
            | RawCall::GetLastMessageId { consumer_id }
            | RawCall::GetConsumerStats { consumer_id }
            | RawCall::Unsubscribe { consumer_id }
            | RawCall::CloseConsumer { consumer_id } => Some(*consumer_id),
            RawCall::Send { .. }
            | RawCall::SendPing
            | RawCall::LookupTopic { .. }
            | RawCall::LookupPartitionedTopic { .. }
            | RawCall::CreateProducer { .. }
            | RawCall::GetTopicsOfNamespace { .. }
            | RawCall::CloseProducer { .. }
            | RawCall::AuthChallenge { .. }
            | RawCall::GetSchema { .. } => None,
        }
    }

    /// The consumer that its success makes, where it makes one.
    pub fn subscribed(&self) -> Result<Option<Subscription>, NoMemory>
        ensures { IfOk result (λ s. option_map subscribed_by s ≡ subscribed (words_of self.now)) }
    {
        match self {
            RawCall::Subscribe {
                topic,
                subscription,
                sub_type,
                consumer_id,
                name,
                options,
            } => Ok(Some(subscription_of(
                topic,
                subscription,
                *sub_type,
                *consumer_id,
                name,
                options,
            )?)),
            _ => Ok(None),
        }
    }
}

fn copy_send(
    producer_id: u64,
    name: &String,
    sequence_id: u64,
    message: &ProducerMessage,
    block: bool,
) -> Result<RawCall, NoMemory>
    ensures { IfOk result (λ c. words_of c ≡ Send producer_id (string_bytes name.now) sequence_id (producer_message_values message.now) block) }
{
    Ok(RawCall::Send {
        producer_id,
        name: name.clone()?,
        sequence_id,
        message: message.copy()?,
        block,
    })
}

fn copy_create_producer(
    topic: &String,
    producer_id: u64,
    name: &Option<String>,
    options: &ProducerOptions,
) -> Result<RawCall, NoMemory>
    ensures { IfOk result (λ c. words_of c ≡ CreateProducer (string_bytes topic.now) producer_id (option_map string_bytes name.now)
        (producer_options_values options.now)) }
{
    Ok(RawCall::CreateProducer {
        topic: topic.clone()?,
        producer_id,
        name: copy_optional(name)?,
        options: options.copy()?,
    })
}

fn copy_subscribe(
    topic: &String,
    subscription: &String,
    sub_type: SubType,
    consumer_id: u64,
    name: &Option<String>,
    options: &ConsumerOptions,
) -> Result<RawCall, NoMemory>
    ensures { IfOk result (λ c. words_of c ≡ Subscribe (string_bytes topic.now) (string_bytes subscription.now) sub_type consumer_id
        (option_map string_bytes name.now) (consumer_options_values options.now)) }
{
    Ok(RawCall::Subscribe {
        topic: topic.clone()?,
        subscription: subscription.clone()?,
        sub_type,
        consumer_id,
        name: copy_optional(name)?,
        options: options.copy()?,
    })
}

fn subscription_of(
    topic: &String,
    subscription: &String,
    sub_type: SubType,
    consumer: u64,
    name: &Option<String>,
    options: &ConsumerOptions,
) -> Result<Subscription, NoMemory>
    ensures { IfOk result (λ s. subscribed_by s ≡ record {
      topic = string_bytes topic.now;
      subscription = string_bytes subscription.now;
      sub_type = sub_type;
      consumer = consumer;
      name = option_map string_bytes name.now;
      options = consumer_options_values options.now;
    }) }
{
    Ok(Subscription {
        topic: topic.clone()?,
        subscription: subscription.clone()?,
        sub_type,
        consumer,
        name: copy_optional(name)?,
        options: options.copy()?,
    })
}
