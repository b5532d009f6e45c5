//! What machines are told, and what they say.

ghost use Rattle.std.specs.Prelude.{◌≡◌, IfOk, string_bytes};
ghost use Rattle.std.specs.Option.{option_map};
ghost use Rattle.pulsar_messages.specs.Content.{consumer_options_values, producer_options_values};
ghost use Rattle.pulsar_messages.specs.Words.{CreateProducer, LookupPartitionedTopic, LookupTopic, Subscribe};
ghost use Rattle.pulsar_frame.specs.Shown.{message_values};
ghost use Rattle.pulsar_session.specs.Link as link;
ghost use Rattle.pulsar_discovery.specs.Machine.{answer_of, told_link};
ghost use Rattle.pulsar_discovery.specs.Machine as meaning;
ghost use Rattle.pulsar_searches.specs.Question.{words};

use pulsar_addresses::address::BrokerAddress;
use pulsar_addresses::content::Cause;
use pulsar_frame::message::Message;
use pulsar_frame::received::Received;
use pulsar_messages::{ConsumerOptions, ProducerOptions};
use pulsar_searches::making::Served;
use pulsar_searches::plan::Answer;
use pulsar_searches::question::Question;
use pulsar_searches::turn::SearchOutcome as Happened;
use pulsar_session::messages::{self, text};
use pulsar_wire::commands::enumerations::SubType;
use pulsar_wire::error::{ConnectionError, Error, NoMemory};
use std::alloc::Global;

/// What a machine is told.
#[derive(Drop)]
pub enum Outcome {
    /// It begins.
    Start,
    /// The ready link of the address that it wanted, or why there is none.
    Link(Result<u64, ConnectionError>),
    /// What settles the request that it asked.
    Reply(Message),
    /// Why its request has no reply.
    Failed(ConnectionError),
    /// The moment for which it waited came.
    Moment,
}

/// What a machine found.
#[derive(Drop)]
pub enum Found {
    Address(BrokerAddress),
    Count(u32),
    Addresses(Vec<(String, BrokerAddress)>),
    /// The link of a command, and the reply that answers it.
    Reply(u64, Message),
}

/// What is to be done next.
#[derive(Drop)]
pub enum Next {
    /// A ready link of the address is to be got.
    Get(BrokerAddress),
    /// The message is to be asked on the link, which gives it another request number.
    Ask(u64, Message),
    /// So long is to be waited, in milliseconds.
    Wait(u64),
    Done(Found),
    Refuse(Error),
}

/// What a machine is told, by its content: it begins, or an outcome of what it said.
#[derive(Drop)]
pub enum Told {
    Begun,
    Then(Happened),
}

/// What an outcome tells.
pub fn content_of(alloc: Global, outcome: Outcome) -> Result<Told, NoMemory>
    ensures { IfOk result (λ t. t ≡ meaning.told outcome) }
{
    match outcome {
        Outcome::Start => Ok(Told::Begun),
        Outcome::Link(link) => Ok(Told::Then(of_link(alloc, link)?)),
        Outcome::Reply(message) => Ok(Told::Then(Happened::Replied(Received::new(
            alloc, message,
        )?))),
        Outcome::Failed(e) => Ok(Told::Then(Happened::Failed(Cause::new(alloc, e)?))),
        Outcome::Moment => Ok(Told::Then(Happened::Woken)),
    }
}

fn of_link(alloc: Global, link: Result<u64, ConnectionError>) -> Result<Happened, NoMemory>
    ensures { IfOk result (λ o. o ≡ told_link link) }
{
    match link {
        Ok(link) => Ok(Happened::GotLink(link)),
        Err(e) => Ok(Happened::Failed(Cause::new(alloc, e)?)),
    }
}

/// What a plan found.
pub fn found_by(answer: Answer) -> Found
    ensures { answer_of result ≡ answer }
{
    match answer {
        Answer::Address(address) => Found::Address(address.into_inner()),
        Answer::Count(count) => Found::Count(count),
        Answer::Addresses(names) => Found::Addresses(names.into_inner()),
        Answer::Reply(Served { link, reply }) => Found::Reply(link, reply.into_message()),
    }
}

/// A question as a message with the request number 0.
pub fn message_of(alloc: Global, question: &Question) -> Result<Message, NoMemory>
    ensures { IfOk result (λ m. message_values m ≡ link.message_of 0 0 (words question.now)) }
{
    match question {
        Question::LookupTopic {
            topic,
            authoritative,
        } => Ok(lookup_topic(alloc, topic, *authoritative)?),
        Question::LookupPartitionedTopic { topic } => Ok(lookup_partitioned_topic(alloc, topic)?),
        Question::CreateProducer {
            topic,
            producer_id,
            name,
            options,
        } => Ok(create_producer(alloc, topic, *producer_id, name, options)?),
        Question::Subscribe {
            topic,
            subscription,
            sub_type,
            consumer_id,
            name,
            options,
        } => Ok(subscribe(
            alloc,
            topic,
            subscription,
            *sub_type,
            *consumer_id,
            name,
            options,
        )?),
    }
}

fn lookup_topic(alloc: Global, topic: &String, authoritative: bool) -> Result<Message, NoMemory>
    ensures { IfOk result (λ m. message_values m ≡ link.message_of 0 0 (LookupTopic (string_bytes topic.now) authoritative)) }
{
    let message = messages::lookup_topic(alloc, topic.as_str(), authoritative, 0)?;
    Ok(message)
}

fn lookup_partitioned_topic(alloc: Global, topic: &String) -> Result<Message, NoMemory>
    ensures { IfOk result (λ m. message_values m ≡ link.message_of 0 0 (LookupPartitionedTopic (string_bytes topic.now))) }
{
    let message = messages::lookup_partitioned_topic(alloc, topic.as_str(), 0)?;
    Ok(message)
}

fn create_producer(
    alloc: Global,
    topic: &String,
    producer_id: u64,
    name: &Option<String>,
    options: &ProducerOptions,
) -> Result<Message, NoMemory>
    ensures { IfOk result (λ m. message_values m ≡ link.message_of 0 0
        (CreateProducer (string_bytes topic.now) producer_id (option_map string_bytes name.now) (producer_options_values options.now))) }
{
    let message = messages::create_producer(
        alloc,
        topic.as_str(),
        text(name),
        producer_id,
        0,
        options,
    )?;
    Ok(message)
}

fn subscribe(
    alloc: Global,
    topic: &String,
    subscription: &String,
    sub_type: SubType,
    consumer_id: u64,
    name: &Option<String>,
    options: &ConsumerOptions,
) -> Result<Message, NoMemory>
    ensures { IfOk result (λ m. message_values m ≡ link.message_of 0 0
        (Subscribe (string_bytes topic.now) (string_bytes subscription.now) sub_type consumer_id (option_map string_bytes name.now)
        (consumer_options_values options.now))) }
{
    let message = messages::subscribe(
        alloc,
        topic.as_str(),
        subscription.as_str(),
        sub_type,
        consumer_id,
        0,
        text(name),
        options,
    )?;
    Ok(message)
}
