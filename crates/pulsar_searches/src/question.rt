//! What a plan asks of a broker.

ghost use Rattle.std.specs.Prelude.{◌≡◌, IfOk, string_bytes};
ghost use Rattle.std.specs.Option.{option_map};
ghost use Rattle.pulsar_messages.specs.Content.{consumer_options_values, producer_options_values};
ghost use Rattle.pulsar_messages.specs.Words.{CreateProducer, LookupPartitionedTopic, LookupTopic, Subscribe};
ghost use Rattle.pulsar_searches.specs.Question.{words};

use pulsar_messages::{ConsumerOptions, ProducerOptions};
use pulsar_wire::commands::enumerations::SubType;
use pulsar_wire::encoding::copying::copy_optional;
use pulsar_wire::error::NoMemory;
use std::alloc::Global;
use std::marker::Model;

/// What a plan asks of a broker.
#[derive(Debug, Drop)]
pub enum Question {
    /// Asks which broker serves a topic.
    LookupTopic {
        topic: String,
        authoritative: bool,
    },
    /// Asks how many partitions a topic has.
    LookupPartitionedTopic {
        topic: String,
    },
    /// Makes a producer on a topic.
    CreateProducer {
        topic: String,
        producer_id: u64,
        name: Option<String>,
        options: ProducerOptions,
    },
    /// Makes a consumer on a topic.
    Subscribe {
        topic: String,
        subscription: String,
        sub_type: SubType,
        consumer_id: u64,
        name: Option<String>,
        options: ConsumerOptions,
    },
}

impl Question {
    /// A question with the same content.
    pub fn copy(&self) -> Result<Question, NoMemory>
        ensures { IfOk result (λ q. words q ≡ words self.now) }
    {
        match self {
            Question::LookupTopic {
                topic,
                authoritative,
            } => Ok(Question::LookupTopic {
                topic: topic.clone()?,
                authoritative: *authoritative,
            }),
            Question::LookupPartitionedTopic { topic } => Ok(Question::LookupPartitionedTopic {
                topic: topic.clone()?,
            }),
            Question::CreateProducer {
                topic,
                producer_id,
                name,
                options,
            } => copy_create_producer(topic, *producer_id, name, options),
            Question::Subscribe {
                topic,
                subscription,
                sub_type,
                consumer_id,
                name,
                options,
            } => copy_subscribe(topic, subscription, *sub_type, *consumer_id, name, options),
        }
    }
}

fn copy_create_producer(
    topic: &String,
    producer_id: u64,
    name: &Option<String>,
    options: &ProducerOptions,
) -> Result<Question, NoMemory>
    ensures { IfOk result (λ q. words q ≡ CreateProducer (string_bytes topic.now) producer_id (option_map string_bytes name.now)
        (producer_options_values options.now)) }
{
    Ok(Question::CreateProducer {
        topic: topic.clone()?,
        producer_id,
        name: copy_optional(name)?,
        options: options.copy()?,
    })
}

fn copy_subscribe(
    topic: &String,
    subscription: &String,
    sub_type: SubType,
    consumer_id: u64,
    name: &Option<String>,
    options: &ConsumerOptions,
) -> Result<Question, NoMemory>
    ensures { IfOk result (λ q. words q ≡ Subscribe (string_bytes topic.now) (string_bytes subscription.now) sub_type consumer_id
        (option_map string_bytes name.now) (consumer_options_values options.now)) }
{
    Ok(Question::Subscribe {
        topic: topic.clone()?,
        subscription: subscription.clone()?,
        sub_type,
        consumer_id,
        name: copy_optional(name)?,
        options: options.copy()?,
    })
}

/// What a plan asks of a broker, in a box. Contracts see it by its words.
pub struct Request {
    question: Box<Question>,
}

impl Drop for Request {
    fn drop(self) {
        let Request { question: _ } = self;
    }
}

impl Model for Request {
    ghost use Rattle.pulsar_messages.specs.Words.{Words};
    ghost use Rattle.pulsar_searches.specs.Question.{words};

    ghost Value = { Words };

    ghost view = { λ r. words r.question.value };
}

impl Request {
    /// This question.
    pub fn new(alloc: Global, question: Question) -> Result<Request, NoMemory>
        ensures { IfOk result (λ r. r ≡ words question) }
    {
        let question = Box::new(alloc, question)?;
        Ok(Request { question })
    }

    /// Asks which broker serves a topic.
    pub fn lookup_topic(
        alloc: Global,
        topic: &str,
        authoritative: bool,
    ) -> Result<Request, NoMemory>
        ensures { IfOk result (λ r. r ≡ LookupTopic topic.now authoritative) }
    {
        let topic = String::from_str(alloc, topic)?;
        Request::new(
            alloc,
            Question::LookupTopic {
                topic,
                authoritative,
            },
        )
    }

    /// Asks how many partitions a topic has.
    pub fn lookup_partitioned_topic(alloc: Global, topic: &str) -> Result<Request, NoMemory>
        ensures { IfOk result (λ r. r ≡ LookupPartitionedTopic topic.now) }
    {
        let topic = String::from_str(alloc, topic)?;
        Request::new(alloc, Question::LookupPartitionedTopic { topic })
    }

    /// The same question once more.
    pub fn copy(&self, alloc: Global) -> Result<Request, NoMemory>
        ensures { IfOk result (λ r. r ≡ self.now) }
    {
        Request::new(alloc, self.question.copy()?)
    }

    /// The question to be read.
    pub fn question(&self) -> &Question
        ensures { words result.now ≡ self.now }
    {
        &self.question
    }

    /// The question without its box.
    pub fn into_inner(self) -> Question
        ensures { words result ≡ self }
    {
        let Request { question } = self;
        Box::into_inner(question)
    }
}
