//! A producer as its user sees it.

ghost use Rattle.std.specs.Prelude.{◌≡◌, ◌⊎◌, map, Some, None, IfOk, MatchResult, OnOk, string_bytes};
ghost use Rattle.std.specs.Option.{option_map};
ghost use Rattle.pulsar_messages.specs.Content.{message_content, producer_options_values};
ghost use Rattle.pulsar_wire.specs.Failures.{failure};
ghost use Rattle.pulsar_outgoing.specs.Batch.{entry_of};
ghost use Rattle.pulsar_outgoing.specs.Errors.{IsNoMemory, no_such_index};
ghost use Rattle.pulsar_producer.specs.Dispatching.{dispatched, sent_as, stored_as};
ghost use Rattle.pulsar_producer.specs.Producer.{advice, after, is_single, made, names, number_for, number_on, topic_of};

use crate::routing::{CustomRoutingPolicy, Partition, PartitionedProducer};
use pulsar_addresses::content::{Refusal, Text};
use pulsar_messages::{Message, ProducerOptions};
use pulsar_outgoing::content::{Entry, Outgoing, Settings};
use pulsar_outgoing::failing::in_producer;
use pulsar_outgoing::multi_topic::{Dispatch, UserMessage};
use pulsar_outgoing::orders::Errand;
use pulsar_wire::error::{ConnectionError, Error, NoMemory, ProducerError, Reason};
use std::alloc::Global;
use std::marker::Model;

/// A producer of a topic: a single one, or one of several partitions.
pub struct Producer {
    topic: Text,
    settings: Settings,
    routes: PartitionedProducer,
}

impl Drop for Producer {
    fn drop(self) {
        let Producer {
            topic: _,
            settings: _,
            routes: _,
        } = self;
    }
}

impl Model for Producer {
    ghost use Rattle.pulsar_producer.specs.Producer.{Seen};

    ghost Value = { Seen };

    ghost view = { λ p. record { topic = p.topic; options = p.settings; routes = p.routes } };
}

impl Producer {
    /// The producer of these partitions, or of the one topic, where there is one. `last` is the index of the partition that counts as
    /// the last used one.
    pub fn new(
        topic: Text,
        settings: Settings,
        partitions: Vec<Partition>,
        last: usize,
    ) -> Option<Producer>
        ensures { result ≡ made topic settings partitions.items last }
    {
        let policy = settings.options().routing_policy;
        let routes = PartitionedProducer::new(partitions, policy, last)?;
        Some(Producer {
            topic,
            settings,
            routes,
        })
    }

    /// Its topic. A single one has the name that was found: that of the one partition, where its topic has one.
    pub fn topic(&self) -> &str
        ensures { result.now ≡ topic_of self.now }
    {
        match self.routes.as_slice() {
            [single] => single.name.as_str(),
            _ => self.topic.as_str(),
        }
    }

    /// The names of its partitions in order. A single producer has none.
    pub fn partitions(&self) -> Result<Option<Vec<String>>, NoMemory>
        ensures { IfOk result (λ ps. option_map (λ v. map string_bytes v.items) ps ≡ names self.now) }
    {
        if self.is_single() {
            return Ok(None);
        }
        Ok(Some(self.routes.names()?))
    }

    /// How it was made, and how it sends.
    pub fn options(&self) -> &ProducerOptions
        ensures { producer_options_values result.now ≡ self.now.options }
    {
        self.settings.options()
    }

    /// How it was made, for the commands that make its topic producers again.
    pub fn settings(&self) -> &Settings
        ensures { result.now ≡ self.now.options }
    {
        &self.settings
    }

    /// Its partitions in order, or the one topic.
    pub fn as_slice(&self) -> &[Partition]
        ensures { result.now ≡ self.now.routes.partitions }
    {
        self.routes.as_slice()
    }

    /// It has one partition, or its topic has none.
    pub fn is_single(&self) -> bool
        ensures { result ≡ is_single self.now }
    {
        self.routes.as_slice().len() == 1
    }

    /// The number of the topic producer that a message goes to. `policies` are those of the client.
    pub fn number_for(
        &mut self,
        message: &Message,
        policies: &[Box<dyn CustomRoutingPolicy>],
    ) -> Result<u64, Error>
        ensures number { MatchResult result
            (λ n. number_for (map (λ p. routes p) policies.now) (message_content message.now) self.old ≡ Some n)
            (λ e. IsNoMemory (failure e) ⊎ ((number_for (map (λ p. routes p) policies.now) (message_content message.now) self.old ≡ None)
            × (failure e ≡ no_such_index))) }
        ensures after { self.new ≡ after (message_content message.now) self.old }
    {
        let advice = self.advice(message, policies);
        match self.target(message, advice) {
            Some(number) => Ok(number),
            None => Err(self.routes.no_such_index()),
        }
    }

    /// What the policy of the client says of a message, where the producer has such a policy: an index that is there. It takes no memory.
    pub fn advice(
        &self,
        message: &Message,
        policies: &[Box<dyn CustomRoutingPolicy>],
    ) -> Option<usize>
        ensures { result ≡ advice (map (λ p. routes p) policies.now) (message_content message.now) self.now }
    {
        if self.is_single() {
            return None;
        }
        self.routes.advice(message, policies)
    }

    /// The number of the topic producer that a message goes to by this advice, where it is there. It takes no memory.
    pub fn target(&mut self, message: &Message, advice: Option<usize>) -> Option<u64>
        ensures number { result ≡ number_on advice (message_content message.now) self.old }
        ensures after { self.new ≡ after (message_content message.now) self.old }
    {
        let index = if self.is_single() {
            Some(0)
        } else {
            self.routes.choose_on(message, advice)
        };
        self.routes.number_at(index)
    }

    /// It takes a message by this advice: that is sent by itself, or stored where messages are sent in batches. It is refused where there is
    /// no partition for it, and where it is to be stored and its payload is too large for a batch.
    pub fn dispatch(
        &mut self,
        alloc: Global,
        message: UserMessage,
        advice: Option<usize>,
    ) -> Result<Result<Dispatch, Refusal>, NoMemory>
        ensures dispatch { IfOk result (λ d. d ≡ dispatched advice message self.old) }
        ensures after { OnOk result (self.new ≡ after message self.old) }
    {
        let batches = self.settings.is_batching();
        let block = self.settings.options().block_queue_if_full;
        match self.target(message.message(), advice) {
            Some(producer) => dispatch(alloc, batches, Errand { producer, block }, message),
            None => Ok(Err(no_partition(alloc)?)),
        }
    }
}

/// A message is sent by itself, or stored.
fn dispatch(
    alloc: Global,
    batches: bool,
    errand: Errand,
    message: UserMessage,
) -> Result<Result<Dispatch, Refusal>, NoMemory>
    ensures { IfOk result (λ d. d ≡ sent_as batches errand.block errand.producer message) }
{
    if batches {
        return store(alloc, errand.producer, message.into_inner());
    }
    let message = Outgoing::of_message(alloc, message.into_inner())?;
    Ok(Ok(Dispatch::Send { errand, message }))
}

/// A message is stored, unless its payload is too large for a batch.
fn store(
    alloc: Global,
    number: u64,
    message: Message,
) -> Result<Result<Dispatch, Refusal>, NoMemory>
    ensures { IfOk result (λ d. d ≡ stored_as number (entry_of (message_content message))) }
{
    match Entry::of_message(alloc, message)? {
        Some(entry) => Ok(Ok(Dispatch::Store { number, entry })),
        None => Ok(Err(in_producer(alloc, ConnectionError::Encoding(Reason::Batch))?)),
    }
}

/// A policy, or the partition that it names, is not there.
fn no_partition(alloc: Global) -> Result<Refusal, NoMemory>
    ensures { IfOk result (λ r. r ≡ no_such_index) }
{
    let text = String::from_str(alloc, "routing index out of range")?;
    Refusal::new(alloc, Error::Producer(ProducerError::Custom(text)))
}
