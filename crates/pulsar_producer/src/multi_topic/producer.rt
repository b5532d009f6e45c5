//! A producer of many topics as a passive object: the producers of its topics, and in whose turn they are used.

ghost use Rattle.std.specs.Prelude.{◌≡◌, ◌++◌, IfOk, OnOk, map, string_bytes, option_copied};
ghost use Rattle.std.specs.Option.{option_map};
ghost use Rattle.pulsar_messages.specs.Content.{message_content, producer_options_values};
ghost use Rattle.pulsar_producer.specs.MultiKept.{named, taken_by};
ghost use Rattle.pulsar_producer.specs.MultiTopic.{Hands, Joins, Passes, Removes, Takes, advice, after, found, fresh, handed, is_free, joined, names, next_holder, order_for, removed, routed};

use crate::producer::Producer;
use crate::routing::CustomRoutingPolicy;
use pulsar_addresses::content::{Refusal, Text};
use pulsar_messages::{Message, ProducerOptions};
use pulsar_outgoing::content::Settings;
use pulsar_outgoing::multi_topic::{Dispatch, Handing, Missing, MultiSaid, Taker, UserMessage};
use pulsar_outgoing::orders::ProducerOrder;
use pulsar_wire::error::NoMemory;
use std::alloc::Global;
use std::collections::{BTreeMap, VecDeque};
use std::marker::Model;

/// A producer of many topics. It has a producer for each topic to which something was sent.
pub struct MultiTopicProducer {
    name: Option<Text>,
    settings: Settings,
    topics: BTreeMap<String, Producer>,
    holder: Option<Taker>,
    waiting: VecDeque<Taker>,
}

impl Drop for MultiTopicProducer {
    fn drop(self) {
        let MultiTopicProducer {
            name: _,
            settings: _,
            topics: _,
            holder: _,
            waiting: _,
        } = self;
    }
}

impl Model for MultiTopicProducer {
    ghost use Rattle.pulsar_producer.specs.MultiKept.{multi_seen_of};
    ghost use Rattle.pulsar_producer.specs.MultiTopic.{Seen};

    ghost Value = { Seen };

    ghost view = { multi_seen_of };
}

impl MultiTopicProducer {
    /// One without topics. Its producers are made with this name and in this way.
    pub fn new(alloc: Global, name: Option<Text>, settings: Settings) -> MultiTopicProducer
        ensures { result ≡ fresh name settings }
    {
        MultiTopicProducer {
            name,
            settings,
            topics: BTreeMap::new(alloc),
            holder: None,
            waiting: VecDeque::new(alloc),
        }
    }

    /// How its producers are made, and how they send.
    pub fn options(&self) -> &ProducerOptions
        ensures { producer_options_values result.now ≡ self.now.options }
    {
        self.settings.options()
    }

    /// The same, for the commands that make their topic producers again.
    pub fn settings(&self) -> &Settings
        ensures { result.now ≡ self.now.options }
    {
        &self.settings
    }

    /// The topics that it has a producer for, in the order of texts.
    pub fn topics(&self) -> Result<Vec<String>, NoMemory>
        ensures { IfOk result (λ ts. map string_bytes ts.items ≡ names self.now) }
    {
        topics_in(*self.waiting.allocator(), &self.topics)
    }

    /// The producer of a topic, where there is one.
    pub fn producer(&self, topic: &str) -> Option<&Producer>
        ensures { option_copied result ≡ found topic.now self.now.topics }
    {
        producer_in(&self.topics, topic)
    }

    /// What the policy of the client says of a message for a topic, where the producer of that is there and has such a policy: an index
    /// that is there. It takes no memory.
    pub fn advice(
        &self,
        topic: &str,
        message: &Message,
        policies: &[Box<dyn CustomRoutingPolicy>],
    ) -> Option<usize>
        ensures { result ≡ advice (map (λ p. routes p) policies.now) topic.now (message_content message.now) self.now }
    {
        let producer = self.producer(topic)?;
        producer.advice(message, policies)
    }

    /// Those that wait for their turn, in the order in which they came.
    pub fn waiting(&self) -> &VecDeque<Taker>
        ensures { result.now.items ≡ self.now.waiting }
    {
        &self.waiting
    }

    /// One wants its turn. It has it at once where nobody has it, and waits otherwise.
    pub fn take_turn(&mut self, taker: Taker) -> Result<bool, NoMemory>
        ensures has { IfOk result (λ has. has ≡ is_free self.old) }
        ensures after { OnOk result (self.new ≡ after (Takes taker) self.old) }
    {
        if self.holder.is_none() {
            self.holder = Some(taker);
            Ok(true)
        } else {
            self.waiting.push_back(taker)?;
            Ok(false)
        }
    }

    /// The turn is over. The answer says who has it now.
    pub fn pass_turn(&mut self) -> Option<Taker>
        ensures next { result ≡ next_holder self.old }
        ensures after { self.new ≡ after Passes self.old }
    {
        self.holder = self.waiting.pop_front();
        self.holder
    }

    /// A message goes to the producer of its topic, which takes it by this advice, or refuses it. Where there is none, the message is given
    /// back, with how the producer is to be built.
    pub fn hand(
        &mut self,
        alloc: Global,
        handing: Handing,
        advice: Option<usize>,
    ) -> Result<MultiSaid, NoMemory>
        ensures said { IfOk result (λ said. said ≡ handed advice handing self.old) }
        ensures after { OnOk result (self.new ≡ after (Hands handing.topic handing.message) self.old) }
    {
        let Handing { topic, message } = handing;
        match hand_in(&mut self.topics, alloc, topic.as_str(), message, advice)? {
            Ok(given) => Ok(MultiSaid::Handed(given)),
            Err(message) => self.misses(alloc, topic, message),
        }
    }

    /// There is no producer of this topic: how one is built.
    fn misses(
        &self,
        alloc: Global,
        topic: Text,
        message: UserMessage,
    ) -> Result<MultiSaid, NoMemory>
        ensures { IfOk result (λ said. said ≡ MultiSaid.Absent (record { order = order_for topic self.now; message = message })) }
    {
        let order = self.order(alloc, topic)?;
        Ok(MultiSaid::Absent(Missing { order, message }))
    }

    /// How the producer of a topic is built.
    fn order(&self, alloc: Global, topic: Text) -> Result<ProducerOrder, NoMemory>
        ensures { IfOk result (λ o. o ≡ order_for topic self.now) }
    {
        let name = match &self.name {
            Some(name) => Some(name.copy()?),
            None => None,
        };
        Ok(ProducerOrder {
            topic,
            name,
            options: self.settings.copy(alloc)?,
        })
    }

    /// The producer of a topic was built.
    pub fn join(&mut self, topic: Text, producer: Producer) -> Result<(), NoMemory>
        ensures { OnOk result (self.new ≡ after (Joins topic producer) self.old) }
    {
        put(&mut self.topics, topic.into_inner(), producer)
    }

    /// There is no producer of this topic any longer. The answer is the one that there was.
    pub fn remove(&mut self, topic: &str) -> Option<Producer>
        ensures producer { result ≡ found topic.now self.old.topics }
        ensures after { self.new ≡ after (Removes topic.now) self.old }
    {
        take(&mut self.topics, topic)
    }
}

/// The producer of a topic, where there is one.
fn producer_in<'a>(topics: &'a BTreeMap<String, Producer>, topic: &str) -> Option<&'a Producer>
    ensures { option_copied result ≡ found topic.now (map named topics.now.entries) }
{
    topics.get(topic)
}

fn topics_in(alloc: Global, topics: &BTreeMap<String, Producer>) -> Result<Vec<String>, NoMemory>
    ensures { IfOk result (λ ts. map string_bytes ts.items ≡ map (λ e. e.0) (map named topics.now.entries)) }
{
    let mut names = Vec::new(alloc);
    for (name, _) in topics {
        names.push(name.clone()?)?;
    }
    Ok(names)
}

/// The producer of a topic takes a message, or refuses it. Where there is none the message is given back.
fn hand_in(
    topics: &mut BTreeMap<String, Producer>,
    alloc: Global,
    topic: &str,
    message: UserMessage,
    advice: Option<usize>,
) -> Result<Result<Result<Dispatch, Refusal>, UserMessage>, NoMemory>
    ensures given { IfOk result (λ r. r ≡ taken_by (found topic.now (map named topics.old.entries)) advice message) }
    ensures after { OnOk result (map named topics.new.entries ≡ routed topic.now message (map named topics.old.entries)) }
{
    match topics.get_mut(topic) {
        Some(producer) => Ok(Ok(producer.dispatch(alloc, message, advice)?)),
        None => Ok(Err(message)),
    }
}

fn put(
    topics: &mut BTreeMap<String, Producer>,
    topic: String,
    producer: Producer,
) -> Result<(), NoMemory>
    ensures { OnOk result (map named topics.new.entries ≡ joined (string_bytes topic) producer (map named topics.old.entries)) }
{
    topics.insert(topic, producer)?;
    Ok(())
}

fn take(topics: &mut BTreeMap<String, Producer>, topic: &str) -> Option<Producer>
    ensures producer { result ≡ found topic.now (map named topics.old.entries) }
    ensures left { map named topics.new.entries ≡ removed topic.now (map named topics.old.entries) }
{
    topics.remove(topic)
}
