//! A message by what is said of it.

ghost use Rattle.std.specs.Prelude.{◌≡◌, Some, Err, IfOk, OnOk, MatchResult, map, string_bytes};
ghost use Rattle.pulsar_messages.specs.Content.{property};
ghost use Rattle.pulsar_messages.specs.Message.{delayed, delivery, no_extras, put_property, with_extras};
ghost use Rattle.pulsar_messages.specs.Composed.{IsBuilt, extras};

use crate::producer_message::Message;
use crate::serialize::SerializeMessage;
use pulsar_wire::error::{Error, NoMemory};
use std::alloc::Global;
use std::collections::BTreeMap;

/// The greatest moment at which a message may be delivered, in milliseconds since 1970.
const LATEST: u64 = i64::MAX as u64;

/// A message for a producer: its content, and what is said of it. What the content says of itself is not sent.
#[derive(Drop)]
pub struct MessageBuilder<T> {
    alloc: Global,
    producer: u64,
    content: T,
    properties: BTreeMap<String, String>,
    partition_key: Option<String>,
    ordering_key: Option<Vec<u8>>,
    event_time: Option<u64>,
    deliver_at_time: Option<i64>,
}

impl MessageBuilder<()> {
    /// An empty message for the producer of this ticket.
    pub fn new(alloc: Global, producer: u64) -> MessageBuilder<()>
        ensures producer { result.producer ≡ producer }
        ensures extras { extras result ≡ no_extras }
    {
        MessageBuilder {
            alloc,
            producer,
            content: (),
            properties: BTreeMap::new(alloc),
            partition_key: None,
            ordering_key: None,
            event_time: None,
            deliver_at_time: None,
        }
    }
}

impl<T: Drop> MessageBuilder<T> {
    /// This content in place of the one before.
    pub fn with_content<C>(self, content: C) -> MessageBuilder<C>
        ensures producer { result.producer ≡ self.producer }
        ensures content { result.content ≡ content }
        ensures extras { extras result ≡ extras self }
    {
        let MessageBuilder {
            alloc,
            producer,
            content: _,
            properties,
            partition_key,
            ordering_key,
            event_time,
            deliver_at_time,
        } = self;
        MessageBuilder {
            alloc,
            producer,
            content,
            properties,
            partition_key,
            ordering_key,
            event_time,
            deliver_at_time,
        }
    }

    /// Messages of one key go to one partition.
    pub fn with_partition_key(mut self, key: &str) -> Result<Self, NoMemory>
        ensures producer { IfOk result (λ b. b.producer ≡ self.producer) }
        ensures content { IfOk result (λ b. b.content ≡ self.content) }
        ensures extras { IfOk result (λ b. extras b ≡ record (extras self) { partition_key = Some key.now }) }
    {
        self.partition_key = Some(String::from_str(self.alloc, key)?);
        Ok(self)
    }

    /// The same as `with_partition_key`.
    pub fn with_key(self, key: &str) -> Result<Self, NoMemory>
        ensures producer { IfOk result (λ b. b.producer ≡ self.producer) }
        ensures content { IfOk result (λ b. b.content ≡ self.content) }
        ensures extras { IfOk result (λ b. extras b ≡ record (extras self) { partition_key = Some key.now }) }
    {
        self.with_partition_key(key)
    }

    /// Messages of one key go to one consumer of a key-shared subscription.
    pub fn with_ordering_key(mut self, key: Vec<u8>) -> Self
        ensures producer { result.producer ≡ self.producer }
        ensures content { result.content ≡ self.content }
        ensures extras { extras result ≡ record (extras self) { ordering_key = Some key.items } }
    {
        self.ordering_key = Some(key);
        self
    }

    /// One property more; the last one of a key counts.
    pub fn with_property(mut self, key: &str, value: &str) -> Result<Self, NoMemory>
        ensures producer { IfOk result (λ b. b.producer ≡ self.producer) }
        ensures content { IfOk result (λ b. b.content ≡ self.content) }
        ensures extras { IfOk result (λ b. extras b
            ≡ record (extras self) { properties = put_property key.now value.now (extras self).properties }) }
    {
        add_property(self.alloc, &mut self.properties, key, value)?;
        Ok(self)
    }

    /// A consumer may have it at this moment, in milliseconds since 1970, and not before.
    pub fn deliver_at(mut self, time: u64) -> Self
        ensures producer { result.producer ≡ self.producer }
        ensures content { result.content ≡ self.content }
        ensures extras { extras result ≡ record (extras self) { deliver_at_time = Some (delivery time) } }
    {
        self.deliver_at_time = Some(delivery(time));
        self
    }

    /// A consumer may have it so many milliseconds after this moment, and not before.
    pub fn delay(self, now: u64, delay: u64) -> Self
        ensures producer { result.producer ≡ self.producer }
        ensures content { result.content ≡ self.content }
        ensures extras { extras result ≡ record (extras self) { deliver_at_time = Some (delivery (delayed now delay)) } }
    {
        self.deliver_at(now.saturating_add(delay))
    }

    /// The moment that it tells of, in milliseconds since 1970.
    pub fn event_time(mut self, time: u64) -> Self
        ensures producer { result.producer ≡ self.producer }
        ensures content { result.content ≡ self.content }
        ensures extras { extras result ≡ record (extras self) { event_time = Some time } }
    {
        self.event_time = Some(time);
        self
    }
}

impl<T: SerializeMessage> MessageBuilder<T> {
    /// The producer's ticket, and the message: what a send is called with. It fails where the content can't be sent.
    pub fn send(self) -> Result<(u64, Message), Error>
        ensures { MatchResult result (λ sent. IsBuilt T.serializes self sent) (λ e. T.serializes self.content (Err e)) }
    {
        let MessageBuilder {
            alloc,
            producer,
            content,
            properties,
            partition_key,
            ordering_key,
            event_time,
            deliver_at_time,
        } = self;
        let message = T::serialize_message(alloc, content)?;
        let message = Message {
            payload: message.payload,
            properties,
            partition_key,
            ordering_key,
            replicate_to: message.replicate_to,
            event_time,
            schema_version: message.schema_version,
            deliver_at_time,
        };
        Ok((producer, message))
    }

    /// The same as `send`: no send waits for its receipt.
    pub fn send_non_blocking(self) -> Result<(u64, Message), Error>
        ensures { MatchResult result (λ sent. IsBuilt T.serializes self sent) (λ e. T.serializes self.content (Err e)) }
    {
        self.send()
    }
}

fn delivery(time: u64) -> i64
    ensures { result ≡ delivery time }
{
    if time < LATEST { time as i64 } else { i64::MAX }
}

fn add_property(
    alloc: Global,
    properties: &mut BTreeMap<String, String>,
    key: &str,
    value: &str,
) -> Result<(), NoMemory>
    ensures { OnOk result (map property properties.new.entries ≡ put_property key.now value.now (map property properties.old.entries)) }
{
    let name = String::from_str(alloc, key)?;
    let text = String::from_str(alloc, value)?;
    put_property(properties, name, text)
}

fn put_property(
    properties: &mut BTreeMap<String, String>,
    key: String,
    value: String,
) -> Result<(), NoMemory>
    ensures { OnOk result (map property properties.new.entries
        ≡ put_property (string_bytes key) (string_bytes value) (map property properties.old.entries)) }
{
    properties.insert(key, value)?;
    Ok(())
}
