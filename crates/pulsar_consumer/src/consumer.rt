//! A consumer as its user sees it.

ghost use Rattle.std.specs.Prelude.{◌≡◌, ◌∷◌, [], map, Some, IfOk, string_bytes};
ghost use Rattle.std.specs.Option.{option_map};
ghost use Rattle.pulsar_messages.specs.Content.{consumer_options_values};
ghost use Rattle.pulsar_consumer.specs.Consumer.{connections};
ghost use Rattle.pulsar_incoming.specs.Content.{dead_letter_values};

use crate::topic_consumer::TopicConsumer;
use pulsar_incoming::config::DeadLetterPolicy;
use pulsar_messages::ConsumerOptions;
use pulsar_wire::commands::enumerations::SubType;
use pulsar_wire::error::NoMemory;
use std::alloc::Global;
use url::Url;

/// A consumer of one topic.
pub struct Consumer {
    alloc: Global,
    /// The consumer of its one topic.
    pub inner: TopicConsumer,
}

impl Drop for Consumer {
    fn drop(self) {
        let Consumer { alloc: _, inner: _ } = self;
    }
}

impl Consumer {
    /// The consumer of this topic.
    pub fn new(alloc: Global, inner: TopicConsumer) -> Consumer
        ensures { result.inner ≡ inner }
    {
        Consumer { alloc, inner }
    }

    /// The consumer of its one topic.
    pub fn single(&self) -> Option<&TopicConsumer>
        ensures { option_map (λ t. t.now) result ≡ Some self.now.inner }
    {
        Some(&self.inner)
    }

    /// Its topics.
    pub fn topics(&self) -> Result<Vec<String>, NoMemory>
        ensures { IfOk result (λ ts. map string_bytes ts.items ≡ self.now.inner.topic ∷ []) }
    {
        let mut topics = Vec::new(self.alloc);
        topics.push(String::from_str(self.alloc, self.inner.topic())?)?;
        Ok(topics)
    }

    /// The URLs of its live subscriptions.
    pub fn connections(&self) -> Result<Vec<Url>, NoMemory>
        ensures { IfOk result (λ us. us.items ≡ connections self.now.inner) }
    {
        let mut urls = Vec::new(self.alloc);
        if let Some(url) = self.inner.connection() {
            urls.push(url.clone()?)?;
        }
        Ok(urls)
    }

    /// How it was made.
    pub fn options(&self) -> &ConsumerOptions
        ensures { consumer_options_values result.now ≡ self.now.inner.config.options }
    {
        &self.inner.config().options
    }

    /// What becomes of messages that are given again and again.
    pub fn dead_letter_policy(&self) -> Option<&DeadLetterPolicy>
        ensures { option_map (λ p. dead_letter_values p.now) result ≡ self.now.inner.config.dead_letter_policy }
    {
        match &self.inner.config().dead_letter_policy {
            Some(policy) => Some(policy),
            None => None,
        }
    }

    /// The name of its subscription.
    pub fn subscription(&self) -> &str
        ensures { result.now ≡ self.now.inner.config.subscription }
    {
        self.inner.config().subscription.as_str()
    }

    /// The type of its subscription.
    pub fn sub_type(&self) -> SubType
        ensures { result ≡ self.now.inner.config.sub_type }
    {
        self.inner.config().sub_type
    }

    /// How many messages it lets the broker send at once, as that was asked for.
    pub fn batch_size(&self) -> Option<u32>
        ensures { result ≡ self.now.inner.config.batch_size }
    {
        self.inner.config().batch_size
    }

    /// Its name.
    pub fn consumer_name(&self) -> Option<&str>
        ensures { option_map (λ n. n.now) result ≡ self.now.inner.config.consumer_name }
    {
        match &self.inner.config().consumer_name {
            Some(name) => Some(name.as_str()),
            None => None,
        }
    }

    /// Its number on the wire.
    pub fn consumer_id(&self) -> Result<Vec<u64>, NoMemory>
        ensures { IfOk result (λ ns. ns.items ≡ self.now.inner.number ∷ []) }
    {
        let mut numbers = Vec::new(self.alloc);
        numbers.push(self.inner.number())?;
        Ok(numbers)
    }

    /// After so many milliseconds a message that is not acknowledged is asked for again.
    pub fn unacked_message_redelivery_delay(&self) -> Option<u64>
        ensures { result ≡ self.now.inner.config.unacked_message_redelivery_delay }
    {
        self.inner.config().unacked_message_redelivery_delay
    }

    /// When it gave its last message.
    pub fn last_message_received(&self) -> Option<u64>
        ensures { result ≡ self.now.inner.last }
    {
        self.inner.last_message_received()
    }

    /// How many messages it gave.
    pub fn messages_received(&self) -> u64
        ensures { result ≡ self.now.inner.received }
    {
        self.inner.messages_received()
    }
}
