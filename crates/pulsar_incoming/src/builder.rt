//! A consumer by what is wanted of it.

ghost use Rattle.std.specs.Prelude.{◌≡◌, ◌++◌, [], ◌∷◌, Some, IfOk, OnOk, map, string_bytes};
ghost use Rattle.pulsar_messages.specs.Content.{consumer_options_values};
ghost use Rattle.pulsar_incoming.specs.Content.{also_reads, consumer_wanted, dead_letter_values, no_consumer};

use crate::config::{DeadLetterPolicy, copy_policy};
use pulsar_messages::consumer_options::ConsumerOptions;
use pulsar_wire::commands::enumerations::SubType;
use pulsar_wire::encoding::copying::{copy_optional, copy_values};
use pulsar_wire::error::NoMemory;
use std::alloc::Global;

/// A consumer that is to be made.
#[derive(Debug, Drop)]
pub struct ConsumerBuilder {
    alloc: Global,
    /// The topics that it reads.
    pub topics: Vec<String>,
    /// It reads each topic of its namespace whose name begins so.
    pub topic_prefix: Option<String>,
    /// The name of its subscription. One is drawn where it is absent.
    pub subscription: Option<String>,
    /// The type of its subscription, shared where it is absent.
    pub subscription_type: Option<SubType>,
    /// Where topics of the prefix are looked for.
    pub namespace: Option<String>,
    /// How often they are looked for, in milliseconds.
    pub topic_refresh: Option<u64>,
    /// Its number on the wire. One is drawn where it is absent.
    pub consumer_id: Option<u64>,
    /// Its name. One is drawn where it is absent.
    pub consumer_name: Option<String>,
    /// How many messages it lets the broker send at once, 1000 where it is absent.
    pub batch_size: Option<u32>,
    /// What else is said to the broker, and the size of its receiver queue.
    pub options: ConsumerOptions,
    /// What becomes of messages that are given again and again.
    pub dead_letter_policy: Option<DeadLetterPolicy>,
    /// After so many milliseconds a message that is not acknowledged is asked for again.
    pub unacked_message_resend_delay: Option<u64>,
}

impl ConsumerBuilder {
    /// Nothing is said of it.
    pub fn new(alloc: Global) -> Self
        ensures { consumer_wanted result ≡ no_consumer }
    {
        ConsumerBuilder {
            alloc,
            topics: Vec::new(alloc),
            topic_prefix: None,
            subscription: None,
            subscription_type: None,
            namespace: None,
            topic_refresh: None,
            consumer_id: None,
            consumer_name: None,
            batch_size: None,
            options: ConsumerOptions::new(alloc),
            dead_letter_policy: None,
            unacked_message_resend_delay: None,
        }
    }

    /// It reads this topic too.
    pub fn with_topic(mut self, topic: &str) -> Result<Self, NoMemory>
        ensures { IfOk result (λ b. consumer_wanted b ≡ also_reads (topic.now ∷ []) (consumer_wanted self)) }
    {
        add_topic(&mut self.topics, self.alloc, topic)?;
        Ok(self)
    }

    /// It reads these topics too.
    pub fn with_topics(mut self, topics: &[String]) -> Result<Self, NoMemory>
        ensures { IfOk result (λ b. consumer_wanted b ≡ also_reads (map string_bytes topics.now) (consumer_wanted self)) }
    {
        add_topics(&mut self.topics, topics)?;
        Ok(self)
    }

    /// It reads each topic of its namespace whose name begins so.
    pub fn with_topic_prefix(mut self, prefix: &str) -> Result<Self, NoMemory>
        ensures { IfOk result (λ b. consumer_wanted b ≡ record (consumer_wanted self) { topic_prefix = Some prefix.now }) }
    {
        self.topic_prefix = Some(String::from_str(self.alloc, prefix)?);
        Ok(self)
    }

    /// Its subscription has this name.
    pub fn with_subscription(mut self, subscription: &str) -> Result<Self, NoMemory>
        ensures { IfOk result (λ b. consumer_wanted b ≡ record (consumer_wanted self) { subscription = Some subscription.now }) }
    {
        self.subscription = Some(String::from_str(self.alloc, subscription)?);
        Ok(self)
    }

    /// Its subscription is of this type.
    pub fn with_subscription_type(mut self, subscription_type: SubType) -> Self
        ensures { consumer_wanted result ≡ record (consumer_wanted self) { subscription_type = Some subscription_type } }
    {
        self.subscription_type = Some(subscription_type);
        self
    }

    /// Topics of the prefix are looked for in this namespace.
    pub fn with_lookup_namespace(mut self, namespace: &str) -> Result<Self, NoMemory>
        ensures { IfOk result (λ b. consumer_wanted b ≡ record (consumer_wanted self) { namespace = Some namespace.now }) }
    {
        self.namespace = Some(String::from_str(self.alloc, namespace)?);
        Ok(self)
    }

    /// They are looked for so often, in milliseconds.
    pub fn with_topic_refresh(mut self, topic_refresh: u64) -> Self
        ensures { consumer_wanted result ≡ record (consumer_wanted self) { topic_refresh = Some topic_refresh } }
    {
        self.topic_refresh = Some(topic_refresh);
        self
    }

    /// It has this number.
    pub fn with_consumer_id(mut self, consumer_id: u64) -> Self
        ensures { consumer_wanted result ≡ record (consumer_wanted self) { consumer_id = Some consumer_id } }
    {
        self.consumer_id = Some(consumer_id);
        self
    }

    /// It has this name.
    pub fn with_consumer_name(mut self, consumer_name: &str) -> Result<Self, NoMemory>
        ensures { IfOk result (λ b. consumer_wanted b ≡ record (consumer_wanted self) { consumer_name = Some consumer_name.now }) }
    {
        self.consumer_name = Some(String::from_str(self.alloc, consumer_name)?);
        Ok(self)
    }

    /// It lets the broker send so many messages at once.
    pub fn with_batch_size(mut self, batch_size: u32) -> Self
        ensures { consumer_wanted result ≡ record (consumer_wanted self) { batch_size = Some batch_size } }
    {
        self.batch_size = Some(batch_size);
        self
    }

    /// It is made with these options.
    pub fn with_options(mut self, options: ConsumerOptions) -> Self
        ensures { consumer_wanted result ≡ record (consumer_wanted self) { options = consumer_options_values options } }
    {
        self.options = options;
        self
    }

    /// Messages that are given again and again go by this policy.
    pub fn with_dead_letter_policy(mut self, policy: DeadLetterPolicy) -> Self
        ensures { consumer_wanted result ≡ record (consumer_wanted self) { dead_letter_policy = Some (dead_letter_values policy) } }
    {
        self.dead_letter_policy = Some(policy);
        self
    }

    /// After so many milliseconds a message that is not acknowledged is asked for again, or never.
    pub fn with_unacked_message_resend_delay(mut self, delay: Option<u64>) -> Self
        ensures { consumer_wanted result ≡ record (consumer_wanted self) { unacked_message_resend_delay = delay } }
    {
        self.unacked_message_resend_delay = delay;
        self
    }

    /// What the call of a consumer is made with.
    pub fn build(self) -> Self
        ensures { result ≡ self }
    {
        self
    }

    /// What the call of a reader is made with.
    pub fn into_reader(self) -> Self
        ensures { result ≡ self }
    {
        self
    }

    /// A builder with the same content.
    pub fn copy(&self) -> Result<ConsumerBuilder, NoMemory>
        ensures { IfOk result (λ b. consumer_wanted b ≡ consumer_wanted self.now) }
    {
        Ok(ConsumerBuilder {
            alloc: self.alloc,
            topics: copy_values(&self.topics)?,
            topic_prefix: copy_optional(&self.topic_prefix)?,
            subscription: copy_optional(&self.subscription)?,
            subscription_type: self.subscription_type,
            namespace: copy_optional(&self.namespace)?,
            topic_refresh: self.topic_refresh,
            consumer_id: self.consumer_id,
            consumer_name: copy_optional(&self.consumer_name)?,
            batch_size: self.batch_size,
            options: self.options.copy()?,
            dead_letter_policy: copy_policy(&self.dead_letter_policy)?,
            unacked_message_resend_delay: self.unacked_message_resend_delay,
        })
    }
}

fn add_topic(topics: &mut Vec<String>, alloc: Global, topic: &str) -> Result<(), NoMemory>
    ensures { OnOk result (map string_bytes topics.new.items ≡ map string_bytes topics.old.items ++ topic.now ∷ []) }
{
    topics.push(String::from_str(alloc, topic)?)?;
    Ok(())
}

fn add_topics(topics: &mut Vec<String>, more: &[String]) -> Result<(), NoMemory>
    ensures { OnOk result (map string_bytes topics.new.items ≡ map string_bytes topics.old.items ++ map string_bytes more.now) }
{
    for topic in more {
        topics.push(topic.clone()?)?;
    }
    Ok(())
}
