//! How a consumer is made.

ghost use Rattle.std.specs.Prelude.{◌≡◌, IfOk};
ghost use Rattle.std.specs.Option.{option_map};
ghost use Rattle.pulsar_incoming.specs.Content.{config_values, dead_letter_values, empty_config};

use pulsar_messages::consumer_options::ConsumerOptions;
use pulsar_wire::commands::enumerations::SubType;
use pulsar_wire::encoding::copying::copy_optional;
use pulsar_wire::error::NoMemory;
use std::alloc::Global;

/// What becomes of a message that is given again and again.
#[derive(Debug, Drop)]
pub struct DeadLetterPolicy {
    /// How often it is given again before it goes to the dead letter topic.
    pub max_redeliver_count: usize,
    /// The topic to which it goes then.
    pub dead_letter_topic: String,
}

impl DeadLetterPolicy {
    /// A policy with the same content.
    pub fn copy(&self) -> Result<DeadLetterPolicy, NoMemory>
        ensures { IfOk result (λ p. dead_letter_values p ≡ dead_letter_values self.now) }
    {
        Ok(DeadLetterPolicy {
            max_redeliver_count: self.max_redeliver_count,
            dead_letter_topic: self.dead_letter_topic.clone()?,
        })
    }
}

/// How a consumer is made.
#[derive(Debug, Drop)]
pub struct ConsumerConfig {
    /// The name of its subscription.
    pub subscription: String,
    /// The type of its subscription.
    pub sub_type: SubType,
    /// How many messages it lets the broker send at once, 1000 where it is absent.
    pub batch_size: Option<u32>,
    /// Its name.
    pub consumer_name: Option<String>,
    /// The number that was asked for.
    pub consumer_id: Option<u64>,
    /// After so many milliseconds a message that is not acknowledged is asked for again.
    pub unacked_message_redelivery_delay: Option<u64>,
    /// What else is said to the broker, and the size of its receiver queue.
    pub options: ConsumerOptions,
    /// What becomes of messages that are given again and again.
    pub dead_letter_policy: Option<DeadLetterPolicy>,
}

impl ConsumerConfig {
    /// Nothing is said of it.
    pub fn new(alloc: Global) -> ConsumerConfig
        ensures { config_values result ≡ empty_config }
    {
        ConsumerConfig {
            subscription: String::new(alloc),
            sub_type: SubType::Exclusive,
            batch_size: None,
            consumer_name: None,
            consumer_id: None,
            unacked_message_redelivery_delay: None,
            options: ConsumerOptions::new(alloc),
            dead_letter_policy: None,
        }
    }

    /// A configuration with the same content.
    pub fn copy(&self) -> Result<ConsumerConfig, NoMemory>
        ensures { IfOk result (λ c. config_values c ≡ config_values self.now) }
    {
        Ok(ConsumerConfig {
            subscription: self.subscription.clone()?,
            sub_type: self.sub_type,
            batch_size: self.batch_size,
            consumer_name: copy_optional(&self.consumer_name)?,
            consumer_id: self.consumer_id,
            unacked_message_redelivery_delay: self.unacked_message_redelivery_delay,
            options: self.options.copy()?,
            dead_letter_policy: copy_policy(&self.dead_letter_policy)?,
        })
    }
}

/// The same policy once more, where there is one.
pub(crate) fn copy_policy(
    policy: &Option<DeadLetterPolicy>,
) -> Result<Option<DeadLetterPolicy>, NoMemory>
    ensures { IfOk result (λ p. option_map dead_letter_values p ≡ option_map dead_letter_values policy.now) }
{
    match policy {
        Some(policy) => Ok(Some(policy.copy()?)),
        None => Ok(None),
    }
}
