//! What a call to build a consumer asks for, and what is drawn for it. Each name is drawn from a stream of its own.

ghost use Rattle.std.specs.Prelude.{◌≡◌, ◌<◌, ◌++◌, IfOk, OnOk, map, string_bytes, unwrap_or};
ghost use Rattle.std.specs.Option.{option_map};
ghost use Rattle.pulsar_incoming.specs.Content.{consumer_wanted};
ghost use Rattle.pulsar_incoming.specs.Naming as meaning;

use crate::builder::ConsumerBuilder;
use crate::config::ConsumerConfig;
use crate::orders::ConsumerOrder;
use crate::settings::Settings;
use pulsar_addresses::content::Text;
use pulsar_wire::commands::enumerations::SubType;
use pulsar_wire::error::NoMemory;
use rand_core::utils::NextWord;
use rand_pcg::Pcg32;
use std::alloc::Global;

/// How many letters are drawn for a name.
const LETTERS: usize = 8;

/// What a call to build a consumer asks for.
#[derive(Drop)]
pub enum Ordered {
    /// It says neither a topic nor how the names of topics begin.
    Nothing,
    /// It may have several topics.
    Several,
    /// It has one topic.
    One(ConsumerOrder),
}

/// The topics that are asked for.
#[derive(Drop)]
pub enum Topics {
    Nothing,
    Several,
    One(Text),
}

/// What the call of this ticket asks for.
pub fn order_of(
    alloc: Global,
    seed: u64,
    ticket: u64,
    builder: ConsumerBuilder,
) -> Result<Ordered, NoMemory>
    ensures { IfOk result (λ o. o ≡ meaning.order_of seed ticket (consumer_wanted builder)) }
{
    match topics_of(&builder.topics, &builder.topic_prefix)? {
        Topics::Nothing => Ok(Ordered::Nothing),
        Topics::Several => Ok(Ordered::Several),
        Topics::One(topic) => Ok(Ordered::One(ConsumerOrder {
            topic,
            config: config_of(alloc, seed, ticket, builder)?,
        })),
    }
}

/// The topics that are asked for, by their names and by how the names begin.
fn topics_of(topics: &[String], prefix: &Option<String>) -> Result<Topics, NoMemory>
    ensures { IfOk result (λ t. t ≡ meaning.topics_of (map string_bytes topics.now) (option_map string_bytes prefix.now)) }
{
    match (topics, prefix) {
        ([], None) => Ok(Topics::Nothing),
        ([topic], None) => Ok(Topics::One(Text::new(topic.clone()?))),
        _ => Ok(Topics::Several),
    }
}

/// How the consumer that the call of this ticket wants is made. What is not said is drawn.
pub fn config_of(
    alloc: Global,
    seed: u64,
    ticket: u64,
    builder: ConsumerBuilder,
) -> Result<Settings, NoMemory>
    ensures { IfOk result (λ c. c ≡ meaning.config_of seed ticket (consumer_wanted builder)) }
{
    let subscription = subscription_of(alloc, seed, ticket, &builder.subscription)?;
    let name = name_of(alloc, seed, ticket, &builder.consumer_name)?;
    let config = ConsumerConfig {
        subscription,
        sub_type: builder.subscription_type.unwrap_or(SubType::Shared),
        batch_size: builder.batch_size,
        consumer_name: Some(name),
        consumer_id: builder.consumer_id,
        unacked_message_redelivery_delay: builder.unacked_message_resend_delay,
        options: builder.options,
        dead_letter_policy: builder.dead_letter_policy,
    };
    Settings::new(alloc, config)
}

/// The name of the consumer: one is drawn where it is absent.
fn name_of(alloc: Global, seed: u64, ticket: u64, name: &Option<String>) -> Result<String, NoMemory>
    ensures { IfOk result (λ n. string_bytes n ≡ unwrap_or (option_map string_bytes name.now) (meaning.consumer_name seed ticket)) }
{
    match name {
        Some(name) => Ok(name.clone()?),
        None => consumer_name(alloc, seed, ticket),
    }
}

/// The name of its subscription: one is drawn where it is absent.
fn subscription_of(
    alloc: Global,
    seed: u64,
    ticket: u64,
    name: &Option<String>,
) -> Result<String, NoMemory>
    ensures { IfOk result (λ n. string_bytes n ≡ unwrap_or (option_map string_bytes name.now) (meaning.subscription_name seed ticket)) }
{
    match name {
        Some(name) => Ok(name.clone()?),
        None => subscription_name(alloc, seed, ticket),
    }
}

/// The name that is drawn for a consumer.
fn consumer_name(alloc: Global, seed: u64, ticket: u64) -> Result<String, NoMemory>
    ensures { IfOk result (λ n. string_bytes n ≡ meaning.consumer_name seed ticket) }
{
    drawn(alloc, "consumer_", seed, ticket, 1)
}

/// The name that is drawn for a subscription.
fn subscription_name(alloc: Global, seed: u64, ticket: u64) -> Result<String, NoMemory>
    ensures { IfOk result (λ n. string_bytes n ≡ meaning.subscription_name seed ticket) }
{
    drawn(alloc, "sub_", seed, ticket, 2)
}

/// This, and the letters that are drawn for it.
fn drawn(alloc: Global, before: &str, seed: u64, ticket: u64, step: u64) -> Result<String, NoMemory>
    ensures { IfOk result (λ n. string_bytes n ≡ before.now ++ meaning.drawn seed ticket step) }
{
    let mut name = String::from_str(alloc, before)?;
    let mut stream = Pcg32::new(seed, ticket.wrapping_mul(4).wrapping_add(step));
    draw(&mut name, &mut stream)?;
    Ok(name)
}

/// So many letters more.
fn draw(name: &mut String, stream: &mut Pcg32) -> Result<(), NoMemory>
    ensures { OnOk result (string_bytes name.new ≡ string_bytes name.old ++ meaning.letters 8 stream.old) }
{
    for _ in 0..LETTERS {
        let word: u32 = stream.next_word();
        name.push(letter(word) as char)?;
    }
    Ok(())
}

/// A letter or a digit.
fn letter(word: u32) -> u8
    ensures says { result ≡ meaning.letter word }
    ensures ascii { result < 128 }
{
    let n = (word % 62) as u8;
    if n < 26 {
        b'A' + n
    } else if n < 52 {
        b'a' + (n - 26)
    } else {
        b'0' + (n - 52)
    }
}
