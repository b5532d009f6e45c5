//! What is wanted of a consumer, and how it was made.

use pulsar_addresses::content::Text;
use pulsar_consumer::consumer::Consumer;
use pulsar_consumer::topic_consumer::TopicConsumer;
use pulsar_consumer::{ConsumerOptions, SubType};
use pulsar_incoming::builder::ConsumerBuilder;
use pulsar_incoming::config::{ConsumerConfig, DeadLetterPolicy};
use pulsar_incoming::naming::{Ordered, order_of};
use pulsar_incoming::settings::Settings;
use std::alloc::Global;
use std::test::Fail;
use url::Url;

fn text(alloc: Global, text: &str) -> Result<String, Fail> {
    Ok(String::from_str(alloc, text)?)
}

fn is_text(text: &Option<String>, wanted: &str) -> bool {
    match text {
        Some(text) => text.as_str() == wanted,
        None => false,
    }
}

fn policy(alloc: Global) -> Result<DeadLetterPolicy, Fail> {
    Ok(DeadLetterPolicy {
        max_redeliver_count: 2,
        dead_letter_topic: text(alloc, "d")?,
    })
}

fn is_policy(policy: &Option<DeadLetterPolicy>) -> bool {
    match policy {
        Some(policy) => policy.max_redeliver_count == 2 && policy.dead_letter_topic.as_str() == "d",
        None => false,
    }
}

fn texts(alloc: Global, wanted: ConsumerBuilder) -> Result<ConsumerBuilder, Fail> {
    let mut more = Vec::new(alloc);
    more.push(text(alloc, "u")?)?;
    Ok(
        wanted
            .with_topic("t")?
            .with_topics(&more)?
            .with_topic_prefix("p")?
            .with_subscription("s")?
            .with_lookup_namespace("n")?
            .with_consumer_name("c")?,
    )
}

fn numbers(wanted: ConsumerBuilder) -> ConsumerBuilder {
    wanted
        .with_subscription_type(SubType::Failover)
        .with_topic_refresh(1)
        .with_consumer_id(2)
        .with_batch_size(3)
        .with_unacked_message_resend_delay(Some(4))
}

#[test]
fn a_builder_says_what_it_is_told(rt: HostRuntime) -> Result<(), Fail> {
    let alloc = rt.alloc();
    let wanted = texts(alloc, ConsumerBuilder::new(alloc))?.build();
    assert!(rt; wanted.topics.len() == 2 && is_text(&wanted.topic_prefix, "p"));
    assert!(rt; is_text(&wanted.subscription, "s") && is_text(&wanted.namespace, "n"));
    assert!(rt; is_text(&wanted.consumer_name, "c"));
    let wanted = numbers(wanted).into_reader();
    assert!(rt; wanted.topic_refresh == Some(1) && wanted.consumer_id == Some(2));
    assert!(rt; wanted.batch_size == Some(3));
    assert!(rt; wanted.unacked_message_resend_delay == Some(4));
    Ok(())
}

fn with_policy(alloc: Global) -> Result<ConsumerBuilder, Fail> {
    let policy = policy(alloc)?;
    let options = ConsumerOptions::new(alloc).with_receiver_queue_size(0);
    let wanted = ConsumerBuilder::new(alloc);
    Ok(wanted.with_options(options).with_dead_letter_policy(policy))
}

#[test]
fn a_builder_is_copied(rt: HostRuntime) -> Result<(), Fail> {
    let copy = with_policy(rt.alloc())?.copy()?;
    assert!(rt; copy.options.receiver_queue_size == Some(1000));
    assert!(rt; is_policy(&copy.dead_letter_policy));
    Ok(())
}

fn config(alloc: Global) -> Result<ConsumerConfig, Fail> {
    let mut config = ConsumerConfig::new(alloc);
    config.subscription = text(alloc, "s")?;
    config.consumer_name = Some(text(alloc, "c")?);
    config.dead_letter_policy = Some(policy(alloc)?);
    config.options.priority_level = Some(1);
    config.batch_size = Some(5);
    config.unacked_message_redelivery_delay = Some(6);
    Ok(config)
}

#[test]
fn a_configuration_is_copied(rt: HostRuntime) -> Result<(), Fail> {
    let copy = config(rt.alloc())?.copy()?;
    assert!(rt; copy.subscription.as_str() == "s" && is_text(&copy.consumer_name, "c"));
    assert!(rt; copy.batch_size == Some(5) && is_policy(&copy.dead_letter_policy));
    Ok(())
}

fn consumer(alloc: Global) -> Result<Box<Consumer>, Fail> {
    let settings = Settings::new(alloc, config(alloc)?)?;
    let topic = Text::new(text(alloc, "t")?);
    let mut inner = TopicConsumer::new(alloc, 0, topic, 9, settings.copy(alloc)?, false);
    inner.subscribe(0, Url::parse(alloc, "pulsar://127.0.0.1:6650")?)?;
    Ok(Box::new(alloc, Consumer::new(alloc, inner))?)
}

#[test]
fn a_consumer_says_how_it_was_made(rt: HostRuntime) -> Result<(), Fail> {
    let consumer = consumer(rt.alloc())?;
    assert!(rt; consumer.single().is_some() && consumer.subscription() == "s");
    assert!(rt; consumer.consumer_name() == Some("c"));
    assert!(rt; matches!(consumer.sub_type(), SubType::Exclusive));
    assert!(rt; consumer.batch_size() == Some(5));
    assert!(rt; consumer.unacked_message_redelivery_delay() == Some(6));
    assert!(rt; consumer.options().priority_level == Some(1));
    assert!(rt; consumer.dead_letter_policy().is_some());
    Ok(())
}

#[test]
fn a_consumer_says_where_it_is(rt: HostRuntime) -> Result<(), Fail> {
    let consumer = consumer(rt.alloc())?;
    assert!(rt; consumer.topics()?.len() == 1 && consumer.consumer_id()?.len() == 1);
    let urls = consumer.connections()?;
    assert!(rt; urls.len() == 1);
    assert!(rt; consumer.messages_received() == 0 && consumer.last_message_received().is_none());
    Ok(())
}

/// What the call of ticket 1 makes of a builder, where all words are drawn with the seed 0.
fn ordered(alloc: Global, builder: ConsumerBuilder) -> Result<Option<Settings>, Fail> {
    match order_of(alloc, 0, 1, builder)? {
        Ordered::One(order) => Ok(Some(order.config)),
        Ordered::Nothing | Ordered::Several => Ok(None),
    }
}

/// The names are those of another generator.
#[test]
fn names_are_drawn(rt: HostRuntime) -> Result<(), Fail> {
    let alloc = rt.alloc();
    let builder = ConsumerBuilder::new(alloc).with_topic("t")?;
    let Some(config) = ordered(alloc, builder)? else {
        assert!(rt; false);
        return Ok(());
    };
    assert!(rt; config.get().subscription.as_str() == "sub_W6W5vTOa");
    assert!(rt; is_text(&config.get().consumer_name, "consumer_quwXHakI"));
    assert!(rt; matches!(config.get().sub_type, SubType::Shared));
    Ok(())
}

#[test]
fn what_is_said_is_not_drawn(rt: HostRuntime) -> Result<(), Fail> {
    let alloc = rt.alloc();
    let builder = ConsumerBuilder::new(alloc).with_topic("t")?;
    let builder = numbers(builder.with_subscription("s")?.with_consumer_name("c")?);
    let Some(config) = ordered(alloc, builder)? else {
        assert!(rt; false);
        return Ok(());
    };
    assert!(rt; config.get().subscription.as_str() == "s");
    assert!(rt; is_text(&config.get().consumer_name, "c"));
    assert!(rt; matches!(config.get().sub_type, SubType::Failover));
    assert!(rt; config.get().consumer_id == Some(2) && config.get().batch_size == Some(3));
    assert!(rt; config.get().unacked_message_redelivery_delay == Some(4));
    Ok(())
}

#[test]
fn topics_are_counted(rt: HostRuntime) -> Result<(), Fail> {
    let alloc = rt.alloc();
    let none = order_of(alloc, 0, 1, ConsumerBuilder::new(alloc))?;
    assert!(rt; matches!(&none, Ordered::Nothing));
    let two = ConsumerBuilder::new(alloc)
        .with_topic("t")?
        .with_topic("u")?;
    assert!(rt; matches!(&order_of(alloc, 0, 1, two)?, Ordered::Several));
    let prefix = ConsumerBuilder::new(alloc).with_topic_prefix("p")?;
    assert!(rt; matches!(&order_of(alloc, 0, 1, prefix)?, Ordered::Several));
    Ok(())
}
