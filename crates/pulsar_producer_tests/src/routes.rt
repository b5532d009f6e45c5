//! Which partition a message goes to.

use pulsar_addresses::content::Text;
use pulsar_addresses::random::connection_id;
use pulsar_messages::{Message, ProducerOptions, RoutingPolicy};
use pulsar_outgoing::content::Settings;
use pulsar_producer::Producer;
use pulsar_producer::routing::{Partition, PartitionedProducer};
use std::alloc::Global;
use std::test::Fail;

#[test]
fn a_key_has_its_partition(rt: HostRuntime) {
    assert_eq!(rt;
        RoutingPolicy::compute_partition_index_for_key("test", 4),
        3
    );
    assert_eq!(rt;
        RoutingPolicy::compute_partition_index_for_key("test", 3),
        0
    );
    assert_eq!(rt; RoutingPolicy::compute_partition_index_for_key("", 4), 0);
    assert_eq!(rt;
        RoutingPolicy::compute_partition_index_for_key("test", 4294967295),
        0xba6bd213
    );
}

#[test]
fn keys_are_spread(rt: HostRuntime) -> Result<(), Fail> {
    let alloc = rt.alloc();
    let mut counts = [0u32; 4];
    for link in 0..1000 {
        let id = connection_id(0, link);
        let text = format!(in alloc; "{id}")?;
        let partition = RoutingPolicy::compute_partition_index_for_key(text.as_str(), 4);
        counts[partition] = counts[partition].saturating_add(1);
    }
    for count in counts {
        assert!(rt; 150 < count && count < 350);
    }
    Ok(())
}

/// A producer of three partitions with this policy, which begins behind the last one.
fn producer(alloc: Global, policy: Option<RoutingPolicy>) -> Result<Box<Producer>, Fail> {
    let mut options = ProducerOptions::new(alloc);
    options.routing_policy = policy;
    let settings = Settings::new(alloc, options)?;
    let partitions = partitions(alloc)?;
    let topic = Text::new(String::from_str(alloc, "t")?);
    match Producer::new(topic, settings, partitions, 2) {
        Some(producer) => Ok(Box::new(alloc, producer)?),
        None => Err(Fail::new("no producer")),
    }
}

fn partitions(alloc: Global) -> Result<Vec<Partition>, Fail> {
    let mut partitions = Vec::new(alloc);
    for number in 5..8 {
        let name = Text::new(format!(in alloc; "t-partition-{number}")?);
        partitions.push(Partition { name, number })?;
    }
    Ok(partitions)
}

/// The topic producers of three messages of this key, one behind the other.
fn picks(alloc: Global, policy: Option<RoutingPolicy>, key: &str) -> Result<[u64; 3], Fail> {
    let message = message_of(alloc, key)?;
    let mut producer = producer(alloc, policy)?;
    let mut picks = [0; 3];
    for pick in &mut picks {
        *pick = producer.number_for(&message, &[]).unwrap_or(0);
    }
    Ok(picks)
}

/// A message of this key.
fn message_of(alloc: Global, key: &str) -> Result<Message, Fail> {
    let mut message = Message::new(alloc);
    message.partition_key = Some(String::from_str(alloc, key)?);
    Ok(message)
}

#[test]
fn partitions_are_chosen(rt: HostRuntime) -> Result<(), Fail> {
    let alloc = rt.alloc();
    let Some(mut routes) = PartitionedProducer::new(partitions(alloc)?, None, 2) else {
        return Err(Fail::new("no producer"));
    };
    let message = message_of(alloc, "test")?;
    for index in [0, 1, 2, 0] {
        assert!(rt;
            routes
                .choose_partition(&message, &[])
                .is_ok_and(|chosen| chosen == index)
        );
    }
    Ok(())
}

#[test]
fn a_single_producer_has_the_found_name(rt: HostRuntime) -> Result<(), Fail> {
    let alloc = rt.alloc();
    let settings = Settings::new(alloc, ProducerOptions::new(alloc))?;
    let name = Text::new(String::from_str(alloc, "t-partition-0")?);
    let mut partitions = Vec::new(alloc);
    partitions.push(Partition { name, number: 5 })?;
    let topic = Text::new(String::from_str(alloc, "t")?);
    let Some(producer) = Producer::new(topic, settings, partitions, 0) else {
        return Err(Fail::new("no producer"));
    };
    assert_eq!(rt; producer.topic(), "t-partition-0");
    Ok(())
}

#[test]
fn messages_go_round(rt: HostRuntime) -> Result<(), Fail> {
    let alloc = rt.alloc();
    assert!(rt; picks(alloc, None, "test")? == [5, 6, 7]);
    assert!(rt; picks(alloc, Some(RoutingPolicy::RoundRobin), "test")? == [5, 5, 5]);
    assert!(rt; picks(alloc, Some(RoutingPolicy::Single), "test")? == [7, 7, 7]);
    Ok(())
}

fn shows(alloc: Global) -> Result<bool, Fail> {
    let producer = producer(alloc, None)?;
    let names = producer.partitions()?;
    Ok(producer.topic() == "t" && producer.options().batch_size.is_none() && are_named(&names))
}

fn are_named(names: &Option<Vec<String>>) -> bool {
    match names {
        Some(names) => names.len() == 3 && names[2].as_str() == "t-partition-7",
        None => false,
    }
}

#[test]
fn a_producer_shows_its_partitions(rt: HostRuntime) -> Result<(), Fail> {
    assert!(rt; shows(rt.alloc())?);
    Ok(())
}
