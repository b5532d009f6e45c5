//! How brokers are found and asked.

ghost use Rattle.std.specs.Prelude.{◌≡◌, [], IfOk, string_bytes};
ghost use Rattle.std.specs.Option.{option_copied, option_map};
ghost use Rattle.pulsar_messages.specs.Content.{consumer_options_values, producer_options_values};
ghost use Rattle.pulsar_messages.specs.Words.{CreateProducer, Subscribe};
ghost use Rattle.pulsar_wire.specs.Failures.{fault};
ghost use Rattle.pulsar_addresses.specs.Address.{place};
ghost use Rattle.pulsar_searches.specs.declared.plan.Sought.TheVariants as procedure;
ghost use Rattle.pulsar_discovery.specs.Machine.{StandsFor};
ghost use Rattle.pulsar_discovery.specs.Manager.{ways_of};

use crate::machine::Machine;
use crate::manager::ConnectionManager;
use pulsar_addresses::address::BrokerAddress;
use pulsar_addresses::content::{Address, Cause, Text};
use pulsar_messages::{ConsumerOptions, ProducerOptions};
use pulsar_searches::making::Command;
use pulsar_searches::plan::Sought;
use pulsar_searches::question::{Question, Request};
use pulsar_searches::turn::Ways;
use pulsar_wire::bodies;
use pulsar_wire::commands::enumerations::SubType;
use pulsar_wire::error::{ConnectionError, NoMemory};
use std::alloc::Global;

/// Finds the broker of a topic.
pub type LookupTopic = Machine;

/// Finds how many partitions a topic has.
pub type LookupCount = Machine;

/// Finds the names of a topic, each with its broker.
pub type LookupPartitions = Machine;

/// Waits, and finds the broker of a topic again.
pub type RetryError = Machine;

/// Makes a consumer.
pub type SubscribeRetry = Machine;

/// Makes a producer.
pub type CreateRetry = Machine;

/// How brokers are found and asked.
#[derive(Drop)]
pub struct ServiceDiscovery {
    alloc: Global,
    ways: Ways,
}

impl ServiceDiscovery {
    /// By way of the address of a manager, and by its options.
    pub fn with_manager(
        alloc: Global,
        manager: &ConnectionManager,
    ) -> Result<ServiceDiscovery, NoMemory>
        ensures { IfOk result (λ d. d.ways ≡ ways_of manager.now.terms) }
    {
        let ways = manager.ways()?;
        Ok(ServiceDiscovery { alloc, ways })
    }

    /// Finds the broker of a topic, and ends with its address.
    pub fn lookup_topic(&self, topic: &str) -> Result<LookupTopic, NoMemory>
        ensures { IfOk result (λ m. StandsFor self.now.ways (procedure.Look topic.now) [] m) }
    {
        let topic = Text::new(String::from_str(self.alloc, topic)?);
        self.machine(Sought::Look(topic))
    }

    /// Finds how many partitions a topic has, and ends with their number.
    pub fn lookup_partitioned_topic_number(&self, topic: &str) -> Result<LookupCount, NoMemory>
        ensures { IfOk result (λ m. StandsFor self.now.ways (procedure.CountPartitions topic.now) [] m) }
    {
        let topic = Text::new(String::from_str(self.alloc, topic)?);
        self.machine(Sought::CountPartitions(topic))
    }

    /// Finds the names of a topic, and ends with each and its address.
    pub fn lookup_partitioned_topic(&self, topic: &str) -> Result<LookupPartitions, NoMemory>
        ensures { IfOk result (λ m. StandsFor self.now.ways (procedure.Name topic.now) [] m) }
    {
        let topic = Text::new(String::from_str(self.alloc, topic)?);
        self.machine(Sought::Name(topic))
    }

    fn machine(&self, procedure: Sought) -> Result<Machine, NoMemory>
        ensures { IfOk result (λ m. StandsFor self.now.ways procedure [] m) }
    {
        let ways = self.ways.copy(self.alloc)?;
        Ok(Machine::new(self.alloc, ways, procedure))
    }
}

/// After a command on a topic failed so, behind so many retries: waits and finds the broker again, and ends with its address.
pub fn handle_retry_error(
    alloc: Global,
    discovery: &ServiceDiscovery,
    topic: &str,
    retries: u32,
    error: ConnectionError,
) -> Result<RetryError, NoMemory>
    ensures { IfOk result (λ m. StandsFor discovery.now.ways (procedure.Retry topic.now retries (fault error)) [] m) }
{
    let topic = Text::new(String::from_str(alloc, topic)?);
    let cause = Cause::new(alloc, error)?;
    discovery.machine(Sought::Retry {
        topic,
        retries,
        cause,
    })
}

/// Makes a consumer of a topic at an address, and ends with the reply and its link.
pub fn retry_subscribe_consumer(
    alloc: Global,
    discovery: &ServiceDiscovery,
    topic: &str,
    address: BrokerAddress,
    subscription: &str,
    sub_type: SubType,
    consumer_id: u64,
    name: Option<&str>,
    options: &ConsumerOptions,
) -> Result<SubscribeRetry, NoMemory>
    ensures { IfOk result (λ m. StandsFor discovery.now.ways
        (procedure.Make (record {
          topic = topic.now;
          request = Subscribe topic.now subscription.now sub_type consumer_id (option_copied name.entry) (consumer_options_values options.now);
          answer = 13;
        }) (place address)) [] m) }
{
    let address = Address::new(alloc, address)?;
    let command = subscribing(
        alloc,
        topic,
        subscription,
        sub_type,
        consumer_id,
        name,
        options,
    )?;
    discovery.machine(Sought::Make { command, address })
}

fn subscribing(
    alloc: Global,
    topic: &str,
    subscription: &str,
    sub_type: SubType,
    consumer_id: u64,
    name: Option<&str>,
    options: &ConsumerOptions,
) -> Result<Command, NoMemory>
    ensures { IfOk result (λ c. c ≡ record {
      topic = topic.now;
      request = Subscribe topic.now subscription.now sub_type consumer_id (option_copied name.entry) (consumer_options_values options.now);
      answer = 13;
    }) }
{
    let question = Question::Subscribe {
        topic: String::from_str(alloc, topic)?,
        subscription: String::from_str(alloc, subscription)?,
        sub_type,
        consumer_id,
        name: name_of(alloc, name)?,
        options: options.copy()?,
    };
    Ok(Command {
        request: Request::new(alloc, question)?,
        topic: Text::new(String::from_str(alloc, topic)?),
        answer: bodies::SUCCESS,
    })
}

/// Makes a producer on a topic at an address, and ends with the reply and its link.
pub fn retry_create_producer(
    alloc: Global,
    discovery: &ServiceDiscovery,
    topic: &str,
    address: BrokerAddress,
    producer_id: u64,
    name: Option<&str>,
    options: &ProducerOptions,
) -> Result<CreateRetry, NoMemory>
    ensures { IfOk result (λ m. StandsFor discovery.now.ways
        (procedure.Make (record {
          topic = topic.now;
          request = CreateProducer topic.now producer_id (option_copied name.entry) (producer_options_values options.now);
          answer = 17;
        }) (place address)) [] m) }
{
    let address = Address::new(alloc, address)?;
    let command = creating(alloc, topic, producer_id, name, options)?;
    discovery.machine(Sought::Make { command, address })
}

fn creating(
    alloc: Global,
    topic: &str,
    producer_id: u64,
    name: Option<&str>,
    options: &ProducerOptions,
) -> Result<Command, NoMemory>
    ensures { IfOk result (λ c. c ≡ record {
      topic = topic.now;
      request = CreateProducer topic.now producer_id (option_copied name.entry) (producer_options_values options.now);
      answer = 17;
    }) }
{
    let question = Question::CreateProducer {
        topic: String::from_str(alloc, topic)?,
        producer_id,
        name: name_of(alloc, name)?,
        options: options.copy()?,
    };
    Ok(Command {
        request: Request::new(alloc, question)?,
        topic: Text::new(String::from_str(alloc, topic)?),
        answer: bodies::PRODUCER_SUCCESS,
    })
}

fn name_of(alloc: Global, name: Option<&str>) -> Result<Option<String>, NoMemory>
    ensures { IfOk result (λ n. option_map string_bytes n ≡ option_copied name.entry) }
{
    match name {
        Some(name) => Ok(Some(String::from_str(alloc, name)?)),
        None => Ok(None),
    }
}
