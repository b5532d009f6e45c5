//! Which partition of a topic a message goes to.

ghost use Rattle.std.specs.Prelude.{◌≡◌, ◌<◌, ◌⊎◌, ℕ, map, Some, None, IfOk, MatchResult, slice_get, string_bytes};
ghost use Rattle.std.specs.Option.{option_map};
ghost use Rattle.pulsar_messages.specs.Content.{ProducerMessageValues, message_content};
ghost use Rattle.pulsar_wire.specs.Failures.{failure};
ghost use Rattle.pulsar_outgoing.specs.Errors.{IsNoMemory, no_such_index};
ghost use Rattle.pulsar_producer.specs.Routing.{advice, asked, begun, chosen, chosen_on, count, in_range, last_by_key, number_at, of_key, routed, stepped};

use pulsar_addresses::content::Text;
use pulsar_messages::{Message, RoutingPolicy};
use pulsar_wire::error::{ConnectionError, Error, NoMemory, ProducerError};
use std::alloc::Global;
use std::marker::Model;

/// Partitions are numbered in 32 bits, so there are fewer than this.
const MOST: usize = 1 << 32;

/// A policy of a client by which partitions are chosen. It is a function of the message and of how many partitions there are.
pub trait CustomRoutingPolicy: Send + Sync + Drop {
    ghost routes: { Self → ProducerMessageValues → ℕ → ℕ };

    /// The partition of a message.
    fn route(&self, message: &Message, num_producers: usize) -> usize
        ensures { result ≡ routes self.now (message_content message.now) num_producers };
}

/// A partition: its name, and the number of its topic producer.
#[derive(Drop)]
pub struct Partition {
    pub name: Text,
    pub number: u64,
}

/// A producer of several partitions.
#[derive(Drop)]
pub struct PartitionedProducer {
    partitions: Vec<Partition>,
    policy: Option<RoutingPolicy>,
    last: usize,
}

impl Model for PartitionedProducer {
    ghost use Rattle.pulsar_producer.specs.Routing.{IsRouted, Routed};

    ghost Value = { Routed };

    ghost view = { λ p. record { partitions = p.partitions.items; policy = p.policy; last = p.last } };

    ghost invariant = { λ p. IsRouted (record { partitions = p.partitions.items; policy = p.policy; last = p.last }) };
}

impl PartitionedProducer {
    /// The producer of these partitions, where there is one and there are not too many. It begins at an index.
    pub fn new(
        partitions: Vec<Partition>,
        policy: Option<RoutingPolicy>,
        last: usize,
    ) -> Option<PartitionedProducer>
        ensures { result ≡ begun partitions.items policy last }
    {
        let count = partitions.len();
        if last < count && count < MOST {
            Some(PartitionedProducer {
                partitions,
                policy,
                last,
            })
        } else {
            None
        }
    }

    /// The partitions in order.
    pub fn as_slice(&self) -> &[Partition]
        ensures { result.now ≡ self.now.partitions }
    {
        self.partitions.as_slice()
    }

    /// The partition that a message goes to. `policies` are those of the client. Where the policy, or the partition that it names, is
    /// not there, it fails.
    pub fn choose_partition(
        &mut self,
        message: &Message,
        policies: &[Box<dyn CustomRoutingPolicy>],
    ) -> Result<usize, Error>
        ensures chosen { MatchResult result
            (λ i. chosen (map (λ p. routes p) policies.now) (message_content message.now) self.old ≡ Some i)
            (λ e. IsNoMemory (failure e) ⊎ ((chosen (map (λ p. routes p) policies.now) (message_content message.now) self.old ≡ None)
            × (failure e ≡ no_such_index))) }
        ensures last { self.new ≡ routed (message_content message.now) self.old }
        ensures below { IfOk result (λ i. i < count self.old) }
    {
        // Of its partitions it is known, from here on, that there are some and that the last used one is among them.
        let _ = &self.partitions;
        let advice = self.advice(message, policies);
        match self.choose_on(message, advice) {
            Some(index) => Ok(index),
            None => Err(self.no_such_index()),
        }
    }

    /// Why a message has no partition.
    pub(crate) fn no_such_index(&self) -> Error
        ensures { IsNoMemory (failure result) ⊎ (failure result ≡ no_such_index) }
    {
        no_such_index(*self.partitions.allocator())
    }

    /// The number of the topic producer of an index.
    pub(crate) fn number_at(&self, index: Option<usize>) -> Option<u64>
        ensures { result ≡ number_at self.now index }
    {
        match self.partitions.get(index?) {
            Some(partition) => Some(partition.number),
            None => None,
        }
    }

    /// The names of the partitions in order.
    pub(crate) fn names(&self) -> Result<Vec<String>, NoMemory>
        ensures { IfOk result (λ v. map string_bytes v.items ≡ map (λ q. q.name) self.now.partitions) }
    {
        let mut names = Vec::new(*self.partitions.allocator());
        for partition in &self.partitions {
            names.push(partition.name.copy()?.into_inner())?;
        }
        Ok(names)
    }

    /// What the policy of the client says of a message, where there is such a policy: an index that is there. It takes no memory.
    pub fn advice(
        &self,
        message: &Message,
        policies: &[Box<dyn CustomRoutingPolicy>],
    ) -> Option<usize>
        ensures { result ≡ advice (map (λ p. routes p) policies.now) (message_content message.now) self.now }
    {
        match self.policy {
            Some(RoutingPolicy::Custom(index)) => asked(
                policies,
                index,
                message,
                self.partitions.len(),
            ),
            None | Some(RoutingPolicy::RoundRobin) | Some(RoutingPolicy::Single) => None,
        }
    }

    /// The index of the partition that a message goes to by this advice.
    pub(crate) fn choose_on(&mut self, message: &Message, advice: Option<usize>) -> Option<usize>
        ensures chosen { result ≡ chosen_on advice (message_content message.now) self.old }
        ensures last { self.new ≡ routed (message_content message.now) self.old }
    {
        match self.policy {
            None => Some(self.step()),
            Some(RoutingPolicy::RoundRobin) => Some(self.choose_by_key(&message.partition_key)),
            Some(RoutingPolicy::Single) => Some(self.last),
            Some(RoutingPolicy::Custom(_)) => advice,
        }
    }

    /// That of the key, and the next where there is none.
    fn choose_by_key(&mut self, key: &Option<String>) -> usize
        ensures chosen { result ≡ of_key (option_map string_bytes key.now) self.old }
        ensures last { self.new ≡ record self.old { last = last_by_key (option_map string_bytes key.now) self.old } }
    {
        match key {
            Some(key) => RoutingPolicy::compute_partition_index_for_key(
                key.as_str(),
                self.partitions.len(),
            ),
            None => self.step(),
        }
    }

    /// The next index, and the first behind the last.
    fn step(&mut self) -> usize
        ensures chosen { result ≡ stepped self.old }
        ensures last { self.new ≡ record self.old { last = stepped self.old } }
    {
        let next = self.last + 1;
        self.last = if next == self.partitions.len() {
            0
        } else {
            next
        };
        self.last
    }
}

/// What the policy of this index says, where both are there.
fn asked(
    policies: &[Box<dyn CustomRoutingPolicy>],
    index: usize,
    message: &Message,
    count: usize,
) -> Option<usize>
    ensures { result ≡ asked (slice_get (map (λ p. routes p) policies.now) index) (message_content message.now) count }
{
    asked_at(policies, index, message, count)
}

fn asked_at(
    policies: &[Box<dyn CustomRoutingPolicy>],
    index: usize,
    message: &Message,
    count: usize,
) -> Option<usize>
    ensures { result ≡ asked (option_map (λ p. routes p) (slice_get policies.now index)) (message_content message.now) count }
{
    match policies.get(index) {
        Some(policy) => in_range(route(policy, message, count), count),
        None => None,
    }
}

fn route(policy: &Box<dyn CustomRoutingPolicy>, message: &Message, count: usize) -> usize
    ensures { result ≡ routes policy.now (message_content message.now) count }
{
    policy.route(message, count)
}

fn in_range(index: usize, count: usize) -> Option<usize>
    ensures { result ≡ in_range index count }
{
    if index < count { Some(index) } else { None }
}

/// Why a message has no partition.
fn no_such_index(alloc: Global) -> Error
    ensures { IsNoMemory (failure result) ⊎ (failure result ≡ no_such_index) }
{
    match String::from_str(alloc, "routing index out of range") {
        Ok(text) => Error::Producer(ProducerError::Custom(text)),
        Err(_) => Error::Connection(ConnectionError::NoMemory),
    }
}
