//! Which partition of a topic has a message.

ghost use Rattle.std.specs.Prelude.{◌≡◌, ◌%◌, ◌^◌, ◌<◌, Ok};
ghost use Rattle.pulsar_messages.specs.Murmur.{murmur3};

use crate::murmur::murmur3;
use pulsar_wire::error::NoMemory;

/// How a producer of a partitioned topic chooses a partition for a message.
#[derive(Clone, Copy, Debug, PartialEq, Eq, Default)]
pub enum RoutingPolicy {
    /// That of the message's partition key, and one after another where it has none.
    #[default]
    RoundRobin,
    /// Always the same.
    Single,
    /// What the client's policy of this index says.
    Custom(usize),
}

impl RoutingPolicy {
    /// The same policy.
    pub fn copy(&self) -> Result<RoutingPolicy, NoMemory>
        ensures { result ≡ Ok self.now }
    {
        Ok(*self)
    }

    /// The partition of the messages with this key, where the topic has so many. It depends on nothing else.
    pub fn compute_partition_index_for_key(key: &str, partition_count: usize) -> usize
        requires some { 0 < partition_count }
        requires small { partition_count < 2 ^ 32 }
        ensures partition { result ≡ murmur3 key.now % partition_count }
        ensures below { result < partition_count }
    {
        murmur3(key.as_bytes()) as usize % partition_count
    }
}
