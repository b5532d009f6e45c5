//! What tells the requests of a connection apart.

ghost use Rattle.std.specs.Prelude.{◌≡◌, Ok};

use crate::error::NoMemory;

/// What a request and its answer have in common. Keys are ordered by their kind, in the order written here, and then
/// by their numbers.
#[derive(Clone, Copy, Debug, PartialEq, Eq, PartialOrd, Ord)]
pub enum RequestKey {
    RequestId(u64),
    ProducerSend { producer_id: u64, sequence_id: u64 },
    Consumer { consumer_id: u64 },
    CloseConsumer { consumer_id: u64, request_id: u64 },
    AuthChallenge,
}

impl RequestKey {
    /// The same key.
    pub fn copy(&self) -> Result<RequestKey, NoMemory>
        ensures { result ≡ Ok self.now }
    {
        Ok(*self)
    }
}
