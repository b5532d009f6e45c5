//! Why a producer failed.

ghost use Rattle.std.specs.Prelude.{◌≡◌, IfOk};
ghost use Rattle.pulsar_wire.specs.Failures.{fault};
ghost use Rattle.pulsar_outgoing.specs.Errors.{in_producer};

use pulsar_addresses::content::Refusal;
use pulsar_wire::error::{ConnectionError, Error, NoMemory, ProducerError};
use std::alloc::Global;

/// An error of a connection as one of a producer.
pub fn in_producer(alloc: Global, error: ConnectionError) -> Result<Refusal, NoMemory>
    ensures { IfOk result (λ r. r ≡ in_producer (fault error)) }
{
    Refusal::new(alloc, Error::Producer(ProducerError::Connection(error)))
}
