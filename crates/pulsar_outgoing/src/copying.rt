//! Errors once more.

ghost use Rattle.std.specs.Prelude.{◌≡◌, IfOk};
ghost use Rattle.pulsar_wire.specs.Failures.{OfConsumer, OfDiscovery, consumer_fault, discovery_fault, failure, fault, of_producer, sent};

use pulsar_addresses::content::Refusal;
use pulsar_wire::encoding::copying::copy_optional;
use pulsar_wire::error::{
    ConnectionError, ConsumerError, Error, NoMemory, ProducerError, ServiceDiscoveryError,
};
use std::alloc::Global;

/// A refusal once more.
pub fn copy_refusal(alloc: Global, refusal: &Refusal) -> Result<Refusal, NoMemory>
    ensures { IfOk result (λ copy. copy ≡ refusal.now) }
{
    Refusal::new(alloc, copy_error(alloc, refusal.error())?)
}

/// An error once more.
#[cycle(copies)]
pub fn copy_error(alloc: Global, error: &Error) -> Result<Error, NoMemory>
    ensures { IfOk result (λ copy. failure copy ≡ failure error.now) }
{
    match error {
        Error::Connection(error) => Ok(Error::Connection(copy_connection(error)?)),
        Error::Consumer(error) => Ok(Error::Consumer(copy_consumer(error)?)),
        Error::Producer(error) => Ok(Error::Producer(copy_producer(alloc, error)?)),
        Error::ServiceDiscovery(error) => Ok(Error::ServiceDiscovery(copy_discovery(error)?)),
        Error::Authentication(error) => Ok(Error::Authentication(error.copy()?)),
        Error::Custom(text) => Ok(Error::Custom(text.clone()?)),
        Error::Executor => Ok(Error::Executor),
    }
}

fn copy_connection(error: &ConnectionError) -> Result<ConnectionError, NoMemory>
    ensures { IfOk result (λ copy. fault copy ≡ fault error.now) }
{
    match error {
        ConnectionError::Io(kind) => Ok(ConnectionError::Io(*kind)),
        ConnectionError::SlowDown => Ok(ConnectionError::SlowDown),
        ConnectionError::Disconnected => Ok(ConnectionError::Disconnected),
        ConnectionError::PulsarError(code, text) => Ok(ConnectionError::PulsarError(
            *code,
            copy_optional(text)?,
        )),
        ConnectionError::Unexpected(text) => Ok(ConnectionError::Unexpected(text.clone()?)),
        ConnectionError::Decoding(reason) => Ok(ConnectionError::Decoding(*reason)),
        ConnectionError::Encoding(reason) => Ok(ConnectionError::Encoding(*reason)),
        ConnectionError::SocketAddr(text) => Ok(ConnectionError::SocketAddr(text.clone()?)),
        ConnectionError::UnexpectedResponse(body) => {
            Ok(ConnectionError::UnexpectedResponse(body.clone()?))
        }
        ConnectionError::Authentication(error) => {
            Ok(ConnectionError::Authentication(error.copy()?))
        }
        ConnectionError::NotFound => Ok(ConnectionError::NotFound),
        ConnectionError::Canceled => Ok(ConnectionError::Canceled),
        ConnectionError::Shutdown => Ok(ConnectionError::Shutdown),
        ConnectionError::Exhausted => Ok(ConnectionError::Exhausted),
        ConnectionError::NoMemory => Ok(ConnectionError::NoMemory),
    }
}

fn copy_consumer(error: &ConsumerError) -> Result<ConsumerError, NoMemory>
    ensures { IfOk result (λ copy. consumer_fault copy ≡ consumer_fault error.now) }
{
    match error {
        ConsumerError::Connection(error) => {
            Ok(ConsumerError::Connection(copy_connection(error)?))
        }
        ConsumerError::MissingPayload(text) => Ok(ConsumerError::MissingPayload(text.clone()?)),
        ConsumerError::Io(kind) => Ok(ConsumerError::Io(*kind)),
        ConsumerError::ChannelFull => Ok(ConsumerError::ChannelFull),
        ConsumerError::Closed => Ok(ConsumerError::Closed),
        ConsumerError::BuildError => Ok(ConsumerError::BuildError),
    }
}

fn copy_discovery(error: &ServiceDiscoveryError) -> Result<ServiceDiscoveryError, NoMemory>
    ensures { IfOk result (λ copy. discovery_fault copy ≡ discovery_fault error.now) }
{
    match error {
        ServiceDiscoveryError::Connection(error) => Ok(ServiceDiscoveryError::Connection(
            copy_connection(error)?,
        )),
        ServiceDiscoveryError::Query(code, text) => Ok(ServiceDiscoveryError::Query(
            *code,
            copy_optional(text)?,
        )),
        ServiceDiscoveryError::NotFound => Ok(ServiceDiscoveryError::NotFound),
        ServiceDiscoveryError::DnsLookupError => Ok(ServiceDiscoveryError::DnsLookupError),
        ServiceDiscoveryError::Canceled => Ok(ServiceDiscoveryError::Canceled),
        ServiceDiscoveryError::Shutdown => Ok(ServiceDiscoveryError::Shutdown),
        ServiceDiscoveryError::Dummy => Ok(ServiceDiscoveryError::Dummy),
    }
}

#[cycle(copies)]
fn copy_producer(alloc: Global, error: &ProducerError) -> Result<ProducerError, NoMemory>
    ensures { IfOk result (λ copy. of_producer copy ≡ of_producer error.now) }
{
    match error {
        ProducerError::Connection(error) => {
            Ok(ProducerError::Connection(copy_connection(error)?))
        }
        ProducerError::Custom(text) => Ok(ProducerError::Custom(text.clone()?)),
        ProducerError::Io(kind) => Ok(ProducerError::Io(*kind)),
        ProducerError::PartialSend(all) => {
            Ok(ProducerError::PartialSend(copy_partial(alloc, all)?))
        }
        ProducerError::Batch(error) => {
            let copy = copy_error(alloc, error)?;
            Ok(ProducerError::Batch(Box::new(alloc, copy)?))
        }
        ProducerError::Fenced => Ok(ProducerError::Fenced),
        ProducerError::Closed => Ok(ProducerError::Closed),
    }
}

#[cycle(copies)]
fn copy_partial(
    alloc: Global,
    all: &[Result<u64, Error>],
) -> Result<Vec<Result<u64, Error>>, NoMemory>
    ensures { IfOk result (λ copy. sent copy.items ≡ sent all.now) }
{
    let mut copy = Vec::new(alloc);
    for one in all {
        copy.push(match one {
            Ok(ticket) => Ok(*ticket),
            Err(error) => Err(copy_error(alloc, error)?),
        })?;
    }
    Ok(copy)
}
