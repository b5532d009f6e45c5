//! The texts of errors that no script reaches, by the table of their forms.

use pulsar_cli::push_step;
use pulsar_client::Effect;
use pulsar_wire::{
    AuthenticationError, ConnectionError, ConsumerError, Error, IoKind, ProducerError, Reason,
    ServerError, ServiceDiscoveryError,
};
use std::alloc::{AllocError, Global};
use std::process::Abort;
use std::test::Fail;

fn words(alloc: Global) -> Result<String, AllocError> {
    String::from_str(alloc, "a b")
}

/// A call that ends with this error prints this text.
fn is_printed(rt: &impl Abort, alloc: Global, error: Error, text: &str) -> Result<(), Fail> {
    let effects = vec![in alloc;
        Effect::Ended {
            ticket: 9,
            answer: Err(error)
        },
    ]?;
    let mut printed = String::new(alloc);
    push_step(&mut printed, 7, &effects)?;
    let wanted = format!(in alloc; "event 7\nended 9 err {text}\n")?;
    assert_eq!(rt; printed.as_str(), wanted.as_str());
    Ok(())
}

fn connection(
    rt: &impl Abort,
    alloc: Global,
    error: ConnectionError,
    text: &str,
) -> Result<(), Fail> {
    is_printed(rt, alloc, Error::Connection(error), text)
}

#[test]
fn errors_of_connections(rt: HostRuntime) -> Result<(), Fail> {
    let alloc = rt.alloc();
    let denied = AuthenticationError::Custom(words(alloc)?);
    let denied = ConnectionError::Authentication(denied);
    connection(&rt, alloc, denied, "connection.authentication.custom a%20b")?;
    let unexpected = ConnectionError::Unexpected(words(alloc)?);
    connection(&rt, alloc, unexpected, "connection.unexpected a%20b")?;
    let address = ConnectionError::SocketAddr(words(alloc)?);
    connection(&rt, alloc, address, "connection.socketaddr a%20b")?;
    let unknown = ConnectionError::PulsarError(Some(ServerError::UnknownError), None);
    connection(&rt, alloc, unknown, "connection.pulsar 0 ~")?;
    let encoding = ConnectionError::Encoding(Reason::Frame);
    connection(&rt, alloc, encoding, "connection.encoding frame")?;
    connection(&rt, alloc, ConnectionError::SlowDown, "connection.slowdown")
}

#[test]
fn errors_of_consumers(rt: HostRuntime) -> Result<(), Fail> {
    let alloc = rt.alloc();
    let missing = Error::Consumer(ConsumerError::MissingPayload(words(alloc)?));
    is_printed(&rt, alloc, missing, "consumer.missingpayload a%20b")?;
    let refused = ConnectionError::Io(IoKind::ConnectionRefused);
    let refused = Error::Consumer(ConsumerError::Connection(refused));
    is_printed(&rt, alloc, refused, "consumer.connection.io refused")?;
    let closed = Error::Consumer(ConsumerError::Closed);
    is_printed(&rt, alloc, closed, "consumer.closed")
}

/// The outcomes of two messages that were sent together.
fn outcomes(alloc: Global) -> Result<Vec<Result<u64, Error>>, AllocError> {
    let disconnected = ProducerError::Connection(ConnectionError::Disconnected);
    let mut outcomes = Vec::new(alloc);
    outcomes.push(Ok(4))?;
    outcomes.push(Err(Error::Producer(disconnected)))?;
    Ok(outcomes)
}

#[test]
fn errors_of_producers(rt: HostRuntime) -> Result<(), Fail> {
    let alloc = rt.alloc();
    let custom = Error::Producer(ProducerError::Custom(words(alloc)?));
    is_printed(&rt, alloc, custom, "producer.custom a%20b")?;
    let late = Error::Producer(ProducerError::Io(IoKind::TimedOut));
    is_printed(&rt, alloc, late, "producer.io timedout")?;
    let partial = "producer.partial 2 ok:4 err:producer.connection.disconnected";
    let sent = ProducerError::PartialSend(outcomes(alloc)?);
    is_printed(&rt, alloc, Error::Producer(sent), partial)?;
    let inner = Error::Producer(ProducerError::PartialSend(outcomes(alloc)?));
    let batch = ProducerError::Batch(Box::new(alloc, inner)?);
    let text = format!(in alloc; "producer.batch {partial}")?;
    is_printed(&rt, alloc, Error::Producer(batch), &text)
}

#[test]
fn errors_of_other_families(rt: HostRuntime) -> Result<(), Fail> {
    let alloc = rt.alloc();
    let not_ready = Some(ServerError::ServiceNotReady);
    let query = ServiceDiscoveryError::Query(not_ready, Some(words(alloc)?));
    let query = Error::ServiceDiscovery(query);
    is_printed(&rt, alloc, query, "discovery.query 6 a%20b")?;
    let shutdown = ServiceDiscoveryError::Connection(ConnectionError::Shutdown);
    let shutdown = Error::ServiceDiscovery(shutdown);
    is_printed(&rt, alloc, shutdown, "discovery.connection.shutdown")?;
    let denied = Error::Authentication(AuthenticationError::Retriable(words(alloc)?));
    is_printed(&rt, alloc, denied, "authentication.retriable a%20b")?;
    is_printed(&rt, alloc, Error::Custom(words(alloc)?), "custom a%20b")?;
    is_printed(&rt, alloc, Error::Executor, "executor")
}
