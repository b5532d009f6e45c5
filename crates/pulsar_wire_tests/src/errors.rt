//! The texts of errors.

use pulsar_wire::{
    AuthenticationError, ConnectionError, ConsumerError, Error, IoKind, NoMemory, ProducerError,
    Reason, ServerError, ServiceDiscoveryError, server_error,
};
use std::alloc::{AllocError, Global};
use std::fmt::Display;
use std::process::Abort;
use std::test::Fail;

/// The names of the broker's errors, in the order of their numbers.
const NAMES: &str =
    "UnknownError MetadataError PersistenceError AuthenticationError AuthorizationError \
    ConsumerBusy ServiceNotReady ProducerBlockedQuotaExceededError \
    ProducerBlockedQuotaExceededException ChecksumError UnsupportedVersionError TopicNotFound \
    SubscriptionNotFound ConsumerNotFound TooManyRequests TopicTerminatedError ProducerBusy \
    InvalidTopicName IncompatibleSchema ConsumerAssignError TransactionCoordinatorNotFound \
    InvalidTxnStatus NotAllowedError TransactionConflict TransactionNotFound ProducerFenced";

/// The value has this text. It takes the value, so that a caller has none to let go.
fn has_text<E: Display + Drop>(rt: &impl Abort, alloc: Global, value: E, text: &str) {
    assert!(rt; is_text(alloc, &value, text), "{value}, not {text}");
}

fn is_text<E: Display>(alloc: Global, value: &E, text: &str) -> bool {
    match value.to_string(alloc) {
        Ok(shown) => shown.as_str() == text,
        Err(_) => false,
    }
}

/// A text to put into an error.
fn words(rt: &impl Abort, alloc: Global) -> String {
    String::from_str(alloc, "some words").expect(rt, "memory")
}

/// Whether the broker's error of this number has this name.
fn is_named(alloc: Global, number: i32, name: &str) -> bool {
    let refused = ConnectionError::PulsarError(server_error(number), None);
    match format!(in alloc; "Server error (Some({name})): ") {
        Ok(text) => is_text(alloc, &refused, text.as_str()),
        Err(_) => false,
    }
}

#[test]
fn server_errors_have_names(rt: HostRuntime) {
    for (number, name) in (0..26).zip(NAMES.split(' ')) {
        assert!(rt; is_named(rt.alloc(), number, name), "{name}");
    }
}

#[test]
fn kinds_have_texts(rt: HostRuntime) {
    let alloc = rt.alloc();
    has_text(&rt, alloc, NoMemory, "out of memory");
    has_text(&rt, alloc, IoKind::ConnectionRefused, "connection refused");
    has_text(&rt, alloc, IoKind::TimedOut, "timed out");
    has_text(&rt, alloc, IoKind::Other, "other error");
}

#[test]
fn reasons_have_texts(rt: HostRuntime) {
    let alloc = rt.alloc();
    has_text(&rt, alloc, Reason::Frame, "frame");
    has_text(&rt, alloc, Reason::Command, "command");
    has_text(&rt, alloc, Reason::Payload, "payload");
    has_text(&rt, alloc, Reason::Magic, "magic");
    has_text(&rt, alloc, Reason::Metadata, "metadata");
    has_text(&rt, alloc, Reason::Checksum, "checksum");
    has_text(&rt, alloc, Reason::Message, "message");
    has_text(&rt, alloc, Reason::Batch, "batch");
}

/// The copy of a denial, or another one.
fn copy(denial: &AuthenticationError, alloc: Global) -> AuthenticationError {
    match denial.copy() {
        Ok(copy) => copy,
        Err(NoMemory) => AuthenticationError::Custom(String::new(alloc)),
    }
}

#[test]
fn denials_have_texts(rt: HostRuntime) {
    let alloc = rt.alloc();
    let custom = AuthenticationError::Custom(words(&rt, alloc));
    has_text(&rt, alloc, custom, "some words");
    let retriable = AuthenticationError::Retriable(words(&rt, alloc));
    has_text(
        &rt,
        alloc,
        copy(&retriable, alloc),
        "some words (retriable)",
    );
}

#[test]
fn plain_connection_errors_have_texts(rt: HostRuntime) {
    let alloc = rt.alloc();
    let io = ConnectionError::Io(IoKind::TimedOut);
    has_text(&rt, alloc, io, "timed out");
    has_text(&rt, alloc, ConnectionError::SlowDown, "SlowDown");
    has_text(&rt, alloc, ConnectionError::Disconnected, "Disconnected");
    let decoding = ConnectionError::Decoding(Reason::Frame);
    has_text(&rt, alloc, decoding, "Error decoding message: frame");
    let encoding = ConnectionError::Encoding(Reason::Payload);
    has_text(&rt, alloc, encoding, "Error encoding message: payload");
    let not_found = ConnectionError::NotFound;
    has_text(&rt, alloc, not_found, "error looking up URL");
    has_text(&rt, alloc, ConnectionError::Canceled, "canceled request");
    let shutdown = "The connection was shut down";
    has_text(&rt, alloc, ConnectionError::Shutdown, shutdown);
    has_text(&rt, alloc, ConnectionError::Exhausted, "counter exhausted");
    has_text(&rt, alloc, ConnectionError::NoMemory, "out of memory");
}

#[test]
fn connection_errors_with_words_have_texts(rt: HostRuntime) {
    let alloc = rt.alloc();
    let refusal = ConnectionError::PulsarError(None, Some(words(&rt, alloc)));
    has_text(&rt, alloc, refusal, "Server error (None): some words");
    let unexpected = ConnectionError::Unexpected(words(&rt, alloc));
    has_text(&rt, alloc, unexpected, "some words");
    let address = ConnectionError::SocketAddr(words(&rt, alloc));
    let text = "Error obtaining socket address: some words";
    has_text(&rt, alloc, address, text);
    let response = ConnectionError::UnexpectedResponse(words(&rt, alloc));
    let text = "Unexpected response from pulsar: some words";
    has_text(&rt, alloc, response, text);
    let denial = AuthenticationError::Custom(words(&rt, alloc));
    let denied = ConnectionError::Authentication(denial);
    has_text(&rt, alloc, denied, "Authentication error: some words");
}

#[test]
fn consumer_errors_have_texts(rt: HostRuntime) {
    let alloc = rt.alloc();
    let connection = ConsumerError::Connection(ConnectionError::NotFound);
    let text = "Connection error: error looking up URL";
    has_text(&rt, alloc, connection, text);
    let missing = ConsumerError::MissingPayload(words(&rt, alloc));
    has_text(&rt, alloc, missing, "Missing payload: some words");
    let io = ConsumerError::Io(IoKind::Other);
    has_text(&rt, alloc, io, "Decompression error: other error");
    let full = "cannot send message to the consumer engine: the channel is full";
    has_text(&rt, alloc, ConsumerError::ChannelFull, full);
    let closed = "cannot send message to the consumer engine: the channel is closed";
    has_text(&rt, alloc, ConsumerError::Closed, closed);
    let build = "Error while building the consumer.";
    has_text(&rt, alloc, ConsumerError::BuildError, build);
}

#[test]
fn service_discovery_errors_have_texts(rt: HostRuntime) {
    let alloc = rt.alloc();
    let connection = ServiceDiscoveryError::Connection(ConnectionError::Shutdown);
    let text = "Connection error: The connection was shut down";
    has_text(&rt, alloc, connection, text);
    let busy = Some(ServerError::ServiceNotReady);
    let query = ServiceDiscoveryError::Query(busy, Some(words(&rt, alloc)));
    let text = "Query error (Some(ServiceNotReady)): some words";
    has_text(&rt, alloc, query, text);
    let query = ServiceDiscoveryError::Query(None, None);
    has_text(&rt, alloc, query, "Query error (None): ");
    let not_found = ServiceDiscoveryError::NotFound;
    has_text(&rt, alloc, not_found, "cannot find topic");
    let lookup = ServiceDiscoveryError::DnsLookupError;
    has_text(&rt, alloc, lookup, "cannot lookup broker address");
    let canceled = ServiceDiscoveryError::Canceled;
    has_text(&rt, alloc, canceled, "canceled request");
    let shutdown = "service discovery engine not responding";
    has_text(&rt, alloc, ServiceDiscoveryError::Shutdown, shutdown);
    let dummy = ServiceDiscoveryError::Dummy;
    has_text(&rt, alloc, dummy, "placeholder error");
}

/// What became of a batch.
fn batch(rt: &impl Abort, alloc: Global) -> ProducerError {
    ProducerError::Batch(Box::new(alloc, Error::Executor).expect(rt, "memory"))
}

#[test]
fn producer_errors_have_texts(rt: HostRuntime) {
    let alloc = rt.alloc();
    let connection = ProducerError::Connection(ConnectionError::SlowDown);
    has_text(&rt, alloc, connection, "Connection error: SlowDown");
    let custom = ProducerError::Custom(words(&rt, alloc));
    has_text(&rt, alloc, custom, "Custom error: some words");
    let io = ProducerError::Io(IoKind::Other);
    has_text(&rt, alloc, io, "Compression error: other error");
    let text = "Batch error: could not spawn task";
    has_text(&rt, alloc, batch(&rt, alloc), text);
    has_text(&rt, alloc, ProducerError::Fenced, "Producer is fenced");
    let closed = "Producer is closed or dropped";
    has_text(&rt, alloc, ProducerError::Closed, closed);
}

/// What became of two messages that were sent together.
fn partial(alloc: Global, first: bool, second: bool) -> Result<ProducerError, AllocError> {
    let mut outcomes = Vec::new(alloc);
    outcomes.push(outcome(first))?;
    outcomes.push(outcome(second))?;
    Ok(ProducerError::PartialSend(outcomes))
}

fn outcome(sent: bool) -> Result<u64, Error> {
    if sent { Ok(1) } else { Err(Error::Executor) }
}

#[test]
fn partial_sends_have_texts(rt: HostRuntime) -> Result<(), Fail> {
    let alloc = rt.alloc();
    let text = "Partial send error - 2 successful, 0 failed";
    has_text(&rt, alloc, partial(alloc, true, true)?, text);
    let text = "Partial send error - 1 successful, 1 failedfirst error: could not spawn task";
    has_text(&rt, alloc, partial(alloc, true, false)?, text);
    let text = "Partial send error - 0 successful, 2 failedfirst error: could not spawn task";
    has_text(&rt, alloc, partial(alloc, false, false)?, text);
    Ok(())
}

#[test]
fn errors_have_texts(rt: HostRuntime) {
    let alloc = rt.alloc();
    let not_found = Error::Connection(ConnectionError::NotFound);
    let text = "Connection error: error looking up URL";
    has_text(&rt, alloc, not_found, text);
    let consumer = Error::Consumer(ConsumerError::BuildError);
    let text = "consumer error: Error while building the consumer.";
    has_text(&rt, alloc, consumer, text);
    let producer = Error::Producer(ProducerError::Fenced);
    has_text(&rt, alloc, producer, "producer error: Producer is fenced");
    let search = Error::ServiceDiscovery(ServiceDiscoveryError::Dummy);
    let text = "service discovery error: placeholder error";
    has_text(&rt, alloc, search, text);
    let denial = AuthenticationError::Retriable(words(&rt, alloc));
    let text = "authentication error: some words (retriable)";
    has_text(&rt, alloc, Error::Authentication(denial), text);
    let custom = Error::Custom(words(&rt, alloc));
    has_text(&rt, alloc, custom, "error: some words");
    has_text(&rt, alloc, Error::Executor, "could not spawn task");
}
