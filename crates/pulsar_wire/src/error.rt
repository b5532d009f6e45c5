//! What can go wrong, as a caller is told.

ghost use Rattle.std.specs.Prelude.{◌≡◌, IfOk};
ghost use Rattle.pulsar_wire.specs.Authentication.{denial};
ghost use Rattle.pulsar_wire.specs.Refused.{connection_error, in_connection};
ghost use Rattle.pulsar_wire.specs.Retry.{is_retryable};
ghost use Rattle.pulsar_wire.specs.declared.error.ConnectionError.TheVariants as connection_errors;
ghost use Rattle.pulsar_wire.specs.declared.error.ConsumerError.TheVariants as consumer_errors;
ghost use Rattle.pulsar_wire.specs.declared.error.Error.TheVariants as errors;
ghost use Rattle.pulsar_wire.specs.declared.error.ProducerError.TheVariants as producer_errors;
ghost use Rattle.pulsar_wire.specs.declared.error.ServiceDiscoveryError.TheVariants as service_discovery_errors;

use crate::commands::enumerations::ServerError;
use crate::encoding::read_error::ReadError;
use std::alloc::{AllocError, AllocFailed};

/// Memory ran out.
#[derive(Clone, Copy, Debug, PartialEq, Eq, thiserror::Error)]
#[error("out of memory")]
pub struct NoMemory;

impl From<AllocError> for NoMemory {
    fn from(_e: AllocError) -> NoMemory {
        NoMemory
    }
}

impl<T: Drop> From<AllocFailed<T>> for NoMemory {
    fn from(_e: AllocFailed<T>) -> NoMemory {
        NoMemory
    }
}

/// How a connection attempt, or a read or a write, failed.
#[derive(Clone, Copy, Debug, PartialEq, Eq, thiserror::Error)]
pub enum IoKind {
    #[error("connection refused")]
    ConnectionRefused,
    #[error("timed out")]
    TimedOut,
    #[error("other error")]
    Other,
}

/// What part of the bytes is refused.
#[derive(Clone, Copy, Debug, PartialEq, Eq, thiserror::Error)]
pub enum Reason {
    /// The sizes at the front of a frame.
    #[error("frame")]
    Frame,
    /// A frame's command.
    #[error("command")]
    Command,
    /// What stands behind a frame's command.
    #[error("payload")]
    Payload,
    /// The two bytes in front of a checksum.
    #[error("magic")]
    Magic,
    /// The metadata of a payload.
    #[error("metadata")]
    Metadata,
    /// A payload's checksum.
    #[error("checksum")]
    Checksum,
    /// A message by itself.
    #[error("message")]
    Message,
    /// The entries of a batch.
    #[error("batch")]
    Batch,
}

/// Why there are no credentials to send.
#[derive(Clone, Debug, PartialEq, Eq, Drop, thiserror::Error)]
pub enum AuthenticationError {
    #[error("{0}")]
    Custom(String),
    /// Another attempt may go well.
    #[error("{0} (retriable)")]
    Retriable(String),
}

impl AuthenticationError {
    /// An error with the same content.
    pub fn copy(&self) -> Result<AuthenticationError, NoMemory>
        ensures { IfOk result (λ e. denial e ≡ denial self.now) }
    {
        Ok(self.clone()?)
    }
}

/// What went wrong on a connection.
#[derive(Debug, PartialEq, Eq, Drop)]
pub enum ConnectionError {
    /// The connection could not be made.
    Io(IoKind),
    /// More is asked of the connection than it can take.
    SlowDown,
    /// The connection ended before the reply came, or was not ready.
    Disconnected,
    /// The broker refused the request: why, if it has a name for it, and its message, if there is one.
    PulsarError(Option<ServerError>, Option<String>),
    /// Something came that has no place in the protocol.
    Unexpected(String),
    /// Bytes from the broker are refused.
    Decoding(Reason),
    /// A size does not fit its field.
    Encoding(Reason),
    /// This is no address.
    SocketAddr(String),
    /// The reply was another command, of this name.
    UnexpectedResponse(String),
    /// There are no credentials to send.
    Authentication(AuthenticationError),
    /// There is no such address.
    NotFound,
    /// The call waited for an attempt of another call, and that attempt failed.
    Canceled,
    /// The client was not built yet, or was stopped.
    Shutdown,
    /// A counter of requests or calls stands at its end.
    Exhausted,
    /// Memory ran out.
    NoMemory,
}

impl ConnectionError {
    /// Whether a later attempt to connect may go well where this one failed so.
    pub fn establish_retryable(&self) -> bool
        ensures { result ≡ is_retryable self.now }
    {
        matches!(
            self,
            ConnectionError::Io(IoKind::ConnectionRefused | IoKind::TimedOut)
                | ConnectionError::Authentication(AuthenticationError::Retriable(_))
        )
    }
}

impl From<IoKind> for ConnectionError {
    ghost from_gives = { λ kind e. e ≡ connection_errors.Io kind };

    fn from(kind: IoKind) -> ConnectionError {
        ConnectionError::Io(kind)
    }
}

impl From<AuthenticationError> for ConnectionError {
    ghost from_gives = { λ e f. f ≡ connection_errors.Authentication e };

    fn from(e: AuthenticationError) -> ConnectionError {
        ConnectionError::Authentication(e)
    }
}

impl From<NoMemory> for ConnectionError {
    ghost from_gives = { λ _ e. e ≡ connection_errors.NoMemory };

    fn from(_e: NoMemory) -> ConnectionError {
        ConnectionError::NoMemory
    }
}

impl From<AllocError> for ConnectionError {
    ghost from_gives = { λ _ e. e ≡ connection_errors.NoMemory };

    fn from(_e: AllocError) -> ConnectionError {
        ConnectionError::NoMemory
    }
}

impl From<ReadError> for ConnectionError {
    ghost from_gives = { λ e f. f ≡ connection_error e };

    fn from(e: ReadError) -> ConnectionError {
        match e {
            ReadError::Malformed => ConnectionError::Decoding(Reason::Message),
            ReadError::NoMemory => ConnectionError::NoMemory,
        }
    }
}

/// What went wrong with a consumer.
#[derive(Debug, PartialEq, Eq, Drop, thiserror::Error)]
pub enum ConsumerError {
    #[error("Connection error: {0}")]
    Connection(ConnectionError),
    /// A message has no payload where one must be.
    #[error("Missing payload: {0}")]
    MissingPayload(String),
    /// A payload could not be decompressed.
    #[error("Decompression error: {0}")]
    Io(IoKind),
    /// The consumer has as much to do as it can hold.
    #[error("cannot send message to the consumer engine: the channel is full")]
    ChannelFull,
    /// The consumer was closed.
    #[error("cannot send message to the consumer engine: the channel is closed")]
    Closed,
    /// The options make no consumer.
    #[error("Error while building the consumer.")]
    BuildError,
}

impl From<ConnectionError> for ConsumerError {
    ghost from_gives = { λ e f. f ≡ consumer_errors.Connection e };

    fn from(e: ConnectionError) -> ConsumerError {
        ConsumerError::Connection(e)
    }
}

impl From<IoKind> for ConsumerError {
    ghost from_gives = { λ kind e. e ≡ consumer_errors.Io kind };

    fn from(kind: IoKind) -> ConsumerError {
        ConsumerError::Io(kind)
    }
}

/// What went wrong as a topic's broker was looked for.
#[derive(Debug, PartialEq, Eq, Drop)]
pub enum ServiceDiscoveryError {
    Connection(ConnectionError),
    /// The broker refused the request: why, if it has a name for it, and its message, if there is one.
    Query(Option<ServerError>, Option<String>),
    /// There is no such topic.
    NotFound,
    /// The broker's address could not be found.
    DnsLookupError,
    /// The search was given up.
    Canceled,
    /// What searches was stopped.
    Shutdown,
    /// Stands where there is no error yet.
    Dummy,
}

impl From<ConnectionError> for ServiceDiscoveryError {
    ghost from_gives = { λ e f. f ≡ service_discovery_errors.Connection e };

    fn from(e: ConnectionError) -> ServiceDiscoveryError {
        ServiceDiscoveryError::Connection(e)
    }
}

/// What went wrong with a producer.
#[derive(Debug, PartialEq, Eq, Drop)]
#[cycle(error)]
pub enum ProducerError {
    Connection(ConnectionError),
    /// Another error, in words.
    Custom(String),
    /// A payload could not be compressed.
    Io(IoKind),
    /// Some of the messages that were sent together failed: the outcome of each, in order.
    PartialSend(Vec<Result<u64, Error>>),
    /// The batch in which the message went could not be sent.
    Batch(Box<Error>),
    /// Another producer has taken this one's place.
    Fenced,
    /// The producer was closed or dropped.
    Closed,
}

impl From<ConnectionError> for ProducerError {
    ghost from_gives = { λ e f. f ≡ producer_errors.Connection e };

    fn from(e: ConnectionError) -> ProducerError {
        ProducerError::Connection(e)
    }
}

/// What a call of the client answers where it fails.
#[derive(Debug, PartialEq, Eq, Drop)]
#[cycle(error)]
pub enum Error {
    Connection(ConnectionError),
    Consumer(ConsumerError),
    Producer(ProducerError),
    ServiceDiscovery(ServiceDiscoveryError),
    Authentication(AuthenticationError),
    /// Another error, in words.
    Custom(String),
    /// A task could not be started.
    Executor,
}

impl From<ConnectionError> for Error {
    ghost from_gives = { λ e f. f ≡ in_connection e };

    fn from(e: ConnectionError) -> Error {
        Error::Connection(e)
    }
}

impl From<ConsumerError> for Error {
    ghost from_gives = { λ e f. f ≡ errors.Consumer e };

    fn from(e: ConsumerError) -> Error {
        Error::Consumer(e)
    }
}

impl From<ProducerError> for Error {
    ghost from_gives = { λ e f. f ≡ errors.Producer e };

    fn from(e: ProducerError) -> Error {
        Error::Producer(e)
    }
}

impl From<ServiceDiscoveryError> for Error {
    ghost from_gives = { λ e f. f ≡ errors.ServiceDiscovery e };

    fn from(e: ServiceDiscoveryError) -> Error {
        Error::ServiceDiscovery(e)
    }
}
