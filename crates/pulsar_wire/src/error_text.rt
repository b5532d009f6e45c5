//! The errors as texts. Those of the smaller errors stand at their types.

use crate::error::{ConnectionError, Error, ProducerError, ServiceDiscoveryError};
use std::fmt;

impl fmt::Display for ConnectionError {
    fn fmt<W: fmt::Write>(&self, f: &mut fmt::Formatter<W>) -> fmt::Result {
        match self {
            ConnectionError::Io(kind) => write!(f, "{kind}"),
            ConnectionError::SlowDown => write!(f, "SlowDown"),
            ConnectionError::Disconnected => write!(f, "Disconnected"),
            ConnectionError::PulsarError(error, text) => {
                let text = text.as_deref().unwrap_or_default();
                write!(f, "Server error ({error:?}): {text}")
            }
            ConnectionError::Unexpected(text) => write!(f, "{text}"),
            ConnectionError::Decoding(reason) => write!(f, "Error decoding message: {reason}"),
            ConnectionError::Encoding(reason) => write!(f, "Error encoding message: {reason}"),
            ConnectionError::SocketAddr(text) => {
                write!(f, "Error obtaining socket address: {text}")
            }
            ConnectionError::UnexpectedResponse(text) => {
                write!(f, "Unexpected response from pulsar: {text}")
            }
            ConnectionError::Authentication(e) => write!(f, "Authentication error: {e}"),
            ConnectionError::NotFound => write!(f, "error looking up URL"),
            ConnectionError::Canceled => write!(f, "canceled request"),
            ConnectionError::Shutdown => write!(f, "The connection was shut down"),
            ConnectionError::Exhausted => write!(f, "counter exhausted"),
            ConnectionError::NoMemory => write!(f, "out of memory"),
        }
    }
}

impl std::error::Error for ConnectionError {}

impl fmt::Display for ServiceDiscoveryError {
    fn fmt<W: fmt::Write>(&self, f: &mut fmt::Formatter<W>) -> fmt::Result {
        match self {
            ServiceDiscoveryError::Connection(e) => write!(f, "Connection error: {e}"),
            ServiceDiscoveryError::Query(error, text) => {
                let text = text.as_deref().unwrap_or_default();
                write!(f, "Query error ({error:?}): {text}")
            }
            ServiceDiscoveryError::NotFound => write!(f, "cannot find topic"),
            ServiceDiscoveryError::DnsLookupError => write!(f, "cannot lookup broker address"),
            ServiceDiscoveryError::Canceled => write!(f, "canceled request"),
            ServiceDiscoveryError::Shutdown => {
                write!(f, "service discovery engine not responding")
            }
            ServiceDiscoveryError::Dummy => write!(f, "placeholder error"),
        }
    }
}

impl std::error::Error for ServiceDiscoveryError {}

impl fmt::Display for ProducerError {
    #[cycle(text)]
    fn fmt<W: fmt::Write>(&self, f: &mut fmt::Formatter<W>) -> fmt::Result {
        match self {
            ProducerError::Connection(e) => write!(f, "Connection error: {e}"),
            ProducerError::Custom(text) => write!(f, "Custom error: {text}"),
            ProducerError::Io(kind) => write!(f, "Compression error: {kind}"),
            ProducerError::PartialSend(sent) => {
                let successful = sent.iter().filter(|outcome| outcome.is_ok()).count();
                let failed = sent.iter().filter(|outcome| outcome.is_err()).count();
                write!(
                    f,
                    "Partial send error - {successful} successful, {failed} failed"
                )?;
                for outcome in sent {
                    if let Err(e) = outcome {
                        return write!(f, "first error: {e}");
                    }
                }
                Ok(())
            }
            ProducerError::Batch(e) => write!(f, "Batch error: {e}"),
            ProducerError::Fenced => write!(f, "Producer is fenced"),
            ProducerError::Closed => write!(f, "Producer is closed or dropped"),
        }
    }
}

impl std::error::Error for ProducerError {}

impl fmt::Display for Error {
    #[cycle(text)]
    fn fmt<W: fmt::Write>(&self, f: &mut fmt::Formatter<W>) -> fmt::Result {
        match self {
            Error::Connection(e) => write!(f, "Connection error: {e}"),
            Error::Consumer(e) => write!(f, "consumer error: {e}"),
            Error::Producer(e) => write!(f, "producer error: {e}"),
            Error::ServiceDiscovery(e) => write!(f, "service discovery error: {e}"),
            Error::Authentication(e) => write!(f, "authentication error: {e}"),
            Error::Custom(text) => write!(f, "error: {text}"),
            Error::Executor => write!(f, "could not spawn task"),
        }
    }
}

impl std::error::Error for Error {}
