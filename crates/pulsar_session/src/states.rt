//! Where a connection stands, and what it tells.

use pulsar_frame::message::Message;
use pulsar_wire::error::ConnectionError;

/// Where a connection stands.
#[derive(Clone, Copy, PartialEq, Eq)]
pub enum Stage {
    Dialing,
    Handshaking,
    Ready,
    Over,
}

/// The place that a frame has, or will have unless the connection ends before.
#[derive(Clone, Copy, Debug, PartialEq, Eq)]
pub enum Asked {
    Queued(u64),
    Waiting(u64),
}

/// What the next frame is to the caller.
#[derive(Debug, Drop)]
pub enum Arrived {
    /// It was the first: the connection is ready.
    Ready,
    /// The requests of these places wait no longer.
    Settled { places: Vec<u64>, reply: Message },
    /// It is for a consumer.
    ForConsumer { consumer: u64, reply: Message },
    /// The broker wants the credential. The answer is asked for, where there is one.
    Challenge,
    /// Nobody is told of it.
    Dropped,
    /// It is no frame, or the first and not `connected`. It stays in front: the connection is to be closed with this cause.
    Bad(ConnectionError),
}
