//! What an engine of a consumer is told.

use pulsar_frame::message::Message as RawMessage;
use pulsar_wire::commands::ids::MessageIdData;

/// What its user asks of it.
#[derive(Debug, Drop)]
pub enum EngineMessage {
    /// The message of this id is acknowledged, or all up to it.
    Ack(MessageIdData, bool),
    /// The message of this id is to be given again.
    Nack(MessageIdData),
    /// Messages that were not acknowledged in time are to be given again.
    UnackedRedelivery,
}

/// What an engine of a consumer is told.
#[derive(Debug, Drop)]
pub enum EngineEvent {
    /// A frame came for it.
    Frame(RawMessage),
    /// Its user asks for this.
    Word(EngineMessage),
}
