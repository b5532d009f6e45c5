//! What a message of the broker gives to a consumer.

use crate::payload::Payload;
use pulsar_wire::commands::ids::MessageIdData;
use pulsar_wire::error::Error;

/// What a consumer has not given yet: a message, or why there is none.
#[derive(Drop)]
pub enum Unread {
    Message { id: MessageIdData, payload: Payload },
    Failure(Error),
}
