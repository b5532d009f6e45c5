//! What a consumer gives to a poll, and why it has ended.

use crate::unread::Unread;

/// Why a consumer has ended.
#[derive(Clone, Copy, Debug, PartialEq, Eq)]
pub enum Ending {
    /// Its close was asked for.
    Closed,
    /// Its topic has ended.
    TopicEnded,
    /// Its link has ended, or the broker has closed it, and it is not subscribed again.
    LinkLost,
    /// It could not be subscribed again.
    NotSubscribed,
    /// The client was stopped.
    Stopped,
}

/// What a consumer gives to a poll.
#[derive(Drop)]
pub enum Polled {
    /// Its first unread item.
    Item(Unread),
    /// There is no item now.
    Empty,
    /// There is none, and none will come.
    End,
}
