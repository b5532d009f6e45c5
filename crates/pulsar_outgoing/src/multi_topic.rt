//! What is asked of a producer of many topics, and what it says to that. Contracts see messages and numbers by their content.

ghost use Rattle.std.specs.Prelude.{◌≡◌, IfOk};
ghost use Rattle.pulsar_messages.specs.Content.{message_content};

use crate::content::{Entry, Numbers, Outgoing, Parts, Settings};
use crate::orders::{Errand, ProducerOrder};
use pulsar_addresses::content::{Refusal, Text};
use pulsar_messages::Message;
use pulsar_wire::error::NoMemory;
use std::alloc::Global;
use std::marker::Model;

/// A producer of many topics, by what it is known: the client's own, or the one that the call of this ticket made.
#[derive(Clone, Copy, PartialEq, Eq)]
pub enum Multi {
    Own,
    Made(u64),
}

/// One that wants a turn at a topic producer, or at a producer of many topics.
#[derive(Clone, Copy, PartialEq, Eq)]
pub enum Taker {
    /// The call of this ticket.
    Call(u64),
    /// The copy of a dead letter, for the topic consumer of this number, which the call of this ticket built. The key tells it from others that
    /// have had both.
    Copy {
        consumer: u64,
        ticket: u64,
        key: u64,
    },
}

/// A message as its user gave it, in a box.
pub struct UserMessage {
    message: Box<Message>,
}

impl Drop for UserMessage {
    fn drop(self) {
        let UserMessage { message: _ } = self;
    }
}

impl Model for UserMessage {
    ghost use Rattle.pulsar_messages.specs.Content.{ProducerMessageValues, message_content};

    ghost Value = { ProducerMessageValues };

    ghost view = { λ m. message_content m.message.value };
}

impl UserMessage {
    /// This message.
    pub fn new(alloc: Global, message: Message) -> Result<UserMessage, NoMemory>
        ensures { IfOk result (λ m. m ≡ message_content message) }
    {
        let message = Box::new(alloc, message)?;
        Ok(UserMessage { message })
    }

    /// The message to be looked at.
    pub fn message(&self) -> &Message
        ensures { message_content result.now ≡ self.now }
    {
        &self.message
    }

    /// The message without its box.
    pub fn into_inner(self) -> Message
        ensures { message_content result ≡ self }
    {
        let UserMessage { message } = self;
        Box::into_inner(message)
    }
}

/// A message for the producer of a topic.
#[derive(Drop)]
pub struct Handing {
    pub topic: Text,
    pub message: UserMessage,
}

/// How a producer takes a message.
#[derive(Drop)]
pub enum Dispatch {
    /// It is sent by itself.
    Send { errand: Errand, message: Outgoing },
    /// The topic producer of this number stores it until it is sent in a batch.
    Store { number: u64, entry: Entry },
}

/// A message for a topic that has no producer, and how that is built.
#[derive(Drop)]
pub struct Missing {
    pub order: ProducerOrder,
    pub message: UserMessage,
}

/// The producer of a topic that was built: how it is made and sends, and its topic producers in order.
#[derive(Drop)]
pub struct Joining {
    pub topic: Text,
    pub settings: Settings,
    pub parts: Parts,
}

/// What is asked of a producer of many topics.
#[derive(Drop)]
pub enum MultiAsk {
    /// Its turn: at once, or once it is free.
    TakeTurn,
    /// The turn is over.
    PassTurn,
    /// The producer of a topic is to take a message.
    Hand(Handing),
    /// The producer of a topic was built.
    Join(Joining),
    /// There is to be no producer of this topic any longer. Its topic producers take no message from now on.
    Remove(Text),
}

/// What a producer of many topics says to what is asked of it.
#[derive(Drop)]
pub enum MultiSaid {
    /// The one who asked has its turn.
    HasTurn,
    /// The producer of the topic has taken the message, or refuses it so.
    Handed(Result<Dispatch, Refusal>),
    /// There is no producer of the topic.
    Absent(Missing),
    /// There is no producer of the topic any longer. These were its topic producers.
    Removed(Numbers),
    /// It is done.
    Done,
}
