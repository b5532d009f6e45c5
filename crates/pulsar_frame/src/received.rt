//! A message of the broker.

ghost use Rattle.std.specs.Prelude.{◌≡◌, IfOk};
ghost use Rattle.pulsar_frame.specs.Shown.{message_values};
ghost use Rattle.pulsar_frame.specs.Reply.{is_body, reply};

use crate::message::Message;
use pulsar_wire::error::NoMemory;
use pulsar_wire::key::RequestKey;
use std::alloc::Global;
use std::marker::Model;

/// A message of the broker in a box, seen by what is read in it.
pub struct Received {
    message: Box<Message>,
}

impl Drop for Received {
    fn drop(self) {
        let Received { message: _ } = self;
    }
}

impl Model for Received {
    ghost use Rattle.pulsar_frame.specs.Shown.{message_values};
    ghost use Rattle.pulsar_frame.specs.Reply.{Reply, reply};

    ghost Value = { Reply };

    ghost view = { λ r. reply (message_values r.message.value) };
}

impl Received {
    /// This message.
    pub fn new(alloc: Global, message: Message) -> Result<Received, NoMemory>
        ensures { IfOk result (λ r. r ≡ reply (message_values message)) }
    {
        let message = Box::new(alloc, message)?;
        Ok(Received { message })
    }

    /// The key that it bears.
    pub fn key(&self) -> Option<RequestKey>
        ensures { result ≡ self.now.key }
    {
        self.message.request_key()
    }

    /// Its body has this number.
    pub fn is(&self, number: u32) -> bool
        ensures { result ≡ is_body number self.now.body }
    {
        match &self.message.command.body {
            Some(body) => body.number() == number,
            None => false,
        }
    }

    /// The message itself.
    pub fn message(&self) -> &Message
        ensures { reply (message_values result.now) ≡ self.now }
    {
        &self.message
    }

    /// A message that reads the same.
    pub fn copy(&self, alloc: Global) -> Result<Received, NoMemory>
        ensures { IfOk result (λ r. r ≡ self.now) }
    {
        let message = Box::new(alloc, self.message.copy()?)?;
        Ok(Received { message })
    }

    /// The message, without its box.
    pub fn into_message(self) -> Message
        ensures { reply (message_values result) ≡ self }
    {
        let Received { message } = self;
        Box::into_inner(message)
    }
}
