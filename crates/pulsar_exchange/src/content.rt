//! What owns memory on its way to a connection and from it. It is boxed, so that what carries it is small. Contracts see it by its
//! content.

ghost use Rattle.std.specs.Prelude.{◌≡◌, IfOk};
ghost use Rattle.pulsar_frame.specs.Shown.{message_values};
ghost use Rattle.pulsar_exchange.specs.Messages.{Reply, is_body, read};
ghost use Rattle.pulsar_wire.specs.Failures.{fault};
ghost use Rattle.pulsar_exchange.specs.Refusals.{refused};
ghost use Rattle.pulsar_messages.specs.Words.{CloseConsumerUnawaited};
ghost use Rattle.pulsar_exchange.specs.RawCall.{subscribed_by, words_in, words_of};
ghost use Rattle.pulsar_exchange.specs.Request.{closed_consumer, is_awaited, named_consumer, request_number, subscribed};

use crate::raw_call::{RawCall, Subscription};
use crate::refusal::{refused, unexpected};
use pulsar_frame::message::Message;
use pulsar_wire::bodies;
use pulsar_wire::error::{ConnectionError, NoMemory};
use pulsar_wire::key::RequestKey;
use std::alloc::Global;
use std::marker::Model;

/// A consumer that a raw call makes, in a box.
pub struct Subscribed {
    made: Box<Subscription>,
}

impl Drop for Subscribed {
    fn drop(self) {
        let Subscribed { made: _ } = self;
    }
}

impl Model for Subscribed {
    ghost use Rattle.pulsar_exchange.specs.RawCall.{subscribed_by};
    ghost use Rattle.pulsar_exchange.specs.Request.{Subscribed as Meant};

    ghost Value = { Meant };

    ghost view = { λ s. subscribed_by s.made.value };
}

impl Subscribed {
    pub fn new(alloc: Global, made: Subscription) -> Result<Subscribed, NoMemory>
        ensures { IfOk result (λ s. s ≡ subscribed_by made) }
    {
        let made = Box::new(alloc, made)?;
        Ok(Subscribed { made })
    }

    /// Its number.
    pub fn consumer(&self) -> u64
        ensures { result ≡ self.now.consumer }
    {
        self.made.consumer
    }

    pub fn into_inner(self) -> Subscription
        ensures { subscribed_by result ≡ self }
    {
        let Subscribed { made } = self;
        Box::into_inner(made)
    }
}

/// What a request is.
#[derive(Drop)]
pub enum Kind {
    /// A call of a user.
    Call(Box<RawCall>),
    /// The consumer of this number ends, and nobody waits for the answer.
    Closing(u64),
}

/// What is asked of a connection, in a box.
pub struct Request {
    kind: Kind,
}

impl Drop for Request {
    fn drop(self) {
        let Request { kind: _ } = self;
    }
}

impl Model for Request {
    ghost use Rattle.pulsar_messages.specs.Words.{Words};
    ghost use Rattle.pulsar_exchange.specs.RawCall.{words_in};

    ghost Value = { Words };

    ghost view = { λ r. words_in r.kind };
}

impl Request {
    pub fn new(alloc: Global, call: RawCall) -> Result<Request, NoMemory>
        ensures { IfOk result (λ r. r ≡ words_of call) }
    {
        let call = Box::new(alloc, call)?;
        Ok(Request {
            kind: Kind::Call(call),
        })
    }

    /// The consumer of this number ends, and nobody waits for the answer.
    pub fn closing(consumer: u64) -> Request
        ensures { result ≡ CloseConsumerUnawaited consumer }
    {
        Request {
            kind: Kind::Closing(consumer),
        }
    }

    /// The number of its body.
    pub fn number(&self) -> u32
        ensures { result ≡ request_number self.now }
    {
        match &self.kind {
            Kind::Call(call) => call.number(),
            Kind::Closing(_) => bodies::CLOSE_CONSUMER,
        }
    }

    /// Its answer is waited for.
    pub fn is_awaited(&self) -> bool
        ensures { result ≡ is_awaited self.now }
    {
        match &self.kind {
            Kind::Call(call) => call.is_awaited(),
            Kind::Closing(_) => false,
        }
    }

    /// The number of the consumer that it closes, where it closes one.
    pub fn closed_consumer(&self) -> Option<u64>
        ensures { result ≡ closed_consumer self.now }
    {
        match &self.kind {
            Kind::Call(call) => call.closed_consumer(),
            Kind::Closing(consumer) => Some(*consumer),
        }
    }

    /// The number of the consumer that it names, where it names one.
    pub fn named_consumer(&self) -> Option<u64>
        ensures { result ≡ named_consumer self.now }
    {
        match &self.kind {
            Kind::Call(call) => call.named_consumer(),
            Kind::Closing(consumer) => Some(*consumer),
        }
    }

    /// The consumer that its success makes, where it makes one.
    pub fn subscribed(&self, alloc: Global) -> Result<Option<Subscribed>, NoMemory>
        ensures { IfOk result (λ s. s ≡ subscribed self.now) }
    {
        match &self.kind {
            Kind::Call(call) => subscribed_by_call(alloc, call),
            Kind::Closing(_) => Ok(None),
        }
    }

    /// A request with the same words.
    pub fn copy(&self, alloc: Global) -> Result<Request, NoMemory>
        ensures { IfOk result (λ r. r ≡ self.now) }
    {
        match &self.kind {
            Kind::Call(call) => Request::new(alloc, call.copy()?),
            Kind::Closing(consumer) => Ok(Request::closing(*consumer)),
        }
    }

    pub fn into_inner(self) -> Kind
        ensures { words_in result ≡ self }
    {
        let Request { kind } = self;
        kind
    }
}

/// The consumer that the success of a call makes, where it makes one.
fn subscribed_by_call(alloc: Global, call: &RawCall) -> Result<Option<Subscribed>, NoMemory>
    ensures { IfOk result (λ s. s ≡ subscribed (words_of call.now)) }
{
    match call.subscribed()? {
        Some(made) => Ok(Some(Subscribed::new(alloc, made)?)),
        None => Ok(None),
    }
}

/// A message of the broker, as the client reads it.
pub struct Received {
    message: Box<Message>,
}

impl Drop for Received {
    fn drop(self) {
        let Received { message: _ } = self;
    }
}

impl Model for Received {
    ghost use Rattle.pulsar_frame.specs.Shown.{message_values};
    ghost use Rattle.pulsar_exchange.specs.Messages.{Reply, read};
    ghost use Rattle.pulsar_wire.specs.FailureCode.{failure_code};
    ghost use Rattle.std.specs.Coded.{codes};

    ghost Value = { Reply };

    ghost coded = { Prim.hlevel (codes, failure_code (Prim.hlevel codes)) };

    ghost view = { λ r. read (message_values r.message.value) };
}

impl Received {
    pub fn new(alloc: Global, message: Message) -> Result<Received, NoMemory>
        ensures { IfOk result (λ r. r ≡ read (message_values message)) }
    {
        let message = Box::new(alloc, message)?;
        Ok(Received { message })
    }

    pub fn key(&self) -> Option<RequestKey>
        ensures { result ≡ self.now.content.key }
    {
        self.message.request_key()
    }

    /// Its body has this number.
    pub fn is(&self, number: u32) -> bool
        ensures { result ≡ is_body number self.now.content.body }
    {
        match &self.message.command.body {
            Some(body) => body.number() == number,
            None => false,
        }
    }

    /// Why it fails a request that expects another body.
    pub fn refusal(&self, alloc: Global) -> Result<ConnectionError, NoMemory>
        ensures { IfOk result (λ e. fault e ≡ refused self.now self.now.content.body) }
    {
        match &self.message.command.body {
            Some(body) => refused(alloc, body),
            None => unexpected(alloc, "none"),
        }
    }

    /// A message that reads the same.
    pub fn copy(&self, alloc: Global) -> Result<Received, NoMemory>
        ensures { IfOk result (λ r. r ≡ self.now) }
    {
        let message = Box::new(alloc, self.message.copy()?)?;
        Ok(Received { message })
    }

    /// What is read in it, but for what it gives to a consumer.
    pub fn into_reply(self, alloc: Global) -> Result<pulsar_frame::received::Received, NoMemory>
        ensures { IfOk result (λ r. r ≡ self.content) }
    {
        pulsar_frame::received::Received::new(alloc, self.into_message())
    }

    /// The message, still in its box.
    pub fn into_box(self) -> Box<Message>
        ensures { read (message_values result.value) ≡ self }
    {
        let Received { message } = self;
        message
    }

    pub fn into_message(self) -> Message
        ensures { read (message_values result) ≡ self }
    {
        let Received { message } = self;
        Box::into_inner(message)
    }
}
