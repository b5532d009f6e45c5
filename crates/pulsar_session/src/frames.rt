//! The frames that are written, the messages that are read, and what a message says of requests.

ghost use Rattle.std.specs.Prelude.{◌≡◌, Some, IfOk, IsOkAnd};
ghost use Rattle.std.specs.Option.{option_map};
ghost use Rattle.pulsar_wire.specs.Rows.{producer_success};
ghost use Rattle.pulsar_wire.specs.Views.{body_values, command_values, producer_success_values};
ghost use Rattle.pulsar_frame.specs.Key.{key};
ghost use Rattle.pulsar_frame.specs.Shown.{message_values};
ghost use Rattle.pulsar_messages.specs.Messages.{payload_content};
ghost use Rattle.pulsar_session.specs.Answers.{awaited_by, awaited_by_key, is};
ghost use Rattle.pulsar_session.specs.Kept.{IsNext, arrival_of};
ghost use Rattle.pulsar_session.specs.Link.{bare, frame_for, unasked, unready_in, whole};

use crate::states::Arrived;
use pulsar_frame::message::Message;
use pulsar_frame::payload::Payload;
use pulsar_frame::reader::FrameReader;
use pulsar_messages::messages::MessageParts;
use pulsar_wire::awaited::Awaited;
use pulsar_wire::bodies;
use pulsar_wire::commands::base::{BaseCommand, Body};
use pulsar_wire::commands::producer::CommandProducerSuccess;
use pulsar_wire::error::{ConnectionError, NoMemory, Reason};
use pulsar_wire::key::RequestKey;
use std::alloc::Global;

/// What stands in front of a stream.
#[derive(Drop)]
pub enum Next {
    Short,
    Refused(Reason),
    Whole(Box<Message>),
}

/// What arrives, with its message in a box.
#[derive(Drop)]
pub enum Arrival {
    Ready,
    Settled {
        places: Vec<u64>,
        reply: Box<Message>,
    },
    ForConsumer {
        consumer: u64,
        reply: Box<Message>,
    },
    Challenge,
    Dropped,
    Bad(ConnectionError),
}

impl Arrival {
    ghost use Rattle.std.specs.Prelude.{◌≡◌, Some};
    ghost use Rattle.pulsar_session.specs.Kept.{arrival_of, came_of};

    /// The same without the box.
    pub fn into_arrived(self) -> Arrived
        ensures { came_of (Some result) ≡ arrival_of self }
    {
        match self {
            Arrival::Ready => Arrived::Ready,
            Arrival::Settled { places, reply } => Arrived::Settled {
                places,
                reply: Box::into_inner(reply),
            },
            Arrival::ForConsumer { consumer, reply } => Arrived::ForConsumer {
                consumer,
                reply: Box::into_inner(reply),
            },
            Arrival::Challenge => Arrived::Challenge,
            Arrival::Dropped => Arrived::Dropped,
            Arrival::Bad(cause) => Arrived::Bad(cause),
        }
    }
}

/// A message in a box, so that little is moved and dropped where it is passed on.
fn boxed(alloc: Global, message: Message) -> Result<Box<Message>, NoMemory>
    ensures { IfOk result (λ b. b.value ≡ message) }
{
    Ok(Box::new(alloc, message)?)
}

/// Takes the frame in front, where one is whole.
pub fn take_next(alloc: Global, reader: &mut FrameReader) -> Result<Next, NoMemory>
    ensures { IfOk result (λ next. IsNext next reader.old reader.new) }
{
    match reader.next() {
        Ok(Some(message)) => Ok(Next::Whole(boxed(alloc, message)?)),
        Ok(None) => Ok(Next::Short),
        Err(ConnectionError::Decoding(reason)) => Ok(Next::Refused(reason)),
        Err(_) => Err(NoMemory),
    }
}

/// The frame of a message. It has none where a size does not fit.
#[tactic(auto, unfolding(pulsar_frame::specs::Frame::FitsFrame))]
fn frame_of(alloc: Global, message: &Message) -> Result<Option<Vec<u8>>, NoMemory>
    ensures { IfOk result (λ f. option_map (λ v. v.items) f ≡ frame_for (message_values message.now)) }
{
    match message.to_frame(alloc) {
        Ok(frame) => Ok(Some(frame)),
        Err(ConnectionError::Encoding(Reason::Frame)) => Ok(None),
        Err(_) => Err(NoMemory),
    }
}

/// The frame of a command that was made, without a payload.
pub fn command_frame(
    alloc: Global,
    command: Result<BaseCommand, NoMemory>,
) -> Result<Option<Vec<u8>>, NoMemory>
    ensures { IfOk result (λ f. IsOkAnd command (λ c. option_map (λ v. v.items) f ≡ frame_for (bare (command_values c)))) }
{
    match command {
        Ok(command) => {
            let message = Message {
                command,
                payload: None,
            };
            let message = boxed(alloc, message)?;
            frame_of(alloc, &message)
        }
        Err(_) => Err(NoMemory),
    }
}

/// The frame of a message of a producer that was made.
pub fn message_frame(
    alloc: Global,
    parts: Result<MessageParts, NoMemory>,
) -> Result<Option<Vec<u8>>, NoMemory>
    ensures { IfOk result (λ f. IsOkAnd parts (λ p. option_map (λ v. v.items) f
        ≡ frame_for (whole (command_values p.command) (payload_content p)))) }
{
    match parts {
        Ok(parts) => {
            let message = boxed(alloc, whole(parts))?;
            frame_of(alloc, &message)
        }
        Err(_) => Err(NoMemory),
    }
}

/// The message of these parts.
pub fn whole(parts: MessageParts) -> Message
    ensures { message_values result ≡ whole (command_values parts.command) (payload_content parts) }
{
    let MessageParts {
        command,
        metadata,
        payload,
    } = parts;
    Message {
        command,
        payload: Some(Payload {
            metadata,
            bytes: payload,
        }),
    }
}

/// The body of a message has this number.
pub fn is(message: &Message, number: u32) -> bool
    ensures { result ≡ is number (message_values message.now) }
{
    match &message.command.body {
        Some(body) => body.number() == number,
        None => false,
    }
}

/// What a message answers, if it is an answer.
pub fn awaited_by(message: &Message) -> Option<Awaited>
    ensures { let m = message_values message.now in result ≡ awaited_by (is 19 m) (key m) }
{
    if is(message, bodies::PONG) {
        return Some(Awaited::Pong);
    }
    by_key(message.request_key())
}

fn by_key(key: Option<RequestKey>) -> Option<Awaited>
    ensures { result ≡ awaited_by_key key }
{
    match key {
        Some(RequestKey::RequestId(number))
        | Some(
            RequestKey::CloseConsumer {
                request_id: number,
                ..
            },
        ) => Some(Awaited::Reply { number }),
        Some(
            RequestKey::ProducerSend {
                producer_id,
                sequence_id,
            },
        ) => Some(Awaited::Receipt {
            producer: producer_id,
            sequence: sequence_id,
        }),
        Some(RequestKey::Consumer { .. } | RequestKey::AuthChallenge) | None => None,
    }
}

/// What a frame is that settles no request.
pub fn unasked(message: Box<Message>) -> Arrival
    ensures { arrival_of result ≡ unasked (message_values message.value) }
{
    if is(&message, bodies::AUTH_CHALLENGE) {
        return Arrival::Challenge;
    }
    match message.request_key() {
        Some(RequestKey::Consumer { consumer_id })
        | Some(RequestKey::CloseConsumer { consumer_id, .. }) => Arrival::ForConsumer {
            consumer: consumer_id,
            reply: message,
        },
        Some(RequestKey::RequestId(_) | RequestKey::ProducerSend { .. } | RequestKey::AuthChallenge)
        | None => Arrival::Dropped,
    }
}

/// The number under which a message says that a producer is not ready yet.
pub fn unready(message: &Message) -> Option<u64>
    ensures { result ≡ unready_in (message_values message.now).command.body }
{
    match &message.command.body {
        Some(body) => unready_body(body),
        None => None,
    }
}

fn unready_body(body: &Body) -> Option<u64>
    ensures { result ≡ unready_in (Some (body_values body.now)) }
{
    match body {
        Body::ProducerSuccess(success) => unready_number(success),
        _ => None,
    }
}

#[tactic(auto, unfolding(pulsar_wire::specs::Views::producer_success_values))]
fn unready_number(body: &CommandProducerSuccess) -> Option<u64>
    ensures { result ≡ unready_in (Some (record { number = 17; row = producer_success; values = producer_success_values body.now })) }
{
    match body.producer_ready {
        Some(false) => Some(body.request_id),
        Some(true) | None => None,
    }
}
