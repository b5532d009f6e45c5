//! What one frame carries.

ghost use Rattle.std.specs.Prelude.{◌≡◌, ◌↔◌, ◌^◌, ◌<◌, ◌++◌, length, IsTrue, IfOk, IfSome, IfNone, OnOk, Some};
ghost use Rattle.std.specs.Option.{option_map};
ghost use Rattle.pulsar_wire.specs.Command.{command_spelling};
ghost use Rattle.pulsar_frame.specs.Frame.{FitsFrame, IsReadAgain, counted_bytes, frame_bytes};
ghost use Rattle.pulsar_frame.specs.Payload.{bytes_behind, parts_values, payload_values};
ghost use Rattle.pulsar_frame.specs.Read.{IsReadBehind, described_len};
ghost use Rattle.pulsar_wire.specs.Views.{body_values};
ghost use Rattle.pulsar_wire.specs.declared.key.RequestKey.TheVariants as keys;
ghost use Rattle.pulsar_frame.specs.Key.{body_key, key, success_of};
ghost use Rattle.pulsar_frame.specs.Shown.{message_of, message_values, IsFrameOf};
ghost use Rattle.pulsar_wire.specs.Sink.{capped};

use crate::payload::{Payload, PayloadParts, PayloadSizes};
use pulsar_wire::commands::base::{BaseCommand, Body, command_len, encode_command};
use pulsar_wire::commands::producer::CommandProducerSuccess;
use pulsar_wire::error::{ConnectionError, NoMemory, Reason};
use pulsar_wire::key::RequestKey;
use std::alloc::{AllocError, Global};

/// How many bytes a size has.
const SIZE_LEN: u32 = 4;

/// How many bytes the two sizes have that stand in front of a command.
const SIZES_LEN: u64 = 8;

/// What one frame carries.
#[derive(Debug, PartialEq, Eq, Drop)]
pub struct Message {
    pub command: BaseCommand,
    pub payload: Option<Payload>,
}

/// The sizes that stand in a frame.
#[derive(Clone, Copy)]
struct Sizes {
    total: u32,
    command: u32,
    /// That of the metadata, and 0 where there is no payload.
    metadata: u32,
}

impl Message {
    /// A message with the same content.
    pub fn copy(&self) -> Result<Message, NoMemory>
        ensures { IfOk result (λ message. message_values message ≡ message_values self.now) }
    {
        let payload = match &self.payload {
            Some(payload) => Some(payload.copy()?),
            None => None,
        };
        Ok(Message {
            command: self.command.copy()?,
            payload,
        })
    }

    /// What tells this request apart from others, or names the request that this frame answers. There is none where the
    /// command is not about one request.
    #[tactic(auto, unfolding(crate::specs::Key::key))]
    pub fn request_key(&self) -> Option<RequestKey>
        ensures { result ≡ key (message_values self.now) }
    {
        match &self.command.body {
            Some(body) => body_key(body),
            None => None,
        }
    }

    /// Each size in its frame fits a u32.
    #[tactic(auto, unfolding(crate::specs::Frame::FitsFrame))]
    pub fn fits(&self) -> bool
        ensures { IsTrue result ↔ FitsFrame (message_values self.now) }
    {
        match self.sizes() {
            Some(_) => true,
            None => false,
        }
    }

    /// How many bytes its frame has. It stops at the greatest u64.
    pub fn frame_len(&self) -> u64
        ensures { result ≡ capped (length (frame_bytes (message_values self.now))) }
    {
        match &self.payload {
            Some(payload) => frame_len(&self.command, Some(payload.parts())),
            None => frame_len(&self.command, None),
        }
    }

    /// Its frame. The answer is `Encoding(Frame)` exactly where a size does not fit a u32, and there is no other error
    /// but want of memory.
    #[tactic(auto, unfolding(crate::specs::Frame::frame_bytes, crate::specs::Frame::counted_bytes, crate::specs::Frame::FitsFrame, crate::specs::Sized::with_size))]
    pub fn to_frame(&self, alloc: Global) -> Result<Vec<u8>, ConnectionError>
        ensures frame { IsFrameOf (message_values self.now) result }
        ensures again { OnOk result (IsReadAgain (message_values self.now)) }
    {
        let Some(sizes) = self.sizes() else {
            return Err(ConnectionError::Encoding(Reason::Frame));
        };
        let mut frame = Vec::with_capacity(alloc, sizes.total as usize + SIZE_LEN as usize)?;
        frame.extend_from_slice(&sizes.total.to_be_bytes())?;
        frame.extend_from_slice(&sizes.command.to_be_bytes())?;
        encode_command(&self.command, &mut frame)?;
        write_behind(&self.payload, sizes.metadata, &mut frame)?;
        Ok(frame)
    }

    /// The sizes of its frame, where each fits a u32.
    #[tactic(auto, unfolding(crate::specs::Frame::FitsFrame, crate::specs::Frame::counted_bytes, crate::specs::Sized::with_size))]
    fn sizes(&self) -> Option<Sizes>
        ensures total { IfSome result (λ s. s.total ≡ length (counted_bytes (message_values self.now))) }
        ensures command { IfSome result (λ s. s.command ≡ length (command_spelling (message_values self.now).command)) }
        ensures metadata { IfSome result (λ s. s.metadata ≡ described_len (message_values self.now).payload) }
        ensures none { IfNone result (¬ FitsFrame (message_values self.now)) }
    {
        let command = u32::try_from(command_len(&self.command)).ok()?;
        let behind = sizes_behind(&self.payload)?;
        let total = u64::from(SIZE_LEN) + u64::from(command) + behind.total;
        Some(Sizes {
            total: u32::try_from(total).ok()?,
            command,
            metadata: behind.metadata,
        })
    }
}

/// How many bytes the frame has of a message with this command and this payload: nothing is copied to ask for it. It
/// stops at the greatest u64. The message fits exactly where this is below 2^32 + 4, since the total in front has four
/// bytes, and counts all that follow.
pub fn frame_len(command: &BaseCommand, payload: Option<PayloadParts<'_>>) -> u64
    ensures { result ≡ capped (length (frame_bytes (message_of command.now payload.entry))) }
{
    SIZES_LEN
        .saturating_add(command_len(command))
        .saturating_add(len_behind(payload))
}

/// How many bytes stand behind a command. It stops at the greatest u64.
fn len_behind(payload: Option<PayloadParts<'_>>) -> u64
    ensures { result ≡ capped (length (bytes_behind (option_map parts_values payload.entry))) }
{
    match payload {
        Some(payload) => payload.len(),
        None => 0,
    }
}

/// The sizes of what stands behind a command.
fn sizes_behind(payload: &Option<Payload>) -> Option<PayloadSizes>
    ensures metadata { IfSome result (λ s. s.metadata ≡ described_len (option_map payload_values payload.now)) }
    ensures total { IfSome result (λ s. s.total ≡ length (bytes_behind (option_map payload_values payload.now))) }
    ensures small { IfSome result (λ s. s.total < 2 ^ 34) }
    ensures none { IfNone result (¬ (length (bytes_behind (option_map payload_values payload.now)) < 2 ^ 32)) }
{
    match payload {
        Some(payload) => payload.sizes(),
        None => Some(PayloadSizes {
            metadata: 0,
            total: 0,
        }),
    }
}

/// Writes what stands behind a command, with its metadata of this size.
fn write_behind(payload: &Option<Payload>, size: u32, out: &mut Vec<u8>) -> Result<(), AllocError>
    requires { size ≡ described_len (option_map payload_values payload.now) }
    ensures ok { OnOk result (out.new.items ≡ out.old.items ++ bytes_behind (option_map payload_values payload.now)) }
    ensures again { OnOk result (IsReadBehind (option_map payload_values payload.now)) }
{
    match payload {
        Some(payload) => payload.write(size, out),
        None => Ok(()),
    }
}

/// The key of a message with this body.
fn body_key(body: &Body) -> Option<RequestKey>
    ensures { result ≡ body_key (body_values body.now) }
{
    match body {
        Body::Subscribe(body) => numbered(body.request_id),
        Body::Producer(body) => numbered(body.request_id),
        Body::Send(body) => of_send(body.producer_id, body.sequence_id),
        Body::SendReceipt(body) => of_send(body.producer_id, body.sequence_id),
        Body::SendError(body) => of_send(body.producer_id, body.sequence_id),
        Body::Message(body) => of_consumer(body.consumer_id),
        Body::Ack(body) => of_consumer(body.consumer_id),
        Body::Flow(body) => of_consumer(body.consumer_id),
        Body::Unsubscribe(body) => numbered(body.request_id),
        Body::Success(body) => numbered(body.request_id),
        Body::Error(body) => numbered(body.request_id),
        Body::CloseProducer(body) => numbered(body.request_id),
        Body::CloseConsumer(body) => of_close(body.consumer_id, body.request_id),
        Body::ProducerSuccess(body) => ready_key(body),
        Body::RedeliverUnacknowledgedMessages(body) => of_consumer(body.consumer_id),
        Body::PartitionedTopicMetadata(body) => numbered(body.request_id),
        Body::PartitionedTopicMetadataResponse(body) => numbered(body.request_id),
        Body::LookupTopic(body) => numbered(body.request_id),
        Body::LookupTopicResponse(body) => numbered(body.request_id),
        Body::ConsumerStats(body) => numbered(body.request_id),
        Body::ConsumerStatsResponse(body) => numbered(body.request_id),
        Body::ReachedEndOfTopic(body) => of_consumer(body.consumer_id),
        Body::Seek(body) => numbered(body.request_id),
        Body::GetLastMessageId(body) => numbered(body.request_id),
        Body::GetLastMessageIdResponse(body) => numbered(body.request_id),
        Body::ActiveConsumerChange(body) => of_consumer(body.consumer_id),
        Body::GetTopicsOfNamespace(body) => numbered(body.request_id),
        Body::GetTopicsOfNamespaceResponse(body) => numbered(body.request_id),
        Body::GetSchema(body) => numbered(body.request_id),
        Body::GetSchemaResponse(body) => numbered(body.request_id),
        Body::AuthChallenge(_) => Some(RequestKey::AuthChallenge),
        Body::Connect(_)
        | Body::Connected(_)
        | Body::Ping(_)
        | Body::Pong(_)
        | Body::AuthResponse(_) => None,
    }
}

fn numbered(request_id: u64) -> Option<RequestKey>
    ensures { result ≡ Some (keys.RequestId request_id) }
{
    Some(RequestKey::RequestId(request_id))
}

fn of_send(producer_id: u64, sequence_id: u64) -> Option<RequestKey>
    ensures { result ≡ Some (keys.ProducerSend producer_id sequence_id) }
{
    Some(RequestKey::ProducerSend {
        producer_id,
        sequence_id,
    })
}

fn of_consumer(consumer_id: u64) -> Option<RequestKey>
    ensures { result ≡ Some (keys.Consumer consumer_id) }
{
    Some(RequestKey::Consumer { consumer_id })
}

fn of_close(consumer_id: u64, request_id: u64) -> Option<RequestKey>
    ensures { result ≡ Some (keys.CloseConsumer consumer_id request_id) }
{
    Some(RequestKey::CloseConsumer {
        consumer_id,
        request_id,
    })
}

/// A producer that is not ready yet is no answer: another one follows.
#[tactic(auto, unfolding(pulsar_wire::specs::Views::producer_success_values))]
fn ready_key(body: &CommandProducerSuccess) -> Option<RequestKey>
    ensures { result ≡ body_key (success_of body.now) }
{
    match body.producer_ready {
        Some(false) => None,
        Some(true) | None => numbered(body.request_id),
    }
}
