//! The messages that are read and written.

ghost use Rattle.std.specs.Prelude.{◌≡◌, ◌≤◌, IfOk};
ghost use Rattle.std.specs.Option.{option_map};
ghost use Rattle.pulsar_frame.specs.Payload.{payload_values};
ghost use Rattle.pulsar_frame.specs.Shown.{message_values};
ghost use Rattle.pulsar_wire.specs.Views.{body_values, message_id_values, message_metadata_values};
ghost use Rattle.pulsar_speed.specs.declared.sample.Sample.TheVariants as samples;
ghost use Rattle.pulsar_speed.specs.Samples.{id, sample_body, sample_metadata, sample_payload, sample_message, first_of, sevens, AreFrames};

use bytes::BytesMut;
use pulsar_frame::codec::Codec;
use pulsar_frame::message::Message;
use pulsar_frame::payload::{Metadata, Payload};
use pulsar_wire::commands::base::{BaseCommand, Body};
use pulsar_wire::commands::consumer::delivery::CommandMessage;
use pulsar_wire::commands::ids::MessageIdData;
use pulsar_wire::commands::producer::CommandSendReceipt;
use pulsar_wire::error::{ConnectionError, NoMemory};
use std::alloc::{AllocError, Global};

/// The number of the first message.
pub const FIRST: u64 = 2;

/// How many frames a block has.
pub const BLOCK: u64 = 4096;

/// A kind of message.
#[derive(Clone, Copy)]
pub enum Sample {
    /// What a broker answers where a message was sent.
    Receipt,
    /// What a broker delivers, without a payload.
    Message,
    /// The same, with a payload of 1,024 bytes.
    Payload,
}

impl Sample {
    pub fn name(self) -> &'static str {
        match self {
            Sample::Receipt => "receipt",
            Sample::Message => "message",
            Sample::Payload => "payload",
        }
    }

    pub fn of(word: &str) -> Option<Sample> {
        if word == "receipt" {
            Some(Sample::Receipt)
        } else if word == "message" {
            Some(Sample::Message)
        } else if word == "payload" {
            Some(Sample::Payload)
        } else {
            None
        }
    }

    /// The message of this kind with a number.
    #[tactic(auto, unfolding(crate::specs::Samples::sample_message))]
    pub fn message(self, alloc: Global, number: u64) -> Result<Message, NoMemory>
        ensures { IfOk result (λ message. message_values message ≡ sample_message self number) }
    {
        Ok(Message {
            command: BaseCommand::with_body(self.body(alloc, number)),
            payload: self.payload(alloc, number)?,
        })
    }

    /// The frames of the first messages of this kind, one behind the other.
    pub fn frames(self, alloc: Global, count: u64) -> Result<BytesMut, ConnectionError>
        requires { count ≤ 4096 }
        ensures { IfOk result (λ bytes. AreFrames (first_of self count) bytes.items) }
    {
        let mut bytes = BytesMut::new(alloc);
        for i in 0..count {
            Codec.encode(alloc, &self.message(alloc, FIRST + i)?, &mut bytes)?;
        }
        Ok(bytes)
    }

    fn body(self, alloc: Global, number: u64) -> Body
        ensures { body_values result ≡ sample_body self number }
    {
        match self {
            Sample::Receipt => receipt(alloc, number),
            Sample::Message | Sample::Payload => delivery(alloc, number),
        }
    }

    fn payload(self, alloc: Global, number: u64) -> Result<Option<Payload>, NoMemory>
        ensures { IfOk result (λ payload. option_map payload_values payload ≡ sample_payload self number) }
    {
        match self {
            Sample::Payload => Ok(Some(Payload {
                metadata: metadata(alloc, number)?,
                bytes: sevens(alloc, 1024)?,
            })),
            Sample::Receipt | Sample::Message => Ok(None),
        }
    }
}

/// The byte 7, so many times.
#[tactic(auto, unfolding(crate::specs::Samples::sevens))]
pub fn sevens(alloc: Global, count: usize) -> Result<Vec<u8>, AllocError>
    ensures { IfOk result (λ bytes. bytes.items ≡ sevens count) }
{
    Ok(vec![in alloc; 7; count]?)
}

/// The id of an entry of ledger 1.
#[tactic(auto, unfolding(pulsar_wire::specs::Views::message_id_values))]
fn id(alloc: Global, entry_id: u64) -> MessageIdData
    ensures { message_id_values result ≡ id entry_id }
{
    MessageIdData {
        ledger_id: 1,
        entry_id,
        partition: None,
        batch_index: None,
        ack_set: Vec::new(alloc),
        batch_size: None,
    }
}

#[tactic(auto, unfolding(pulsar_wire::specs::Views::send_receipt_values))]
fn receipt(alloc: Global, sequence_id: u64) -> Body
    ensures { body_values result ≡ sample_body samples.Receipt sequence_id }
{
    Body::SendReceipt(CommandSendReceipt {
        producer_id: 1,
        sequence_id,
        message_id: Some(id(alloc, 2)),
        highest_sequence_id: None,
    })
}

#[tactic(auto, unfolding(pulsar_wire::specs::Views::message_values))]
fn delivery(alloc: Global, entry_id: u64) -> Body
    ensures { body_values result ≡ sample_body samples.Message entry_id }
{
    Body::Message(CommandMessage {
        consumer_id: 1,
        message_id: id(alloc, entry_id),
        redelivery_count: Some(0),
        ack_set: Vec::new(alloc),
    })
}

/// What is said of the payload of a message.
#[tactic(auto, unfolding(pulsar_wire::specs::Views::message_metadata_values))]
fn metadata(alloc: Global, sequence_id: u64) -> Result<Metadata, NoMemory>
    ensures { IfOk result (λ metadata. message_metadata_values metadata ≡ sample_metadata sequence_id) }
{
    let mut metadata = Metadata::new(alloc);
    metadata.producer_name = String::from_str(alloc, "speed")?;
    metadata.sequence_id = sequence_id;
    metadata.publish_time = 1_700_000_000_000;
    Ok(metadata)
}
