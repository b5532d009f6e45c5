//! Commands.

ghost use Rattle.std.specs.Prelude.{◌≡◌, ◌≢◌, ℕ, ◌<◌, pos, [], ◌++◌, None, length, OnOk, IsOk, IfOk, IfErr};
ghost use Rattle.std.specs.Option.{is_some, option_map};
ghost use Rattle.pulsar_wire.specs.Field.{field_at};
ghost use Rattle.pulsar_wire.specs.Run.{run};
ghost use Rattle.pulsar_wire.specs.Command.{BodyValues, body_row, body_name, body_bytes, with_kind, body_spelling, command_reading, command_spelling, settled, Spells};
ghost use Rattle.pulsar_wire.specs.Fits.{CommandInRange};
ghost use Rattle.pulsar_wire.specs.CommandMerge.{empty_body, grown, joined_body, command_step};
ghost use Rattle.pulsar_wire.specs.Row.{Int32, entry, spelling};
ghost use Rattle.pulsar_wire.specs.Sink.{Appends, capped};
ghost use Rattle.pulsar_wire.specs.Views.{body_values, command_values};
ghost use Rattle.pulsar_wire.specs.declared.commands.base.Body.TheVariants as body;
ghost use Rattle.pulsar_wire.specs.Shown.{Gives, Leaves, shown, field};

use crate::bodies;
use crate::commands::auth::{CommandAuthChallenge, CommandAuthResponse};
use crate::commands::connection::{
    CommandConnect, CommandConnected, CommandError, CommandPing, CommandPong, CommandSuccess,
};
use crate::commands::consumer::delivery::{
    CommandAck, CommandFlow, CommandMessage, CommandReachedEndOfTopic,
    CommandRedeliverUnacknowledgedMessages,
};
use crate::commands::consumer::position::{
    CommandConsumerStats, CommandConsumerStatsResponse, CommandGetLastMessageId,
    CommandGetLastMessageIdResponse, CommandSeek,
};
use crate::commands::consumer::subscription::{
    CommandActiveConsumerChange, CommandCloseConsumer, CommandSubscribe, CommandUnsubscribe,
};
use crate::commands::lookup::{
    CommandLookupTopic, CommandLookupTopicResponse, CommandPartitionedTopicMetadata,
    CommandPartitionedTopicMetadataResponse,
};
use crate::commands::producer::{
    CommandCloseProducer, CommandProducer, CommandProducerSuccess, CommandSend, CommandSendError,
    CommandSendReceipt,
};
use crate::commands::schema::{CommandGetSchema, CommandGetSchemaResponse};
use crate::commands::topics::{CommandGetTopicsOfNamespace, CommandGetTopicsOfNamespaceResponse};
use crate::encoding::content::int32_of;
use crate::encoding::field::{Value, read_field};
use crate::encoding::message::{Message, encode, put_required, write_message};
use crate::encoding::plain::Plain;
use crate::encoding::read_error::ReadError;
use crate::encoding::sink::{Count, Sink};
use crate::error::NoMemory;
use std::alloc::{AllocError, Global};

/// All bodies: the constant of each one's number, its variant and its name. The macro that is named first is called with
/// all of them.
macro_rules! all_bodies {
    ($each:ident $($arguments:tt)*) => {
        $each! {
            $($arguments)*;
            CONNECT Connect "connect",
            CONNECTED Connected "connected",
            SUBSCRIBE Subscribe "subscribe",
            PRODUCER Producer "producer",
            SEND Send "send",
            SEND_RECEIPT SendReceipt "send_receipt",
            SEND_ERROR SendError "send_error",
            MESSAGE Message "message",
            ACK Ack "ack",
            FLOW Flow "flow",
            UNSUBSCRIBE Unsubscribe "unsubscribe",
            SUCCESS Success "success",
            ERROR Error "error",
            CLOSE_PRODUCER CloseProducer "close_producer",
            CLOSE_CONSUMER CloseConsumer "close_consumer",
            PRODUCER_SUCCESS ProducerSuccess "producer_success",
            PING Ping "ping",
            PONG Pong "pong",
            REDELIVER_UNACKNOWLEDGED_MESSAGES RedeliverUnacknowledgedMessages "redeliver_unacknowledged_messages",
            PARTITION_METADATA PartitionedTopicMetadata "partition_metadata",
            PARTITION_METADATA_RESPONSE PartitionedTopicMetadataResponse "partition_metadata_response",
            LOOKUP_TOPIC LookupTopic "lookup_topic",
            LOOKUP_TOPIC_RESPONSE LookupTopicResponse "lookup_topic_response",
            CONSUMER_STATS ConsumerStats "consumer_stats",
            CONSUMER_STATS_RESPONSE ConsumerStatsResponse "consumer_stats_response",
            REACHED_END_OF_TOPIC ReachedEndOfTopic "reached_end_of_topic",
            SEEK Seek "seek",
            GET_LAST_MESSAGE_ID GetLastMessageId "get_last_message_id",
            GET_LAST_MESSAGE_ID_RESPONSE GetLastMessageIdResponse "get_last_message_id_response",
            ACTIVE_CONSUMER_CHANGE ActiveConsumerChange "active_consumer_change",
            GET_TOPICS_OF_NAMESPACE GetTopicsOfNamespace "get_topics_of_namespace",
            GET_TOPICS_OF_NAMESPACE_RESPONSE GetTopicsOfNamespaceResponse "get_topics_of_namespace_response",
            GET_SCHEMA GetSchema "get_schema",
            GET_SCHEMA_RESPONSE GetSchemaResponse "get_schema_response",
            AUTH_CHALLENGE AuthChallenge "auth_challenge",
            AUTH_RESPONSE AuthResponse "auth_response"
        }
    };
}

macro_rules! number_of {
    ($body:expr; $($number:ident $variant:ident $name:literal),*) => {
        match $body {
            $(Body::$variant(_) => bodies::$number,)*
        }
    };
}

macro_rules! name_of {
    ($body:expr; $($number:ident $variant:ident $name:literal),*) => {
        match $body {
            $(Body::$variant(_) => $name,)*
        }
    };
}

macro_rules! copy_of {
    ($body:expr; $($number:ident $variant:ident $name:literal),*) => {
        match $body {
            $(Body::$variant(body) => Ok(Body::$variant(body.copy()?)),)*
        }
    };
}

macro_rules! empty_of {
    ($alloc:expr, $wanted:expr; $($number:ident $variant:ident $name:literal),*) => {
        match $wanted {
            $(bodies::$number => Some(Body::$variant(Message::empty($alloc))),)*
            _ => None,
        }
    };
}

macro_rules! encode_any {
    ($body:expr, $out:expr; $($number:ident $variant:ident $name:literal),*) => {
        match $body {
            $(Body::$variant(body) => encode(body, $out),)*
        }
    };
}

macro_rules! put_part {
    ($body:expr, $alloc:expr, $value:expr; $($number:ident $variant:ident $name:literal),*) => {
        match $body {
            $(Body::$variant(body) => join_part(body, $alloc, $value),)*
        }
    };
}

macro_rules! write_command {
    ($out:expr, $command:expr; $($number:ident $variant:ident $name:literal),*) => {
        match &$command.body {
            None => write_kind($out, $command.kind),
            $(Some(Body::$variant(body)) => write_body($out, bodies::$number, body),)*
        }
    };
}

/// What a command says, by its type.
#[derive(Debug, PartialEq, Eq, Drop)]
pub enum Body {
    Connect(CommandConnect),
    Connected(CommandConnected),
    Subscribe(CommandSubscribe),
    Producer(CommandProducer),
    Send(CommandSend),
    SendReceipt(CommandSendReceipt),
    SendError(CommandSendError),
    Message(CommandMessage),
    Ack(CommandAck),
    Flow(CommandFlow),
    Unsubscribe(CommandUnsubscribe),
    Success(CommandSuccess),
    Error(CommandError),
    CloseProducer(CommandCloseProducer),
    CloseConsumer(CommandCloseConsumer),
    ProducerSuccess(CommandProducerSuccess),
    Ping(CommandPing),
    Pong(CommandPong),
    RedeliverUnacknowledgedMessages(CommandRedeliverUnacknowledgedMessages),
    PartitionedTopicMetadata(CommandPartitionedTopicMetadata),
    PartitionedTopicMetadataResponse(CommandPartitionedTopicMetadataResponse),
    LookupTopic(CommandLookupTopic),
    LookupTopicResponse(CommandLookupTopicResponse),
    ConsumerStats(CommandConsumerStats),
    ConsumerStatsResponse(CommandConsumerStatsResponse),
    ReachedEndOfTopic(CommandReachedEndOfTopic),
    Seek(CommandSeek),
    GetLastMessageId(CommandGetLastMessageId),
    GetLastMessageIdResponse(CommandGetLastMessageIdResponse),
    ActiveConsumerChange(CommandActiveConsumerChange),
    GetTopicsOfNamespace(CommandGetTopicsOfNamespace),
    GetTopicsOfNamespaceResponse(CommandGetTopicsOfNamespaceResponse),
    GetSchema(CommandGetSchema),
    GetSchemaResponse(CommandGetSchemaResponse),
    AuthChallenge(CommandAuthChallenge),
    AuthResponse(CommandAuthResponse),
}

/// A command of the protocol. Its body decides what it is, and `kind` counts where there is none.
#[derive(Debug, PartialEq, Eq, Drop)]
pub struct BaseCommand {
    pub kind: i32,
    pub body: Option<Body>,
}

impl Body {
    /// The number of its field.
    pub fn number(&self) -> u32
        ensures number { result ≡ (body_values self.now).number }
        ensures small { result < 64 }
    {
        all_bodies!(number_of self)
    }

    /// The name of its command in the protocol.
    pub fn name(&self) -> &'static str
        ensures { result.now ≡ body_name (body_values self.now).number }
    {
        all_bodies!(name_of self)
    }

    /// The body of this number with no field, if it is known.
    #[tactic(auto, unfolding(crate::specs::CommandMerge::empty_body))]
    fn empty(alloc: Global, number: u32) -> Option<Body>
        ensures { option_map body_values result ≡ empty_body number }
    {
        all_bodies!(empty_of alloc, number)
    }

    /// Takes one more part.
    fn put_part(&mut self, alloc: Global, value: Value<'_>) -> Result<(), ReadError>
        ensures { Leaves result (body_values self.new) (grown (body_values self.old) (shown value.entry)) }
    {
        all_bodies!(put_part self, alloc, value)
    }

    /// A body with the same content.
    pub fn copy(&self) -> Result<Body, NoMemory>
        ensures { IfOk result (λ body. body_values body ≡ body_values self.now) }
    {
        all_bodies!(copy_of self)
    }

    /// Writes the message that the body is at the end, without the command round it.
    pub fn encode(&self, out: &mut Vec<u8>) -> Result<(), AllocError>
        ensures { OnOk result (out.new.items ≡ out.old.items ++ body_bytes (body_values self.now)) }
    {
        all_bodies!(encode_any self, out)
    }

    /// The error, where the body is one. Any other body is given back.
    pub fn into_error(self) -> Result<CommandError, Body>
        ensures error { IfOk result (λ error. self ≡ body.Error error) }
        ensures other { IfErr result (λ other. (other ≡ self) × ((body_values self).number ≢ 14)) }
    {
        match self {
            Body::Error(error) => Ok(error),
            other => Err(other),
        }
    }
}

impl BaseCommand {
    /// The command with no body, and a kind of zero: what an empty list of bytes spells.
    #[tactic(auto, unfolding(crate::specs::Command::command_reading, crate::specs::Field::fields, crate::specs::Field::fields_within))]
    pub fn new() -> BaseCommand
        ensures empty { command_values result ≡ record { kind = pos 0; body = None } }
        ensures spelled { Spells [] (command_values result) }
    {
        BaseCommand {
            kind: 0,
            body: None,
        }
    }

    /// The command with this body, whose kind is that of the body.
    pub fn with_body(body: Body) -> BaseCommand
        ensures { command_values result ≡ with_kind (body_values body) }
    {
        BaseCommand {
            kind: body.number() as i32,
            body: Some(body),
        }
    }

    /// Takes one more field.
    #[tactic(auto, unfolding(crate::specs::CommandMerge::command_step))]
    fn put(&mut self, alloc: Global, number: u32, value: Value<'_>) -> Result<(), ReadError>
        ensures { Leaves result (command_values self.new) (command_step (command_values self.old) (field number value.entry)) }
    {
        if number == 1 {
            self.kind = int32_of(value)?;
        } else if is_body(number) {
            join_body(&mut self.body, alloc, number, value)?;
        }
        Ok(())
    }

    /// Lets the body decide the kind.
    fn settle(&mut self)
        ensures { command_values self.new ≡ settled (command_values self.old) }
    {
        if let Some(body) = &self.body {
            self.kind = body.number() as i32;
        }
    }

    /// A command with the same content.
    pub fn copy(&self) -> Result<BaseCommand, NoMemory>
        ensures { IfOk result (λ command. command_values command ≡ command_values self.now) }
    {
        let body = match &self.body {
            Some(body) => Some(body.copy()?),
            None => None,
        };
        Ok(BaseCommand {
            kind: self.kind,
            body,
        })
    }
}

fn is_body(number: u32) -> bool
    ensures { result ≡ is_some (body_row number) }
{
    matches!(number, bodies::CONNECT..=bodies::AUTH_RESPONSE)
}

/// Joins a part to the message of a body.
#[tactic(auto, unfolding(crate::specs::CommandMerge::grown))]
fn join_part<M: Message>(message: &mut M, alloc: Global, value: Value<'_>) -> Result<(), ReadError>
    ensures { (number : ℕ) → Leaves result (record { number = number; row = M.shape; values = M.values message.new })
        (grown (record { number = number; row = M.shape; values = M.values message.old }) (shown value.entry)) }
{
    put_required(message, alloc, value)
}

/// Joins a part to the body of this number, which begins with the first.
#[tactic(auto, unfolding(crate::specs::CommandMerge::joined_body))]
fn join_body(
    slot: &mut Option<Body>,
    alloc: Global,
    number: u32,
    value: Value<'_>,
) -> Result<(), ReadError>
    ensures { Leaves result (option_map body_values slot.new)
        (joined_body number (option_map body_values slot.old) (shown value.entry)) }
{
    match slot {
        Some(body) if body.number() == number => body.put_part(alloc, value),
        Some(_) => Err(ReadError::Malformed),
        None => {
            *slot = Body::empty(alloc, number);
            match slot {
                Some(body) => body.put_part(alloc, value),
                None => Err(ReadError::Malformed),
            }
        }
    }
}

/// Takes the fields that the bytes spell.
fn merge_command(command: &mut BaseCommand, alloc: Global, bytes: &[u8]) -> Result<(), ReadError>
    ensures { Leaves result (command_values command.new) (run command_step (command_values command.old) bytes.now) }
{
    let mut rest = bytes;
    while !rest.is_empty() {
        let Some((number, value, after)) = read_field(rest) else {
            return Err(ReadError::Malformed);
        };
        command.put(alloc, number, value)?;
        rest = after;
    }
    Ok(())
}

/// The command that the bytes spell.
pub fn decode_command(alloc: Global, bytes: &[u8]) -> Result<BaseCommand, ReadError>
    ensures { Gives command_values result (command_reading bytes.now) }
{
    let mut command = BaseCommand::new();
    merge_command(&mut command, alloc, bytes)?;
    command.settle();
    Ok(command)
}

/// Writes a command with no body.
#[tactic(auto, unfolding(crate::specs::Fits::CommandInRange))]
fn write_kind<S: Sink>(out: &mut S, kind: i32) -> Result<(), AllocError>
    ensures ok { OnOk result (Appends S.Holds out.old out.new (entry 1 Int32 kind)) }
    ensures sure { S.IsSure → IsOk result }
    ensures fits { OnOk result (CommandInRange (record { kind = kind; body = None })) }
{
    kind.write(out, 1)
}

/// Writes a command with the body of this number.
#[tactic(auto, unfolding(crate::specs::Fits::CommandInRange))]
fn write_body<M: Message, S: Sink>(out: &mut S, number: u32, body: &M) -> Result<(), AllocError>
    requires small { number < 64 }
    requires known { body_row number ≡ Some M.shape }
    ensures ok { OnOk result (Appends S.Holds out.old out.new
        (body_spelling number (spelling M.shape (M.values body.now)))) }
    ensures sure { S.IsSure → IsOk result }
    ensures fits { OnOk result (CommandInRange
        (with_kind (record { number = number; row = M.shape; values = M.values body.now }))) }
{
    (number as i32).write(out, 1)?;
    write_message(out, number, body)
}

fn write_command<S: Sink>(out: &mut S, command: &BaseCommand) -> Result<(), AllocError>
    ensures ok { OnOk result (Appends S.Holds out.old out.new
        (command_spelling (command_values command.now))) }
    ensures sure { S.IsSure → IsOk result }
    ensures fits { OnOk result (CommandInRange (settled (command_values command.now))) }
{
    all_bodies!(write_command out, command)
}

/// Writes the command at the end.
pub fn encode_command(command: &BaseCommand, out: &mut Vec<u8>) -> Result<(), AllocError>
    ensures ok { OnOk result (out.new.items ≡ out.old.items ++ command_spelling (command_values command.now)) }
    ensures again { OnOk result (Spells (command_spelling (command_values command.now))
        (settled (command_values command.now))) }
{
    write_command(out, command)
}

/// How many bytes the command takes. It stops at the greatest u64.
pub fn command_len(command: &BaseCommand) -> u64
    ensures { result ≡ capped (length (command_spelling (command_values command.now))) }
{
    let mut count = Count { bytes: 0 };
    match write_command(&mut count, command) {
        Ok(()) => count.bytes,
        Err(_) => unreachable!(),
    }
}
