//! Messages by themselves.

use crate::printing::{print_refusal, print_written};
use crate::stop::Stop;
use pulsar_wire::encoding::message::Message;
use pulsar_wire::{
    AuthData, CommandAck, CommandActiveConsumerChange, CommandAuthChallenge, CommandAuthResponse,
    CommandCloseConsumer, CommandCloseProducer, CommandConnect, CommandConnected,
    CommandConsumerStats, CommandConsumerStatsResponse, CommandError, CommandFlow,
    CommandGetLastMessageId, CommandGetLastMessageIdResponse, CommandGetSchema,
    CommandGetSchemaResponse, CommandGetTopicsOfNamespace, CommandGetTopicsOfNamespaceResponse,
    CommandLookupTopic, CommandLookupTopicResponse, CommandMessage,
    CommandPartitionedTopicMetadata, CommandPartitionedTopicMetadataResponse, CommandPing,
    CommandPong, CommandProducer, CommandProducerSuccess, CommandReachedEndOfTopic,
    CommandRedeliverUnacknowledgedMessages, CommandSeek, CommandSend, CommandSendError,
    CommandSendReceipt, CommandSubscribe, CommandSuccess, CommandUnsubscribe, EncryptionKeys,
    KeyValue, MessageIdData, MessageMetadata, Schema, SingleMessageMetadata, Wire,
};
use std::alloc::Global;
use std::fmt::Debug;

/// Prints the message of this name that bytes spell, and how it is written.
pub fn print_message(rt: &impl Print, alloc: Global, name: &str, bytes: &[u8]) -> Result<(), Stop> {
    match name {
        "connect" => print_read::<CommandConnect>(rt, alloc, bytes),
        "connected" => print_read::<CommandConnected>(rt, alloc, bytes),
        "subscribe" => print_read::<CommandSubscribe>(rt, alloc, bytes),
        "producer" => print_read::<CommandProducer>(rt, alloc, bytes),
        "send" => print_read::<CommandSend>(rt, alloc, bytes),
        "send_receipt" => print_read::<CommandSendReceipt>(rt, alloc, bytes),
        "send_error" => print_read::<CommandSendError>(rt, alloc, bytes),
        "message" => print_read::<CommandMessage>(rt, alloc, bytes),
        "ack" => print_read::<CommandAck>(rt, alloc, bytes),
        "flow" => print_read::<CommandFlow>(rt, alloc, bytes),
        "unsubscribe" => print_read::<CommandUnsubscribe>(rt, alloc, bytes),
        "success" => print_read::<CommandSuccess>(rt, alloc, bytes),
        "error" => print_read::<CommandError>(rt, alloc, bytes),
        "close_producer" => print_read::<CommandCloseProducer>(rt, alloc, bytes),
        "close_consumer" => print_read::<CommandCloseConsumer>(rt, alloc, bytes),
        "producer_success" => print_read::<CommandProducerSuccess>(rt, alloc, bytes),
        "ping" => print_read::<CommandPing>(rt, alloc, bytes),
        "pong" => print_read::<CommandPong>(rt, alloc, bytes),
        "redeliver_unacknowledged_messages" => {
            print_read::<CommandRedeliverUnacknowledgedMessages>(rt, alloc, bytes)
        }
        "partition_metadata" => print_read::<CommandPartitionedTopicMetadata>(rt, alloc, bytes),
        _ => print_second(rt, alloc, name, bytes),
    }
}

fn print_second(rt: &impl Print, alloc: Global, name: &str, bytes: &[u8]) -> Result<(), Stop> {
    match name {
        "partition_metadata_response" => {
            print_read::<CommandPartitionedTopicMetadataResponse>(rt, alloc, bytes)
        }
        "lookup_topic" => print_read::<CommandLookupTopic>(rt, alloc, bytes),
        "lookup_topic_response" => print_read::<CommandLookupTopicResponse>(rt, alloc, bytes),
        "consumer_stats" => print_read::<CommandConsumerStats>(rt, alloc, bytes),
        "consumer_stats_response" => print_read::<CommandConsumerStatsResponse>(rt, alloc, bytes),
        "reached_end_of_topic" => print_read::<CommandReachedEndOfTopic>(rt, alloc, bytes),
        "seek" => print_read::<CommandSeek>(rt, alloc, bytes),
        "get_last_message_id" => print_read::<CommandGetLastMessageId>(rt, alloc, bytes),
        "get_last_message_id_response" => {
            print_read::<CommandGetLastMessageIdResponse>(rt, alloc, bytes)
        }
        "active_consumer_change" => print_read::<CommandActiveConsumerChange>(rt, alloc, bytes),
        "get_topics_of_namespace" => print_read::<CommandGetTopicsOfNamespace>(rt, alloc, bytes),
        "get_topics_of_namespace_response" => {
            print_read::<CommandGetTopicsOfNamespaceResponse>(rt, alloc, bytes)
        }
        "get_schema" => print_read::<CommandGetSchema>(rt, alloc, bytes),
        "get_schema_response" => print_read::<CommandGetSchemaResponse>(rt, alloc, bytes),
        "auth_challenge" => print_read::<CommandAuthChallenge>(rt, alloc, bytes),
        "auth_response" => print_read::<CommandAuthResponse>(rt, alloc, bytes),
        _ => print_part(rt, alloc, name, bytes),
    }
}

/// The messages that stand in others, or in front of a payload.
fn print_part(rt: &impl Print, alloc: Global, name: &str, bytes: &[u8]) -> Result<(), Stop> {
    match name {
        "AuthData" => print_read::<AuthData>(rt, alloc, bytes),
        "MessageIdData" => print_read::<MessageIdData>(rt, alloc, bytes),
        "KeyValue" => print_read::<KeyValue>(rt, alloc, bytes),
        "Schema" => print_read::<Schema>(rt, alloc, bytes),
        "EncryptionKeys" => print_read::<EncryptionKeys>(rt, alloc, bytes),
        "MessageMetadata" => print_read::<MessageMetadata>(rt, alloc, bytes),
        "SingleMessageMetadata" => print_read::<SingleMessageMetadata>(rt, alloc, bytes),
        _ => Err(Stop::NoForm),
    }
}

fn print_read<M: Message + Debug>(
    rt: &impl Print,
    alloc: Global,
    bytes: &[u8],
) -> Result<(), Stop> {
    match <M as Wire>::decode(alloc, bytes) {
        Ok(value) => print_written(rt, alloc, &value.duplicate()?),
        Err(e) => print_refusal(rt, &e),
    }
}
