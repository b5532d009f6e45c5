//! Commands of the Pulsar binary protocol as bytes, and back.
#![tactic(auto)]

pub mod awaited;
pub mod bodies;
pub mod commands;
pub mod encoding;
pub mod error;
mod error_text;
pub mod key;
pub mod laws;
pub mod wire;

pub use awaited::{Awaited, Claim};
pub use commands::auth::{AuthData, CommandAuthChallenge, CommandAuthResponse};
pub use commands::base::{BaseCommand, Body};
pub use commands::connection::{
    CommandConnect, CommandConnected, CommandError, CommandPing, CommandPong, CommandSuccess,
    client_version,
};
pub use commands::consumer::delivery::{
    CommandAck, CommandFlow, CommandMessage, CommandReachedEndOfTopic,
    CommandRedeliverUnacknowledgedMessages,
};
pub use commands::consumer::position::{
    CommandConsumerStats, CommandConsumerStatsResponse, CommandGetLastMessageId,
    CommandGetLastMessageIdResponse, CommandSeek,
};
pub use commands::consumer::subscription::{
    CommandActiveConsumerChange, CommandCloseConsumer, CommandSubscribe, CommandUnsubscribe,
};
pub use commands::enumerations::{InitialPosition, ServerError, SubType, server_error};
pub use commands::ids::MessageIdData;
pub use commands::lookup::{
    CommandLookupTopic, CommandLookupTopicResponse, CommandPartitionedTopicMetadata,
    CommandPartitionedTopicMetadataResponse,
};
pub use commands::metadata::{EncryptionKeys, KeyValue, MessageMetadata, SingleMessageMetadata};
pub use commands::producer::{
    CommandCloseProducer, CommandProducer, CommandProducerSuccess, CommandSend, CommandSendError,
    CommandSendReceipt,
};
pub use commands::schema::{CommandGetSchema, CommandGetSchemaResponse, Schema};
pub use commands::topics::{
    CommandGetTopicsOfNamespace, CommandGetTopicsOfNamespaceResponse, Mode,
};
pub use error::{
    AuthenticationError, ConnectionError, ConsumerError, Error, IoKind, NoMemory, ProducerError,
    Reason, ServiceDiscoveryError,
};
pub use key::RequestKey;
pub use wire::Wire;
