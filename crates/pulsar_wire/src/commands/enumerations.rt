//! The choices of the protocol that commands carry as a number.

ghost use Rattle.std.specs.Prelude.{◌≡◌, ◌↔◌, Ok, Some};
ghost use Rattle.pulsar_wire.specs.Enumerations.{error_number, error_of, initial_position_number, sub_type_number};
ghost use Rattle.pulsar_wire.specs.declared.commands.enumerations.ServerError.{ServerError};

use crate::error::NoMemory;

/// Why the broker refused a command.
#[derive(Clone, Copy, Debug, PartialEq, Eq)]
pub enum ServerError {
    UnknownError,
    MetadataError,
    PersistenceError,
    AuthenticationError,
    AuthorizationError,
    ConsumerBusy,
    ServiceNotReady,
    ProducerBlockedQuotaExceededError,
    ProducerBlockedQuotaExceededException,
    ChecksumError,
    UnsupportedVersionError,
    TopicNotFound,
    SubscriptionNotFound,
    ConsumerNotFound,
    TooManyRequests,
    TopicTerminatedError,
    ProducerBusy,
    InvalidTopicName,
    IncompatibleSchema,
    ConsumerAssignError,
    TransactionCoordinatorNotFound,
    InvalidTxnStatus,
    NotAllowedError,
    TransactionConflict,
    TransactionNotFound,
    ProducerFenced,
}

impl From<ServerError> for i32 {
    ghost from_gives = { λ error n. n ≡ error_number error };

    fn from(error: ServerError) -> i32 {
        match error {
            ServerError::UnknownError => 0,
            ServerError::MetadataError => 1,
            ServerError::PersistenceError => 2,
            ServerError::AuthenticationError => 3,
            ServerError::AuthorizationError => 4,
            ServerError::ConsumerBusy => 5,
            ServerError::ServiceNotReady => 6,
            ServerError::ProducerBlockedQuotaExceededError => 7,
            ServerError::ProducerBlockedQuotaExceededException => 8,
            ServerError::ChecksumError => 9,
            ServerError::UnsupportedVersionError => 10,
            ServerError::TopicNotFound => 11,
            ServerError::SubscriptionNotFound => 12,
            ServerError::ConsumerNotFound => 13,
            ServerError::TooManyRequests => 14,
            ServerError::TopicTerminatedError => 15,
            ServerError::ProducerBusy => 16,
            ServerError::InvalidTopicName => 17,
            ServerError::IncompatibleSchema => 18,
            ServerError::ConsumerAssignError => 19,
            ServerError::TransactionCoordinatorNotFound => 20,
            ServerError::InvalidTxnStatus => 21,
            ServerError::NotAllowedError => 22,
            ServerError::TransactionConflict => 23,
            ServerError::TransactionNotFound => 24,
            ServerError::ProducerFenced => 25,
        }
    }
}

/// The error that a command names by this number, if there is one.
#[tactic(auto, unfolding(crate::specs::Enumerations::error_of, crate::specs::Enumerations::server_errors))]
pub fn server_error(i: i32) -> Option<ServerError>
    ensures value { result ≡ error_of i }
    ensures exact { (error : ServerError) → (result ≡ Some error) ↔ (error_number error ≡ i) }
{
    Some(match i {
        0 => ServerError::UnknownError,
        1 => ServerError::MetadataError,
        2 => ServerError::PersistenceError,
        3 => ServerError::AuthenticationError,
        4 => ServerError::AuthorizationError,
        5 => ServerError::ConsumerBusy,
        6 => ServerError::ServiceNotReady,
        7 => ServerError::ProducerBlockedQuotaExceededError,
        8 => ServerError::ProducerBlockedQuotaExceededException,
        9 => ServerError::ChecksumError,
        10 => ServerError::UnsupportedVersionError,
        11 => ServerError::TopicNotFound,
        12 => ServerError::SubscriptionNotFound,
        13 => ServerError::ConsumerNotFound,
        14 => ServerError::TooManyRequests,
        15 => ServerError::TopicTerminatedError,
        16 => ServerError::ProducerBusy,
        17 => ServerError::InvalidTopicName,
        18 => ServerError::IncompatibleSchema,
        19 => ServerError::ConsumerAssignError,
        20 => ServerError::TransactionCoordinatorNotFound,
        21 => ServerError::InvalidTxnStatus,
        22 => ServerError::NotAllowedError,
        23 => ServerError::TransactionConflict,
        24 => ServerError::TransactionNotFound,
        25 => ServerError::ProducerFenced,
        _ => return None,
    })
}

/// How the consumers of a subscription share its messages.
#[derive(Clone, Copy, Debug, PartialEq, Eq, Default)]
pub enum SubType {
    /// There is one consumer.
    #[default]
    Exclusive,
    /// Each message goes to one of the consumers.
    Shared,
    /// One consumer has all messages, and another takes over when it goes.
    Failover,
    /// The messages of a key go to the same consumer.
    KeyShared,
}

impl From<SubType> for i32 {
    ghost from_gives = { λ kind n. n ≡ sub_type_number kind };

    fn from(kind: SubType) -> i32 {
        match kind {
            SubType::Exclusive => 0,
            SubType::Shared => 1,
            SubType::Failover => 2,
            SubType::KeyShared => 3,
        }
    }
}

/// Where a new subscription begins to read.
#[derive(Clone, Copy, Debug, PartialEq, Eq, Default)]
pub enum InitialPosition {
    /// Behind the last message.
    #[default]
    Latest,
    /// At the first message.
    Earliest,
}

impl InitialPosition {
    /// The same position.
    pub fn copy(&self) -> Result<InitialPosition, NoMemory>
        ensures { result ≡ Ok self.now }
    {
        Ok(*self)
    }
}

impl From<InitialPosition> for i32 {
    ghost from_gives = { λ position n. n ≡ initial_position_number position };

    fn from(position: InitialPosition) -> i32 {
        match position {
            InitialPosition::Latest => 0,
            InitialPosition::Earliest => 1,
        }
    }
}
