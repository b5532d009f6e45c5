//! Which connection serves an address, and how brokers are found and asked.
#![tactic(auto)]

pub mod addresses;
pub mod discovery;
pub mod kept;
pub mod laws;
pub mod machine;
pub mod manager;
pub mod outcome;

pub use discovery::{
    ServiceDiscovery, handle_retry_error, retry_create_producer, retry_subscribe_consumer,
};
pub use machine::Machine;
pub use manager::{ConnectionManager, Got, Seen};
pub use outcome::{Found, Next, Outcome};
pub use pulsar_addresses::address::BrokerAddress;
pub use pulsar_addresses::options::{
    ConnectionRetryOptions, OperationRetryOptions, allow_retry, backoff,
};
