//! Where brokers are, how long is waited before a retry, and why something failed: the small values that plans pass on.
#![tactic(auto)]

pub mod address;
pub mod content;
pub mod laws;
pub mod options;
pub mod random;

pub use address::BrokerAddress;
pub use options::{ConnectionRetryOptions, OperationRetryOptions};
