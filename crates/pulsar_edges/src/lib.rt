//! Where a program's links come from: TCP, and a broker in memory.
#![tactic(auto)]

pub mod counts;
pub mod memory;
pub mod tcp;

pub use crate::counts::{Failures, Moments};
pub use crate::memory::{BrokerEdge, BrokerInput, BrokerOutput, Host};
pub use crate::tcp::{Limits, TcpEdge, TcpInput, TcpOutput};
