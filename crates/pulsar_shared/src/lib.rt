//! A client that several threads share, with the record of all that happened to it.
//!
//! Everything here is generic over the client, by the trait `Machine`, and what is shared also over the ledger that counts its events. Whoever
//! uses it does so in a function that is generic over both, and calls that function at `pulsar_client::Pulsar`.
#![tactic(auto)]

pub mod caller;
pub mod copies;
pub mod shared;
pub mod traced;

pub use crate::caller::Caller;
pub use crate::shared::{Opening, PARTS, Pass, Shared};
pub use crate::traced::Traced;
pub use pulsar_machine::Machine;
pub use pulsar_pumps::{
    Edge, EndMark, Failed, FailingEdge, FailingInput, FailingOutput, Input, MemoryEdge,
    MemoryInput, MemoryOutput, Output, PumpEnd, Receipt, Submitter, pump_in, pump_out, round_in,
    round_out,
};
pub use pulsar_serial::{Exhausted, NumberSeat, SerialId};
