//! What carries bytes between links and a client: the two halves of a link, rounds, and pumps.
//!
//! A pump in takes what comes on a link and submits it, and a pump out writes what the client asks for. Each is a loop of rounds, and who
//! serves several links on one thread makes the rounds by itself.
#![tactic(auto)]

pub mod outside;
pub mod pumps;
pub mod rounds;
pub mod submitter;

pub use crate::outside::Failed;
pub use crate::outside::edge::{Edge, FailingEdge, MemoryEdge};
pub use crate::outside::input::{FailingInput, Input, MemoryInput};
pub use crate::outside::output::{EndMark, FailingOutput, MemoryOutput, Output};
pub use crate::pumps::{pump_in, pump_out};
pub use crate::rounds::{PumpEnd, round_in, round_out};
pub use crate::submitter::{Receipt, Submitter};
