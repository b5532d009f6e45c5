//! Numbers that threads draw from one source, each once.
#![tactic(auto)]

mod draw;
mod rule;

pub use crate::draw::Exhausted;
pub use crate::rule::{NumberSeat, Serial, SerialId};
