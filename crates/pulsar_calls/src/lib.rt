//! What a user asks of a client and is told, and what a step of a client is made of.
#![tactic(auto)]

pub mod act;
pub mod boxed;
pub mod content;
pub mod copying;
pub mod effect;
pub mod event;
pub mod who;

pub use effect::{Answer, Effect, Handed, Settlement};
pub use event::{Call, Event};
