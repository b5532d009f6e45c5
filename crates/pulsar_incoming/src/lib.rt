//! What consumers are asked for and what they give: their builder and settings, their names, and messages. Nothing here waits for anything.
#![tactic(auto)]

pub mod builder;
pub mod config;
pub mod deserialize;
pub mod event;
pub mod message;
pub mod naming;
pub mod orders;
pub mod polled;
pub mod settings;
pub mod unread;

pub use builder::ConsumerBuilder;
pub use config::{ConsumerConfig, DeadLetterPolicy};
pub use deserialize::DeserializeMessage;
pub use event::{EngineEvent, EngineMessage};
pub use message::{Message, MessageData};
pub use polled::{Ending, Polled};
