//! The commands of the protocol, by family.

pub mod auth;
pub mod base;
pub mod connection;
pub mod consumer;
pub mod enumerations;
pub mod ids;
pub mod lookup;
pub mod metadata;
pub mod producer;
pub mod schema;
pub mod topics;
