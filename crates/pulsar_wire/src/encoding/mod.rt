//! The encoding of Protocol Buffers, as the protocol uses it.

pub mod content;
pub mod copying;
pub mod field;
pub mod fields;
pub mod message;
pub mod plain;
pub mod read_error;
pub mod sink;
