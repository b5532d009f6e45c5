//! Messages of the Pulsar binary protocol in frames, and the stream of bytes that carries them.
#![tactic(auto)]

pub mod batch;
pub mod checksum;
pub mod codec;
mod frame;
pub mod items;
pub mod laws;
pub mod message;
pub mod payload;
pub mod reader;
pub mod received;
mod refused;
mod sized;

pub use batch::iterator::BatchedMessageIterator;
pub use batch::{BatchedMessage, parse_batched_message};
pub use checksum::{Checksum, crc32c};
pub use codec::Codec;
pub use message::{Message, frame_len};
pub use payload::{Metadata, Payload, PayloadParts};
pub use reader::FrameReader;
pub use received::Received;
