//! What producers are asked for and what they are given: orders, messages, batches, receipts and reports. Nothing here waits for anything.
#![tactic(auto)]

pub mod batch;
pub mod content;
pub mod copying;
pub mod failing;
pub mod multi_topic;
pub mod news;
pub mod orders;
pub mod producer_builder;
pub mod replies;
pub mod storage;

pub use batch::Receipt;
pub use producer_builder::ProducerBuilder;
pub use storage::{BatchItem, BatchStorage};
