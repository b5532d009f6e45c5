//! What a demo has come to.

use pulsar_client::{Effect, Event};

/// A demo: each event of its run with its effects, in order, and what is counted of them.
#[derive(Drop)]
pub struct Demo {
    pub steps: Vec<(Event, Vec<Effect>)>,
    /// How many sends ended with a receipt.
    pub sent: u64,
    /// How many items had the data of the message of their place.
    pub received: u64,
    /// How many bytes those have together.
    pub bytes: u64,
    /// How many acknowledgements ended Done.
    pub acked: u64,
}
