//! Where the bytes of a program come from and go to: sources and sinks that count their faults, over memory, and the traits that others implement.
#![tactic(auto)]

pub mod outside;

pub use outside::Failed;
pub use outside::sink::{FailingSink, MemorySink, Sink};
pub use outside::source::{FailingSource, MemorySource, Source};
