//! What is outside: connections, and the time.

pub mod edge;
pub mod input;
pub mod output;

/// A call of a half of a link failed.
#[derive(Clone, Copy, Debug, PartialEq, Eq)]
pub struct Failed;
