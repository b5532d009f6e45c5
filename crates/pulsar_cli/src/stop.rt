//! Why the reading of a script stopped.

/// Why the reading of a script stopped.
#[derive(Clone, Copy, Debug, PartialEq, Eq)]
pub enum Stop {
    /// A line is not in the grammar.
    Refused,
    /// Want of memory.
    NoMemory,
    /// The source failed.
    Source,
    /// The sink failed.
    Sink,
    /// The script is too long.
    TooLong,
}
