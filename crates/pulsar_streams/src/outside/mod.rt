//! What is outside: where a program's bytes come from and go to.

pub mod sink;
pub mod source;

/// A call of a source or a sink failed.
#[derive(Clone, Copy, Debug, PartialEq, Eq)]
pub struct Failed;
