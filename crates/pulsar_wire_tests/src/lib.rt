//! What no clause of the wire says, and no line of `pulsar_bytes` shows: the texts of errors, and calls that could always
//! answer want of memory.
#![tactic(auto)]

#[cfg(test)]
mod calls;
#[cfg(test)]
mod errors;
