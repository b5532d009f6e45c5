//! What no script shows of the library of scripts: the words of the command line, sources and sinks with faults, a script of
//! more than one buffer, and the errors that no script reaches.
#![tactic(auto)]

#[cfg(test)]
mod errors;
#[cfg(test)]
mod runs;
