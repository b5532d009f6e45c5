//! What a client asks of a connection, and what it reads on it, from outside.
#![tactic(auto)]

#[cfg(test)]
mod asking;
#[cfg(test)]
mod reading;
