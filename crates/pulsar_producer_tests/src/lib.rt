//! What no script shows of producers: what is sent, by what is said of it, and which partition a message goes to.
#![tactic(auto)]

#[cfg(test)]
mod batches;
#[cfg(test)]
mod messages;
#[cfg(test)]
mod multi;
#[cfg(test)]
mod routes;
