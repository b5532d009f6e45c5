//! What no script shows: events that are taken together, URLs beside their addresses, and sends whose receipts are asked for
//! by their tickets.
#![tactic(auto)]

#[cfg(test)]
mod calls;
#[cfg(test)]
mod help;
#[cfg(test)]
mod sends;
