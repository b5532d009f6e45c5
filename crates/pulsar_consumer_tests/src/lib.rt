//! What no worked case shows of consumers: their values, their names, and what is left at an end.
#![tactic(auto)]

#[cfg(test)]
mod dead_letters;
#[cfg(test)]
mod messages;
#[cfg(test)]
mod topic;
#[cfg(test)]
mod wanted;
