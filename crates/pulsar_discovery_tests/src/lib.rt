//! Worked cases of searches and of the connections of addresses.
#![tactic(auto)]

#[cfg(test)]
mod addresses;
#[cfg(test)]
mod closing;
#[cfg(test)]
mod help;
#[cfg(test)]
mod numbers;
#[cfg(test)]
mod searches;
