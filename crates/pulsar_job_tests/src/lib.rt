//! Tests of the programs `produce` and `consume` over links in memory.
#![tactic(auto)]

#[cfg(test)]
mod tests;
