//! The cases.

pub mod broker;
pub mod faults;
pub mod many;
