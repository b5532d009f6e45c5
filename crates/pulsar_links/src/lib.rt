//! The links of a client and their addresses, as tables that do nothing by themselves: what is asked and heard on each, when it is due, and
//! which attempts follow a failure.
#![tactic(auto)]

pub mod address;
pub mod addresses;
pub mod alarms;
pub mod ask;
pub mod due;
pub mod links;
pub mod row;
