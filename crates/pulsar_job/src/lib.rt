//! The programs `produce` and `consume`: one client is driven in turns, over whatever edge dials its links.
#![tactic(auto)]

pub mod kept;
pub mod laws;
pub mod links;
pub mod putting;
pub mod reading;
pub mod run;
pub mod status;
pub mod turns;

pub use crate::run::{job, served};
pub use crate::status::{
    DONE, FAILED, Job, NO_FORM, NO_MEMORY, REFUSED, SINK_FAILED, SOURCE_FAILED, Status, TOO_LONG,
};
