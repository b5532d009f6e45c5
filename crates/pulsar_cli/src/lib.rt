//! The program's forms. The run of a script: its lines are read from a source, a client does what they say, and the text of that goes into a sink.
//! The demo: a client against a broker in memory. `produce` and `consume`, and where their links come from.
#![tactic(auto)]

mod asking;
mod course;
pub mod demonstration;
mod feed;
mod form;
mod generated;
pub mod laws;
mod options;
mod play;
pub mod played;
mod program;
mod reading;
mod standard;
mod stop;
mod tally;

pub use crate::demonstration::demo;
pub use crate::played::Demo;
pub use crate::program::{run, script};
pub use crate::standard::{StandardInput, StandardOutput};
pub use pulsar_edges::{BrokerEdge, Host, Limits, TcpEdge};
pub use pulsar_job::{
    DONE, FAILED, Job, NO_FORM, NO_MEMORY, REFUSED, SINK_FAILED, SOURCE_FAILED, Status, TOO_LONG,
    job,
};
pub use pulsar_printing::effect::push_step;
