//! How brokers are found and asked: searches, each a machine over the outcomes of what it does.
#![tactic(auto)]

pub mod closing;
pub mod count;
pub mod look;
pub mod making;
pub mod names;
pub mod plan;
pub mod question;
mod replies;
pub mod retry;
pub mod transition;
pub mod turn;
