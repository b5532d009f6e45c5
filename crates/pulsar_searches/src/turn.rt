//! What plans are told, and what they do.

ghost use Rattle.std.specs.Prelude.{◌≡◌, IfOk};
ghost use Rattle.pulsar_wire.specs.Failures.{fault};
ghost use Rattle.pulsar_searches.specs.Plans.{fault_of, is_lost};

use crate::question::Request;
use crate::transition::Transition;
use pulsar_addresses::content::{Address, Cause};
use pulsar_frame::received::Received;
use pulsar_wire::error::{ConnectionError, NoMemory};
use std::alloc::Global;

/// How a client looks for brokers: where it begins, how long it waits before a retry, and how many retries there may be.
#[derive(Drop)]
pub struct Ways {
    pub base: Address,
    pub retry_delay: u64,
    /// There is no end to them where this is absent.
    pub max_retries: Option<u32>,
}

/// What a plan does next. Then it waits for an outcome.
#[derive(Drop)]
pub enum Action {
    /// Get the ready link of the address.
    Get(Address),
    /// Ask for a request on the link.
    Ask { link: u64, request: Request },
    /// Wait for so many milliseconds.
    Wait(u64),
}

/// What a plan is told.
#[derive(Drop)]
pub enum SearchOutcome {
    /// The address has this link, which is ready.
    GotLink(u64),
    /// The reply to its request came.
    Replied(Received),
    /// The moment for which it waited came.
    Woken,
    /// What it waits for does not come.
    Failed(Cause),
}

/// What a search does at what it is told.
pub type SearchTransition<S, A> = Transition<S, Action, A>;

/// Why a plan fails at an outcome.
pub fn error_of(outcome: SearchOutcome) -> ConnectionError
    ensures { fault result ≡ fault_of outcome }
{
    match outcome {
        SearchOutcome::Failed(cause) => cause.into_inner(),
        SearchOutcome::GotLink(_) | SearchOutcome::Replied(_) | SearchOutcome::Woken => {
            ConnectionError::Disconnected
        }
    }
}

/// What was asked may be asked again.
pub fn is_lost(error: &ConnectionError) -> bool
    ensures { result ≡ is_lost (fault error.now) }
{
    matches!(error, ConnectionError::Disconnected)
}

impl Ways {
    /// The same ways once more.
    pub fn copy(&self, alloc: Global) -> Result<Ways, NoMemory>
        ensures { IfOk result (λ w. w ≡ self.now) }
    {
        Ok(Ways {
            base: self.base.copy(alloc)?,
            retry_delay: self.retry_delay,
            max_retries: self.max_retries,
        })
    }
}
