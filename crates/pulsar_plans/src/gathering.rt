//! Calls that wait for sends which are parts of them.

ghost use Rattle.std.specs.Prelude.{◌≡◌, [], IfOk};
ghost use Rattle.pulsar_plans.specs.Plan.{gathers, told};
ghost use Rattle.pulsar_plans.specs.declared.plan.Plan.TheVariants.{Gathering};

use crate::plan::{Plan, PlanTransition, error_of, fails};
use pulsar_calls::act::{Action, Makes, Outcome, Verdict};
use pulsar_calls::content::{Failures, Said};
use pulsar_searches::transition::Transition;
use pulsar_wire::error::NoMemory;
use std::alloc::Global;

/// It waits for so many sends, whose tickets begin with this one.
pub fn begins(alloc: Global, first: u64, count: u64) -> Result<PlanTransition, NoMemory>
    ensures { IfOk result (λ turn. turn ≡ gathers first count count []) }
{
    goes(alloc, first, count, count, Failures::new(alloc))
}

/// What an outcome makes of it.
pub fn told(
    alloc: Global,
    first: u64,
    count: u64,
    left: u64,
    failures: Failures,
    outcome: Outcome,
) -> Result<PlanTransition, NoMemory>
    ensures { IfOk result (λ turn. turn ≡ told (Gathering first count left failures) outcome) }
{
    match outcome {
        Outcome::Parted { ticket, failure } => {
            let failures = failures.with(ticket, failure)?;
            goes(alloc, first, count, left.saturating_sub(1), failures)
        }
        outcome => fails(alloc, error_of(outcome)),
    }
}

/// It waits for those that are left, or it ends with what became of all.
fn goes(
    alloc: Global,
    first: u64,
    count: u64,
    left: u64,
    failures: Failures,
) -> Result<PlanTransition, NoMemory>
    ensures { IfOk result (λ turn. turn ≡ gathers first count left failures) }
{
    if left > 0 {
        return Ok(Transition::Stays(
            Plan::Gathering {
                first,
                count,
                left,
                failures,
            },
            Action::Rest,
        ));
    }
    let outcome = failures.outcome(alloc, first, count)?;
    Ok(Transition::Gives(Verdict {
        makes: Makes::Nothing,
        said: Said::new(alloc, outcome)?,
    }))
}
