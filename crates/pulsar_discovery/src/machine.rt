//! The searches as machines: told what happened, each says what is to be done next.

ghost use Rattle.std.specs.Prelude.{◌≡◌, [], Some, None, Err, IfOk, OnErr, IsErr};
ghost use Rattle.pulsar_searches.specs.Plans.{fails};
ghost use Rattle.pulsar_wire.specs.Failures.{Disconnected};
ghost use Rattle.pulsar_discovery.specs.Machine.{Extends, Goes, StandsFor, does, lost, stands, step, step_of, told, turns};

use crate::kept::Kept;
use crate::outcome::{Next, Outcome, Told, content_of, found_by, message_of};
use pulsar_addresses::content::{Cause, Refusal};
use pulsar_searches::plan::{self, Answer, SearchPlan, Sought};
use pulsar_searches::question::Request;
use pulsar_searches::transition::Transition;
use pulsar_searches::turn::{Action, SearchOutcome as Happened, SearchTransition, Ways};
use pulsar_wire::error::{ConnectionError, NoMemory};
use std::alloc::Global;

/// How far a machine is.
#[derive(Drop)]
pub enum MachineStage {
    New(Sought),
    On(Kept),
    Over,
}

/// A procedure as a machine. It is told the outcomes of what it said, the first of which is `Start`.
#[derive(Drop)]
pub struct Machine {
    alloc: Global,
    ways: Ways,
    /// It is absent after want of memory.
    stage: Option<MachineStage>,
}

impl Machine {
    /// The machine of a procedure, which was told nothing yet.
    pub fn new(alloc: Global, ways: Ways, procedure: Sought) -> Machine
        ensures { StandsFor ways procedure [] result }
    {
        Machine {
            alloc,
            ways,
            stage: Some(MachineStage::New(procedure)),
        }
    }

    /// What is to be done after one more outcome. Behind the end what was waited for is lost, and after want of memory there is
    /// want of memory.
    pub fn go(&mut self, outcome: Outcome) -> Result<Next, NoMemory>
        ensures extends { IfOk result (λ said. Extends self.old (told outcome) said self.new) }
        ensures goes { IfOk result (λ said. Goes self.old (told outcome) said self.new) }
        ensures memory { OnErr result (self.new.stage ≡ None) }
        ensures spent { self.old.stage ≡ None → IsErr result }
    {
        let Some(stage) = self.stage.take() else {
            drop(outcome);
            return Err(NoMemory);
        };
        let (stage, next) = goes(self.alloc, &self.ways, stage, outcome)?;
        drop(self.stage.replace(stage));
        Ok(Box::into_inner(next))
    }
}

/// Where a machine stands after what it is told, and what it says.
fn goes(
    alloc: Global,
    ways: &Ways,
    stage: MachineStage,
    outcome: Outcome,
) -> Result<(MachineStage, Box<Next>), NoMemory>
    ensures stage { IfOk result (λ s. s.0 ≡ stands (turns ways.now stage (told outcome))) }
    ensures next { IfOk result (λ s. step s.1.value ≡ step_of (turns ways.now stage (told outcome))) }
{
    match content_of(alloc, outcome) {
        Ok(told) => {
            let turn = turns(alloc, ways, stage, told)?;
            said(alloc, turn)
        }
        Err(e) => {
            drop(stage);
            Err(e)
        }
    }
}

/// What a machine makes of what it is told.
fn turns(
    alloc: Global,
    ways: &Ways,
    stage: MachineStage,
    told: Told,
) -> Result<SearchTransition<SearchPlan, Result<Answer, Refusal>>, NoMemory>
    ensures { IfOk result (λ turn. turn ≡ turns ways.now stage told) }
{
    match stage {
        MachineStage::New(procedure) => begins(alloc, ways, procedure, told),
        MachineStage::On(kept) => goes_on(alloc, ways, kept.into_inner(), told),
        MachineStage::Over => lost(alloc),
    }
}

/// A machine that was told nothing yet.
fn begins(
    alloc: Global,
    ways: &Ways,
    procedure: Sought,
    told: Told,
) -> Result<SearchTransition<SearchPlan, Result<Answer, Refusal>>, NoMemory>
    ensures { IfOk result (λ turn. turn ≡ turns ways.now (MachineStage.New procedure) told) }
{
    match told {
        Told::Begun => plan::begins(alloc, ways, procedure),
        Told::Then(_) => lost(alloc),
    }
}

/// A machine whose plan waits for an outcome.
fn goes_on(
    alloc: Global,
    ways: &Ways,
    plan: SearchPlan,
    told: Told,
) -> Result<SearchTransition<SearchPlan, Result<Answer, Refusal>>, NoMemory>
    ensures { IfOk result (λ turn. turn ≡ turns ways.now (MachineStage.On plan) told) }
{
    match told {
        Told::Begun => goes_on_without(alloc, ways, plan),
        Told::Then(outcome) => plan::told(alloc, ways, plan, outcome),
    }
}

/// To begin once more is an outcome that the plan doesn't wait for.
fn goes_on_without(
    alloc: Global,
    ways: &Ways,
    plan: SearchPlan,
) -> Result<SearchTransition<SearchPlan, Result<Answer, Refusal>>, NoMemory>
    ensures { IfOk result (λ turn. turn ≡ turns ways.now (MachineStage.On plan) Told.Begun) }
{
    match disconnected(alloc) {
        Ok(cause) => plan::told(alloc, ways, plan, Happened::Failed(cause)),
        Err(e) => {
            drop(plan);
            Err(e)
        }
    }
}

fn disconnected(alloc: Global) -> Result<Cause, NoMemory>
    ensures { IfOk result (λ c. c ≡ Disconnected) }
{
    Cause::new(alloc, ConnectionError::Disconnected)
}

/// What was waited for is lost.
fn lost(alloc: Global) -> Result<SearchTransition<SearchPlan, Result<Answer, Refusal>>, NoMemory>
    ensures { IfOk result (λ turn. turn ≡ fails lost) }
{
    let refusal = Refusal::in_connection(alloc, ConnectionError::Disconnected)?;
    Ok(Transition::Gives(Err(refusal)))
}

/// Where a machine stands after a turn, and what it says.
fn said(
    alloc: Global,
    turn: SearchTransition<SearchPlan, Result<Answer, Refusal>>,
) -> Result<(MachineStage, Box<Next>), NoMemory>
    ensures stage { IfOk result (λ s. s.0 ≡ stands turn) }
    ensures next { IfOk result (λ s. step s.1.value ≡ step_of turn) }
{
    match turn {
        Transition::Stays(plan, action) => {
            let kept = Kept::new(alloc, plan);
            let next = done(alloc, action)?;
            Ok((MachineStage::On(kept?), next))
        }
        Transition::Gives(given) => Ok((MachineStage::Over, end(alloc, given)?)),
    }
}

/// What is said at the end of a plan.
fn end(alloc: Global, given: Result<Answer, Refusal>) -> Result<Box<Next>, NoMemory>
    ensures { IfOk result (λ n. step n.value ≡ step_of (Transition.Gives given)) }
{
    match given {
        Ok(answer) => Ok(Box::new(alloc, Next::Done(found_by(answer)))?),
        Err(refusal) => Ok(Box::new(alloc, Next::Refuse(refusal.into_inner()))?),
    }
}

/// An action as it is said.
fn done(alloc: Global, action: Action) -> Result<Box<Next>, NoMemory>
    ensures { IfOk result (λ n. step n.value ≡ does action) }
{
    match action {
        Action::Get(address) => Ok(Box::new(alloc, Next::Get(address.into_inner()))?),
        Action::Ask { link, request } => asked(alloc, link, request),
        Action::Wait(delay) => Ok(Box::new(alloc, Next::Wait(delay))?),
    }
}

fn asked(alloc: Global, link: u64, request: Request) -> Result<Box<Next>, NoMemory>
    ensures { IfOk result (λ n. step n.value ≡ does (Action.Ask link request)) }
{
    let message = message_of(alloc, request.question())?;
    Ok(Box::new(alloc, Next::Ask(link, message))?)
}
