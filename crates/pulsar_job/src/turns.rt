//! The turns of a job.

ghost use Rattle.std.specs.Prelude.{◌≡◌, ◌↔◌, ◌∷◌, true, false, List, Some, IfOk, IsTrue, OnOk, map, slice_get};
ghost use Rattle.pulsar_calls.specs.Content.{asked};
ghost use Rattle.pulsar_calls.specs.Steps.{Step};
ghost use Rattle.pulsar_shared.specs.Trace.{history};
ghost use Rattle.pulsar_work.specs.Asking.{IsNext, Stops, work_in};
ghost use Rattle.pulsar_work.specs.Calls.{Work};
ghost use Rattle.pulsar_job.specs.Driven.{Asks, Calls, ComesOut, Ends, IsSame, Knits, Makes, MakesLast, Rests, UpToCalls, Works, edge_now, link_now};

use crate::kept::{Kept, Terms};
use crate::links::{Link, dial_all, hear_all, shut_all, submit, write_all};
use pulsar_calls::event::{Call, Event};
use pulsar_machine::Machine;
use pulsar_pumps::{Edge, Input, Output};
use pulsar_wire::NoMemory;
use pulsar_work::{MADE, Next, Progress, Task, what_next};
use std::alloc::Global;
use std::sync::Wait;

/// How many milliseconds a turn pauses.
const PAUSE: u64 = 10;

/// Turns, until the job has ended. The answer says whether all went well.
pub fn turns<T: Terms, C: Machine, R: Wait, E: Edge>(
    rt: &R,
    alloc: Global,
    task: &Task,
    kept: &mut Kept<T, C>,
    links: &mut Vec<Link<E::Input, E::Output>>,
    progress: &mut Progress,
    edge: &mut E,
) -> Result<bool, NoMemory>
    ensures ends { IfOk result (λ all_well. Ends (work_in task.now) (history kept.old.traced.trace.items) (history kept.new.traced.trace.items) progress.old
        (map (link_now E.Input.given E.Input.faults E.Output.taken E.Output.faults) links.old.items)
        (map (link_now E.Input.given E.Input.faults E.Output.taken E.Output.faults) links.new.items) all_well) }
    ensures knits { OnOk result (progress.old.stopped ≡ false → Knits (history kept.old.traced.trace.items) (history kept.new.traced.trace.items)
        (edge_now E.failures E.first E.greatest edge.old) (edge_now E.failures E.first E.greatest edge.new)) }
{
    for _ in rt.forever() {
        begin_turn(rt, alloc, task, kept, links, progress, edge)?;
        if progress.stopped || has_failed_to_build(progress) {
            shut_all(alloc, kept, links, progress)?;
            return outcome(progress);
        }
        end_turn(rt, alloc, kept, links, progress, edge)?;
    }
    unreachable!()
}

/// The front of a turn: what is wanted is dialed, and the calls whose moment has come are made.
fn begin_turn<T: Terms, C: Machine, R: Wait, E: Edge>(
    rt: &R,
    alloc: Global,
    task: &Task,
    kept: &mut Kept<T, C>,
    links: &mut Vec<Link<E::Input, E::Output>>,
    progress: &mut Progress,
    edge: &mut E,
) -> Result<(), NoMemory>
    ensures { OnOk result (progress.old.stopped ≡ false → UpToCalls (work_in task.now) (history kept.old.traced.trace.items)
        (history kept.new.traced.trace.items) progress.old progress.new
        (map (link_now E.Input.given E.Input.faults E.Output.taken E.Output.faults) links.old.items)
        (map (link_now E.Input.given E.Input.faults E.Output.taken E.Output.faults) links.new.items)
        (edge_now E.failures E.first E.greatest edge.old) (edge_now E.failures E.first E.greatest edge.new)) }
{
    dial_all(rt, kept, links, progress, edge)?;
    progress.is_dry = false;
    call_all(rt, alloc, task, kept, links, progress)
}

/// The rest of a turn, behind its calls: what is to be written is written, what has come is heard, and the time is told.
fn end_turn<T: Terms, C: Machine, R: Wait, E: Edge>(
    rt: &R,
    alloc: Global,
    kept: &mut Kept<T, C>,
    links: &mut Vec<Link<E::Input, E::Output>>,
    progress: &mut Progress,
    edge: &mut E,
) -> Result<(), NoMemory>
    ensures { OnOk result ((w : Work) → Rests w (history kept.old.traced.trace.items) (history kept.new.traced.trace.items) progress.old progress.new
        (map (link_now E.Input.given E.Input.faults E.Output.taken E.Output.faults) links.old.items)
        (map (link_now E.Input.given E.Input.faults E.Output.taken E.Output.faults) links.new.items)
        (edge_now E.failures E.first E.greatest edge.old) (edge_now E.failures E.first E.greatest edge.new)) }
{
    write_all(rt, alloc, kept, links, progress)?;
    hear_all(alloc, kept, links, progress)?;
    submit(kept, progress, Event::Tick(edge.now()))?;
    edge.pause(PAUSE);
    Ok(())
}

/// The calls whose moment has come.
fn call_all<T: Terms, C: Machine, R: Wait, I: Input + Drop, O: Output + Drop>(
    rt: &R,
    alloc: Global,
    task: &Task,
    kept: &mut Kept<T, C>,
    links: &mut Vec<Link<I, O>>,
    progress: &mut Progress,
) -> Result<(), NoMemory>
    ensures { OnOk result (progress.old.stopped ≡ false → Calls (work_in task.now) (history kept.old.traced.trace.items)
        (history kept.new.traced.trace.items) progress.old progress.new
        (map (link_now I.given I.faults O.taken O.faults) links.old.items) (map (link_now I.given I.faults O.taken O.faults) links.new.items)) }
{
    for _ in rt.forever() {
        match call_next(alloc, task, kept, progress)? {
            Called::Made => {}
            Called::Nothing => return Ok(()),
            Called::Stop => {
                write_all(rt, alloc, kept, links, progress)?;
                if stop(alloc, task, kept, progress)? {
                    return Ok(());
                }
            }
        }
    }
    unreachable!()
}

/// What became of what was next.
#[derive(Clone, Copy, Debug, PartialEq, Eq)]
enum Called {
    Made,
    /// The last call is next.
    Stop,
    Nothing,
}

/// Makes the call or the poll that is next, but the last call.
fn call_next<T: Terms, C: Machine>(
    alloc: Global,
    task: &Task,
    kept: &mut Kept<T, C>,
    progress: &mut Progress,
) -> Result<Called, NoMemory>
    ensures { OnOk result (progress.old.stopped ≡ false → Makes (work_in task.now) (history kept.old.traced.trace.items)
        (history kept.new.traced.trace.items) progress.old progress.new) }
{
    let next = what_next(alloc, task, progress)?;
    make(kept, progress, next)
}

fn make<T: Terms, C: Machine>(
    kept: &mut Kept<T, C>,
    progress: &mut Progress,
    next: Next,
) -> Result<Called, NoMemory>
    ensures { OnOk result ((w : Work) → IsNext w progress.old next → progress.old.stopped ≡ false
        → Makes w (history kept.old.traced.trace.items) (history kept.new.traced.trace.items) progress.old progress.new) }
{
    match next {
        Next::Call(call) => {
            ask(kept, progress, call)?;
            Ok(Called::Made)
        }
        Next::Ack(call) => {
            progress.acknowledge();
            ask(kept, progress, call)?;
            Ok(Called::Made)
        }
        Next::Poll => {
            submit(kept, progress, Event::Poll(MADE))?;
            Ok(Called::Made)
        }
        Next::Stop => Ok(Called::Stop),
        Next::Nothing => Ok(Called::Nothing),
    }
}

/// Makes a call.
fn ask<T: Terms, C: Machine>(
    kept: &mut Kept<T, C>,
    progress: &mut Progress,
    call: Call,
) -> Result<(), NoMemory>
    ensures { OnOk result (Asks (asked call) (history kept.old.traced.trace.items) (history kept.new.traced.trace.items) progress.old progress.new) }
{
    let receipt = kept.apply(Event::Call(call))?;
    progress.call()?;
    progress.learn(&receipt.effects)?;
    Ok(())
}

/// Makes the last call, unless something else is to be called by now. The answer says whether it was made.
fn stop<T: Terms, C: Machine>(
    alloc: Global,
    task: &Task,
    kept: &mut Kept<T, C>,
    progress: &mut Progress,
) -> Result<bool, NoMemory>
    ensures made { IfOk result (λ made. made ≡ true → MakesLast (work_in task.now) (history kept.old.traced.trace.items)
        (history kept.new.traced.trace.items) progress.old progress.new) }
    ensures kept { IfOk result (λ made. made ≡ false
        → IsSame (history kept.old.traced.trace.items) (history kept.new.traced.trace.items) progress.old progress.new) }
{
    if !is_last(alloc, task, progress)? {
        return Ok(false);
    }
    progress.stopped = true;
    progress.failed_before = progress.failed;
    ask(kept, progress, Call::Stop)?;
    Ok(true)
}

/// The last call is next.
fn is_last(alloc: Global, task: &Task, progress: &Progress) -> Result<bool, NoMemory>
    ensures { IfOk result (λ last. last ≡ true → Stops (work_in task.now) progress.now) }
{
    let next = what_next(alloc, task, progress)?;
    let last = matches!(&next, Next::Stop);
    drop(next);
    Ok(last)
}

/// Whether all went well. An end that neither the calls nor an error account for answers want of memory.
fn outcome(progress: &Progress) -> Result<bool, NoMemory>
    ensures { IfOk result (λ all_well. (w : Work) (h : List Step) → Works w h progress.now → ComesOut w h all_well) }
{
    if !progress.stopped {
        return if has_failed_to_build(progress) {
            Ok(false)
        } else {
            Err(NoMemory)
        };
    }
    if progress.failed_before {
        return Ok(false);
    }
    if progress.failed || !progress.have_all_ended() || progress.owed.is_some() {
        return Err(NoMemory);
    }
    Ok(true)
}

fn has_failed_to_build(progress: &Progress) -> bool
    ensures { IsTrue result ↔ ((progress.now.failed ≡ true) × (slice_get progress.now.ended.items 0 ≡ Some true → ⊥)) }
{
    progress.failed && !progress.has_ended(0)
}
