//! A whole run of `produce` or of `consume`.

ghost use Rattle.std.specs.Prelude.{◌≡◌, ◌↔◌, ◌∷◌, [], ℕ, None, Some, IfErr, IfOk, IfSome, MatchOption, OnErr, map, string_bytes};
ghost use Rattle.std.specs.Option.{option_map};
ghost use Rattle.pulsar_wire.specs.declared.error.IoKind.{IoKind};
ghost use Rattle.pulsar_shared.specs.Trace.{history};
ghost use Rattle.pulsar_work.specs.Asking.{work_in};
ghost use Rattle.pulsar_work.specs.Calls.{Work};
ghost use Rattle.pulsar_work.specs.Form.{Asking, form_of};
ghost use Rattle.pulsar_job.specs.Driven.{ComesOut, link_now, seen_of};
ghost use Rattle.pulsar_job.specs.Links.{Fits, link_seen};
ghost use Rattle.pulsar_job.specs.Outside.{HasFault, seen};
ghost use Rattle.pulsar_job.specs.Parts.{Begins, Drives, Finishes, IsHalted, Performs};
ghost use Rattle.pulsar_job.specs.Went.{Ended, HasGone, Went, edge_seen};

use crate::kept::{Kept, Terms};
use crate::links::Link;
use crate::putting::put_all;
use crate::reading::{lines, read_all};
use crate::status::{DONE, FAILED, Job, NO_FORM, NO_MEMORY, SINK_FAILED, Status, Stop, status_of};
use crate::turns::turns;
use pulsar_calls::effect::Effect;
use pulsar_calls::event::Event;
use pulsar_machine::{FromUrl, Machine};
use pulsar_pumps::{Edge, Input, Output};
use pulsar_shared::Traced;
use pulsar_streams::outside::sink::Sink;
use pulsar_streams::outside::source::Source;
use pulsar_wire::NoMemory;
use pulsar_work::{Form, Progress, Task, parse, report};
use std::alloc::Global;
use std::marker::Brand;
use std::sync::Wait;
use std::thread::Threads;

/// Runs `produce` or `consume`. With other words it does nothing, and its status is 2.
pub fn job<C: FromUrl, R: Threads + Wait + Sync, S: Source, K: Sink, E: Edge>(
    rt: &R,
    alloc: Global,
    words: &[String],
    source: &mut S,
    sink: &mut K,
    edge: &mut E,
    policies: C::Policies,
) -> Job<C, E>
    ensures no_form { (result.status ≡ 2) ↔ (form_of (map string_bytes words.now) ≡ None) }
    ensures nothing { result.status ≡ 2 → (source.new ≡ source.old) × (sink.new ≡ sink.old) × (edge.new ≡ edge.old) }
    ensures went { MatchOption (form_of (map string_bytes words.now)) (Unit {0}) (λ a. Went C.good a (C.routes policies) result.status
        (seen S.left S.faults source.old source.new) (seen K.holds K.faults sink.old sink.new) (edge_seen E.failures E.first E.greatest edge.old edge.new)
        (map (link_seen E.Input.given E.Input.faults E.Output.taken E.Output.faults) result.halves.items)
        (option_map (λ t. (C.given t.client, history t.trace.items)) result.trace)) }
{
    match begin(alloc, words, source) {
        Ok(Some((url, task))) => perform(rt, alloc, &url, &task, sink, edge, policies),
        Ok(None) => idle(alloc, NO_FORM),
        Err(stop) => idle(alloc, status_of(stop)),
    }
}

/// The status of such a run.
pub fn served<C: FromUrl, R: Threads + Wait + Sync, S: Source, K: Sink, E: Edge>(
    rt: &R,
    alloc: Global,
    words: &[String],
    source: &mut S,
    sink: &mut K,
    edge: &mut E,
    policies: C::Policies,
) -> Status
    ensures no_form { (result ≡ 2) ↔ (form_of (map string_bytes words.now) ≡ None) }
    ensures nothing { result ≡ 2 → (source.new ≡ source.old) × (sink.new ≡ sink.old) × (edge.new ≡ edge.old) }
    ensures went { MatchOption (form_of (map string_bytes words.now)) (Unit {0}) (λ a. HasGone C.good a (C.routes policies) result
        (seen S.left S.faults source.old source.new) (seen K.holds K.faults sink.old sink.new) (edge_seen E.failures E.first E.greatest edge.old edge.new)) }
{
    let job = job::<C, R, S, K, E>(rt, alloc, words, source, sink, edge, policies);
    let status = job.status;
    drop(job);
    status
}

/// Nothing was done.
fn idle<C: Machine, E: Edge>(alloc: Global, status: Status) -> Job<C, E>
    ensures status { result.status ≡ status }
    ensures trace { result.trace ≡ None }
{
    Job {
        status,
        trace: None,
        halves: Vec::new(alloc),
    }
}

/// The URL, and what is to be done there. The lines that are to be sent are read to their end.
fn begin<S: Source>(
    alloc: Global,
    words: &[String],
    source: &mut S,
) -> Result<Option<(String, Task)>, Stop>
    ensures none { IfOk result (λ o. o ≡ None → (form_of (map string_bytes words.now) ≡ None) × (source.new ≡ source.old)) }
    ensures some { IfOk result (λ o. IfSome o (λ p. (a : Asking) × (form_of (map string_bytes words.now) ≡ Some a)
        × Begins a (string_bytes p.0) (work_in p.1) (seen S.left S.faults source.old source.new))) }
    ensures stopped { IfErr result (λ stop. (a : Asking) × (form_of (map string_bytes words.now) ≡ Some a)
        × IsHalted stop (seen S.left S.faults source.old source.new)) }
{
    match parse(words)? {
        Some(Form::Produce { url, topic }) => {
            let bytes = read_all(alloc, source)?;
            let lines = lines(alloc, &bytes)?;
            Ok(Some((url, Task::Produce { topic, lines })))
        }
        Some(
            Form::Consume {
                url,
                topic,
                subscription,
                count,
            },
        ) => Ok(Some((
            url,
            Task::Consume {
                topic,
                subscription,
                count,
            },
        ))),
        None => Ok(None),
    }
}

/// Does it, and prints the report.
fn perform<C: FromUrl, R: Wait, K: Sink, E: Edge>(
    rt: &R,
    alloc: Global,
    url: &str,
    task: &Task,
    sink: &mut K,
    edge: &mut E,
    policies: C::Policies,
) -> Job<C, E>
    ensures { Performs C.good url.now (C.routes policies) (work_in task.now) result.status (seen K.holds K.faults sink.old sink.new)
        (edge_seen E.failures E.first E.greatest edge.old edge.new)
        (map (link_seen E.Input.given E.Input.faults E.Output.taken E.Output.faults) result.halves.items)
        (option_map (λ t. (C.given t.client, history t.trace.items)) result.trace) }
{
    let now = edge.now();
    let Ok(options) = C::options_for(alloc, url, now, policies) else {
        return idle(alloc, NO_MEMORY);
    };
    let Ok(traced) = Traced::<C>::new(alloc, options) else {
        return idle(alloc, NO_MEMORY);
    };
    drive::<Brand, C, R, K, E>(rt, alloc, task, sink, edge, traced)
}

/// Drives the client, whose options are named, until the job has ended.
fn drive<T: Terms, C: Machine, R: Wait, K: Sink, E: Edge>(
    rt: &R,
    alloc: Global,
    task: &Task,
    sink: &mut K,
    edge: &mut E,
    traced: Traced<C>,
) -> Job<C, E>
    requires { C.given traced.client ≡ T.given }
    ensures drives { traced.trace.items ≡ [] → (before : IoKind → ℕ) → Fits before (E.failures edge.old) (E.greatest edge.old) []
        → Drives C.good T.given (work_in task.now) before (E.failures edge.new) (E.greatest edge.new) result.status (seen K.holds K.faults sink.old sink.new)
        (map (link_seen E.Input.given E.Input.faults E.Output.taken E.Output.faults) result.halves.items)
        (option_map (λ t. (C.given t.client, history t.trace.items)) result.trace) }
    ensures first { IfSome result.trace (λ _. (now : ℕ) → E.first edge.old ≡ Some now → E.first edge.new ≡ Some now) }
{
    let mut kept = Kept::<T, C>::new(traced);
    let mut links = Vec::new(alloc);
    let mut progress = Progress::new(alloc);
    let Ok(is_done) = turns(rt, alloc, task, &mut kept, &mut links, &mut progress, edge) else {
        drop(kept);
        drop(links);
        drop(progress);
        return idle(alloc, NO_MEMORY);
    };
    drop(progress);
    finish(alloc, kept.into_traced(), links, is_done, sink)
}

/// Prints the report.
fn finish<C: Machine, K: Sink, E: Edge>(
    alloc: Global,
    traced: Traced<C>,
    links: Vec<Link<E::Input, E::Output>>,
    is_done: bool,
    sink: &mut K,
) -> Job<C, E>
    ensures { (w : Work) → ComesOut w (history traced.trace.items) is_done
        → Finishes C.good (C.given traced.client) (history traced.trace.items) w result.status (seen K.holds K.faults sink.old sink.new)
        (seen_of (map (link_now E.Input.given E.Input.faults E.Output.taken E.Output.faults) links.items))
        (map (link_seen E.Input.given E.Input.faults E.Output.taken E.Output.faults) result.halves.items)
        (option_map (λ t. (C.given t.client, history t.trace.items)) result.trace) }
{
    let Ok(halves) = halves(alloc, links) else {
        drop(traced);
        return idle(alloc, NO_MEMORY);
    };
    match print(alloc, traced.trace(), is_done, sink) {
        Ok(status) => Job {
            status,
            trace: Some(traced),
            halves,
        },
        Err(_) => {
            drop(traced);
            drop(halves);
            idle(alloc, NO_MEMORY)
        }
    }
}

fn print<K: Sink>(
    alloc: Global,
    trace: &[(Event, Vec<Effect>)],
    is_done: bool,
    sink: &mut K,
) -> Result<Status, NoMemory>
    ensures ended { IfOk result (λ status. (w : Work) → ComesOut w (history trace.now) is_done
        → Ended status w (seen K.holds K.faults sink.old sink.new) (history trace.now)) }
    ensures failed { IfOk result (λ status. status ≡ 5 → HasFault (seen K.holds K.faults sink.old sink.new)) }
    ensures err { OnErr result (sink.new ≡ sink.old) }
{
    let text = report(alloc, trace)?;
    Ok(match put_all(sink, text.as_bytes()) {
        Ok(()) if is_done => DONE,
        Ok(()) => FAILED,
        Err(_) => SINK_FAILED,
    })
}

/// The halves of each link.
fn halves<I: Input + Drop, O: Output + Drop>(
    alloc: Global,
    links: Vec<Link<I, O>>,
) -> Result<Vec<(u64, I, O)>, NoMemory>
    ensures { IfOk result (λ v. map (link_seen I.given I.faults O.taken O.faults) v.items
        ≡ seen_of (map (link_now I.given I.faults O.taken O.faults) links.items)) }
{
    let mut halves = Vec::with_capacity(alloc, links.len())?;
    for link in links {
        let Link {
            number,
            input,
            output,
            hears: _,
            writes: _,
        } = link;
        halves.push((number, input, output))?;
    }
    Ok(halves)
}
