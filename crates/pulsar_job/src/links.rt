//! The links of a job.

ghost use Rattle.std.specs.Prelude.{◌≡◌, ◌==◌, ◌∷◌, ◌++◌, [], true, List, OnOk, map, not};
ghost use Rattle.std.specs.List.{list_any};
ghost use Rattle.pulsar_calls.specs.Content.{Opened, heard};
ghost use Rattle.pulsar_pumps.specs.Made.{made_of};
ghost use Rattle.pulsar_pumps.specs.Pumping.{says_last};
ghost use Rattle.pulsar_shared.specs.Trace.{history};
ghost use Rattle.pulsar_work.specs.Calls.{Work};
ghost use Rattle.pulsar_job.specs.Driven.{Goes, IsDialed, Learns, LinkNow, Reaches, ReachesBy, Submits, edge_now, effects_made, fresh, link_now};
ghost use Rattle.pulsar_job.specs.Links.{link_seen};

use crate::kept::{Kept, Terms};
use pulsar_calls::event::Event;
use pulsar_machine::Machine;
use pulsar_pumps::{Edge, Input, Output, PumpEnd, Receipt, round_in, round_out};
use pulsar_wire::NoMemory;
use pulsar_work::{Dial, Progress};
use std::alloc::Global;
use std::sync::Wait;

/// A link that was opened, with its two halves.
#[derive(Drop)]
pub struct Link<I: Input + Drop, O: Output + Drop> {
    pub number: u64,
    pub input: I,
    pub output: O,
    /// Its input still has rounds.
    pub hears: bool,
    /// Its output still has rounds.
    pub writes: bool,
}

/// Submits an event, and learns of its effects.
pub fn submit<T: Terms, C: Machine>(
    kept: &mut Kept<T, C>,
    progress: &mut Progress,
    event: Event,
) -> Result<(), NoMemory>
    ensures { OnOk result (Submits (heard event) (history kept.old.traced.trace.items) (history kept.new.traced.trace.items) progress.old progress.new) }
{
    let receipt = kept.apply(event)?;
    progress.learn(&receipt.effects)?;
    Ok(())
}

/// Dials each link that is to be dialed.
pub fn dial_all<T: Terms, C: Machine, R: Wait, E: Edge>(
    rt: &R,
    kept: &mut Kept<T, C>,
    links: &mut Vec<Link<E::Input, E::Output>>,
    progress: &mut Progress,
    edge: &mut E,
) -> Result<(), NoMemory>
    ensures reaches { OnOk result ((w : Work) → Reaches w (history kept.old.traced.trace.items) (history kept.new.traced.trace.items) progress.old progress.new
        (map (link_now E.Input.given E.Input.faults E.Output.taken E.Output.faults) links.old.items)
        (map (link_now E.Input.given E.Input.faults E.Output.taken E.Output.faults) links.new.items)
        (edge_now E.failures E.first E.greatest edge.old) (edge_now E.failures E.first E.greatest edge.new)) }
    ensures dialed { OnOk result (IsDialed progress.new) }
{
    for _ in rt.forever() {
        if progress.dials.is_empty() {
            return Ok(());
        }
        let dial = progress.dials.remove(0);
        dial_one(kept, links, progress, edge, dial)?;
    }
    unreachable!()
}

/// Dials a link. No two links have one number.
fn dial_one<T: Terms, C: Machine, E: Edge>(
    kept: &mut Kept<T, C>,
    links: &mut Vec<Link<E::Input, E::Output>>,
    progress: &mut Progress,
    edge: &mut E,
    dial: Dial,
) -> Result<(), NoMemory>
    ensures { OnOk result ((w : Work) → ReachesBy dial.link w (history kept.old.traced.trace.items)
        (history kept.new.traced.trace.items) progress.old progress.new
        (map (link_now E.Input.given E.Input.faults E.Output.taken E.Output.faults) links.old.items)
        (map (link_now E.Input.given E.Input.faults E.Output.taken E.Output.faults) links.new.items)
        (edge_now E.failures E.first E.greatest edge.old) (edge_now E.failures E.first E.greatest edge.new)) }
{
    if has_link(links, dial.link) {
        drop(dial);
        return Err(NoMemory);
    }
    match edge.dial(&dial.host, dial.port) {
        Ok((input, output)) => {
            open(kept, links, progress, dial.link, input, output)?;
            Ok(())
        }
        Err(kind) => {
            submit(kept, progress, Event::Failed(dial.link, kind))?;
            Ok(())
        }
    }
}

fn has_link<I: Input + Drop, O: Output + Drop>(links: &[Link<I, O>], number: u64) -> bool
    ensures { result ≡ list_any (λ l. l.number == number) links.now }
{
    links.iter().any(|l| l.number == number)
}

/// A link is open.
fn open<T: Terms, C: Machine, I: Input + Drop, O: Output + Drop>(
    kept: &mut Kept<T, C>,
    links: &mut Vec<Link<I, O>>,
    progress: &mut Progress,
    number: u64,
    input: I,
    output: O,
) -> Result<(), NoMemory>
    ensures submits { OnOk result (Submits (Opened number) (history kept.old.traced.trace.items)
        (history kept.new.traced.trace.items) progress.old progress.new) }
    ensures links { OnOk result (map (link_now I.given I.faults O.taken O.faults) links.new.items
        ≡ map (link_now I.given I.faults O.taken O.faults) links.old.items
        ++ fresh (link_seen I.given I.faults O.taken O.faults (number, input, output)) ∷ []) }
{
    links.push(Link {
        number,
        input,
        output,
        hears: true,
        writes: true,
    })?;
    submit(kept, progress, Event::Opened(number))
}

/// Each output that still has rounds gets them, while they write.
pub fn write_all<T: Terms, C: Machine, R: Wait, I: Input + Drop, O: Output + Drop>(
    rt: &R,
    alloc: Global,
    kept: &mut Kept<T, C>,
    links: &mut Vec<Link<I, O>>,
    progress: &mut Progress,
) -> Result<(), NoMemory>
    ensures { OnOk result ((w : Work) → Goes w (history kept.old.traced.trace.items) (history kept.new.traced.trace.items) progress.old progress.new
        (map (link_now I.given I.faults O.taken O.faults) links.old.items) (map (link_now I.given I.faults O.taken O.faults) links.new.items)) }
{
    for link in links.iter_mut() {
        write_link(rt, alloc, kept, link, progress)?;
    }
    Ok(())
}

fn write_link<T: Terms, C: Machine, R: Wait, I: Input + Drop, O: Output + Drop>(
    rt: &R,
    alloc: Global,
    kept: &mut Kept<T, C>,
    link: &mut Link<I, O>,
    progress: &mut Progress,
) -> Result<(), NoMemory>
    ensures { OnOk result ((w : Work) (before behind : List LinkNow)
        → Goes w (history kept.old.traced.trace.items) (history kept.new.traced.trace.items) progress.old progress.new
        (before ++ link_now I.given I.faults O.taken O.faults link.old ∷ behind) (before ++ link_now I.given I.faults O.taken O.faults link.new ∷ behind)) }
{
    for _ in rt.forever() {
        if !write_once(alloc, kept, link, progress)? {
            return Ok(());
        }
    }
    unreachable!()
}

/// One round of an output, if it still has any. Another one follows where it wrote.
fn write_once<T: Terms, C: Machine, I: Input + Drop, O: Output + Drop>(
    alloc: Global,
    kept: &mut Kept<T, C>,
    link: &mut Link<I, O>,
    progress: &mut Progress,
) -> Result<bool, NoMemory>
    ensures { OnOk result ((w : Work) (before behind : List LinkNow)
        → Goes w (history kept.old.traced.trace.items) (history kept.new.traced.trace.items) progress.old progress.new
        (before ++ link_now I.given I.faults O.taken O.faults link.old ∷ behind) (before ++ link_now I.given I.faults O.taken O.faults link.new ∷ behind)) }
{
    if !link.writes {
        return Ok(false);
    }
    let mut made = Vec::new(alloc);
    let wrote = write(kept, link, progress, &mut made);
    drop(made);
    wrote
}

fn write<T: Terms, C: Machine, I: Input + Drop, O: Output + Drop>(
    kept: &mut Kept<T, C>,
    link: &mut Link<I, O>,
    progress: &mut Progress,
    made: &mut Vec<(Event, Receipt)>,
) -> Result<bool, NoMemory>
    requires none { made.old.items ≡ [] }
    requires writes { link.old.writes ≡ true }
    ensures { OnOk result ((w : Work) (before behind : List LinkNow)
        → Goes w (history kept.old.traced.trace.items) (history kept.new.traced.trace.items) progress.old progress.new
        (before ++ link_now I.given I.faults O.taken O.faults link.old ∷ behind) (before ++ link_now I.given I.faults O.taken O.faults link.new ∷ behind)) }
{
    let end = round_out(kept, link.number, &mut link.output, made)?;
    learn_all(progress, made)?;
    link.writes = goes_on(end);
    Ok(end.is_none())
}

/// An output still has rounds.
fn goes_on(end: Option<PumpEnd>) -> bool
    ensures { result ≡ not (says_last end) }
{
    !matches!(end, Some(PumpEnd::LinkEnded) | Some(PumpEnd::Lost))
}

/// Each input that still has rounds gets one, where its link waits.
pub fn hear_all<T: Terms, C: Machine, I: Input + Drop, O: Output + Drop>(
    alloc: Global,
    kept: &mut Kept<T, C>,
    links: &mut Vec<Link<I, O>>,
    progress: &mut Progress,
) -> Result<(), NoMemory>
    ensures { OnOk result ((w : Work) → Goes w (history kept.old.traced.trace.items) (history kept.new.traced.trace.items) progress.old progress.new
        (map (link_now I.given I.faults O.taken O.faults) links.old.items) (map (link_now I.given I.faults O.taken O.faults) links.new.items)) }
{
    for link in links.iter_mut() {
        hear(alloc, kept, link, progress)?;
    }
    Ok(())
}

/// One round of an input, if it still has any, where its link waits.
fn hear<T: Terms, C: Machine, I: Input + Drop, O: Output + Drop>(
    alloc: Global,
    kept: &mut Kept<T, C>,
    link: &mut Link<I, O>,
    progress: &mut Progress,
) -> Result<(), NoMemory>
    ensures { OnOk result ((w : Work) (before behind : List LinkNow)
        → Goes w (history kept.old.traced.trace.items) (history kept.new.traced.trace.items) progress.old progress.new
        (before ++ link_now I.given I.faults O.taken O.faults link.old ∷ behind) (before ++ link_now I.given I.faults O.taken O.faults link.new ∷ behind)) }
{
    if !link.hears || !kept.traced().client().link_waits(link.number) {
        return Ok(());
    }
    let mut made = Vec::new(alloc);
    let heard = listen(kept, link, progress, &mut made);
    drop(made);
    heard
}

fn listen<T: Terms, C: Machine, I: Input + Drop, O: Output + Drop>(
    kept: &mut Kept<T, C>,
    link: &mut Link<I, O>,
    progress: &mut Progress,
    made: &mut Vec<(Event, Receipt)>,
) -> Result<(), NoMemory>
    requires { made.old.items ≡ [] }
    ensures { OnOk result ((w : Work) (before behind : List LinkNow)
        → Goes w (history kept.old.traced.trace.items) (history kept.new.traced.trace.items) progress.old progress.new
        (before ++ link_now I.given I.faults O.taken O.faults link.old ∷ behind) (before ++ link_now I.given I.faults O.taken O.faults link.new ∷ behind)) }
{
    let end = round_in(kept, link.number, &mut link.input, made)?;
    learn_all(progress, made)?;
    link.hears = end.is_none();
    Ok(())
}

/// What the effects of these events tell.
fn learn_all(progress: &mut Progress, made: &[(Event, Receipt)]) -> Result<(), NoMemory>
    ensures { OnOk result (Learns (effects_made (map made_of made.now)) progress.old progress.new) }
{
    for entry in made {
        progress.learn(&entry.1.effects)?;
    }
    Ok(())
}

/// Each output that still has rounds gets a last one.
pub fn shut_all<T: Terms, C: Machine, I: Input + Drop, O: Output + Drop>(
    alloc: Global,
    kept: &mut Kept<T, C>,
    links: &mut Vec<Link<I, O>>,
    progress: &mut Progress,
) -> Result<(), NoMemory>
    ensures { OnOk result ((w : Work) → Goes w (history kept.old.traced.trace.items) (history kept.new.traced.trace.items) progress.old progress.new
        (map (link_now I.given I.faults O.taken O.faults) links.old.items) (map (link_now I.given I.faults O.taken O.faults) links.new.items)) }
{
    for link in links.iter_mut() {
        write_once(alloc, kept, link, progress)?;
    }
    Ok(())
}
