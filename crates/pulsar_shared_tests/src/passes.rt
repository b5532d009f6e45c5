//! A client that two passes call in turn.

ghost use Rattle.std.specs.Prelude.{◌≡◌, length};

use crate::help::{IS_READY, event, happen, options};
use pulsar_client::Pulsar;
use pulsar_shared::{Machine, Opening, PARTS, Shared, Traced};
use pulsar_wire::NoMemory;
use std::alloc::Global;
use std::marker::Brand;
use std::sync::Wait;
use std::sync::ledger::Blank;
use std::test::Fail;

/// What two passes see of a client.
#[derive(Drop)]
struct Seen {
    /// The parts of the first pass, those of one split off, and those of the first when it has joined the other.
    parts: (u64, u64, u64),
    /// The place of the event that the second pass submits.
    index: u64,
    /// How many entries the first pass finds from that place on.
    since: usize,
    /// Link 0 has ended.
    is_ended: bool,
    /// How long the trace is at the end.
    entries: usize,
}

/// A pass is split, both are called, and they are joined.
fn call_by_two<L: Opening, C: Machine, R: Wait>(
    rt: &R,
    alloc: Global,
    blank: Blank,
    traced: Traced<C>,
) -> Result<Seen, NoMemory>
    requires name { blank.name ≡ L.name }
    requires parts { blank.parts ≡ L.parts }
    requires all { L.parts ≡ 4294967295 }
    requires opening { length traced.trace.items ≡ L.opening }
    requires given { C.given traced.client ≡ L.given }
{
    let (shared, mut mine) = Shared::<L, C>::new(blank, traced)?;
    let mut theirs = shared.split(&mut mine)?;
    let left = mine.parts();
    let split = theirs.parts();
    let event = event(alloc, "tick 7")?;
    let index = shared
        .submit(rt, &mut theirs, Box::into_inner(event))?
        .index;
    shared.wait(rt, &mut mine, index)?;
    let since = shared.since(rt, &mut mine, index)?.len();
    let is_ended = shared.ended(rt, &mut mine, 0)?;
    shared.join(&mut mine, theirs)?;
    let joined = mine.parts();
    let mut passes = Vec::new(alloc);
    passes.push(mine)?;
    let entries = shared.finish(passes)?.trace().len();
    Ok(Seen {
        parts: (left, split, joined),
        index,
        since,
        is_ended,
        entries,
    })
}

/// The same, for a client whose link 0 is ready.
fn call_ready<C: Machine, R: Wait>(
    rt: &R,
    alloc: Global,
    options: C::Options,
) -> Result<Seen, NoMemory> {
    let mut traced = Traced::<C>::new(alloc, options)?;
    happen(&mut traced, alloc, IS_READY)?;
    call_by_two::<Brand, C, R>(rt, alloc, Blank::new(PARTS), traced)
}

#[test]
fn a_pass_is_split_and_joined(rt: HostRuntime) -> Result<(), Fail> {
    let alloc = rt.alloc();
    let seen = call_ready::<Pulsar, HostRuntime>(&rt, alloc, options(alloc)?)?;
    assert_eq!(rt; seen.parts, (PARTS - 1, 1, PARTS));
    assert_eq!(rt; seen.index, 4);
    assert_eq!(rt; seen.since, 1);
    assert!(rt; !seen.is_ended);
    assert_eq!(rt; seen.entries, 5);
    Ok(())
}
