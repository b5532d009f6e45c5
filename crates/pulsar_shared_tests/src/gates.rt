//! Two links whose pumps run at once.

ghost use Rattle.std.specs.Prelude.{◌≡◌, ◌≤◌, length};

use crate::gate::{GateInput, GateOutput};
use crate::help::{IS_READY, happen, options};
use pulsar_client::Pulsar;
use pulsar_shared::{
    Caller, Machine, Opening, PARTS, Pass, PumpEnd, Shared, Traced, pump_in, pump_out,
};
use pulsar_wire::NoMemory;
use std::alloc::Global;
use std::marker::Brand;
use std::sync::Wait;
use std::sync::atomic::AtomicU64;
use std::sync::ledger::Blank;
use std::test::Fail;
use std::thread::{Threads, join};

/// Another broker serves the topic: a connection to it is link 1. Its first frame is queued.
const IS_SENT_ON: &str = "call lookup t
drain 0 1
bytes 0 000000200000001c0818c201170a0f70756c7361723a2f2f623a37303030180020002801
opened 1";

/// A length that is too short for a frame, which ends the link.
const IS_NO_FRAME: &[u8] = b"\x00\x00\x00\x03\x01\x02\x03";

/// How a pump ended, and the faults of its half.
#[derive(Drop)]
struct Ran<L: Opening> {
    pass: Pass<L>,
    end: PumpEnd,
    faults: u64,
}

/// A pump in, whose input waits for this gate.
fn listen<L: Opening, C: Machine, R: Wait>(
    rt: &R,
    alloc: Global,
    shared: &Shared<L, C>,
    pass: Pass<L>,
    link: u64,
    gate: &AtomicU64,
) -> Result<Ran<L>, NoMemory> {
    let mut caller = Caller { rt, shared, pass };
    let mut input = GateInput::new(gate, IS_NO_FRAME);
    let mut made = Vec::new(alloc);
    let end = pump_in(&mut caller, link, &mut input, &mut made)?;
    Ok(Ran {
        pass: caller.pass,
        end,
        faults: input.faults(),
    })
}

/// A pump out, whose output opens this gate.
fn speak<L: Opening, C: Machine, R: Wait>(
    rt: &R,
    alloc: Global,
    shared: &Shared<L, C>,
    pass: Pass<L>,
    link: u64,
    gate: &AtomicU64,
) -> Result<Ran<L>, NoMemory> {
    let mut caller = Caller { rt, shared, pass };
    let mut output = GateOutput::new(alloc, gate);
    let mut made = Vec::new(alloc);
    let end = pump_out(&mut caller, link, &mut output, &mut made)?;
    Ok(Ran {
        pass: caller.pass,
        end,
        faults: 0,
    })
}

/// Both pumps of a link, each on a thread.
#[derive(Drop)]
struct Link<'a, L: Opening> {
    number: u64,
    /// What its input waits for.
    awaits: &'a AtomicU64,
    /// What its output opens.
    opens: &'a AtomicU64,
    listener: Pass<L>,
    speaker: Pass<L>,
}

type Pumped<L> = (Result<Ran<L>, NoMemory>, Result<Ran<L>, NoMemory>);

fn pump<L: Opening + Send + Sync, C: Machine + Send, R: Threads + Wait + Sync>(
    rt: &R,
    alloc: Global,
    shared: &Shared<L, C>,
    link: Link<L>,
) -> Pumped<L> {
    let Link {
        number,
        awaits,
        opens,
        listener,
        speaker,
    } = link;
    join(
        rt,
        || listen(rt, alloc, shared, listener, number, awaits),
        || speak(rt, alloc, shared, speaker, number, opens),
    )
}

/// Both links are pumped at once. The inputs wait until the output of link 1 was put to.
fn pump_both<L: Opening + Send + Sync, C: Machine + Send, R: Threads + Wait + Sync>(
    rt: &R,
    alloc: Global,
    shared: &Shared<L, C>,
    mine: &mut Pass<L>,
) -> Result<(Pumped<L>, Pumped<L>), NoMemory>
    requires { 5 ≤ mine.old.parts }
{
    let (first, second) = (AtomicU64::new(0), AtomicU64::new(0));
    let a = Link {
        number: 0,
        awaits: &second,
        opens: &first,
        listener: shared.split(mine)?,
        speaker: shared.split(mine)?,
    };
    let b = Link {
        number: 1,
        awaits: &second,
        opens: &second,
        listener: shared.split(mine)?,
        speaker: shared.split(mine)?,
    };
    Ok(join(
        rt,
        || pump(rt, alloc, shared, a),
        || pump(rt, alloc, shared, b),
    ))
}

/// What is kept of four pumps.
#[derive(Drop)]
struct Served {
    ends: Vec<PumpEnd>,
    /// The faults of the inputs.
    faults: u64,
    trace: usize,
}

fn take<L: Opening>(
    served: &mut Served,
    passes: &mut Vec<Pass<L>>,
    ran: Result<Ran<L>, NoMemory>,
) -> Result<(), NoMemory> {
    let Ran { pass, end, faults } = ran?;
    served.ends.push(end)?;
    served.faults = served.faults.saturating_add(faults);
    passes.push(pass)?;
    Ok(())
}

/// The pumps of two links run at once, until both links have ended.
fn serve<L: Opening + Send + Sync, C: Machine + Send, R: Threads + Wait + Sync>(
    rt: &R,
    alloc: Global,
    blank: Blank,
    traced: Traced<C>,
) -> Result<Served, NoMemory>
    requires name { blank.name ≡ L.name }
    requires parts { blank.parts ≡ L.parts }
    requires all { L.parts ≡ 4294967295 }
    requires opening { length traced.trace.items ≡ L.opening }
    requires given { C.given traced.client ≡ L.given }
{
    let (shared, mut mine) = Shared::<L, C>::new(blank, traced)?;
    let (a, b) = pump_both(rt, alloc, &shared, &mut mine)?;
    let mut served = Served {
        ends: Vec::new(alloc),
        faults: 0,
        trace: 0,
    };
    let mut passes = Vec::new(alloc);
    passes.push(mine)?;
    take(&mut served, &mut passes, a.0)?;
    take(&mut served, &mut passes, a.1)?;
    take(&mut served, &mut passes, b.0)?;
    take(&mut served, &mut passes, b.1)?;
    served.trace = shared.finish(passes)?.trace().len();
    Ok(served)
}

/// The same, for a client whose link 0 is ready, and whose link 1 has a frame to write.
fn serve_two<C: Machine + Send, R: Threads + Wait + Sync>(
    rt: &R,
    alloc: Global,
    options: C::Options,
) -> Result<Served, NoMemory> {
    let mut traced = Traced::<C>::new(alloc, options)?;
    happen(&mut traced, alloc, IS_READY)?;
    happen(&mut traced, alloc, IS_SENT_ON)?;
    serve::<Brand, C, R>(rt, alloc, Blank::new(PARTS), traced)
}

#[test]
fn both_links_are_served_at_once(rt: HostRuntime) -> Result<(), Fail> {
    let alloc = rt.alloc();
    let served = serve_two::<Pulsar, HostRuntime>(&rt, alloc, options(alloc)?)?;
    assert_eq!(rt; served.faults, 0);
    let all = vec![in alloc; PumpEnd::LinkEnded; 4]?;
    assert_eq!(rt; served.ends, all);
    // eight events before, and a Bytes of each link
    assert!(rt; served.trace >= 10);
    Ok(())
}
