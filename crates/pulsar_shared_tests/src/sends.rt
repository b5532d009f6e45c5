//! A send, and its receipt that a pump submits.

ghost use Rattle.std.specs.Prelude.{◌≡◌, ◌≤◌, length};

use crate::gate::{GateInput, GateOutput};
use crate::help::{IS_READY, event, happen, options};
use pulsar_client::{Call, Effect, Event, Pulsar};
use pulsar_printing::effect::push_step;
use pulsar_shared::{
    Caller, Machine, MemoryOutput, Opening, PARTS, Pass, PumpEnd, Receipt, Shared, Traced, pump_in,
    pump_out,
};
use pulsar_wire::NoMemory;
use std::alloc::Global;
use std::marker::Brand;
use std::process::Abort;
use std::sync::Wait;
use std::sync::atomic::AtomicU64;
use std::sync::ledger::Blank;
use std::test::Fail;
use std::thread::{Threads, join};

/// Call 1 builds a producer.
const HAS_PRODUCER: &str = "call producer topic=t name=p
bytes 0 0000000f0000000b0816b20106080010001800
bytes 0 00000028000000240818c2011f0a1770756c7361723a2f2f3132372e302e302e313a36363530180120012801
bytes 0 0000000e0000000a08118a01050802120170
drain 0 100";

/// Call 2 sends a message.
const SENDS: &str = "call send 1 data=first";

/// The frame of its receipt.
const RECEIPT: &[u8] =
    b"\x00\x00\x00\x12\x00\x00\x00\x0e\x08\x07\x3a\x0a\x08\x00\x10\x00\x1a\x04\x08\x01\x10\x02";

/// The text of what call 2 ends with.
const HAS_RECEIPT: &str = "ended 2 ok receipt 080010001a0408011002\n";

/// A pump in, whose input gives the receipt behind the send.
fn listen<L: Opening, C: Machine, R: Wait>(
    rt: &R,
    alloc: Global,
    shared: &Shared<L, C>,
    pass: Pass<L>,
    gate: &AtomicU64,
) -> Result<(Pass<L>, PumpEnd), NoMemory> {
    let mut caller = Caller { rt, shared, pass };
    let mut input = GateInput::new(gate, RECEIPT);
    let mut made = Vec::new(alloc);
    let end = pump_in(&mut caller, 0, &mut input, &mut made)?;
    Ok((caller.pass, end))
}

/// A pump out, whose output opens the gate.
fn speak<L: Opening, C: Machine, R: Wait>(
    rt: &R,
    alloc: Global,
    shared: &Shared<L, C>,
    pass: Pass<L>,
    gate: &AtomicU64,
) -> Result<(Pass<L>, MemoryOutput), NoMemory> {
    let mut caller = Caller { rt, shared, pass };
    let mut output = GateOutput::new(alloc, gate);
    let mut made = Vec::new(alloc);
    pump_out(&mut caller, 0, &mut output, &mut made)?;
    Ok((caller.pass, output.into_inner()))
}

/// Both pumps run until the input ends. It answers what was written.
fn pump<L: Opening + Send + Sync, C: Machine + Send, R: Threads + Wait + Sync>(
    rt: &R,
    alloc: Global,
    shared: &Shared<L, C>,
    mine: &mut Pass<L>,
) -> Result<MemoryOutput, NoMemory>
    requires parts { 3 ≤ mine.old.parts }
    requires all { L.parts ≡ 4294967295 }
{
    let listener = shared.split(mine)?;
    let speaker = shared.split(mine)?;
    let gate = AtomicU64::new(0);
    let gate = &gate;
    let (heard, spoken) = join(
        rt,
        || listen(rt, alloc, shared, listener, gate),
        || speak(rt, alloc, shared, speaker, gate),
    );
    let (listener, end) = heard?;
    let (speaker, output) = spoken?;
    if end != PumpEnd::Lost {
        return Err(NoMemory);
    }
    shared.join(mine, listener)?;
    shared.join(mine, speaker)?;
    Ok(output)
}

/// A send, and all that is kept of it.
#[derive(Drop)]
struct Sent {
    receipt: Receipt,
    output: MemoryOutput,
    since: Vec<(Event, Vec<Effect>)>,
    trace: Vec<(Event, Vec<Effect>)>,
}

/// One pass submits the send, and the pumps do the rest.
fn send<L: Opening + Send + Sync, C: Machine + Send, R: Threads + Wait + Sync>(
    rt: &R,
    alloc: Global,
    blank: Blank,
    traced: Traced<C>,
) -> Result<Sent, NoMemory>
    requires name { blank.name ≡ L.name }
    requires parts { blank.parts ≡ L.parts }
    requires all { L.parts ≡ 4294967295 }
    requires opening { length traced.trace.items ≡ L.opening }
    requires given { C.given traced.client ≡ L.given }
{
    let (shared, mut mine) = Shared::<L, C>::new(blank, traced)?;
    let event = event(alloc, SENDS)?;
    let receipt = shared.submit(rt, &mut mine, Box::into_inner(event))?;
    let output = pump(rt, alloc, &shared, &mut mine)?;
    let since = shared.since(rt, &mut mine, 0)?;
    let mut passes = Vec::new(alloc);
    passes.push(mine)?;
    let trace = shared.finish(passes)?.into_trace();
    Ok(Sent {
        receipt,
        output,
        since,
        trace,
    })
}

/// The same, for a client that has a producer.
fn send_new<C: Machine + Send, R: Threads + Wait + Sync>(
    rt: &R,
    alloc: Global,
    options: C::Options,
) -> Result<Sent, NoMemory> {
    let mut traced = Traced::<C>::new(alloc, options)?;
    happen(&mut traced, alloc, IS_READY)?;
    happen(&mut traced, alloc, HAS_PRODUCER)?;
    send::<Brand, C, R>(rt, alloc, Blank::new(PARTS), traced)
}

/// What the entries say.
fn text(alloc: Global, entries: &[(Event, Vec<Effect>)]) -> Result<String, NoMemory> {
    let mut text = String::new(alloc);
    for (event, effects) in entries {
        write!(text, "{event:?}\n")?;
        push_step(&mut text, 0, effects)?;
    }
    Ok(text)
}

/// The entry is the send.
fn is_send(entry: &(Event, Vec<Effect>)) -> bool {
    matches!(&entry.0, Event::Call(Call::Send { producer: 1, .. }))
}

/// The bytes that were written are those of the queued frame.
fn is_written(effects: &[Effect], bytes: &[u8]) -> bool {
    match effects.first() {
        Some(Effect::Queued { bytes: frame, .. }) => frame.as_slice() == bytes,
        _ => false,
    }
}

#[test]
fn a_send_is_read_back(rt: HostRuntime) -> Result<(), Fail> {
    let alloc = rt.alloc();
    let sent = send_new::<Pulsar, HostRuntime>(&rt, alloc, options(alloc)?)?;
    let Some(entry) = sent.trace.get(sent.receipt.index as usize) else {
        return Err(Fail::from("no entry"));
    };
    assert!(rt; is_send(entry));
    assert_eq!(rt; entry.1, sent.receipt.effects);
    assert!(rt; is_written(&entry.1, sent.output.bytes()));
    let trace = text(alloc, &sent.trace)?;
    assert!(rt; trace.contains(HAS_RECEIPT), "{trace}");
    assert_eq!(rt; text(alloc, &sent.since)?, trace);
    Ok(())
}
