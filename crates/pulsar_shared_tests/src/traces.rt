//! A client on one thread, with the record of its run.

use crate::help::{IS_READY, event, happen, options};
use pulsar_client::Pulsar;
use pulsar_shared::{
    Machine, MemoryInput, MemoryOutput, PumpEnd, Traced, pump_in, pump_out, round_in, round_out,
};
use pulsar_wire::NoMemory;
use std::alloc::Global;
use std::test::Fail;

/// What a trace says of itself.
#[derive(Drop)]
struct Reading {
    entries: usize,
    copies: usize,
    has_news: bool,
    has_failed: bool,
    is_ended: bool,
}

/// Reads a trace back.
fn read_back<C: Machine>(traced: &Traced<C>, from: u64) -> Result<Reading, NoMemory> {
    Ok(Reading {
        entries: traced.trace().len(),
        copies: traced.copies(from)?.len(),
        has_news: traced.has_news(from),
        has_failed: traced.has_failed(),
        is_ended: traced.link_ended(0)?,
    })
}

fn read_ready<C: Machine>(
    alloc: Global,
    options: C::Options,
    from: u64,
) -> Result<Reading, NoMemory> {
    let mut traced = Traced::<C>::new(alloc, options)?;
    happen(&mut traced, alloc, IS_READY)?;
    let event = event(alloc, "drain 0 1")?;
    drop(traced.apply(Box::into_inner(event))?);
    read_back(&traced, from)
}

#[test]
fn a_trace_is_read_back(rt: HostRuntime) -> Result<(), Fail> {
    let alloc = rt.alloc();
    let read = read_ready::<Pulsar>(alloc, options(alloc)?, 3)?;
    assert_eq!(rt; (read.entries, read.copies), (5, 2));
    assert!(rt; read.has_news);
    assert!(rt; !read.has_failed);
    assert!(rt; !read.is_ended);
    let read = read_ready::<Pulsar>(alloc, options(alloc)?, 4)?;
    assert_eq!(rt; (read.entries, read.copies), (5, 1));
    assert!(rt; !read.has_news);
    Ok(())
}

/// The bytes of a connected command.
const CONNECTED: &[u8] = b"\x00\x00\x00\x0a\x00\x00\x00\x06\x08\x03\x1a\x02\x0a\x00";

/// How two rounds and two pumps of link 0 end, and how many bytes were written.
#[derive(Drop)]
struct Ends {
    rounds: (Option<PumpEnd>, Option<PumpEnd>),
    idle: PumpEnd,
    lost: PumpEnd,
    bytes: usize,
    is_shut: bool,
}

/// One thread serves both halves of a link.
fn serve<C: Machine>(traced: &mut Traced<C>, alloc: Global) -> Result<Ends, NoMemory> {
    let mut output = MemoryOutput::new(alloc);
    let mut input = MemoryInput::new(CONNECTED.to_vec(alloc)?);
    let mut made = Vec::new(alloc);
    let out = round_out(traced, 0, &mut output, &mut made)?;
    let came = round_in(traced, 0, &mut input, &mut made)?;
    let idle = pump_out(traced, 0, &mut output, &mut made)?;
    let lost = pump_in(traced, 0, &mut input, &mut made)?;
    let end = pump_out(traced, 0, &mut output, &mut made)?;
    if end != PumpEnd::LinkEnded {
        return Err(NoMemory);
    }
    Ok(Ends {
        rounds: (out, came),
        idle,
        lost,
        bytes: output.bytes().len(),
        is_shut: output.is_shut(),
    })
}

fn serve_new<C: Machine>(alloc: Global, options: C::Options) -> Result<Ends, NoMemory> {
    let mut traced = Traced::<C>::new(alloc, options)?;
    happen(&mut traced, alloc, "call build\nopened 0")?;
    serve(&mut traced, alloc)
}

#[test]
fn one_thread_serves_both_halves(rt: HostRuntime) -> Result<(), Fail> {
    let alloc = rt.alloc();
    let ends = serve_new::<Pulsar>(alloc, options(alloc)?)?;
    assert_eq!(rt; ends.rounds, (None, None));
    assert_eq!(rt; ends.idle, PumpEnd::Idle);
    assert_eq!(rt; ends.lost, PumpEnd::Lost);
    assert_eq!(rt; ends.bytes, 32);
    assert!(rt; ends.is_shut);
    Ok(())
}
