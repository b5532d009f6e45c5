//! Words, faults, and a long script.

use pulsar_cli::{DONE, NO_FORM, REFUSED, SINK_FAILED, SOURCE_FAILED, Status, run, script};
use pulsar_pumps::MemoryEdge;
use pulsar_streams::outside::sink::{FailingSink, MemorySink};
use pulsar_streams::outside::source::{FailingSource, MemorySource};
use std::alloc::{AllocError, Global};
use std::process::Abort;
use std::sync::Wait;
use std::test::Fail;
use std::thread::Threads;

/// The text of `call build` as the first event.
const IS_DIALING: &[u8] = b"event 0\nconnect 0 127.0.0.1 6650\n";

fn source(alloc: Global, lines: &[u8]) -> Result<MemorySource, AllocError> {
    Ok(MemorySource::new(lines.to_vec(alloc)?))
}

/// The program ends so with these words, over a script of one call.
fn ends<R: Threads + Wait + Sync + Abort>(
    rt: &R,
    alloc: Global,
    words: &[&str],
    status: Status,
    text: &[u8],
) -> Result<(), Fail> {
    let mut owned = Vec::new(alloc);
    for word in words {
        owned.push(String::from_str(alloc, word)?)?;
    }
    let mut source = source(alloc, b"call build\n")?;
    let mut sink = MemorySink::new(alloc);
    let mut edge = MemoryEdge::new(alloc, Vec::new(alloc), 0, 0);
    let policies = Vec::new(alloc);
    let ended = run(
        rt,
        alloc,
        &owned,
        &mut source,
        &mut sink,
        &mut edge,
        policies,
    );
    assert_eq!(rt; ended, status, "{words:?}");
    assert_eq!(rt; sink.bytes(), text, "{words:?}");
    Ok(())
}

#[test]
fn words_are_a_form_or_none(rt: HostRuntime) -> Result<(), Fail> {
    let alloc = rt.alloc();
    ends(&rt, alloc, &[], NO_FORM, b"")?;
    ends(&rt, alloc, &[""], NO_FORM, b"")?;
    ends(&rt, alloc, &["demo"], NO_FORM, b"")?;
    ends(&rt, alloc, &["Script"], NO_FORM, b"")?;
    ends(&rt, alloc, &["scripts"], NO_FORM, b"")?;
    ends(&rt, alloc, &["script", "x"], NO_FORM, b"")?;
    ends(&rt, alloc, &["script"], DONE, IS_DIALING)
}

/// A script whose source fails at this call ends so.
fn source_fails(
    rt: &impl Abort,
    alloc: Global,
    lines: &[u8],
    call: u64,
    status: Status,
    text: &[u8],
) -> Result<(), Fail> {
    let mut source = FailingSource::new(lines.to_vec(alloc)?, vec![in alloc; call]?);
    let mut sink = MemorySink::new(alloc);
    let ended = script(alloc, &mut source, &mut sink, Vec::new(alloc));
    assert_eq!(rt; ended, status, "at {call}");
    assert_eq!(rt; sink.bytes(), text, "at {call}");
    Ok(())
}

#[test]
fn lines_before_a_fault_of_the_source_are_run(rt: HostRuntime) -> Result<(), Fail> {
    let alloc = rt.alloc();
    let refused = b"event 0\nconnect 0 127.0.0.1 6650\nrefused line 2\n";
    source_fails(&rt, alloc, b"call build\nfrob", 0, SOURCE_FAILED, b"")?;
    source_fails(
        &rt,
        alloc,
        b"call build\nfrob",
        1,
        SOURCE_FAILED,
        IS_DIALING,
    )?;
    source_fails(&rt, alloc, b"call build\nfrob\n", 1, REFUSED, refused)
}

/// A script whose sink fails at this call, or takes so few bytes at a time, ends so.
fn sink_fails(
    rt: &impl Abort,
    alloc: Global,
    lines: &[u8],
    call: u64,
    most: usize,
    status: Status,
    text: &[u8],
) -> Result<(), Fail> {
    let mut source = source(alloc, lines)?;
    let mut sink = FailingSink::new(alloc, vec![in alloc; call]?, most);
    let ended = script(alloc, &mut source, &mut sink, Vec::new(alloc));
    assert_eq!(rt; ended, status, "{most} at {call}");
    assert_eq!(rt; sink.bytes(), text, "{most} at {call}");
    Ok(())
}

#[test]
fn a_sink_takes_nothing_or_fails(rt: HostRuntime) -> Result<(), Fail> {
    let alloc = rt.alloc();
    sink_fails(&rt, alloc, b"call build\n", 9, 0, SINK_FAILED, b"")?;
    sink_fails(
        &rt,
        alloc,
        b"call build\n",
        2,
        5,
        SINK_FAILED,
        b"event 0\nco",
    )?;
    // a refused line goes before the sink's fault
    sink_fails(&rt, alloc, b"frob\n", 9, 0, REFUSED, b"")?;
    sink_fails(&rt, alloc, b"frob\n", 1, 7, REFUSED, b"refused")
}

#[test]
fn a_script_is_longer_than_the_buffer(rt: HostRuntime) -> Result<(), Fail> {
    let alloc = rt.alloc();
    let mut lines = vec![in alloc; b'\n'; 70000]?;
    lines.extend_from_slice(b"frob")?;
    let mut source = MemorySource::new(lines);
    let mut sink = MemorySink::new(alloc);
    let ended = script(alloc, &mut source, &mut sink, Vec::new(alloc));
    assert_eq!(&rt; ended, REFUSED);
    assert_eq!(&rt; sink.bytes(), b"refused line 70001\n".as_slice());
    Ok(())
}
