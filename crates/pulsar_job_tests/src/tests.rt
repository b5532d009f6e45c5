use pulsar_cli::{BrokerEdge, DONE, FAILED, Host, NO_FORM, SOURCE_FAILED, Status, job, run};
use pulsar_client::CustomRoutingPolicy;
use pulsar_client::pulsar::Pulsar;
use pulsar_machine::FromUrl;
use pulsar_pumps::{Edge, FailingEdge, MemoryEdge};
use pulsar_streams::outside::sink::{MemorySink, Sink};
use pulsar_streams::outside::source::{FailingSource, MemorySource, Source};
use pulsar_wire::error::IoKind;
use std::alloc::{AllocError, Global};
use std::sync::Wait;
use std::test::*;
use std::thread::Threads;

const URL: &str = "pulsar://127.0.0.1:6650";

fn words(alloc: Global, line: &str) -> Result<Vec<String>, AllocError> {
    let mut words = Vec::new(alloc);
    for word in line.split(' ') {
        words.push(String::from_str(alloc, word)?)?;
    }
    Ok(words)
}

/// A run of these words over these lines, and what it prints.
fn printed<R: Threads + Wait + Sync, E: Edge>(
    rt: &R,
    alloc: Global,
    line: &str,
    text: &[u8],
    edge: &mut E,
) -> Result<(Status, String), AllocError> {
    let words = words(alloc, line)?;
    let mut source = MemorySource::new(text.to_vec(alloc)?);
    let mut sink = MemorySink::new(alloc);
    let policies: Vec<Box<dyn CustomRoutingPolicy>> = Vec::new(alloc);
    let status = run(rt, alloc, &words, &mut source, &mut sink, edge, policies);
    let mut out = String::new(alloc);
    if let Ok(text) = str::from_utf8(sink.bytes()) {
        out.push_str(text)?;
    }
    Ok((status, out))
}

#[test]
fn what_is_produced_is_consumed(rt: HostRuntime) -> Result<(), Fail> {
    let alloc = rt.alloc();
    let host = Host::new(alloc, URL, "127.0.0.1", 6650)?;
    let mut edge = BrokerEdge::new(&rt, alloc, &host);
    for (line, text, prints) in [
        (
            "produce pulsar://127.0.0.1:6650 t",
            "a\nb\n",
            "sent 0:0\nsent 0:1\ndone 2\n",
        ),
        (
            "consume pulsar://127.0.0.1:6650 t s 2",
            "",
            "a\nb\ndone 2\n",
        ),
        (
            "produce pulsar://127.0.0.1:6650 t",
            "\nlast",
            "sent 0:2\nsent 0:3\ndone 2\n",
        ),
        ("produce pulsar://127.0.0.1:6650 t", "", "done 0\n"),
        ("consume pulsar://127.0.0.1:6650 t s 0", "", "done 0\n"),
        (
            "consume pulsar://127.0.0.1:6650 t other 4",
            "",
            "a\nb\n%\nlast\ndone 4\n",
        ),
    ] {
        let (status, out) = printed(&rt, alloc, line, text.as_bytes(), &mut edge)?;
        assert_eq!(rt; out.as_str(), prints);
        assert_eq!(rt; status, DONE);
    }
    Ok(())
}

#[test]
fn another_host_is_no_broker(rt: HostRuntime) -> Result<(), Fail> {
    let alloc = rt.alloc();
    let host = Host::new(alloc, URL, "127.0.0.1", 6650)?;
    let mut edge = BrokerEdge::new(&rt, alloc, &host);
    let (status, out) = printed(
        &rt,
        alloc,
        "produce pulsar://127.0.0.1:6651 t",
        b"a\n",
        &mut edge,
    )?;
    assert_eq!(rt; out.as_str(), "failed connection.io other\n");
    assert_eq!(rt; status, FAILED);
    Ok(())
}

#[test]
fn a_port_where_nobody_listens(rt: HostRuntime) -> Result<(), Fail> {
    let alloc = rt.alloc();
    for line in [
        "produce pulsar://127.0.0.1:6650 t",
        "consume pulsar://127.0.0.1:6650 t s 1",
    ] {
        let edge = MemoryEdge::new(alloc, Vec::new(alloc), 0, 60_000);
        let mut edge = FailingEdge::new(edge, Vec::new(alloc), Some(IoKind::ConnectionRefused));
        let (status, out) = printed(&rt, alloc, line, b"a\nb\n", &mut edge)?;
        assert_eq!(rt; out.as_str(), "failed connection.io refused\n");
        assert_eq!(rt; status, FAILED);
    }
    Ok(())
}

/// Three lines, of which the third waits until another has its receipt.
fn long_lines(alloc: Global) -> Result<Vec<u8>, AllocError> {
    let mut text = Vec::new(alloc);
    for _ in 0..3 {
        let end = text.len().saturating_add(2_097_152);
        text.resize(end, b'a')?;
        text.push(b'\n')?;
    }
    Ok(text)
}

#[test]
fn a_line_waits_for_those_on_their_way(rt: HostRuntime) -> Result<(), Fail> {
    let alloc = rt.alloc();
    let host = Host::new(alloc, URL, "127.0.0.1", 6650)?;
    let mut edge = BrokerEdge::new(&rt, alloc, &host);
    let text = long_lines(alloc)?;
    let line = "produce pulsar://127.0.0.1:6650 t";
    let (status, out) = printed(&rt, alloc, line, &text, &mut edge)?;
    assert_eq!(rt; out.as_str(), "sent 0:0\nsent 0:1\nsent 0:2\ndone 3\n");
    assert_eq!(rt; status, DONE);
    Ok(())
}

/// The status of a run, how many links were opened, and how many faults the input of the first one has counted.
fn faults_of<C: FromUrl, R: Threads + Wait + Sync, S: Source, K: Sink>(
    rt: &R,
    alloc: Global,
    words: &[String],
    source: &mut S,
    sink: &mut K,
    edge: &mut MemoryEdge,
    policies: C::Policies,
) -> (Status, usize, u64) {
    let job = job::<C, R, S, K, MemoryEdge>(rt, alloc, words, source, sink, edge, policies);
    let faults = match job.halves.first() {
        Some(half) => half.1.faults(),
        None => 0,
    };
    let ran = (job.status, job.halves.len(), faults);
    drop(job);
    ran
}

#[test]
fn a_link_that_gives_nothing(rt: HostRuntime) -> Result<(), Fail> {
    let alloc = rt.alloc();
    let mut edge = MemoryEdge::new(alloc, Vec::new(alloc), 0, 10);
    let words = words(alloc, "consume pulsar://127.0.0.1:6650 t s 1")?;
    let mut source = MemorySource::new(Vec::new(alloc));
    let mut sink = MemorySink::new(alloc);
    let policies: Vec<Box<dyn CustomRoutingPolicy>> = Vec::new(alloc);
    let (status, links, faults) = faults_of::<Pulsar, _, _, _>(
        &rt,
        alloc,
        &words,
        &mut source,
        &mut sink,
        &mut edge,
        policies,
    );
    assert_eq!(rt;
        str::from_utf8(sink.bytes())?,
        "failed connection.io other\n"
    );
    assert_eq!(rt; status, FAILED);
    assert_eq!(rt; links, 1);
    assert!(rt; faults > 0);
    Ok(())
}

#[test]
fn a_source_that_fails(rt: HostRuntime) -> Result<(), Fail> {
    let alloc = rt.alloc();
    let mut edge = MemoryEdge::new(alloc, Vec::new(alloc), 0, 10);
    let words = words(alloc, "produce pulsar://127.0.0.1:6650 t")?;
    let mut fails = Vec::new(alloc);
    fails.push(1)?;
    let mut source = FailingSource::new(b"a\n".to_vec(alloc)?, fails);
    let mut sink = MemorySink::new(alloc);
    let policies: Vec<Box<dyn CustomRoutingPolicy>> = Vec::new(alloc);
    let status = run(
        &rt,
        alloc,
        &words,
        &mut source,
        &mut sink,
        &mut edge,
        policies,
    );
    assert_eq!(rt; status, SOURCE_FAILED);
    assert!(rt; sink.bytes().is_empty());
    Ok(())
}

#[test]
fn words_that_are_no_form(rt: HostRuntime) -> Result<(), Fail> {
    let alloc = rt.alloc();
    let mut edge = MemoryEdge::new(alloc, Vec::new(alloc), 0, 10);
    for line in [
        "produce u",
        "consume u t s",
        "consume u t s x",
        "consume u t s 18446744073709551616",
        "frob",
    ] {
        let (status, out) = printed(&rt, alloc, line, b"a\n", &mut edge)?;
        assert_eq!(rt; status, NO_FORM);
        assert!(rt; out.is_empty());
    }
    Ok(())
}
