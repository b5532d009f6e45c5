//! Runs against a broker in memory.

use crate::lines::{consumed, lines, produced};
use crate::one_byte::OneByteEdge;
use crate::peers::{call, noise};
use crate::running::{Ran, Runtime, listen, remembered, run_over, run_tcp, tcp};
use pulsar_cli::DONE;
use pulsar_listener::{SharedBroker, accept};
use pulsar_pumps::Edge;
use std::alloc::{AllocError, Global};
use std::net::TcpListener;
use std::{io, thread};

/// How many lines are sent.
const LINES: u64 = 1_000;

/// What is sent is consumed, over connections as they are.
pub fn whole<R: Runtime>(rt: &R, alloc: Global) -> io::Result<bool> {
    let mut edge = tcp(rt, 20_000);
    sent_and_consumed(rt, alloc, &mut edge)
}

/// What is sent is consumed, where each write has one byte.
pub fn byte_by_byte<R: Runtime>(rt: &R, alloc: Global) -> io::Result<bool> {
    let mut edge = OneByteEdge {
        edge: tcp(rt, 20_000),
    };
    sent_and_consumed(rt, alloc, &mut edge)
}

/// A broker serves two connections: one of `produce`, and one of `consume`.
fn sent_and_consumed<R: Runtime, E: Edge + Send>(
    rt: &R,
    alloc: Global,
    edge: &mut E,
) -> io::Result<bool> {
    let (listener, url) = listen(rt, alloc)?;
    let broker = remembered(SharedBroker::new(alloc, &url))?;
    let text = lines(alloc, LINES)?;
    let (served, ran) = thread::join(
        rt,
        || accept(rt, alloc, &listener, &broker, 2),
        || both(rt, alloc, &url, &text, edge),
    );
    remembered(served)?;
    let (produced_by, consumed_by) = ran?;
    Ok(
        produced_by.is(rt, DONE, &produced(alloc, LINES)?)?
            && consumed_by.is(rt, DONE, &consumed(alloc, LINES)?)?,
    )
}

fn both<R: Runtime, E: Edge>(
    rt: &R,
    alloc: Global,
    url: &str,
    text: &str,
    edge: &mut E,
) -> Result<(Ran, Ran), AllocError> {
    let words = format!(in alloc; "produce {url} t")?;
    let producer = run_over(rt, alloc, &words, text.as_bytes(), edge)?;
    let words = format!(in alloc; "consume {url} t s {LINES}")?;
    let consumer = run_over(rt, alloc, &words, &[], edge)?;
    Ok((producer, consumer))
}

/// Bytes that are no frame, and a frame that is too long, end their own connections. A run beside them works.
pub fn strangers<R: Runtime>(rt: &R, alloc: Global) -> io::Result<bool> {
    let (listener, url) = listen(rt, alloc)?;
    let port = listener.local_addr()?.port();
    let broker = remembered(SharedBroker::new(alloc, &url))?;
    let words = format!(in alloc; "produce {url} t")?;
    let bytes = noise(alloc, 100_000)?;
    let (served, (are_ended, ran)) = thread::join(
        rt,
        || accept(rt, alloc, &listener, &broker, 4),
        || {
            let are_ended = call(rt, port, &bytes)
                && call(rt, port, b"GET / HTTP/1.1\r\n\r\n")
                && call(rt, port, &[0x00, 0x50, 0x28, 0x01]);
            (are_ended, run_tcp(rt, alloc, &words, b"a\nb\n"))
        },
    );
    remembered(served)?;
    Ok(ran?.is(rt, DONE, "sent 0:0\nsent 0:1\ndone 2\n")? && are_ended)
}
