//! Runs of the program.

use pulsar_cli::{Limits, Status, TcpEdge, run};
use pulsar_client::CustomRoutingPolicy;
use pulsar_pumps::Edge;
use pulsar_streams::outside::sink::MemorySink;
use pulsar_streams::outside::source::MemorySource;
use pulsar_wire::NoMemory;
use std::alloc::{AllocError, Global};
use std::io;
use std::io::Print;
use std::net::{Ipv4Addr, Net, TcpListener, TcpStream};
use std::sync::Wait;
use std::thread::Threads;
use std::time::Clock;

/// What a case needs: sockets, threads, a clock, and somewhere to say how it went.
pub trait Runtime: Net<Listener = TcpListener, Stream = TcpStream>
    + Threads
    + Wait
    + Sync
    + Clock
    + Print {}

impl<
    R: Net<Listener = TcpListener, Stream = TcpStream> + Threads + Wait + Sync + Clock + Print,
> Runtime for R {}

/// Want of memory as an error of the outside.
pub fn remembered<T>(answer: Result<T, NoMemory>) -> io::Result<T> {
    match answer {
        Ok(value) => Ok(value),
        Err(NoMemory) => Err(io::Error::from(io::ErrorKind::OutOfMemory)),
    }
}

/// What a run has printed, and its status.
#[derive(Drop)]
pub struct Ran {
    pub status: Status,
    pub text: String,
}

impl Ran {
    /// It ended so, and printed this.
    pub fn is<R: Runtime>(&self, rt: &R, status: Status, text: &str) -> io::Result<bool> {
        if self.status == status && self.text.as_str() == text {
            return Ok(true);
        }
        println!(rt;
            "status {} instead of {status}; printed:\n{}",
            self.status, self.text
        )?;
        Ok(false)
    }
}

/// Runs the program with these words over these bytes.
pub fn run_over<R: Runtime, E: Edge>(
    rt: &R,
    alloc: Global,
    words: &str,
    bytes: &[u8],
    edge: &mut E,
) -> Result<Ran, AllocError> {
    let mut all = Vec::new(alloc);
    for word in words.split(' ') {
        all.push(String::from_str(alloc, word)?)?;
    }
    let mut source = MemorySource::new(bytes.to_vec(alloc)?);
    let mut sink = MemorySink::new(alloc);
    let policies: Vec<Box<dyn CustomRoutingPolicy>> = Vec::new(alloc);
    let status = run(rt, alloc, &all, &mut source, &mut sink, edge, policies);
    let mut text = String::new(alloc);
    match str::from_utf8(sink.bytes()) {
        Ok(printed) => text.push_str(printed)?,
        Err(_) => text.push_str("no text")?,
    }
    Ok(Ran { status, text })
}

/// Links over TCP, whose peer may be silent for so many milliseconds.
pub fn tcp<R: Runtime>(rt: &R, silence: u64) -> TcpEdge<'_, R> {
    let dial = 2_000;
    TcpEdge::new(rt, Limits { dial, silence })
}

/// Runs the program over TCP.
pub fn run_tcp<R: Runtime>(
    rt: &R,
    alloc: Global,
    words: &str,
    bytes: &[u8],
) -> Result<Ran, AllocError> {
    let mut edge = tcp(rt, 20_000);
    run_over(rt, alloc, words, bytes, &mut edge)
}

/// A listener on a free port of this machine, and its URL.
pub fn listen<R: Runtime>(rt: &R, alloc: Global) -> io::Result<(TcpListener, String)> {
    let listener = TcpListener::bind(rt, (Ipv4Addr::LOCALHOST, 0))?;
    let port = listener.local_addr()?.port();
    let url = format!(in alloc; "pulsar://127.0.0.1:{port}")?;
    Ok((listener, url))
}
