//! Links over TCP. They count their faults and tell no content.

ghost use Rattle.std.specs.Prelude.{◌≡◌, ◌≤◌, None, IfOk, length};
ghost use Rattle.pulsar_wire.specs.declared.error.IoKind.{IoKind};
ghost use Rattle.pulsar_edges.specs.Counts.{failures_of};

use crate::counts::{Failures, Moments};
use pulsar_pumps::{Edge, EndMark, Failed, Input, Output};
use pulsar_wire::error::IoKind;
use std::io::{Read, Write};
use std::net::{Net, Shutdown, SocketAddr, TcpStream, ToSocketAddrs};
use std::time::{Clock, Duration};
use std::{io, thread};

/// How long a link waits, in milliseconds. A limit of 0 counts as 1.
#[derive(Clone, Copy, Debug, PartialEq, Eq)]
pub struct Limits {
    /// For a connection to open, at each address of a host.
    pub dial: u64,
    /// For the peer to say something, or to take what is written. A broker sends a ping every 30 seconds where nothing else is to be said.
    pub silence: u64,
}

impl Limits {
    /// Ten seconds for a dial, a minute for a silence.
    pub fn new() -> Limits
        ensures { (result.dial ≡ 10000) × (result.silence ≡ 60000) }
    {
        Limits {
            dial: 10_000,
            silence: 60_000,
        }
    }
}

/// Opens TCP connections, by the machine's clock.
#[derive(Drop)]
pub struct TcpEdge<'a, R: Net<Stream = TcpStream> + Clock> {
    rt: &'a R,
    limits: Limits,
    failures: Failures,
    moments: Moments,
}

/// The half of a connection that is read.
#[derive(Drop)]
pub struct TcpInput {
    stream: TcpStream,
    faults: u64,
}

/// The half of a connection that is written.
pub struct TcpOutput {
    stream: TcpStream,
    faults: u64,
    shut: bool,
}

impl<'a, R: Net<Stream = TcpStream> + Clock> TcpEdge<'a, R> {
    /// An edge whose links wait so long.
    pub fn new(rt: &'a R, limits: Limits) -> TcpEdge<'a, R>
        ensures failures { (k : IoKind) → ⟦<TcpEdge<'a, R> as Edge>⟧.failures result k ≡ 0 }
        ensures first { ⟦<TcpEdge<'a, R> as Edge>⟧.first result ≡ None }
        ensures greatest { ⟦<TcpEdge<'a, R> as Edge>⟧.greatest result ≡ None }
    {
        TcpEdge {
            rt,
            limits,
            failures: Failures::new(),
            moments: Moments::new(),
        }
    }

    /// A connection to the first address of a host that takes one. The error is that of the last address.
    fn connect(&self, host: &str, port: u16) -> Result<TcpStream, IoKind> {
        let Ok(addresses) = (bare(host), port).to_socket_addrs(self.rt) else {
            return Err(IoKind::Other);
        };
        let mut failed = IoKind::Other;
        for address in addresses {
            match self.connect_to(&address) {
                Ok(stream) => return Ok(stream),
                Err(kind) => failed = kind,
            }
        }
        Err(failed)
    }

    fn connect_to(&self, address: &SocketAddr) -> Result<TcpStream, IoKind> {
        let within = Duration::from_millis(self.limits.dial.max(1));
        match TcpStream::connect_timeout(self.rt, address, within) {
            Ok(stream) => Ok(stream),
            Err(error) => Err(kind_of(&error)),
        }
    }

    fn open(&self, host: &str, port: u16) -> Result<(TcpInput, TcpOutput), IoKind>
        ensures input { IfOk result (λ halves. halves.0.faults ≡ 0) }
        ensures output { IfOk result (λ halves. halves.1.faults ≡ 0) }
    {
        let stream = self.connect(host, port)?;
        match halves(stream, self.limits.silence) {
            Ok(halves) => Ok(halves),
            Err(error) => Err(kind_of(&error)),
        }
    }
}

/// The two halves of a connection.
fn halves(stream: TcpStream, silence: u64) -> io::Result<(TcpInput, TcpOutput)>
    ensures input { IfOk result (λ halves. halves.0.faults ≡ 0) }
    ensures output { IfOk result (λ halves. halves.1.faults ≡ 0) }
{
    let within = Duration::from_millis(silence.max(1));
    stream.set_nodelay(true)?;
    stream.set_read_timeout(Some(within))?;
    stream.set_write_timeout(Some(within))?;
    let input = TcpInput {
        stream: stream.try_clone()?,
        faults: 0,
    };
    let output = TcpOutput {
        stream,
        faults: 0,
        shut: false,
    };
    Ok((input, output))
}

/// A URL's host stands in brackets where it is an address of IPv6.
fn bare(host: &str) -> &str {
    match host.strip_prefix('[') {
        Some(rest) => rest.strip_suffix(']').unwrap_or(host),
        None => host,
    }
}

/// Why a dial failed.
fn kind_of(error: &io::Error) -> IoKind {
    match error.kind() {
        io::ErrorKind::ConnectionRefused => IoKind::ConnectionRefused,
        io::ErrorKind::TimedOut => IoKind::TimedOut,
        _ => IoKind::Other,
    }
}

impl<'a, R: Net<Stream = TcpStream> + Clock> Edge for TcpEdge<'a, R> {
    type Input = TcpInput;

    type Output = TcpOutput;

    ghost failures = { λ e k. failures_of e.failures k };

    ghost first = { λ e. e.moments.first };

    ghost greatest = { λ e. e.moments.greatest };

    fn dial(&mut self, host: &str, port: u16) -> Result<(TcpInput, TcpOutput), IoKind> {
        match self.open(host, port) {
            Ok(halves) => Ok(halves),
            Err(kind) => {
                self.failures.count(kind);
                Err(kind)
            }
        }
    }

    fn now(&mut self) -> u64 {
        let now = match self.rt.since_1970() {
            Ok(time) => u64::try_from(time.as_millis()).unwrap_or(u64::MAX),
            // a clock that cannot be read stands still
            Err(_) => self.moments.greatest.unwrap_or(0),
        };
        self.moments.note(now);
        now
    }

    fn pause(&mut self, ms: u64) {
        thread::sleep(self.rt, Duration::from_millis(ms));
    }
}

impl Input for TcpInput {
    ghost faults = { λ s. s.faults };

    ghost given = { λ _. None };

    fn take(&mut self, buf: &mut [u8]) -> Result<usize, Failed> {
        match read(&mut self.stream, buf) {
            Ok(n) => {
                if n == 0 {
                    self.faults = self.faults.saturating_add(1);
                }
                Ok(n)
            }
            Err(_) => {
                self.faults = self.faults.saturating_add(1);
                Err(Failed)
            }
        }
    }
}

impl Output for TcpOutput {
    ghost faults = { λ s. s.faults };

    ghost taken = { λ _. None };

    ghost is_shut = { λ s. s.shut };

    fn put(&mut self, bytes: &[u8]) -> Result<usize, Failed> {
        match write(&mut self.stream, bytes) {
            Ok(n) if n > 0 || bytes.is_empty() => Ok(n),
            _ => {
                self.faults = self.faults.saturating_add(1);
                Err(Failed)
            }
        }
    }

    fn shut(&mut self, _mark: &EndMark) {
        self.shut = true;
        // the peer may have ended it before
        let _ = self.stream.shutdown(Shutdown::Both);
    }
}

impl Drop for TcpOutput {
    fn drop(self) {
        let TcpOutput {
            stream,
            faults: _,
            shut: _,
        } = self;
        let _ = stream.shutdown(Shutdown::Both);
    }
}

/// Reads what there is. A signal that came meanwhile is no fault.
fn read(stream: &mut TcpStream, buf: &mut [u8]) -> io::Result<usize>
    ensures { IfOk result (λ n. n ≤ length buf.old) }
{
    for _ in 0..u64::MAX {
        match stream.read(buf) {
            Err(error) if error.kind() == io::ErrorKind::Interrupted => drop(error),
            done => return done,
        }
    }
    Err(io::Error::from(io::ErrorKind::Interrupted))
}

fn write(stream: &mut TcpStream, bytes: &[u8]) -> io::Result<usize>
    ensures { IfOk result (λ n. n ≤ length bytes.now) }
{
    for _ in 0..u64::MAX {
        match stream.write(bytes) {
            Err(error) if error.kind() == io::ErrorKind::Interrupted => drop(error),
            done => return done,
        }
    }
    Err(io::Error::from(io::ErrorKind::Interrupted))
}
