//! Links to a broker in memory, which threads may share.

ghost use Rattle.std.specs.Prelude.{◌≡◌, ◌≤◌, ◌<◌, IfOk, IfSome, None, length};
ghost use Rattle.pulsar_wire.specs.declared.error.IoKind.{IoKind};
ghost use Rattle.pulsar_edges.specs.Counts.{failures_of};

use crate::counts::{Failures, Moments};
use pulsar_broker::Broker;
use pulsar_pumps::{Edge, EndMark, Failed, Input, MemoryInput, Output};
use pulsar_wire::NoMemory;
use pulsar_wire::error::IoKind;
use std::alloc::Global;
use std::collections::BTreeSet;
use std::sync::{Mutex, Wait};

/// How often a half that waits looks whether the broker has something.
const LOOKS: u64 = 50_000_000;

/// A broker in memory, at a host and a port.
#[derive(Drop)]
pub struct Host {
    name: String,
    port: u16,
    desk: Mutex<Desk>,
}

/// What lies under the lock.
#[derive(Drop)]
struct Desk {
    broker: Broker,
    // the links that are open
    open: BTreeSet<u64>,
    // the number of the next link
    next: u64,
}

impl Host {
    /// A broker of this URL, which no link has reached yet.
    pub fn new(alloc: Global, url: &str, name: &str, port: u16) -> Result<Host, NoMemory> {
        let broker = Broker::new(alloc, url)?;
        let name = String::from_str(alloc, name)?;
        Ok(Host {
            name,
            port,
            desk: Mutex::new(Desk {
                broker,
                open: BTreeSet::new(alloc),
                next: 0,
            }),
        })
    }

    fn is_at(&self, host: &str, port: u16) -> bool {
        self.name.as_str() == host && self.port == port
    }

    fn open<R: Wait>(&self, rt: &R) -> Result<u64, NoMemory> {
        self.desk.lock(rt).open()
    }

    fn feed<R: Wait>(&self, rt: &R, link: u64, bytes: &[u8]) -> Result<(), Failed> {
        match self.desk.lock(rt).broker.feed(link, bytes) {
            Ok(()) => Ok(()),
            Err(NoMemory) => Err(Failed),
        }
    }

    fn end<R: Wait>(&self, rt: &R, link: u64) {
        self.desk.lock(rt).end(link);
    }

    /// The next bytes of a link, once there are some. There are none behind its end.
    fn next<R: Wait>(&self, rt: &R, link: u64) -> Result<Option<Vec<u8>>, Failed> {
        for _ in 0..LOOKS {
            let Some(bytes) = self.desk.lock(rt).take(link)? else {
                return Ok(None);
            };
            if !bytes.is_empty() {
                return Ok(Some(bytes));
            }
        }
        Err(Failed)
    }
}

impl Desk {
    fn open(&mut self) -> Result<u64, NoMemory> {
        let link = self.next;
        self.open.insert(link)?;
        self.next = link.checked_add(1).ok_or(NoMemory)?;
        Ok(link)
    }

    fn end(&mut self, link: u64) {
        if self.open.remove(&link) {
            self.broker.end(link);
        }
    }

    fn take(&mut self, link: u64) -> Result<Option<Vec<u8>>, Failed> {
        if !self.open.contains(&link) {
            return Ok(None);
        }
        match self.broker.take(link) {
            Ok(bytes) => Ok(Some(bytes)),
            Err(NoMemory) => Err(Failed),
        }
    }
}

/// Opens links to a broker in memory, and to nothing else. Its clock begins at 0, and goes on by each pause.
#[derive(Drop)]
pub struct BrokerEdge<'a, R: Wait> {
    rt: &'a R,
    alloc: Global,
    host: &'a Host,
    clock: u64,
    failures: Failures,
    moments: Moments,
}

/// The half of a link that gives what the broker says.
#[derive(Drop)]
pub struct BrokerInput<'a, R: Wait> {
    rt: &'a R,
    host: &'a Host,
    link: u64,
    piece: MemoryInput,
    faults: u64,
}

/// The half of a link that is fed to the broker.
pub struct BrokerOutput<'a, R: Wait> {
    rt: &'a R,
    host: &'a Host,
    link: u64,
    faults: u64,
    shut: bool,
}

impl<'a, R: Wait + Sync> BrokerEdge<'a, R> {
    /// No link is open yet.
    pub fn new(rt: &'a R, alloc: Global, host: &'a Host) -> BrokerEdge<'a, R>
        ensures failures { (k : IoKind) → ⟦<BrokerEdge<'a, R> as Edge>⟧.failures result k ≡ 0 }
        ensures first { ⟦<BrokerEdge<'a, R> as Edge>⟧.first result ≡ None }
        ensures greatest { ⟦<BrokerEdge<'a, R> as Edge>⟧.greatest result ≡ None }
    {
        BrokerEdge {
            rt,
            alloc,
            host,
            clock: 0,
            failures: Failures::new(),
            moments: Moments::new(),
        }
    }
}

impl<'a, R: Wait> BrokerEdge<'a, R> {
    fn open(
        &self,
        host: &str,
        port: u16,
    ) -> Result<(BrokerInput<'a, R>, BrokerOutput<'a, R>), IoKind>
        ensures input { IfOk result (λ halves. halves.0.faults ≡ 0) }
        ensures output { IfOk result (λ halves. halves.1.faults ≡ 0) }
    {
        if !self.host.is_at(host, port) {
            return Err(IoKind::Other);
        }
        let Ok(link) = self.host.open(self.rt) else {
            return Err(IoKind::Other);
        };
        let input = BrokerInput {
            rt: self.rt,
            host: self.host,
            link,
            piece: MemoryInput::new(Vec::new(self.alloc)),
            faults: 0,
        };
        let output = BrokerOutput {
            rt: self.rt,
            host: self.host,
            link,
            faults: 0,
            shut: false,
        };
        Ok((input, output))
    }
}

impl<'a, R: Wait + Sync> Edge for BrokerEdge<'a, R> {
    type Input = BrokerInput<'a, R>;

    type Output = BrokerOutput<'a, R>;

    ghost failures = { λ e k. failures_of e.failures k };

    ghost first = { λ e. e.moments.first };

    ghost greatest = { λ e. e.moments.greatest };

    fn dial(
        &mut self,
        host: &str,
        port: u16,
    ) -> Result<(BrokerInput<'a, R>, BrokerOutput<'a, R>), IoKind> {
        match self.open(host, port) {
            Ok(halves) => Ok(halves),
            Err(kind) => {
                self.failures.count(kind);
                Err(kind)
            }
        }
    }

    fn now(&mut self) -> u64 {
        let now = self.clock;
        self.moments.note(now);
        now
    }

    fn pause(&mut self, ms: u64) {
        self.clock = self.clock.saturating_add(ms);
    }
}

impl<'a, R: Wait> BrokerInput<'a, R> {
    /// Takes of the piece that is there, or else of the next one.
    fn take_some(&mut self, buf: &mut [u8]) -> Result<usize, Failed>
        ensures within { IfOk result (λ n. n ≤ length buf.old) }
        ensures faults { self.new.faults ≡ self.old.faults }
    {
        let n = self.piece.take(buf)?;
        if n > 0 || buf.is_empty() {
            return Ok(n);
        }
        let Some(bytes) = self.host.next(self.rt, self.link)? else {
            return Ok(0);
        };
        self.piece = MemoryInput::new(bytes);
        self.piece.take(buf)
    }
}

impl<'a, R: Wait> Input for BrokerInput<'a, R> {
    ghost faults = { λ s. s.faults };

    ghost given = { λ _. None };

    fn take(&mut self, buf: &mut [u8]) -> Result<usize, Failed> {
        let taken = self.take_some(buf);
        if !matches!(taken, Ok(n) if n > 0) {
            self.faults = self.faults.saturating_add(1);
        }
        taken
    }
}

impl<'a, R: Wait> Output for BrokerOutput<'a, R> {
    ghost faults = { λ s. s.faults };

    ghost taken = { λ _. None };

    ghost is_shut = { λ s. s.shut };

    fn put(&mut self, bytes: &[u8]) -> Result<usize, Failed> {
        match self.host.feed(self.rt, self.link, bytes) {
            Ok(()) => Ok(bytes.len()),
            Err(failed) => {
                self.faults = self.faults.saturating_add(1);
                Err(failed)
            }
        }
    }

    fn shut(&mut self, _mark: &EndMark) {
        self.shut = true;
        self.host.end(self.rt, self.link);
    }
}

impl<'a, R: Wait> Drop for BrokerOutput<'a, R> {
    fn drop(self) {
        let BrokerOutput {
            rt,
            host,
            link,
            faults: _,
            shut: _,
        } = self;
        host.end(rt, link);
    }
}
