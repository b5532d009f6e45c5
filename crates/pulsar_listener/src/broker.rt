//! The broker that all connections share.

use pulsar_broker::Broker;
use pulsar_wire::NoMemory;
use std::alloc::Global;
use std::collections::BTreeSet;
use std::sync::{Condvar, Mutex, Wait};

/// A broker that the threads of all connections share. Each connection is a link of it.
#[derive(Drop)]
pub struct SharedBroker {
    desk: Mutex<Desk>,
    // something was fed, or a link has ended
    news: Condvar,
}

/// What lies under the lock.
#[derive(Drop)]
struct Desk {
    broker: Broker,
    // the links that are open
    links: BTreeSet<u64>,
    // the number of the next link
    next: u64,
}

impl SharedBroker {
    /// A broker of this URL. No link is open yet.
    pub fn new(alloc: Global, url: &str) -> Result<SharedBroker, NoMemory> {
        let broker = Broker::new(alloc, url)?;
        Ok(SharedBroker {
            desk: Mutex::new(Desk {
                broker,
                links: BTreeSet::new(alloc),
                next: 0,
            }),
            news: Condvar::new(),
        })
    }

    /// Opens a link, and answers its number.
    pub fn open<R: Wait>(&self, rt: &R) -> Result<u64, NoMemory> {
        let mut desk = self.desk.lock(rt);
        desk.open()
    }

    /// Feeds a piece of what came on a link.
    pub fn feed<R: Wait>(&self, rt: &R, link: u64, piece: &[u8]) -> Result<(), NoMemory> {
        let fed = self.desk.lock(rt).broker.feed(link, piece);
        self.news.notify_all();
        fed
    }

    /// A link has ended: its producers and its consumers leave.
    pub fn end<R: Wait>(&self, rt: &R, link: u64) {
        self.desk.lock(rt).end(link);
        self.news.notify_all();
    }

    /// Waits until something is to be written on a link, and takes it. None is there where the link has ended, or memory has run out.
    pub fn next<R: Wait>(&self, rt: &R, link: u64) -> Option<Vec<u8>> {
        let mut desk = self.desk.lock(rt);
        for _ in rt.forever() {
            let bytes = desk.take(link)?;
            if !bytes.is_empty() {
                return Some(bytes);
            }
            desk = self.news.wait(rt, desk);
        }
        unreachable!()
    }
}

impl Desk {
    fn open(&mut self) -> Result<u64, NoMemory> {
        let link = self.next;
        // a broker that has run out of memory refuses this too
        self.broker.feed(link, &[])?;
        self.links.insert(link)?;
        self.next = link.checked_add(1).ok_or(NoMemory)?;
        Ok(link)
    }

    fn end(&mut self, link: u64) {
        self.links.remove(&link);
        self.broker.end(link);
    }

    fn take(&mut self, link: u64) -> Option<Vec<u8>> {
        if !self.links.contains(&link) {
            return None;
        }
        self.broker.take(link).ok()
    }
}
