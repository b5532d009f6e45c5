//! Those who wait for their turn at a topic producer, the next one first.

ghost use Rattle.std.specs.Prelude.{◌≡◌, ◌≤◌, [], insert, OnErr, OnOk, MatchOption};
ghost use Rattle.std.specs.VecDeque.{deque_len};
ghost use Rattle.pulsar_producer.specs.Turns.{beside, first_of, placed, queued, rest_of};

use pulsar_outgoing::multi_topic::Taker;
use pulsar_wire::error::NoMemory;
use std::alloc::Global;
use std::cmp::Ordering;
use std::collections::VecDeque;
use std::marker::Model;

/// Those who wait. No call among them has a greater ticket than `greatest`: so a call of a greater one goes to the end without a look at
/// the others.
pub struct Line {
    waiting: VecDeque<Taker>,
    greatest: u64,
}

impl Drop for Line {
    fn drop(self) {
        let Line {
            waiting: _,
            greatest: _,
        } = self;
    }
}

impl Model for Line {
    ghost use Rattle.std.specs.Prelude.{List};
    ghost use Rattle.pulsar_outgoing.specs.declared.multi_topic.Taker.{Taker};
    ghost use Rattle.pulsar_producer.specs.Turns.{AreAtMost};

    ghost Value = { List Taker };

    ghost view = { λ l. l.waiting.items };

    ghost invariant = { λ l. AreAtMost l.greatest l.waiting.items };
}

impl Line {
    /// Nobody waits.
    pub fn new(alloc: Global) -> Line
        ensures { result ≡ [] }
    {
        Line {
            waiting: VecDeque::new(alloc),
            greatest: 0,
        }
    }

    /// Those who wait.
    pub fn waiting(&self) -> &VecDeque<Taker>
        ensures { result.now.items ≡ self.now }
    {
        &self.waiting
    }

    /// One more waits: a call by its ticket, and a copy behind all others.
    pub fn join(&mut self, taker: Taker) -> Result<(), NoMemory>
        ensures { OnOk result (self.new ≡ queued taker self.old) }
    {
        match taker {
            Taker::Call(ticket) => self.place(ticket),
            Taker::Copy { .. } => {
                self.waiting.push_back(taker)?;
                Ok(())
            }
        }
    }

    /// The next one, who waits no longer.
    pub fn next(&mut self) -> Option<Taker>
        ensures next { result ≡ first_of self.old }
        ensures left { self.new ≡ rest_of self.old }
    {
        self.waiting.pop_front()
    }

    /// A call waits by its ticket.
    fn place(&mut self, ticket: u64) -> Result<(), NoMemory>
        ensures { OnOk result (self.new ≡ placed ticket self.old) }
    {
        if ticket <= self.greatest {
            return place(&mut self.waiting, ticket);
        }
        self.waiting.push_back(Taker::Call(ticket))?;
        self.greatest = ticket;
        Ok(())
    }
}

/// A call waits before the first one of a greater ticket.
fn place(waiting: &mut VecDeque<Taker>, ticket: u64) -> Result<(), NoMemory>
    ensures ok { OnOk result (waiting.new.items ≡ placed ticket waiting.old.items) }
    ensures err { OnErr result (waiting.new.items ≡ waiting.old.items) }
{
    match spot(waiting, ticket) {
        Some(index) => {
            waiting.insert(index, Taker::Call(ticket))?;
            Ok(())
        }
        None => Ok(()),
    }
}

/// Before which of these a call of this ticket goes. It is none where it waits already.
fn spot(waiting: &VecDeque<Taker>, ticket: u64) -> Option<usize>
    ensures { MatchOption result (placed ticket waiting.now.items ≡ waiting.now.items)
        (λ i. (i ≤ deque_len waiting.now) × (placed ticket waiting.now.items ≡ insert waiting.now.items i (Taker.Call ticket))) }
{
    for index in 0..waiting.len() {
        match beside(ticket, waiting[index]) {
            Ordering::Less => return Some(index),
            Ordering::Equal => return None,
            Ordering::Greater => {}
        }
    }
    Some(waiting.len())
}

/// A ticket beside that of one who waits. It is behind each copy.
fn beside(ticket: u64, taker: Taker) -> Ordering
    ensures { result ≡ beside ticket taker }
{
    match taker {
        Taker::Call(other) => ticket.cmp(&other),
        Taker::Copy { .. } => Ordering::Greater,
    }
}
