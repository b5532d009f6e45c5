//! What is left to do in a step.

ghost use Rattle.std.specs.Prelude.{◌≡◌, ◌++◌, ◌∷◌, [], map, OnOk};
ghost use Rattle.pulsar_run.specs.Order.{arranged, put};
ghost use Rattle.pulsar_run.specs.Run.{only};
ghost use Rattle.pulsar_calls.specs.Order.{alone, below, opens};
ghost use Rattle.pulsar_agenda.specs.Agenda.{first, first_of, rest, rest_of};
ghost use Rattle.pulsar_agenda.specs.Agenda.{agenda_of};

use crate::queue::Queue;
use pulsar_calls::act::{Act, Notice, Part};
use pulsar_wire::error::NoMemory;
use std::alloc::Global;
use std::collections::VecDeque;

/// What arose at once, whom the present cause still serves, the causes that wait, and the parts that the event still brings.
pub struct Tasks {
    pub alloc: Global,
    pub now: VecDeque<Act>,
    pub here: Queue,
    pub behind: VecDeque<Queue>,
    pub parts: VecDeque<Part>,
}

impl Drop for Tasks {
    fn drop(self) {
        let Tasks {
            alloc: _,
            now: _,
            here: _,
            behind: _,
            parts: _,
        } = self;
    }
}

impl Tasks {
    pub fn new(alloc: Global, parts: VecDeque<Part>) -> Tasks
        ensures { agenda_of result ≡ only parts.items }
    {
        Tasks {
            alloc,
            now: VecDeque::new(alloc),
            here: Queue::new(alloc),
            behind: VecDeque::new(alloc),
            parts,
        }
    }

    /// Takes what is first.
    pub fn next(&mut self) -> Option<Act>
        ensures first { result ≡ first (agenda_of self.old) }
        ensures rest { agenda_of self.new ≡ rest (agenda_of self.old) }
    {
        if let Some(act) = self.now.pop_front() {
            return Some(act);
        }
        self.turn_to_next();
        match self.here.next() {
            Some(notice) => Some(Act::Told(notice)),
            None => match self.parts.pop_front() {
                Some(part) => Some(Act::Comes(part)),
                None => None,
            },
        }
    }

    /// The next cause that serves one is the present one.
    fn turn_to_next(&mut self)
        ensures now { self.new.now ≡ self.old.now }
        ensures parts { self.new.parts ≡ self.old.parts }
        ensures first { first_of [] self.new.here self.new.behind.items self.new.parts.items
            ≡ first_of [] self.old.here self.old.behind.items self.old.parts.items }
        ensures rest { rest_of [] self.new.here self.new.behind.items self.new.parts.items
            ≡ rest_of [] self.old.here self.old.behind.items self.old.parts.items }
        ensures none { self.new.here ≡ [] → self.new.behind.items ≡ [] }
    {
        while self.here.is_empty() {
            match self.behind.pop_front() {
                Some(cause) => self.here = cause,
                None => return,
            }
        }
    }

    /// This is done before all else.
    pub fn put(&mut self, act: Act) -> Result<(), NoMemory>
        ensures { OnOk result (agenda_of self.new ≡ record (agenda_of self.old) { now = act ∷ self.old.now.items }) }
    {
        self.now.push_front(act)?;
        Ok(())
    }

    /// These are done before all else, in their order.
    pub fn put_all(&mut self, mut acts: VecDeque<Act>) -> Result<(), NoMemory>
        ensures { OnOk result (agenda_of self.new ≡ record (agenda_of self.old) { now = acts.items ++ self.old.now.items }) }
    {
        while let Some(act) = acts.pop_back() {
            self.now.push_front(act)?;
        }
        Ok(())
    }

    /// This one joins those whom the present cause still serves, by rank: behind those that rank as high.
    pub fn join(&mut self, notice: Notice) -> Result<(), NoMemory>
        ensures { OnOk result (agenda_of self.new ≡ record (agenda_of self.old) { here = put below notice self.old.here }) }
    {
        self.here.join(notice)
    }

    /// This part comes before the others.
    pub fn bring(&mut self, part: Part) -> Result<(), NoMemory>
        ensures { OnOk result (agenda_of self.new ≡ record (agenda_of self.old) { parts = part ∷ self.old.parts.items }) }
    {
        self.parts.push_front(part)?;
        Ok(())
    }

    /// Each of these is a cause by itself.
    pub fn open_each(&mut self, notices: Vec<Notice>) -> Result<(), NoMemory>
        ensures { OnOk result (agenda_of self.new
            ≡ record (agenda_of self.old) { behind = (agenda_of self.old).behind ++ map (arranged below) (map alone notices.items) }) }
    {
        for notice in notices {
            self.behind.push_back(Queue::of_one(self.alloc, notice)?)?;
        }
        Ok(())
    }

    /// All whom an act serves are one cause, if there are any.
    pub fn open(&mut self, notices: Vec<Notice>) -> Result<(), NoMemory>
        ensures { OnOk result (agenda_of self.new
            ≡ record (agenda_of self.old) { behind = (agenda_of self.old).behind ++ map (arranged below) (opens notices.items) }) }
    {
        if notices.is_empty() {
            return Ok(());
        }
        self.behind.push_back(Queue::ranked(self.alloc, notices)?)?;
        Ok(())
    }
}
