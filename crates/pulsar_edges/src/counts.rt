//! What an edge counts: the dials that failed, and the moments that it has told.

ghost use Rattle.std.specs.Prelude.{◌≡◌, ◌≤◌, None, Some};
ghost use Rattle.pulsar_wire.specs.declared.error.IoKind.{IoKind};
ghost use Rattle.pulsar_pumps.specs.Outside.{Rose, first_of, later_of};
ghost use Rattle.pulsar_edges.specs.Counts.{failures_of};

use pulsar_wire::error::IoKind;

/// How many dials have failed with each kind.
#[derive(Clone, Copy, Debug, PartialEq, Eq)]
pub struct Failures {
    refused: u64,
    timed_out: u64,
    other: u64,
}

impl Failures {
    /// No dial has failed.
    pub fn new() -> Failures
        ensures { (k : IoKind) → failures_of result k ≡ 0 }
    {
        Failures {
            refused: 0,
            timed_out: 0,
            other: 0,
        }
    }

    /// One more has failed.
    pub fn count(&mut self, kind: IoKind)
        ensures grows { (k : IoKind) → failures_of self.old k ≤ failures_of self.new k }
        ensures rises { Rose (failures_of self.old kind) (failures_of self.new kind) }
    {
        match kind {
            IoKind::ConnectionRefused => self.refused = self.refused.saturating_add(1),
            IoKind::TimedOut => self.timed_out = self.timed_out.saturating_add(1),
            IoKind::Other => self.other = self.other.saturating_add(1),
        }
    }
}

/// The first and the greatest moment that was told, in milliseconds since 1970.
#[derive(Clone, Copy, Debug, PartialEq, Eq)]
pub struct Moments {
    pub first: Option<u64>,
    pub greatest: Option<u64>,
}

impl Moments {
    /// None was told.
    pub fn new() -> Moments
        ensures first { result.first ≡ None }
        ensures greatest { result.greatest ≡ None }
    {
        Moments {
            first: None,
            greatest: None,
        }
    }

    /// One more was told.
    pub fn note(&mut self, now: u64)
        ensures first { self.new.first ≡ Some (first_of self.old.first now) }
        ensures greatest { self.new.greatest ≡ Some (later_of self.old.greatest now) }
    {
        if self.first.is_none() {
            self.first = Some(now);
        }
        self.greatest = match self.greatest {
            Some(then) => Some(then.max(now)),
            None => Some(now),
        };
    }
}
