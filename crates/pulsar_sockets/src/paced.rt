//! A clock that runs fast.

ghost use Rattle.std.specs.Prelude.{◌≡◌, ◌≤◌};

use pulsar_edges::Moments;
use pulsar_pumps::Edge;
use pulsar_wire::error::IoKind;

/// Where links come from. Each pause lets a minute pass on its clock.
#[derive(Drop)]
pub struct Paced<E: Edge + Drop> {
    edge: E,
    ahead: u64,
    moments: Moments,
}

impl<E: Edge + Drop> Paced<E> {
    pub fn new(edge: E) -> Paced<E> {
        Paced {
            edge,
            ahead: 0,
            moments: Moments::new(),
        }
    }
}

impl<E: Edge + Drop> Edge for Paced<E> {
    type Input = E::Input;

    type Output = E::Output;

    ghost failures = { λ e k. E.failures e.edge k };

    ghost first = { λ e. e.moments.first };

    ghost greatest = { λ e. e.moments.greatest };

    fn dial(&mut self, host: &str, port: u16) -> Result<(E::Input, E::Output), IoKind> {
        self.edge.dial(host, port)
    }

    fn now(&mut self) -> u64 {
        let now = self.edge.now().saturating_add(self.ahead);
        self.moments.note(now);
        now
    }

    fn pause(&mut self, ms: u64) {
        self.ahead = self.ahead.saturating_add(60_000);
        self.edge.pause(ms);
    }
}
