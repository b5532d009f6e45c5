//! How a run ended.

ghost use Rattle.std.specs.Prelude.{◌≡◌};
ghost use Rattle.pulsar_job.specs.Parts.{status_of};
ghost use Rattle.pulsar_job.specs.declared.status.Stop.TheVariants as stops;

use pulsar_machine::Machine;
use pulsar_pumps::Edge;
use pulsar_shared::Traced;
use pulsar_wire::NoMemory;

/// How a run ended: 0 done, 1 a line is not in the grammar, 2 the words are no form of the program, 3 want of memory, 4
/// the source failed, 5 the sink failed, 6 too many bytes, 7 a call ended with an error, or an item was an error.
pub type Status = u8;

pub const DONE: Status = 0;

pub const REFUSED: Status = 1;

pub const NO_FORM: Status = 2;

pub const NO_MEMORY: Status = 3;

pub const SOURCE_FAILED: Status = 4;

pub const SINK_FAILED: Status = 5;

pub const TOO_LONG: Status = 6;

pub const FAILED: Status = 7;

/// Why the reading of a source stopped.
#[derive(Clone, Copy, Debug, PartialEq, Eq)]
pub enum Stop {
    /// Want of memory.
    NoMemory,
    /// The source failed.
    Source,
    /// More bytes were taken than a source may have.
    TooLong,
}

/// The status of a run whose reading has stopped.
pub fn status_of(stop: Stop) -> Status
    ensures { result ≡ status_of stop }
{
    match stop {
        Stop::NoMemory => NO_MEMORY,
        Stop::Source => SOURCE_FAILED,
        Stop::TooLong => TOO_LONG,
    }
}

impl From<NoMemory> for Stop {
    ghost from_gives = { λ _ stop. stop ≡ stops.NoMemory };

    fn from(_error: NoMemory) -> Stop {
        Stop::NoMemory
    }
}

/// How a run went: its status, the record of the whole run at the statuses 0, 5 and 7, and the two halves of each link that was opened, as
/// they are after the run. At status 3 there are none.
#[derive(Drop)]
pub struct Job<C: Machine, E: Edge> {
    pub status: Status,
    pub trace: Option<Traced<C>>,
    pub halves: Vec<(u64, E::Input, E::Output)>,
}
