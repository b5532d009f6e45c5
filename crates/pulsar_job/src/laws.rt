//! What follows from the definition of a run: its contract is a law, and its body is empty.

ghost use Rattle.pulsar_job.specs.Went.{Completes};

use pulsar_machine::Machine;

/// Without faults, and within the limit, a run is done, or has failed by an error in its trace, unless memory runs out.
pub fn completes<C: Machine>()
    ensures { Completes C.good }
{}
