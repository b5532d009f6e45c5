//! What a program makes its client with.

ghost use Rattle.std.specs.Prelude.{◌≡◌, IfOk, List};
ghost use Rattle.pulsar_producer.specs.Routing.{Policy};
ghost use Rattle.pulsar_machine.specs.Machine.{options_for};

use crate::Machine;
use pulsar_wire::error::NoMemory;
use std::alloc::Global;

/// A client that is made for a service's address, and with routing policies.
pub trait FromUrl: Machine {
    /// The routing policies that are handed in.
    type Policies: Drop;

    /// The functions that they are.
    ghost routes: { Self.Policies → List Policy };

    /// The options for the service at this address, at this moment, with these policies and no credential. All else is the default.
    fn options_for(
        alloc: Global,
        url: &str,
        now: u64,
        policies: Self::Policies,
    ) -> Result<Self::Options, NoMemory>
        ensures { IfOk result (λ o. Self.means o ≡ options_for url.now now (routes policies)) };
}
