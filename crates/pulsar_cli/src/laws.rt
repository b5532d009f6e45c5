//! What follows from the definition of the run of a script: each contract is a law, and its body is empty.

ghost use Rattle.pulsar_cli.specs.Script.{Completes, Decides};

/// A script whose run ends with status 0 is in the grammar, and one whose run ends with status 1 is not.
pub fn decides()
    ensures { Decides }
{}

/// A script in the grammar that is not too long is run to its end, unless memory runs out or there is a fault.
pub fn completes()
    ensures { Completes }
{}
