//! What follows from the definitions, whatever the code.

ghost use Rattle.pulsar_messages.specs.Laws.{IsSameForEachNumber};
ghost use Rattle.pulsar_messages.specs.Murmur.{GivesKnownValues};

/// Texts whose hash is published have it.
pub fn gives_known_hashes()
    ensures { GivesKnownValues }
{}

/// A request that draws no number has the same command, whichever number stands ready.
pub fn needs_no_number()
    ensures { IsSameForEachNumber }
{}
