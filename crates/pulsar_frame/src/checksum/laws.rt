//! What follows from the definition, whatever the code.

ghost use Rattle.pulsar_frame.specs.Checksum.{GoesOn, GivesKnownValues, ShowsAChange};

/// The checksum of pieces is that of them joined.
pub fn goes_on()
    ensures { GoesOn }
{}

/// Texts whose checksum is published have it.
pub fn gives_known_values()
    ensures { GivesKnownValues }
{}

/// Where no more than four neighbouring bytes change, the checksum changes.
pub fn shows_a_change()
    ensures { ShowsAChange }
{}
