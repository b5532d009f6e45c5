//! What follows from the definitions of the lines of a script: each contract is a law, and its body is empty.

ghost use Rattle.pulsar_script.specs.Written.{ReadsBack, SetsReadBack};

/// The line of an event, as one writes it, reads back as that event.
pub fn reads_back()
    ensures { ReadsBack }
{}

/// The line of a setting, as one writes it, reads back as that setting.
pub fn sets_read_back()
    ensures { SetsReadBack }
{}
