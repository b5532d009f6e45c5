//! What follows of those who are told, from the definition of a good run: each contract is a law, and its body is empty.

ghost use Rattle.pulsar_laws.specs.ToldLaws.{AskersAreTold};

/// Whoever asked on a link, or waits for one, is told what came of that, in its step: the reply, that the link is ready, that a frame is queued, or the end.
pub fn askers_are_told()
    ensures { AskersAreTold }
{}
