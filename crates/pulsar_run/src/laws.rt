//! What follows from the definition of a good run, whatever the rules are: each contract is a law, and its body is empty.
//! The types are those of the rules: options, events, what is seen, acts, notices, parts of events and effects.

ghost use Rattle.pulsar_run.specs.Laws.{ActsArise, CausesInOrder, Determined, EffectsArranged, KindsInOrder, OlderIsRun};
ghost use Rattle.pulsar_run.specs.Things.{ThingsAlone};

/// Options and events determine the effects of a good run.
pub fn determined<O, H, V, A, N, P, E>()
    ensures { Determined O H V A N P E }
{}

/// What was a run before its newest entries is a run.
pub fn older_is_run<O, H, V, A, N, P, E>()
    ensures { OlderIsRun O H V A N P E }
{}

/// The effects of each step stand in the order of their ranks, and they are just those of its acts, each once. Those of
/// equal rank stand as their acts do.
pub fn effects_arranged<O, H, V, A, N, P, E>()
    ensures { EffectsArranged O H V A N P E }
{}

/// Effects that stand in order as their acts do, stand so in their step.
pub fn kinds_in_order<E>()
    ensures { KindsInOrder E }
{}

/// A cause serves those whom it still has to serve in the order of their ranks, and so do the causes behind it.
pub fn causes_in_order<O, H, V, A, N, P, E>()
    ensures { CausesInOrder O H V A N P E }
{}

/// Whatever is done has arisen before, in the same step: from an event, as a part of it, or from an act.
pub fn acts_arise<O, H, V, A, N, P, E>()
    ensures { ActsArise O H V A N P E }
{}

/// A thing, as a link or a producer, is what was done to it since it was born, and nothing else: `Keeps` says what makes it one.
pub fn things_alone<O, H, V, A, N, P, F, K, S, E>()
    ensures { ThingsAlone O H V A N P F K S E }
{}
