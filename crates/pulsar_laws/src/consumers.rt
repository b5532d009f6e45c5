//! What follows of consumers from the definition of a good run: each contract is a law, and its body is empty.

ghost use Rattle.pulsar_laws.specs.ConsumerLaws.{AcksAreLicensed, AcksOnce, ConsumersAlone, ConsumersEnd, ConsumersRemain, EachPollIsAnswered, FlowsAreAsked, FlowsAreCounted, FlowsArePlaced, FlowsAreQueued, FlowsAreTaken, HalfIsHalf, KeysAreOwn, NoFlowIsDue, PermitsAreGranted, PermitsAreKept, PollsAreAnswered, PollsComeFirst, PollsFollow};

/// A consumer is what was done to it since it was made, and nothing else.
pub fn consumers_alone()
    ensures { ConsumersAlone }
{}

/// Each consumer that was built has a key of its own, at any time.
pub fn keys_are_own()
    ensures { KeysAreOwn }
{}

/// The polls of a consumer give the items of its arrivals, in order, each once and without gap; where none is left, they find the end where
/// it has ended, and else nothing.
pub fn polls_follow()
    ensures { PollsFollow }
{}

/// A consumer is polled where the user asks for it, and gives its first item, the end where it has ended, and else nothing.
pub fn polls_are_answered()
    ensures { PollsAreAnswered }
{}

/// Each poll of a consumer that is there, be it ended or not, is the first act of its step and is answered there, once; no other step
/// answers a poll.
pub fn each_poll_is_answered()
    ensures first { PollsComeFirst }
    ensures once { EachPollIsAnswered }
{}

/// A consumer ends where its topic does, where its close is asked for, where it cannot be subscribed again, or with the client; and it
/// stays so.
pub fn consumers_end()
    ensures ends { ConsumersEnd }
    ensures remain { ConsumersRemain }
{}

/// What remains of the permits of a live subscription is within its bounds, and each flow that its plan asks for was taken from it, and is
/// queued or stands in the line. At the end of a step none is due: what was granted is what was asked for.
pub fn permits_are_kept()
    ensures bounds { PermitsAreKept }
    ensures flows { FlowsAreTaken }
    ensures asked { FlowsAreAsked }
    ensures placed { FlowsArePlaced }
    ensures queued { FlowsAreQueued }
    ensures counted { FlowsAreCounted }
    ensures none_due { NoFlowIsDue }
    ensures granted { PermitsAreGranted }
    ensures half { HalfIsHalf }
{}

/// A frame that acknowledges is asked for by a call for just this, and at most once for each.
pub fn acks_are_licensed()
    ensures licensed { AcksAreLicensed }
    ensures once { AcksOnce }
{}
