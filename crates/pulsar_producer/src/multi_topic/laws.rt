//! What follows of every history of a producer of many topics, and of every send and close by it. Each is the contract of a function with
//! nothing to do.

ghost use Rattle.pulsar_producer.specs.MultiLaws.{CloseEndsBehindItsTurn, ClosePassesAtItsEnd, FailedBuildFailsItsSend, FirstComeFirstServed, MultiNobodyWaitsForFree, MultiOneAtATime, SendEndsBehindItsTurn, SendKeepsItsTurnWhileItBuilds, SendPassesAtItsEnd, ThereUntilRemoved, TopicsAscend};

/// One has the turn at a time, and they have it in the order in which they came.
pub fn first_come_first_served()
    ensures order { FirstComeFirstServed }
    ensures one { MultiOneAtATime }
    ensures free { MultiNobodyWaitsForFree }
{}

/// The topics stand in the order of texts, each once, and a topic is one of them from when its producer was built until that is removed.
pub fn topics_in_order()
    ensures order { TopicsAscend }
    ensures there { ThereUntilRemoved }
{}

/// A send keeps its turn while it builds the producer of its topic. Where that fails the send fails.
pub fn builds_in_its_turn()
    ensures keeps { SendKeepsItsTurnWhileItBuilds }
    ensures fails { FailedBuildFailsItsSend }
{}

/// A send, and a close, passes its turn once, and ends behind that.
pub fn ends_behind_its_turn()
    ensures send_passes { SendPassesAtItsEnd }
    ensures send_ends { SendEndsBehindItsTurn }
    ensures close_passes { ClosePassesAtItsEnd }
    ensures close_ends { CloseEndsBehindItsTurn }
{}
