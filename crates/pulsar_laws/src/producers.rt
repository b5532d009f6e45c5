//! What follows of producers from the definition of a good run: each contract is a law, and its body is empty.

ghost use Rattle.pulsar_laws.specs.PartLaws.{PartsAreReported};
ghost use Rattle.pulsar_laws.specs.ProducerLaws.{AsMadeLast, FramesAreOfTheirSends, FramesAreReadAgain, NumbersAreFree, NumbersOfFramesRise, PartsAreGathered, PassedInTurn, QueuedAsAsked, QueuedInTurn, ReceiptsAreOwn, SentOnce, SlowDownLeavesAll, ToldInTurn, TopicsAlone, TurnsTellTheNewest};

/// A topic producer is what the acts on it made of it since it was built, and nothing else. Its link, its name and the version of its
/// schema are those with which it was made last.
pub fn topics_alone()
    ensures acts { TopicsAlone }
    ensures made { AsMadeLast }
{}

/// The number of a new topic producer is none that a raw call has named, and none that was drawn before.
pub fn numbers_are_free()
    ensures { NumbersAreFree }
{}

/// The turn of a topic producer is passed on by the one that has it, to the lowest ticket of those that wait, and one that is told
/// that it has its turn has it, until its frame is queued; it is told the newest version of the schema with it.
pub fn turns_by_ticket()
    ensures passed { PassedInTurn }
    ensures told { ToldInTurn }
    ensures queued { QueuedInTurn }
    ensures newest { TurnsTellTheNewest }
{}

/// The frame that a send asks for is its own message, by what its topic producer has then, in its turn. What is queued at its
/// place spells that, and is read again as the message.
pub fn frames_are_of_their_sends()
    ensures asked { FramesAreOfTheirSends }
    ensures queued { QueuedAsAsked }
    ensures read { FramesAreReadAgain }
{}

/// The send of a ticket is queued at most once, over all links.
pub fn sent_once()
    ensures { SentOnce }
{}

/// A receipt answers the send whose topic producer and number it bears, and no other one has asked for a frame that bears them.
pub fn receipts_are_own()
    ensures own { ReceiptsAreOwn }
    ensures rise { NumbersOfFramesRise }
{}

/// A send that finds no room and is not to wait leaves all as it was.
pub fn slow_down_leaves_all()
    ensures { SlowDownLeavesAll }
{}

/// A call with parts ends once each of them was queued, or failed before, with what became of each.
pub fn parts_are_gathered()
    ensures { PartsAreGathered }
{}

/// A call with parts answers what became of each: it went, or its send failed before, with this.
pub fn parts_are_reported()
    ensures { PartsAreReported }
{}
