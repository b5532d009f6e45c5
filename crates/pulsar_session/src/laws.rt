//! What follows of every history of a connection: each contract is a law, and its body is empty.

ghost use Rattle.pulsar_session.specs.Laws.{AnswerSpends, AskedInOrder, BadStays, CauseAtEnd, ClaimedOnce, CutInTwo, DueIsOverdue, EncodingSpends, EndedStays, FrameOfPlace, HistoryGoesOn, MovedUpWaits, NamedIsNotDue, NobodyIsTold, NoneStandsBesideRoom, PlacesCount, PongSettlesPings, QueuedWaits, RefusedExactly, SettledByFirst, SlowDownChangesNothing, SpentStaysSpent, TakenAreCut, TakenBeforeOrAfter, ToldOnce, UnclaimedSettlesNothing, WaitsUntilSettled, WrittenInOrder};

/// What is seen of a connection is that of its history, from the beginning and after each call.
pub fn history_goes_on()
    ensures { HistoryGoesOn }
{}

/// A request that waits is told once: by the first later frame that answers it, or by the end of its connection, whichever
/// comes first. Until then it waits as it was.
pub fn settled_by_first()
    ensures once { SettledByFirst }
    ensures until { WaitsUntilSettled }
{}

/// A place is told once at most, and one where nobody waits never.
pub fn told_once()
    ensures once { ToldOnce }
    ensures nobody { NobodyIsTold }
{}

/// A frame that is queued waits at the place that its caller was told, and is due a timeout later: also one that leaves the
/// line, from the moment at which it leaves it. A ready connection is due where one of its requests is.
pub fn deadlines_hold()
    ensures queued { QueuedWaits }
    ensures moved_up { MovedUpWaits }
    ensures due { DueIsOverdue }
{}

/// A create request that was named by a producer that is not ready is due at no moment.
pub fn named_is_not_due()
    ensures { NamedIsNotDue }
{}

/// The frames that are written are the first of those that were queued, in their order, each once.
pub fn written_in_order()
    ensures { WrittenInOrder }
{}

/// What was asked for is queued in order, also what stands in the line: nobody overtakes.
pub fn asked_in_order()
    ensures order { AskedInOrder }
    ensures places { PlacesCount }
    ensures frame { FrameOfPlace }
{}

/// Nobody stands in the line while there is room.
pub fn none_stands_beside_room()
    ensures { NoneStandsBesideRoom }
{}

/// A number has one claim at most, and one that was drawn and is claimed no longer settles nothing, for ever.
pub fn spent_stays_spent()
    ensures claimed { ClaimedOnce }
    ensures stays { SpentStaysSpent }
    ensures settles { UnclaimedSettlesNothing }
{}

/// A number is spent by its answer, and by a frame that could not be encoded.
pub fn numbers_are_spent()
    ensures answered { AnswerSpends }
    ensures encoding { EncodingSpends }
{}

/// A pong settles every ping that waits.
pub fn pong_settles_pings()
    ensures { PongSettlesPings }
{}

/// Cutting a piece in two is feeding both, and a frame that is there is the same whatever is fed behind it: so only the call
/// in which it is taken may differ.
pub fn cut_in_two()
    ensures cut { CutInTwo }
    ensures taken { TakenBeforeOrAfter }
{}

/// Behind what is bad nothing is read.
pub fn bad_stays()
    ensures { BadStays }
{}

/// The messages that were taken, and those of what is unread, are those of all that was fed.
pub fn taken_are_cut()
    ensures { TakenAreCut }
{}

/// A call that is told to slow down has changed nothing but the clock.
pub fn slow_down_changes_nothing()
    ensures { SlowDownChangesNothing }
{}

/// Each refusal comes exactly where its words hold.
pub fn refused_exactly()
    ensures { RefusedExactly }
{}

/// A connection that has ended stays so, with its cause, and there is a cause exactly then.
pub fn ended_stays()
    ensures stays { EndedStays }
    ensures cause { CauseAtEnd }
{}
