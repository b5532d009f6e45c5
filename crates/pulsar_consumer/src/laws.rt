//! What follows of every history of a consumer: each contract is a law, and its body is empty.

ghost use Rattle.pulsar_consumer.specs.Laws.{ChecksComeInTime, ChecksNameTheDue, CopiesFollowArrivals, EndIsFinal, FramesBeginInTurn, KeptAreDue, MomentsAreTold, OutcomesAreOwn, PermitsAreCounted, PermitsInBounds, PlainItems, PollsGiveArrivals, PollsGiveTheNext, QueueIsKept, RawAsksForNothing, ReceiptsLicenseAcks};

/// Polls give just the items of the arrivals, in order, without gap: each the next, and none only where none is left that stands before an entry
/// which is pending.
pub fn polls_give_arrivals()
    ensures all { PollsGiveArrivals }
    ensures next { PollsGiveTheNext }
    ensures plain { PlainItems }
{}

/// As many items are placed as the receiver queue holds, and frames are begun in turn.
pub fn queue_is_kept()
    ensures placed { QueueIsKept }
    ensures begun { FramesBeginInTurn }
{}

/// What remains of the permits is what was granted less what was begun; it is at most the batch size, and at least half of it where each
/// arrival is finished.
pub fn permits_in_bounds()
    ensures counted { PermitsAreCounted }
    ensures bounds { PermitsInBounds }
    ensures raw { RawAsksForNothing }
{}

/// Nothing arrives behind the end.
pub fn end_is_final()
    ensures { EndIsFinal }
{}

/// The entries of dead letters are copied in order, one at a time.
pub fn copies_follow_arrivals()
    ensures { CopiesFollowArrivals }
{}

/// The receipt of a copy licenses one acknowledgement, of its entry. What was told for another consumer counts for nothing.
pub fn receipts_license_acks()
    ensures one { ReceiptsLicenseAcks }
    ensures own { OutcomesAreOwn }
{}

/// A check names the messages that are due, and no others: those that were placed that long ago, and neither acknowledged nor named since. Checks come
/// 500 milliseconds behind the first subscription and behind each other.
pub fn checks_name_the_due()
    ensures kept { KeptAreDue }
    ensures named { ChecksNameTheDue }
    ensures moments { MomentsAreTold }
    ensures time { ChecksComeInTime }
{}
