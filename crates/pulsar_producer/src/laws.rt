//! What follows of every history of a topic producer and of every plan: each contract is a law, and its body is empty.

ghost use Rattle.pulsar_producer.specs.BatchLaws.{BatchIsReadAgain, BatchesInOrder, CutInTime, EachHasItsPlace, EachHasItsReport, EachIsTold, EntrySaysItsMessage, FlushIsLast, HaltTellsAll, IdSaysItsPlace, ItemsInOrder, NeverReady, ReceiptIsTheSame, StoredIsNotReady, TakesWhereSettled, ToldInOrder};
ghost use Rattle.pulsar_producer.specs.Laws.{EachFrameHasItsNumber, FirstComeFirstServed, FirstIsNext, LowestIsNext, NobodyWaitsForFree, NumbersCount, NumbersRise, OneAtATime, PartitionIsThere, QueuedIsNotAskedAgain, RefusedSpendsItsNumber, WaitsInLine};

/// The numbers of the messages of a topic producer rise, and none is drawn twice: each is the first and how many were drawn before.
pub fn numbers_rise()
    ensures rise { NumbersRise }
    ensures count { NumbersCount }
{}

/// A message that is refused has spent its number and changed nothing else.
pub fn refused_spends_its_number()
    ensures { RefusedSpendsItsNumber }
{}

/// One has the turn at a time, and then the first of those that wait: a call of the lowest ticket, or a copy in its place among the calls.
pub fn turns_in_order()
    ensures next { FirstIsNext }
    ensures lowest { LowestIsNext }
    ensures order { FirstComeFirstServed }
    ensures one { OneAtATime }
    ensures waits { WaitsInLine }
    ensures free { NobodyWaitsForFree }
{}

/// A send whose frame was queued is not asked for again.
pub fn queued_is_not_asked_again()
    ensures { QueuedIsNotAskedAgain }
{}

/// Each frame of a send bears a number that was drawn for it.
pub fn each_frame_has_its_number()
    ensures { EachFrameHasItsNumber }
{}

/// A message goes to a partition that is there.
pub fn partition_is_there()
    ensures { PartitionIsThere }
{}

/// What is stored between calls is not ready to be sent.
pub fn stored_is_not_ready()
    ensures some { StoredIsNotReady }
    ensures none { NeverReady }
{}

/// Batches are taken in the order in which they were cut, and what was stored stands in them in order.
pub fn batches_in_order()
    ensures batches { BatchesInOrder }
    ensures items { ItemsInOrder }
{}

/// A batch is cut behind the message that makes it ready, behind a flush, or by its time.
pub fn batches_are_cut_in_time()
    ensures cut { CutInTime }
    ensures flush { FlushIsLast }
{}

/// Those of a batch are told what became of it, each once, before the next batch is taken, and in the order in which they came.
pub fn each_is_told_in_order()
    ensures told { EachIsTold }
    ensures halt { HaltTellsAll }
    ensures next { TakesWhereSettled }
    ensures order { ToldInOrder }
{}

/// Each of a batch is told its own place in it, and the receipt of all as it is.
pub fn each_has_its_place()
    ensures reports { EachHasItsReport }
    ensures place { EachHasItsPlace }
    ensures id { IdSaysItsPlace }
    ensures others { ReceiptIsTheSame }
{}

/// The payload of a batch gives its messages again.
pub fn batches_are_read_again()
    ensures entry { EntrySaysItsMessage }
    ensures batch { BatchIsReadAgain }
{}
