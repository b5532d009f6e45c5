//! What follows of the batches of producers from the definition of a good run: each contract is a law, and its body is empty.

ghost use Rattle.pulsar_laws.specs.BatchLaws.{BatchSentOnce, BatchesByItsOptions, BatchesOneByOne, ClosedWithTheProducer, CutByItsOptions, CutByLimits, EachSentOnce, FlushesAtOnce, FlushesWait, FramesOfBatches, MembersAreTold, NumbersOfAllFramesRise, OneThingAtATime, QueuedIsWaitedFor, ReceiptsOfBatches, SizesAreSaid, StoredAtOnce, StoredEndsByItsBatch};

/// A topic producer takes its next batch once all of the one before were told, so that one is under way at a time.
pub fn batches_one_by_one()
    ensures { BatchesOneByOne }
{}

/// A topic producer waits for one thing at a time: as it asks for something it waits for nothing else.
pub fn one_thing_at_a_time()
    ensures { OneThingAtATime }
{}

/// Those of a batch are told what became of it, each with its place in the batch and the count of its messages.
pub fn members_are_told()
    ensures { MembersAreTold }
{}

/// A receipt that a topic producer is told is that of the frame that it asked for since it took its batch: none of an earlier batch settles it.
pub fn receipts_of_batches()
    ensures { ReceiptsOfBatches }
{}

/// A batch whose frame was queued is settled by what becomes of that, and by nothing that its topic producer is granted.
pub fn queued_is_waited_for()
    ensures { QueuedIsWaitedFor }
{}

/// The frame that a topic producer asks for is that of the batch that it took last.
pub fn frames_of_batches()
    ensures { FramesOfBatches }
{}

/// The numbers of the frames of a topic producer rise, those of batches too.
pub fn numbers_of_batches_rise()
    ensures { NumbersOfAllFramesRise }
{}

/// The frame of a batch is queued at most once, over all links.
pub fn batch_sent_once()
    ensures { BatchSentOnce }
{}

/// The send of a ticket is queued at most once, in a frame of its own or as a message of one batch.
pub fn each_sent_once()
    ensures { EachSentOnce }
{}

/// A topic producer makes batches by the options of the call that built it.
pub fn batches_by_its_options()
    ensures { BatchesByItsOptions }
{}

/// A batch is cut only where it reaches a limit of these options, by the sizes of its payloads, behind a flush, or by its time.
pub fn batches_are_cut()
    ensures sizes { SizesAreSaid }
    ensures limits { CutByLimits }
    ensures options { CutByItsOptions }
{}

/// What a producer stores is settled as it is closed.
pub fn closed_with_the_producer()
    ensures { ClosedWithTheProducer }
{}

/// A call on a producer that sends batches stores its own message, in the step in which it is made.
pub fn stored_at_once()
    ensures { StoredAtOnce }
{}

/// A flush is told that it is done with its batch, behind which nothing waits that was stored before it.
pub fn flushes_wait()
    ensures { FlushesWait }
{}

/// A flush is done at once only where all that was stored before it was taken, and no batch is under way.
pub fn flushes_at_once()
    ensures { FlushesAtOnce }
{}

/// A call that stores its message fails, or ends with the receipt that it is told of its batch.
pub fn stored_ends_by_its_batch()
    ensures { StoredEndsByItsBatch }
{}
