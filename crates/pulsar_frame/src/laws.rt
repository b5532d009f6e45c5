//! What follows from the definitions, whatever the code.

ghost use Rattle.pulsar_frame.specs.Laws.{CutsFrameByFrame, CutsTheMost, CutsPiecesAsOne, StaysBad, GivesTheMessagesFed, ReadsFramesWritten, BearsItsKey};

/// A stream is cut frame by frame from its front.
pub fn cuts_frame_by_frame()
    ensures { CutsFrameByFrame }
{}

/// The messages of a stream are all that stand in its front.
pub fn cuts_the_most()
    ensures { CutsTheMost }
{}

/// What comes in two pieces is cut as one.
pub fn cuts_pieces_as_one()
    ensures { CutsPiecesAsOne }
{}

/// Behind a frame that is refused nothing is read.
pub fn stays_bad()
    ensures { StaysBad }
{}

/// Whatever the pieces, a reader gives the messages of all that was fed.
pub fn gives_the_messages_fed()
    ensures { GivesTheMessagesFed }
{}

/// A frame that was written is read again, whatever follows.
pub fn reads_frames_written()
    ensures { ReadsFramesWritten }
{}

/// A message bears the key that it has. One that closes a consumer also bears that of the request of its number.
pub fn bears_its_key()
    ensures { BearsItsKey }
{}
