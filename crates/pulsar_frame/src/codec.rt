//! Frames at the ends of buffers.

ghost use Rattle.std.specs.Prelude.{OnOk};
ghost use Rattle.pulsar_frame.specs.Frame.{IsReadAgain};
ghost use Rattle.pulsar_frame.specs.Shown.{message_values, Appends, Takes};

use crate::frame::{read_content, split_frame};
use crate::message::Message;
use bytes::BytesMut;
use pulsar_wire::error::ConnectionError;
use std::alloc::Global;

/// Writes messages to a buffer and reads them from one, a frame for each.
#[derive(Clone, Copy, Debug)]
pub struct Codec;

impl Codec {
    /// Writes the frame of `item` behind what `dst` has. The answer is `Encoding(Frame)` exactly where a size does not
    /// fit a u32, and there is no other error but want of memory. In both `dst` stays as it was.
    pub fn encode(
        &mut self,
        alloc: Global,
        item: &Message,
        dst: &mut BytesMut,
    ) -> Result<(), ConnectionError>
        ensures frame { Appends result (message_values item.now) dst.old.items dst.new.items }
        ensures again { OnOk result (IsReadAgain (message_values item.now)) }
    {
        let frame = item.to_frame(alloc)?;
        dst.extend_from_slice(&frame)?;
        Ok(())
    }

    /// Takes the frame that stands in front of `src`, and no byte more. The answer is `None` exactly where no whole
    /// frame stands there, and `Decoding` with the first reason that holds exactly where a whole one is refused. In
    /// these, and where memory ran out, no byte is taken.
    #[tactic(auto, unfolding(crate::specs::Frame::front))]
    pub fn decode(
        &mut self,
        alloc: Global,
        src: &mut BytesMut,
    ) -> Result<Option<Message>, ConnectionError>
        ensures { Takes result src.old.items src.new.items }
    {
        let Some((content, len)) = split_frame(src.as_slice()) else {
            return Ok(None);
        };
        let message = read_content(alloc, content)?;
        src.advance(len);
        Ok(Some(message))
    }
}
