//! Frames as they stand in front of bytes.

ghost use Rattle.std.specs.Option.{option_map};
ghost use Rattle.pulsar_wire.specs.Command.{command_reading};
ghost use Rattle.pulsar_wire.specs.Views.{command_values};
ghost use Rattle.pulsar_wire.specs.declared.error.Reason.TheVariants as reason;
ghost use Rattle.pulsar_frame.specs.Frame.{content};
ghost use Rattle.pulsar_frame.specs.Refusal.{or_refused};
ghost use Rattle.pulsar_frame.specs.Shown.{message_values};
ghost use Rattle.pulsar_frame.specs.Read.{Holds, SplitsFrame};

use crate::message::Message;
use crate::payload::read_payload;
use crate::refused::refusal;
use crate::sized::split_sized;
use pulsar_wire::commands::base::{BaseCommand, decode_command};
use pulsar_wire::error::{ConnectionError, Reason};
use std::alloc::Global;

#[tactic(auto, using(crate::proofs::Refusals::holds_refused))]
fn read_command(alloc: Global, bytes: &[u8]) -> Result<BaseCommand, ConnectionError>
    ensures { Holds command_values result (or_refused reason.Command (command_reading bytes.now)) }
{
    match decode_command(alloc, bytes) {
        Ok(command) => Ok(command),
        Err(e) => Err(refusal(Reason::Command, e)),
    }
}

/// The message of a frame, from what stands behind the frame's total.
#[tactic(auto, unfolding(crate::specs::Frame::content))]
pub(crate) fn read_content(alloc: Global, bytes: &[u8]) -> Result<Message, ConnectionError>
    ensures { Holds message_values result (content bytes.now) }
{
    let Some((command, tail)) = split_sized(bytes) else {
        return Err(ConnectionError::Decoding(Reason::Frame));
    };
    let command = read_command(alloc, command)?;
    // nothing is moved for a payload that is not there
    if tail.is_empty() {
        return Ok(Message {
            command,
            payload: None,
        });
    }
    let payload = read_payload(alloc, tail)?;
    Ok(Message {
        command,
        payload: Some(payload),
    })
}

/// What stands behind the total of the frame in front, and how many bytes the frame has.
pub(crate) fn split_frame(bytes: &[u8]) -> Option<(&[u8], usize)>
    ensures { SplitsFrame (option_map (λ x. (x.0.now, x.1)) result) bytes.now }
{
    let (content, rest) = split_sized(bytes)?;
    Some((content, bytes.len() - rest.len()))
}
