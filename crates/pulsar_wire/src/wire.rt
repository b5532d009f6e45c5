//! What can be read from bytes and written.

ghost use Rattle.std.specs.Prelude.{◌≡◌, ◌++◌, ℕ, List, Option, length, OnOk};
ghost use Rattle.pulsar_wire.specs.Row.{Values, reading, spelling};
ghost use Rattle.pulsar_wire.specs.Command.{CommandValues, command_reading, command_spelling, settled};
ghost use Rattle.pulsar_wire.specs.Views.{command_values};
ghost use Rattle.pulsar_wire.specs.Sink.{capped};
ghost use Rattle.pulsar_wire.specs.Refused.{Decodes};

use crate::commands::base::{BaseCommand, command_len, decode_command, encode_command};
use crate::encoding::message::{Message, decode, encode, encoded_len};
use crate::error::{ConnectionError, NoMemory};
use std::alloc::Global;

/// What has a spelling in bytes: each message by its row, and a command.
pub trait Wire: Drop {
    /// What is read and written.
    ghost Seen: { Type 0 };

    ghost seen: { Self → Seen };

    /// What bytes spell, if anything.
    ghost meaning: { List ℕ → Option Seen };

    /// The one spelling that is written.
    ghost canonical: { Seen → List ℕ };

    /// The value that is read where this one was written.
    ghost reread: { Seen → Seen };

    /// How many bytes are written. It stops at the greatest u64.
    fn encoded_len(&self) -> u64
        ensures { result ≡ capped (length (canonical (seen self.now))) };

    /// Writes the value at the end. The bytes that it writes spell the value again.
    fn encode(&self, out: &mut Vec<u8>) -> Result<(), NoMemory>
        ensures ok { OnOk result (out.new.items ≡ out.old.items ++ canonical (seen self.now)) }
        ensures again { OnOk result (meaning (canonical (seen self.now)) ≡ Some (reread (seen self.now))) };

    /// The value that the bytes spell. It is Decoding exactly where they spell none, and NoMemory where memory runs out.
    fn decode(alloc: Global, bytes: &[u8]) -> Result<Self, ConnectionError>
        ensures { Decodes seen result (meaning bytes.now) };
}

impl<M: Message> Wire for M {
    ghost Seen = { Values M.shape };

    ghost seen = { M.values };

    ghost meaning = { reading M.shape };

    ghost canonical = { spelling M.shape };

    ghost reread = { λ vs. vs };

    fn encoded_len(&self) -> u64 {
        encoded_len(self)
    }

    fn encode(&self, out: &mut Vec<u8>) -> Result<(), NoMemory> {
        Ok(encode(self, out)?)
    }

    fn decode(alloc: Global, bytes: &[u8]) -> Result<M, ConnectionError> {
        Ok(decode(alloc, bytes)?)
    }
}

impl Wire for BaseCommand {
    ghost Seen = { CommandValues };

    ghost seen = { command_values };

    ghost meaning = { command_reading };

    ghost canonical = { command_spelling };

    ghost reread = { settled };

    fn encoded_len(&self) -> u64 {
        command_len(self)
    }

    fn encode(&self, out: &mut Vec<u8>) -> Result<(), NoMemory> {
        Ok(encode_command(self, out)?)
    }

    fn decode(alloc: Global, bytes: &[u8]) -> Result<BaseCommand, ConnectionError> {
        Ok(decode_command(alloc, bytes)?)
    }
}
