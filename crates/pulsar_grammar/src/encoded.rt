//! Words that are the hex of an encoded message: the id of a message, and a schema.

ghost use Rattle.std.specs.Prelude.{◌≡◌, IfOk};
ghost use Rattle.std.specs.Option.{option_map};
ghost use Rattle.pulsar_wire.specs.Views.{message_id_values, schema_values};
ghost use Rattle.pulsar_grammar.specs.Encoded.{id, id_bytes, schema_of};

use crate::word::{hex_bytes, is};
use pulsar_wire::encoding::message::decode;
use pulsar_wire::encoding::read_error::ReadError;
use pulsar_wire::{MessageIdData, NoMemory, Schema};
use std::alloc::Global;

/// An id: the hex of its bytes, and `%` for no bytes.
pub fn id(alloc: Global, word: &[u8]) -> Result<Option<MessageIdData>, NoMemory>
    ensures { IfOk result (λ i. option_map message_id_values i ≡ id word.now) }
{
    let Some(bytes) = id_bytes(alloc, word)? else {
        return Ok(None);
    };
    match decode(alloc, &bytes) {
        Ok(id) => Ok(Some(id)),
        Err(ReadError::Malformed) => Ok(None),
        Err(ReadError::NoMemory) => Err(NoMemory),
    }
}

fn id_bytes(alloc: Global, word: &[u8]) -> Result<Option<Vec<u8>>, NoMemory>
    ensures { IfOk result (λ b. option_map (λ v. v.items) b ≡ id_bytes word.now) }
{
    if is(word, "%") {
        return Ok(Some(Vec::new(alloc)));
    }
    hex_bytes(alloc, word)
}

/// A schema: the hex of its bytes.
pub fn schema_of(alloc: Global, word: &[u8]) -> Result<Option<Schema>, NoMemory>
    ensures { IfOk result (λ s. option_map schema_values s ≡ schema_of word.now) }
{
    let Some(bytes) = hex_bytes(alloc, word)? else {
        return Ok(None);
    };
    match decode(alloc, &bytes) {
        Ok(schema) => Ok(Some(schema)),
        Err(ReadError::Malformed) => Ok(None),
        Err(ReadError::NoMemory) => Err(NoMemory),
    }
}
