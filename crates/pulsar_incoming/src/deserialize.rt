//! What the payload of a message is read as.

ghost use Rattle.std.specs.Prelude.{◌≡◌, MatchResult, IfOk, string_bytes};
ghost use Rattle.std.specs.Str.{IsUtf8};
ghost use Rattle.pulsar_frame.specs.Payload.{PayloadValues, payload_values};

use pulsar_frame::payload::Payload;
use pulsar_wire::error::NoMemory;
use std::string::FromUtf8Error;

/// What the payload of a message can be read as.
pub trait DeserializeMessage {
    type Output;

    ghost reads: { (payload : PayloadValues) → Self.Output → Type 0 };

    /// What the payload says.
    fn deserialize_message(payload: &Payload) -> Result<Self::Output, NoMemory>
        ensures { IfOk result (λ x. reads (payload_values payload.now) x) };
}

impl DeserializeMessage for Vec<u8> {
    type Output = Vec<u8>;

    ghost reads = { λ payload bytes. bytes.items ≡ payload.bytes };

    /// The bytes of the payload.
    fn deserialize_message(payload: &Payload) -> Result<Vec<u8>, NoMemory> {
        Ok(payload.bytes.clone()?)
    }
}

impl DeserializeMessage for String {
    type Output = Result<String, FromUtf8Error>;

    ghost reads = { λ payload text. MatchResult text (λ t. string_bytes t ≡ payload.bytes) (λ e. ¬ IsUtf8 payload.bytes) };

    /// The text of the payload. It fails exactly where its bytes are not UTF-8.
    fn deserialize_message(payload: &Payload) -> Result<Result<String, FromUtf8Error>, NoMemory> {
        let bytes = payload.bytes.clone()?;
        match String::from_utf8(bytes) {
            Ok(text) => Ok(Ok(text)),
            Err(e) => Ok(Err(e)),
        }
    }
}
