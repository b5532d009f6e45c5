//! What a caller is told of bytes that are refused.

ghost use Rattle.std.specs.Prelude.{◌≡◌};
ghost use Rattle.pulsar_frame.specs.Read.{refusal};

use pulsar_wire::encoding::read_error::ReadError;
use pulsar_wire::error::{ConnectionError, Reason};

/// The error of bytes that are refused for this reason, unless memory ran out.
pub(crate) fn refusal(reason: Reason, e: ReadError) -> ConnectionError
    ensures { result ≡ refusal reason e }
{
    match e {
        ReadError::Malformed => ConnectionError::Decoding(reason),
        ReadError::NoMemory => ConnectionError::NoMemory,
    }
}
