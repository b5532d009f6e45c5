//! The series of attempts at an address: which attempt is followed by another one, and when.

ghost use Rattle.std.specs.Prelude.{◌≡◌};
ghost use Rattle.std.specs.Option.{option_copied, option_map};
ghost use Rattle.pulsar_wire.specs.Failures.{fault};
ghost use Rattle.pulsar_session.specs.Series as meaning;

use pulsar_addresses::options::{ConnectionRetryOptions, backoff};
use pulsar_addresses::random::jitter;
use pulsar_wire::error::{ConnectionError, IoKind};

/// An attempt that failed so may go well another time.
pub fn is_retryable(error: Option<&ConnectionError>) -> bool
    ensures { result ≡ meaning.is_retryable (option_map fault (option_copied error.entry)) }
{
    match error {
        Some(error) => error.establish_retryable(),
        None => false,
    }
}

pub fn is_passing(kind: IoKind) -> bool
    ensures { result ≡ meaning.is_passing kind }
{
    match kind {
        IoKind::ConnectionRefused | IoKind::TimedOut => true,
        IoKind::Other => false,
    }
}

/// Another attempt is to follow one that failed behind so many retries.
pub fn is_followed(most: u32, retries: u32, passes: bool) -> bool
    ensures { result ≡ meaning.is_followed most retries passes }
{
    passes && retries < most
}

/// How long that waits, in milliseconds.
pub fn delay(options: &ConnectionRetryOptions, seed: u64, link: u64, retries: u32) -> u64
    ensures { result ≡ meaning.delay options.now seed link retries }
{
    backoff(options, retries, jitter(seed, link))
}
