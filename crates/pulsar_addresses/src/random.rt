//! What is drawn for a connection. Each draws from a stream of its own.

ghost use Rattle.std.specs.Prelude.{◌≡◌};
ghost use Rattle.pulsar_addresses.specs.Backoff as meaning;

use rand_core::utils::NextWord;
use rand_pcg::Pcg32;
use uuid::Uuid;

/// The jitter of the retry behind a connection's attempt.
pub fn jitter(seed: u64, link: u64) -> u64
    ensures { result ≡ meaning.jitter seed link }
{
    let mut stream = Pcg32::new(seed, link.wrapping_mul(4));
    let word: u32 = stream.next_word();
    u64::from(word % 10)
}

/// The id of a connection.
pub fn connection_id(seed: u64, link: u64) -> Uuid
    ensures { result ≡ meaning.connection_id seed link }
{
    let mut stream = Pcg32::new(seed.wrapping_add(1), link.wrapping_mul(4));
    Uuid::new_v4(&mut stream)
}
