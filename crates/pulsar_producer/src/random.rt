//! What is drawn for a producer. Each draws from a stream of its own.

ghost use Rattle.std.specs.Prelude.{◌≡◌, ◌<◌};
ghost use Rattle.pulsar_producer.specs.Random as meaning;

use rand_core::utils::NextWord;
use rand_pcg::Pcg32;

/// The index of the last used partition with which the producer of this ticket begins, where there are so many partitions. Where there
/// is none it is zero.
pub fn first_index(seed: u64, ticket: u64, count: u32) -> u32
    ensures { result ≡ meaning.first_index seed ticket count }
{
    let mut stream = Pcg32::new(seed, ticket.wrapping_mul(4).wrapping_add(3));
    let word: u32 = stream.next_word();
    word.checked_rem(count).unwrap_or(0)
}
