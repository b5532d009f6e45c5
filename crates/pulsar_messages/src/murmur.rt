//! MurmurHash3 for x86 with 32 bits and the seed 0.

ghost use Rattle.std.specs.Prelude.{◌≡◌, ◌<◌, ◌/◌, ◌^◌, length, bit_xor};
ghost use Rattle.pulsar_messages.specs.Murmur.{block_of, finished, folded, mixed, murmur3, scrambled};

const FIRST_FACTOR: u32 = 0xcc9e_2d51;

const SECOND_FACTOR: u32 = 0x1b87_3593;

const ADDED_TO_EACH: u32 = 0xe654_6b64;

const FIRST_FINISH: u32 = 0x85eb_ca6b;

const SECOND_FINISH: u32 = 0xc2b2_ae35;

/// Lengths count up to here, and begin at zero again.
const WRAPS_AT: usize = 1 << 32;

/// The hash of these bytes.
#[tactic(auto, unfolding(crate::specs::Murmur::murmur3))]
pub(crate) fn murmur3(bytes: &[u8]) -> u32
    ensures { result ≡ murmur3 bytes.now }
{
    let mut hash = 0;
    let mut rest = bytes;
    while let Some((block, after)) = rest.split_first_chunk() {
        hash = mixed(hash, u32::from_le_bytes(*block));
        rest = after;
    }
    let len = bytes.len() % WRAPS_AT;
    finished(hash ^ scrambled(last_block(rest)) ^ len as u32)
}

/// The bytes behind the last whole block. Those that are missing count as zero.
fn last_block(tail: &[u8]) -> u32
    requires { length tail.now < 4 }
    ensures { result ≡ block_of tail.now }
{
    match *tail {
        [a, b, c, ..] => u32::from_le_bytes([a, b, c, 0]),
        [a, b] => u32::from_le_bytes([a, b, 0, 0]),
        [a] => u32::from_le_bytes([a, 0, 0, 0]),
        [] => 0,
    }
}

#[tactic(auto, unfolding(crate::specs::Murmur::scrambled))]
fn scrambled(block: u32) -> u32
    ensures { result ≡ scrambled block }
{
    block
        .wrapping_mul(FIRST_FACTOR)
        .rotate_left(15)
        .wrapping_mul(SECOND_FACTOR)
}

#[tactic(auto, unfolding(crate::specs::Murmur::mixed))]
fn mixed(hash: u32, block: u32) -> u32
    ensures { result ≡ mixed hash block }
{
    (hash ^ scrambled(block))
        .rotate_left(13)
        .wrapping_mul(5)
        .wrapping_add(ADDED_TO_EACH)
}

#[tactic(auto, unfolding(crate::specs::Murmur::finished))]
fn finished(hash: u32) -> u32
    ensures { result ≡ finished hash }
{
    let first = (hash ^ (hash >> 16)).wrapping_mul(FIRST_FINISH);
    let second = (first ^ (first >> 13)).wrapping_mul(SECOND_FINISH);
    second ^ (second >> 16)
}
