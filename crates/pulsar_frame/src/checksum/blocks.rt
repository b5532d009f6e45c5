//! Bytes by sixteen.

ghost use Rattle.std.specs.Prelude.{◌≡◌, ◌+◌, ◌*◌, ◌<◌, ◌≤◌, drop};
ghost use Rattle.std.specs.Int.{w32, from_le_bytes};
ghost use Rattle.pulsar_frame.specs.Checksum.{after_bits, after_byte, after};

use crate::checksum::tables::look;

/// A word, 32 * (k + 1) bits on, each of its bytes by itself.
#[inline(always)]
fn look_word(k: usize, word: u32) -> u32
    requires { k < 4 }
    ensures { result ≡ after_bits (32 * (k + 1)) word }
{
    let [a, b, c, d] = word.to_le_bytes();
    look(4 * k + 3, a) ^ look(4 * k + 2, b) ^ look(4 * k + 1, c) ^ look(4 * k, d)
}

/// The four bytes at `i`, as a word.
#[inline(always)]
fn word_at(block: &[u8; 16], i: usize) -> u32
    requires { i ≤ 12 }
    ensures { result ≡ from_le_bytes w32 (drop i block.now) }
{
    u32::from_le_bytes([block[i], block[i + 1], block[i + 2], block[i + 3]])
}

/// The state behind 16 bytes. Each word is looked up by itself, so none waits for the one before it.
#[inline(always)]
fn after_block(state: u32, block: &[u8; 16]) -> u32
    ensures { result ≡ after state block.now }
{
    look_word(3, state ^ word_at(block, 0))
        ^ look_word(2, word_at(block, 4))
        ^ look_word(1, word_at(block, 8))
        ^ look_word(0, word_at(block, 12))
}

fn after_byte(state: u32, b: u8) -> u32
    ensures { result ≡ after_byte state b }
{
    look(0, (state & 0xff) as u8 ^ b) ^ state >> 8
}

/// The state behind the bytes.
pub(super) fn after_blocks(state: u32, bytes: &[u8]) -> u32
    ensures { result ≡ after state bytes.now }
{
    let mut state = state;
    let mut rest = bytes;
    while let Some((block, behind)) = rest.split_first_chunk() {
        state = after_block(state, block);
        rest = behind;
    }
    for b in rest {
        state = after_byte(state, *b);
    }
    state
}
