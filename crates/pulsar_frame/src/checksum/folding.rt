//! Long texts: each byte is folded onto later ones, until 209 are left, which the tables divide.

ghost use Rattle.std.specs.Prelude.{◌≡◌};
ghost use Rattle.pulsar_frame.specs.Checksum.{after};
ghost use Rattle.pulsar_frame.specs.Residue.{residue};

use crate::checksum::blocks::after_blocks;

/// How many bytes are folded at a time.
const BLOCK: usize = 1024;

/// A block, and the 209 bytes before it.
const WINDOW: usize = 1233;

/// Folds the next block, and keeps the last 209 bytes.
///
/// With `x` for a whole byte, the polynomial divides x^209 + x^144 + x^54 + x^39 + x^14 + 1. So a
/// byte may be added at all six places, which takes it away at the first.
fn fold(window: &mut [u8; WINDOW], block: &[u8; BLOCK])
    ensures { after (residue window.old) block.now ≡ residue window.new }
{
    for i in 0..BLOCK {
        window[i + 209] = block[i]
            ^ window[i + 144]
            ^ window[i + 54]
            ^ window[i + 39]
            ^ window[i + 14]
            ^ window[i];
    }
    window.copy_within(BLOCK.., 0);
}

/// The state that the window's first 209 bytes stand for.
#[tactic(auto, unfolding(crate::specs::Residue::residue))]
fn residue(window: &[u8; WINDOW]) -> u32
    ensures { result ≡ residue window.now }
{
    after_blocks(0, &window[..209])
        ^ after_blocks(0, &window[..144])
        ^ after_blocks(0, &window[..54])
        ^ after_blocks(0, &window[..39])
        ^ after_blocks(0, &window[..14])
}

/// Puts the state into the first bytes, so that it can start from zero.
fn put_state(state: u32, block: &mut [u8; BLOCK])
    ensures { after 0 block.new ≡ after state block.old }
{
    let [a, b, c, d] = state.to_le_bytes();
    block[0] ^= a;
    block[1] ^= b;
    block[2] ^= c;
    block[3] ^= d;
}

/// The state behind a first block and the rest.
fn after_folds(state: u32, first: &[u8; BLOCK], rest: &[u8]) -> u32
    ensures { result ≡ after (after state first.now) rest.now }
{
    let mut first = *first;
    put_state(state, &mut first);
    let mut window = [0; WINDOW];
    fold(&mut window, &first);
    let mut rest = rest;
    while let Some((block, behind)) = rest.split_first_chunk() {
        fold(&mut window, block);
        rest = behind;
    }
    after_blocks(residue(&window), rest)
}

/// The state behind the bytes, however many.
pub(super) fn after_all(state: u32, bytes: &[u8]) -> u32
    ensures { result ≡ after state bytes.now }
{
    let Some((first, rest)) = bytes.split_first_chunk() else {
        return after_blocks(state, bytes);
    };
    after_folds(state, first, rest)
}
