//! The sizes of the frames that come on a connection.

/// The most bytes that a frame may have behind its size, as a broker takes them where nothing else is set: a message of 5 MiB, and 10 KiB around it.
const MOST: u32 = 5 * 1024 * 1024 + 10 * 1024;

/// How far the frames of a connection have come.
#[derive(Drop)]
pub struct Sizes {
    // what has come of the size of the next frame: its bytes as a number, and how many they are
    size: u32,
    have: u8,
    // how many bytes of a frame are still to come
    left: u32,
}

impl Sizes {
    /// Nothing has come.
    pub fn new() -> Sizes {
        Sizes {
            size: 0,
            have: 0,
            left: 0,
        }
    }

    /// A piece has come. No frame that begins in it is too long.
    pub fn are_short(&mut self, piece: &[u8]) -> bool {
        for byte in piece {
            if self.left > 0 {
                self.left -= 1;
            } else if !self.begin(*byte) {
                return false;
            }
        }
        true
    }

    /// A byte of a size has come.
    fn begin(&mut self, byte: u8) -> bool {
        self.size = self.size.wrapping_mul(256) | u32::from(byte);
        self.have = self.have.wrapping_add(1);
        if self.have < 4 {
            return true;
        }
        self.left = self.size;
        self.have = 0;
        self.size <= MOST
    }
}
