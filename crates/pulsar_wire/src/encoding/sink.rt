//! Where bytes are written, or only counted.

ghost use Rattle.std.specs.Prelude.{◌≡◌, ℕ, List, [], ◌∷◌, ◌++◌, length, OnOk, IsOk, ◌-◌, ◌^◌, ◌≤◌, min};
ghost use Rattle.pulsar_wire.specs.Row.{varint};
ghost use Rattle.pulsar_wire.specs.Sink.{capped, Appends};
ghost use Rattle.pulsar_wire.specs.Written.{vec_never_full, capped_alike};

use std::alloc::AllocError;

/// What takes bytes at its end.
pub trait Sink {
    /// These bytes were written.
    ghost Holds: { Self → List ℕ → Type 0 };

    /// Writing never fails.
    ghost IsSure: { Type 0 };

    fn push_byte(&mut self, byte: u8) -> Result<(), AllocError>
        ensures ok { OnOk result (Appends Holds self.old self.new (byte ∷ [])) }
        ensures sure { IsSure → IsOk result };

    fn push_bytes(&mut self, bytes: &[u8]) -> Result<(), AllocError>
        ensures ok { OnOk result (Appends Holds self.old self.new bytes.now) }
        ensures sure { IsSure → IsOk result };

    /// From this length on the bytes don't matter: no memory holds as many.
    ghost full: { (s : Self) (xs ys : List ℕ) → Holds s xs → 2 ^ 64 - 1 ≤ length xs → 2 ^ 64 - 1 ≤ length ys → Holds s ys };
}

impl Sink for Vec<u8> {
    ghost Holds = { λ v bytes. v.items ≡ bytes };

    ghost IsSure = { ⊥ };

    ghost full = { vec_never_full };

    fn push_byte(&mut self, byte: u8) -> Result<(), AllocError> {
        self.push(byte)?;
        Ok(())
    }

    fn push_bytes(&mut self, bytes: &[u8]) -> Result<(), AllocError> {
        self.extend_from_slice(bytes)
    }
}

/// How many bytes were written. It stops at the greatest u64.
#[derive(Clone, Copy)]
pub struct Count {
    pub bytes: u64,
}

impl Sink for Count {
    ghost Holds = { λ c bytes. c.bytes ≡ capped (length bytes) };

    ghost IsSure = { Unit {0} };

    ghost full = { λ c xs ys. capped_alike c.bytes xs ys };

    fn push_byte(&mut self, _byte: u8) -> Result<(), AllocError> {
        self.bytes = self.bytes.saturating_add(1);
        Ok(())
    }

    fn push_bytes(&mut self, bytes: &[u8]) -> Result<(), AllocError> {
        self.bytes = self.bytes.saturating_add(bytes.len() as u64);
        Ok(())
    }
}

/// Writes a number in as few bytes as there may be.
pub fn push_varint<S: Sink>(out: &mut S, n: u64) -> Result<(), AllocError>
    ensures ok { OnOk result (Appends S.Holds out.old out.new (varint n)) }
    ensures sure { S.IsSure → IsOk result }
{
    let mut rest = n;
    for _ in 0..9u32 {
        if rest < 128 {
            return out.push_byte(rest as u8);
        }
        out.push_byte((rest % 128 + 128) as u8)?;
        rest /= 128;
    }
    out.push_byte(rest as u8)
}
