//! The lines of a source.

ghost use Rattle.std.specs.Prelude.{◌≡◌, ◌≤◌, ◌<◌, IfErr, IfOk, OnOk, length, map};
ghost use Rattle.pulsar_job.specs.Outside.{Gave, IsAtEnd, Stopped, limit, seen};
ghost use Rattle.pulsar_work.specs.Form.{lines_of};

use crate::status::Stop;
use pulsar_grammar::word::cut_line;
use pulsar_streams::outside::source::Source;
use pulsar_wire::NoMemory;
use std::alloc::Global;

/// The most bytes that a source may have.
const LIMIT: u64 = 268_435_456;

/// How many bytes are taken from the source at a time.
const PIECE: usize = 65_536;

/// All bytes of a source.
pub fn read_all<S: Source>(alloc: Global, source: &mut S) -> Result<Vec<u8>, Stop>
    ensures gave { IfOk result (λ v. Gave (S.left source.old) (S.left source.new) v.items) }
    ensures end { OnOk result (IsAtEnd (S.left source.old) (S.left source.new)) }
    ensures within { IfOk result (λ v. length v.items ≤ limit) }
    ensures stopped { IfErr result (λ stop. Stopped stop (seen S.left S.faults source.old source.new)) }
    ensures faults { S.faults source.old ≤ S.faults source.new }
{
    let mut piece = match buffer(alloc) {
        Ok(piece) => piece,
        Err(stop) => return Err(stop),
    };
    let mut bytes = Vec::new(alloc);
    let mut left = LIMIT;
    for _ in 0..u64::MAX {
        let Ok(n) = source.take(&mut piece) else {
            return Err(Stop::Source);
        };
        if n == 0 {
            return Ok(bytes);
        }
        let Some(rest) = left.checked_sub(n as u64) else {
            return Err(Stop::TooLong);
        };
        left = rest;
        let Ok(()) = bytes.extend_from_slice(&piece[..n]) else {
            return Err(Stop::NoMemory);
        };
    }
    Err(Stop::NoMemory)
}

/// A piece of the source, of which nothing is taken yet.
fn buffer(alloc: Global) -> Result<Vec<u8>, Stop>
    ensures size { IfOk result (λ v. 0 < length v.items) }
    ensures err { IfErr result (λ stop. stop ≡ Stop.NoMemory) }
{
    match vec![in alloc; 0u8; PIECE] {
        Ok(piece) => Ok(piece),
        Err(_) => Err(Stop::NoMemory),
    }
}

/// The lines of these bytes. The last one may lack its line feed.
pub fn lines(alloc: Global, bytes: &[u8]) -> Result<Vec<Vec<u8>>, NoMemory>
    ensures { IfOk result (λ ls. map (λ l. l.items) ls.items ≡ lines_of bytes.now) }
{
    let mut lines = Vec::new(alloc);
    let mut rest = bytes;
    while let Some((line, after)) = cut_line(rest) {
        lines.push(line.to_vec(alloc)?)?;
        rest = after;
    }
    if !rest.is_empty() {
        lines.push(rest.to_vec(alloc)?)?;
    }
    Ok(lines)
}
