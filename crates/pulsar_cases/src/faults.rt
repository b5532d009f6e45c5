//! Runs with faults.

use crate::case::{Case, Fails, Way, run_script};
use crate::compare::{Wanted, is_as_wanted};
use pulsar_cli::{SINK_FAILED, SOURCE_FAILED};
use std::io;

/// How many bytes come at a time, or are taken at a time.
const PIECE: usize = 64;

/// Whether a script ends as it should with a source that fails at each of its calls, and with a sink that fails at each of
/// its calls. It is a script that is run to its end and ends with a line feed, so that all is printed when its last piece
/// has come.
pub fn with_faults(rt: &HostRuntime, name: &str, case: &Case) -> io::Result<bool> {
    // one call for each piece, and one for the end
    let takes = case.script.len().div_ceil(PIECE).saturating_add(1);
    let puts = case.text.len().div_ceil(PIECE);
    for call in 0..takes as u64 {
        if !source_fails(rt, name, case, call)? {
            return Ok(false);
        }
    }
    for call in 0..puts as u64 {
        if !sink_fails(rt, name, case, call)? {
            return Ok(false);
        }
    }
    Ok(
        is_whole(rt, name, case, Fails::Source(takes as u64))?
            && is_whole(rt, name, case, Fails::Sink(puts as u64))?,
    )
}

fn source_way(fails: Fails) -> Way {
    Way {
        piece: PIECE,
        most: usize::MAX,
        fails,
    }
}

fn sink_way(fails: Fails) -> Way {
    Way {
        piece: usize::MAX,
        most: PIECE,
        fails,
    }
}

/// Whether a front of the text is printed where the source fails at this call.
fn source_fails(rt: &HostRuntime, name: &str, case: &Case, call: u64) -> io::Result<bool> {
    let run = format!(in rt.alloc(); "faults/{name}, source fails at call {call}")?;
    let ran = run_script(rt.alloc(), &case.script, source_way(Fails::Source(call)))?;
    let n = ran.text().len().min(case.text.len());
    let wanted = Wanted {
        text: &case.text[..n],
        status: SOURCE_FAILED,
    };
    is_as_wanted(rt, &run, &ran, wanted)
}

/// Whether just what was put before is printed where the sink fails at this call.
fn sink_fails(rt: &HostRuntime, name: &str, case: &Case, call: u64) -> io::Result<bool> {
    let run = format!(in rt.alloc(); "faults/{name}, sink fails at call {call}")?;
    let ran = run_script(rt.alloc(), &case.script, sink_way(Fails::Sink(call)))?;
    let n = (call as usize).saturating_mul(PIECE).min(case.text.len());
    let wanted = Wanted {
        text: &case.text[..n],
        status: SINK_FAILED,
    };
    is_as_wanted(rt, &run, &ran, wanted)
}

/// Whether the run is without a fault, where that would come behind its last call.
fn is_whole(rt: &HostRuntime, name: &str, case: &Case, fails: Fails) -> io::Result<bool> {
    let way = match fails {
        Fails::Sink(_) => sink_way(fails),
        Fails::Source(_) | Fails::Never => source_way(fails),
    };
    let run = format!(in rt.alloc(); "faults/{name}, no call fails")?;
    let ran = run_script(rt.alloc(), &case.script, way)?;
    is_as_wanted(rt, &run, &ran, Wanted::of(case))
}
