//! Lines that are not in the grammar.

use crate::case::{Way, run_script};
use crate::compare::{Wanted, is_as_wanted};
use crate::tally::Tally;
use pulsar_cli::REFUSED;
use std::{fs, io};

/// Runs each line of a file as a script by itself: none is in the grammar.
pub fn run_lines(rt: &HostRuntime, folder: &str, file: &str) -> io::Result<Tally> {
    let path = format!(in rt.alloc(); "{folder}/{file}")?;
    let text = fs::read_to_string(rt, path.as_str())?;
    let mut tally = Tally::default();
    for line in text.split_terminator('\n') {
        let is_right = is_refused(rt, &path, line, "")?
            && is_refused(rt, &path, line, "\npoll 0\n")?;
        tally.add(Tally::one(is_right));
    }
    Ok(tally)
}

/// Whether the line is refused, with this behind it.
fn is_refused(rt: &HostRuntime, path: &str, line: &str, end: &str) -> io::Result<bool> {
    let script = format!(in rt.alloc(); "{line}{end}")?;
    let run = format!(in rt.alloc(); "{path}: {line}")?;
    let ran = run_script(rt.alloc(), script.as_bytes(), Way::in_pieces(usize::MAX))?;
    let wanted = Wanted {
        text: "refused line 1\n".as_bytes(),
        status: REFUSED,
    };
    is_as_wanted(rt, &run, &ran, wanted)
}
