//! What a run has printed, beside what it should print.

use crate::case::{Case, Ran};
use pulsar_cli::Status;
use std::io;

/// What a run should print, and with which status it should end.
#[derive(Clone, Copy)]
pub struct Wanted<'a> {
    pub text: &'a [u8],
    pub status: Status,
}

impl<'a> Wanted<'a> {
    pub fn of(case: &'a Case) -> Wanted<'a> {
        Wanted {
            text: &case.text,
            status: case.status,
        }
    }
}

/// Whether the run is as wanted. Where it is not, lines are printed that say so.
pub fn is_as_wanted(rt: &HostRuntime, run: &str, ran: &Ran, wanted: Wanted) -> io::Result<bool> {
    if ran.status == wanted.status && ran.text() == wanted.text {
        return Ok(true);
    }
    let status = ran.status;
    let other = wanted.status;
    println!(rt; "{run}: status {status}, wanted {other}")?;
    show_difference(rt, ran.text(), wanted.text)?;
    Ok(false)
}

/// The first line in which two texts differ, if they do.
fn show_difference(rt: &HostRuntime, printed: &[u8], wanted: &[u8]) -> io::Result<()> {
    if printed == wanted {
        return Ok(());
    }
    let (Ok(printed), Ok(wanted)) = (str::from_utf8(printed), str::from_utf8(wanted)) else {
        return println!(rt; "  a text is not UTF-8");
    };
    let line = same_lines(printed, wanted);
    show_line(rt, "printed", printed, line)?;
    show_line(rt, "wanted", wanted, line)
}

/// How many lines at the front are the same.
fn same_lines(printed: &str, wanted: &str) -> usize {
    let mut same = 0usize;
    for (a, b) in printed.lines().zip(wanted.lines()) {
        if a != b {
            return same;
        }
        same = same.saturating_add(1);
    }
    same
}

/// The line behind so many.
fn show_line(rt: &HostRuntime, whose: &str, text: &str, line: usize) -> io::Result<()> {
    let number = line.saturating_add(1);
    match text.lines().nth(line) {
        Some(words) => println!(rt; "  line {number} {whose}: {words}"),
        None => println!(rt; "  line {number} {whose}: none"),
    }
}
