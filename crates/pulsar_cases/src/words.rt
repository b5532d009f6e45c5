//! The words of the program, what it prints for them, and its status.

use crate::case::run_words;
use crate::compare::{Wanted, is_as_wanted};
use crate::tally::Tally;
use pulsar_cli::Status;
use std::sync::Wait;
use std::thread::Threads;
use std::{fs, io};

/// Runs the program with the words of each line of a file. Behind the words stand a colon, the status, and what is printed, if anything is.
pub fn run_words_of<T: Threads + Wait + Sync>(
    rt: &HostRuntime,
    threads: &T,
    folder: &str,
    file: &str,
) -> io::Result<Tally> {
    let path = format!(in rt.alloc(); "{folder}/{file}")?;
    let text = fs::read_to_string(rt, path.as_str())?;
    let mut tally = Tally::default();
    for line in text.split_terminator('\n') {
        tally.add(Tally::one(is_line_right(rt, threads, line)?));
    }
    Ok(tally)
}

fn is_line_right<T: Threads + Wait + Sync>(
    rt: &HostRuntime,
    threads: &T,
    line: &str,
) -> io::Result<bool> {
    let Some((words, wanted)) = line.split_once(": ") else {
        println!(rt; "{line}: no colon")?;
        return Ok(false);
    };
    let (status, printed) = match wanted.split_once(' ') {
        Some((status, printed)) => (status, format!(in rt.alloc(); "{printed}\n")?),
        None => (wanted, String::new(rt.alloc())),
    };
    let Ok(status) = status.parse::<Status>() else {
        println!(rt; "{line}: no status")?;
        return Ok(false);
    };
    let ran = run_words(threads, rt.alloc(), words)?;
    let wanted = Wanted {
        text: printed.as_bytes(),
        status,
    };
    is_as_wanted(rt, words, &ran, wanted)
}
