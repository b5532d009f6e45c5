//! The cases of a folder.

use crate::case::{Case, Way, run_script};
use crate::compare::{Wanted, is_as_wanted};
use crate::faults::with_faults;
use crate::lines::run_lines;
use crate::steps::run_steps;
use crate::tally::Tally;
use crate::words::run_words_of;
use std::sync::Wait;
use std::thread::Threads;
use std::{fs, io};

/// The names in a folder, in order.
pub fn names(rt: &HostRuntime, folder: &str) -> io::Result<Vec<String>> {
    let mut names = Vec::new(rt.alloc());
    for entry in fs::read_dir(rt, folder)? {
        names.push(String::from_str(rt.alloc(), entry?.file_name())?)?;
    }
    names.sort()?;
    Ok(names)
}

/// Runs the cases of a folder.
pub fn run_folder<T: Threads + Wait + Sync>(
    rt: &HostRuntime,
    threads: &T,
    folder: &str,
) -> io::Result<Tally> {
    let names = names(rt, folder)?;
    let mut tally = Tally::default();
    for name in &names {
        tally.add(run_file(rt, threads, folder, name, &names)?);
    }
    Ok(tally)
}

/// Runs the cases of a file, which are none where it belongs to a script.
fn run_file<T: Threads + Wait + Sync>(
    rt: &HostRuntime,
    threads: &T,
    folder: &str,
    file: &str,
    names: &[String],
) -> io::Result<Tally> {
    match file.rsplit_once('.') {
        Some((name, "script")) => {
            let has_status = has(rt, names, name, "status")?;
            let case = Case::read(rt, folder, name, has_status)?;
            Ok(Tally::one(run_case(rt, folder, name, &case)?))
        }
        Some((_, "lines")) => run_lines(rt, folder, file),
        Some((_, "words")) => run_words_of(rt, threads, folder, file),
        Some((_, "steps")) => run_steps(rt, folder, file),
        Some((name, "stdout" | "status")) if has(rt, names, name, "script")? => {
            Ok(Tally::default())
        }
        _ => {
            println!(rt; "{folder}/{file} belongs to no script")?;
            Ok(Tally::one(false))
        }
    }
}

/// Whether the names have this one.
fn has(rt: &HostRuntime, names: &[String], name: &str, kind: &str) -> io::Result<bool> {
    let file = format!(in rt.alloc(); "{name}.{kind}")?;
    Ok(names.contains(&file))
}

/// Whether a case is as it should be: whole and in pieces, and in the folder of faults with faults.
fn run_case(rt: &HostRuntime, folder: &str, name: &str, case: &Case) -> io::Result<bool> {
    for piece in [usize::MAX, 1, 4096] {
        if !in_pieces(rt, folder, name, case, piece)? {
            return Ok(false);
        }
    }
    if folder == "faults" {
        return with_faults(rt, name, case);
    }
    Ok(true)
}

fn in_pieces(
    rt: &HostRuntime,
    folder: &str,
    name: &str,
    case: &Case,
    piece: usize,
) -> io::Result<bool> {
    let run = format!(in rt.alloc(); "{folder}/{name} in pieces of {piece} bytes")?;
    let ran = run_script(rt.alloc(), &case.script, Way::in_pieces(piece))?;
    is_as_wanted(rt, &run, &ran, Wanted::of(case))
}
