//! Runs the scripts of the folders where it stands, and says which of them print another text than they should.
//!
//! A folder has cases: `NAME.script` with the text `NAME.stdout` that its run prints, and the status `NAME.status` with which
//! it ends, 0 where there is no such file. Each line of a file `NAME.lines` is a case by itself: it is not in the grammar. Each line of a file
//! `NAME.words` has words of the program, with what it prints for them and its status, and each of a file `NAME.steps` a demo and its steps.
//! The scripts of the folder `faults` are also run with faults of the source and of the sink.
#![tactic(auto)]

mod case;
mod compare;
mod faults;
mod folder;
mod lines;
mod pieces;
mod policy;
mod steps;
mod tally;
mod words;

use crate::folder::{names, run_folder};
use crate::tally::Tally;
use std::process::ExitCode;
use std::sync::Wait;
use std::thread::Threads;
use std::{fs, io};

fn main(rt: HostRuntime) -> ExitCode {
    run_cases(&rt, &rt)
}

/// Runs all cases. The runtime stands here a second time, as that of threads.
pub fn run_cases<T: Threads + Wait + Sync>(rt: &HostRuntime, threads: &T) -> ExitCode {
    match run_all(rt, threads) {
        Ok(tally) if tally.differ == 0 => ExitCode::SUCCESS,
        Ok(_) => ExitCode::from(1),
        Err(error) => {
            let _ = eprintln!(rt; "the cases cannot be run: {error}");
            ExitCode::from(2)
        }
    }
}

/// Runs all folders.
fn run_all<T: Threads + Wait + Sync>(rt: &HostRuntime, threads: &T) -> io::Result<Tally> {
    let mut sum = Tally::default();
    for name in names(rt, ".")? {
        if fs::metadata(rt, &name)?.is_dir() {
            let tally = run_folder(rt, threads, &name)?;
            println!(rt; "{name}: {tally}")?;
            sum.add(tally);
        }
    }
    println!(rt; "all: {sum}")?;
    Ok(sum)
}
