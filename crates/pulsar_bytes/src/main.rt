//! The program `pulsar_bytes`: reads lines of bytes, and prints what they say and how that is written.
#![tactic(auto)]

mod batches;
mod commands;
mod frames;
mod lending;
mod line;
mod messages;
mod printing;
mod stop;

use crate::stop::Stop;
use std::alloc::Global;
use std::io::{BufRead, BufReader};
use std::process::ExitCode;

/// Answers each line of standard input.
fn run(rt: &HostRuntime, alloc: Global) -> Result<(), Stop> {
    let Ok(input) = BufReader::new(alloc, rt.reader()) else {
        return Err(Stop::NoMemory);
    };
    for text in input.lines(alloc) {
        let Ok(text) = text else {
            return Err(Stop::Input);
        };
        line::answer(rt, alloc, text.as_str())?;
    }
    Ok(())
}

fn main(rt: HostRuntime) -> ExitCode {
    match run(&rt, rt.alloc()) {
        Ok(()) => ExitCode::from(0),
        Err(stop) => ExitCode::from(stop.status()),
    }
}
