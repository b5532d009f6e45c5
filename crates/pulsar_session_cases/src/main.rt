//! The program `pulsar_session_cases`: reads lines of calls of a connection, and prints those that are answered otherwise
//! than they should.
//!
//! A line is the name of a call and its arguments, then ` = ` and the wanted answer. `new` makes the connection that is
//! called from there on. Bytes are hex digits, `%` where there are none; `~` is an argument that is absent. An answer is
//! printed as its derived `Debug` has it, and bytes as they are written above. A line that is empty or begins with `#` says
//! nothing. `messages full` and a builder has options or a message with each of their fields, and a number.
#![tactic(auto)]

mod bench;
mod builders;
mod events;
mod full;
mod looks;
mod requests;
mod stop;
mod texts;
mod values;
mod words;

use crate::bench::Bench;
use crate::stop::Stop;
use std::alloc::Global;
use std::io::{BufRead, BufReader};
use std::process::ExitCode;

/// Runs each line of standard input. The answer says whether all are answered as they should.
fn run(rt: &HostRuntime, alloc: Global) -> Result<bool, Stop> {
    let Ok(input) = BufReader::new(alloc, rt.reader()) else {
        return Err(Stop::NoMemory);
    };
    let mut bench = Bench::new();
    for text in input.lines(alloc) {
        let Ok(text) = text else {
            return Err(Stop::Input);
        };
        bench.take(rt, alloc, text.as_str())?;
    }
    bench.sum(rt)
}

fn main(rt: HostRuntime) -> ExitCode {
    match run(&rt, rt.alloc()) {
        Ok(true) => ExitCode::from(0),
        Ok(false) => ExitCode::from(1),
        Err(stop) => ExitCode::from(stop.status()),
    }
}
