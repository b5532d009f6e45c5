//! The program `pulsar_speed`: reads and writes frames, or takes checksums, as many as it is told, for a clock outside.
#![tactic(auto)]

ghost use Rattle.std.specs.Prelude.{◌≡◌, IfOk};
ghost use Rattle.pulsar_speed.specs.Jobs.{job_tally};

mod checksums;
mod decoding;
mod encoding;
mod job;
mod sample;
mod tally;

use crate::job::{Job, Work};
use crate::tally::Tally;
use pulsar_wire::error::ConnectionError;
use std::alloc::Global;
use std::process::ExitCode;
use std::{env, io};

/// How a run ended: 0 done, 2 the words are no form of the program, 3 want of memory, 4 a frame or a count that can't be,
/// 5 the line was not written.
type Status = u8;

const NO_FORM: Status = 2;

const NO_MEMORY: Status = 3;

const REFUSED: Status = 4;

const NOT_WRITTEN: Status = 5;

const USAGE: &str =
    "usage: pulsar_speed decode|encode|command receipt|message|payload NUMBER, or checksum buffer NUMBER";

/// The words behind the program's name.
fn arguments(rt: &HostRuntime, alloc: Global) -> io::Result<Vec<String>> {
    let mut words = Vec::new(alloc);
    for word in env::args(rt)?.skip(1) {
        words.push(word)?;
    }
    Ok(words)
}

fn done(alloc: Global, job: Job) -> Result<Tally, ConnectionError>
    ensures { IfOk result (λ tally. tally ≡ job_tally job) }
{
    match job.work {
        Work::Decode(sample) => decoding::decode(alloc, sample, job.count),
        Work::Encode(sample) => encoding::encode(alloc, sample, job.count),
        Work::Command(sample) => encoding::command(alloc, sample, job.count),
        Work::Checksum => checksums::checksum(alloc, job.count),
    }
}

fn status_of(e: &ConnectionError) -> Status {
    match e {
        ConnectionError::NoMemory => NO_MEMORY,
        _ => REFUSED,
    }
}

/// Does what the words ask for, and prints a line.
fn run(rt: &HostRuntime, words: &[String]) -> Result<(), Status> {
    let Some(job) = Job::of(words) else {
        let _ = eprintln!(rt; "{USAGE}");
        return Err(NO_FORM);
    };
    let tally = match done(rt.alloc(), job) {
        Ok(tally) => tally,
        Err(e) => return Err(status_of(&e)),
    };
    let (name, subject, times) = (job.work.name(), job.work.subject(), job.count);
    let Tally { count, bytes, sum } = tally;
    match println!(rt; "{name} {subject} {times} count {count} bytes {bytes} sum {sum}") {
        Ok(()) => Ok(()),
        Err(_) => Err(NOT_WRITTEN),
    }
}

fn main(rt: HostRuntime) -> ExitCode {
    let Ok(words) = arguments(&rt, rt.alloc()) else {
        return ExitCode::from(NO_MEMORY);
    };
    match run(&rt, &words) {
        Ok(()) => ExitCode::from(0),
        Err(status) => ExitCode::from(status),
    }
}
