//! The program `pulsar`.
#![tactic(auto)]

mod policy;

use crate::policy::Second;
use pulsar_cli::{Limits, NO_FORM, NO_MEMORY, StandardInput, StandardOutput, Status, TcpEdge, run};
use pulsar_client::CustomRoutingPolicy;
use pulsar_streams::outside::sink::Sink;
use pulsar_streams::outside::source::Source;
use std::alloc::{AllocError, Global};
use std::net::{Net, TcpStream};
use std::process::ExitCode;
use std::sync::Wait;
use std::thread::Threads;
use std::time::Clock;
use std::{env, io};

fn main(rt: HostRuntime) -> ExitCode {
    let status: Status = match arguments(&rt) {
        Ok(words) => {
            let mut source = StandardInput::new(rt.reader());
            let mut sink = StandardOutput::new(io::writer(&rt));
            match run_words(&rt, rt.alloc(), &words, &mut source, &mut sink) {
                Ok(status) => status,
                Err(_) => NO_MEMORY,
            }
        }
        // a word is not UTF-8
        Err(error) if error.kind() == io::ErrorKind::InvalidData => NO_FORM,
        Err(_) => NO_MEMORY,
    };
    ExitCode::from(status)
}

/// The run of these words. The policies are made here, since no function may hand out a box of a trait that it made.
fn run_words<R: Net<Stream = TcpStream> + Clock + Threads + Wait + Sync, S: Source, K: Sink>(
    rt: &R,
    alloc: Global,
    words: &[String],
    source: &mut S,
    sink: &mut K,
) -> Result<Status, AllocError> {
    let mut policies: Vec<Box<dyn CustomRoutingPolicy>> = Vec::new(alloc);
    policies.push(Box::new(alloc, Second)?)?;
    let mut edge = TcpEdge::new(rt, Limits::new());
    Ok(run(rt, alloc, words, source, sink, &mut edge, policies))
}

/// The words behind the program's name.
fn arguments(rt: &HostRuntime) -> io::Result<Vec<String>> {
    let mut words = Vec::new(rt.alloc());
    for word in env::args(rt)?.skip(1) {
        words.push(word)?;
    }
    Ok(words)
}
