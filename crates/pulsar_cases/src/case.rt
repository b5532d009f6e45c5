//! A case, and its runs.

use crate::pieces::Pieces;
use crate::policy::Second;
use pulsar_cli::{Status, run, script};
use pulsar_client::CustomRoutingPolicy;
use pulsar_pumps::MemoryEdge;
use pulsar_streams::outside::sink::FailingSink;
use pulsar_streams::outside::source::FailingSource;
use std::alloc::{AllocError, Global};
use std::sync::Wait;
use std::thread::Threads;
use std::{fs, io};

/// A script, the text that its run prints, and the status with which it ends.
#[derive(Drop)]
pub struct Case {
    pub script: Vec<u8>,
    pub text: Vec<u8>,
    pub status: Status,
}

impl Case {
    /// The case of this name. Its status stands in a file, or is 0.
    pub fn read(rt: &HostRuntime, folder: &str, name: &str, has_status: bool) -> io::Result<Case> {
        let status = if has_status {
            number(&file(rt, folder, name, "status")?)?
        } else {
            0
        };
        let script = file(rt, folder, name, "script")?;
        let text = file(rt, folder, name, "stdout")?;
        Ok(Case {
            script,
            text,
            status,
        })
    }
}

fn file(rt: &HostRuntime, folder: &str, name: &str, kind: &str) -> io::Result<Vec<u8>> {
    let path = format!(in rt.alloc(); "{folder}/{name}.{kind}")?;
    fs::read(rt, path.as_str())
}

fn number(text: &[u8]) -> io::Result<Status> {
    let number = match str::from_utf8(text) {
        Ok(text) => text.trim().parse::<u8>().ok(),
        Err(_) => None,
    };
    number.ok_or(io::Error::from(io::ErrorKind::InvalidData))
}

/// How a script comes, and where its text goes to.
#[derive(Clone, Copy)]
pub struct Way {
    /// The source gives so many bytes at a time at the most.
    pub piece: usize,
    /// The sink takes so many bytes at a time at the most.
    pub most: usize,
    pub fails: Fails,
}

impl Way {
    /// A source that gives so many bytes at a time.
    pub fn in_pieces(piece: usize) -> Way {
        Way {
            piece,
            most: usize::MAX,
            fails: Fails::Never,
        }
    }
}

/// Which call fails, counted from 0.
#[derive(Clone, Copy)]
pub enum Fails {
    Never,
    Source(u64),
    Sink(u64),
}

/// What a run has printed, and the status with which it ended.
#[derive(Drop)]
pub struct Ran {
    pub status: Status,
    sink: FailingSink,
}

impl Ran {
    pub fn text(&self) -> &[u8] {
        self.sink.bytes()
    }
}

/// Runs a script in this way.
pub fn run_script(alloc: Global, lines: &[u8], way: Way) -> Result<Ran, AllocError> {
    let mut source = source_of(alloc, lines, way)?;
    let mut sink = sink_of(alloc, way)?;
    let mut policies: Vec<Box<dyn CustomRoutingPolicy>> = Vec::new(alloc);
    policies.push(Box::new(alloc, Second)?)?;
    let status = script(alloc, &mut source, &mut sink, policies);
    Ok(Ran { status, sink })
}

/// Runs the program with these words, and an empty source. Its links give nothing.
pub fn run_words<T: Threads + Wait + Sync>(
    threads: &T,
    alloc: Global,
    words: &str,
) -> Result<Ran, AllocError> {
    let mut all = Vec::new(alloc);
    for word in words.split(' ') {
        all.push(String::from_str(alloc, word)?)?;
    }
    let way = Way::in_pieces(usize::MAX);
    let mut source = source_of(alloc, &[], way)?;
    let mut sink = sink_of(alloc, way)?;
    let mut policies: Vec<Box<dyn CustomRoutingPolicy>> = Vec::new(alloc);
    policies.push(Box::new(alloc, Second)?)?;
    let mut edge = MemoryEdge::new(alloc, Vec::new(alloc), 0, 0);
    let status = run(
        threads,
        alloc,
        &all,
        &mut source,
        &mut sink,
        &mut edge,
        policies,
    );
    Ok(Ran { status, sink })
}

fn source_of(alloc: Global, lines: &[u8], way: Way) -> Result<Pieces, AllocError> {
    let mut fails = Vec::new(alloc);
    if let Fails::Source(call) = way.fails {
        fails.push(call)?;
    }
    let source = FailingSource::new(lines.to_vec(alloc)?, fails);
    Ok(Pieces::new(source, way.piece))
}

fn sink_of(alloc: Global, way: Way) -> Result<FailingSink, AllocError> {
    let mut fails = Vec::new(alloc);
    if let Fails::Sink(call) = way.fails {
        fails.push(call)?;
    }
    Ok(FailingSink::new(alloc, fails, way.most))
}
