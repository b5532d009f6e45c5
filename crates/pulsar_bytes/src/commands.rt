//! Commands.

use crate::lending::lend;
use crate::printing::{print_bytes, print_refusal, print_written};
use crate::stop::Stop;
use pulsar_wire::{BaseCommand, Body, ConnectionError, NoMemory, Wire};
use std::alloc::Global;

/// Prints the command that bytes spell, how it is written, and its body by itself.
pub fn print_command(rt: &impl Print, alloc: Global, bytes: &[u8]) -> Result<(), Stop> {
    lend(BaseCommand::decode(alloc, bytes), |read| {
        print_read(rt, alloc, read)
    })
}

fn print_read(
    rt: &impl Print,
    alloc: Global,
    read: &Result<BaseCommand, ConnectionError>,
) -> Result<(), Stop> {
    match read {
        Ok(command) => lend(command.copy(), |copy| print_copy(rt, alloc, copy)),
        Err(e) => print_refusal(rt, e),
    }
}

fn print_copy(
    rt: &impl Print,
    alloc: Global,
    copy: &Result<BaseCommand, NoMemory>,
) -> Result<(), Stop> {
    match copy {
        Ok(command) => print_whole(rt, alloc, command),
        Err(NoMemory) => Err(Stop::NoMemory),
    }
}

fn print_whole(rt: &impl Print, alloc: Global, command: &BaseCommand) -> Result<(), Stop> {
    print_written(rt, alloc, command)?;
    match &command.body {
        Some(body) => print_body(rt, alloc, body),
        None => Ok(()),
    }
}

/// The name of a body, and its bytes without the command round it.
fn print_body(rt: &impl Print, alloc: Global, body: &Body) -> Result<(), Stop> {
    let mut bytes = Vec::new(alloc);
    body.encode(&mut bytes)?;
    print_bytes(rt, alloc, body.name(), &bytes)
}
