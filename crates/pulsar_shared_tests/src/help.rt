//! Clients to which the lines of a script have happened.

use pulsar_addresses::options::{ConnectionRetryOptions, OperationRetryOptions};
use pulsar_client::Event;
use pulsar_client::options::ClientOptions;
use pulsar_grammar::line::{Line, parse};
use pulsar_shared::{Machine, Traced};
use pulsar_wire::NoMemory;
use std::alloc::Global;

/// The options where none is set.
pub fn options(alloc: Global) -> Result<ClientOptions, NoMemory> {
    Ok(ClientOptions {
        url: String::from_str(alloc, "pulsar://127.0.0.1:6650")?,
        auth: None,
        connection_retry: ConnectionRetryOptions::default(),
        operation_retry: OperationRetryOptions::default(),
        outbound_channel_size: 100,
        seed: 0,
        now: 0,
        first_number: 0,
        policies: Vec::new(alloc),
    })
}

/// Link 0 is ready.
pub const IS_READY: &str = "call build
opened 0
drain 0 1
bytes 0 0000000a0000000608031a020a00";

/// The event of a line; memory runs out where it is none.
pub fn event(alloc: Global, line: &str) -> Result<Box<Event>, NoMemory> {
    match parse(alloc, line.as_bytes())? {
        Line::Happens(event) => Ok(Box::new(alloc, event)?),
        Line::Nothing | Line::Sets(_) | Line::Refused => Err(NoMemory),
    }
}

/// What these lines say happens to the client.
pub fn happen<C: Machine>(
    traced: &mut Traced<C>,
    alloc: Global,
    lines: &str,
) -> Result<(), NoMemory> {
    for line in lines.lines() {
        let event = event(alloc, line)?;
        drop(traced.apply(Box::into_inner(event))?);
    }
    Ok(())
}
