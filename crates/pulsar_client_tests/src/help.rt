//! Clients, and lines of scripts as their events.

use pulsar_addresses::options::{ConnectionRetryOptions, OperationRetryOptions};
use pulsar_client::options::ClientOptions;
use pulsar_client::{CustomRoutingPolicy, Event};
use pulsar_grammar::line::{Line, parse};
use pulsar_wire::NoMemory;
use std::alloc::Global;

/// The options where none is set but the URL.
pub fn options(alloc: Global, url: &str) -> Result<ClientOptions, NoMemory> {
    let policies: Vec<Box<dyn CustomRoutingPolicy>> = Vec::new(alloc);
    Ok(ClientOptions {
        url: String::from_str(alloc, url)?,
        auth: None,
        connection_retry: ConnectionRetryOptions::default(),
        operation_retry: OperationRetryOptions::default(),
        outbound_channel_size: 100,
        seed: 0,
        now: 0,
        first_number: 0,
        policies,
    })
}

/// The URL of the clients whose address does not matter.
pub const LOCAL: &str = "pulsar://127.0.0.1:6650";

/// The events that the lines are. Another line is left out.
pub fn events(alloc: Global, lines: &str) -> Result<Vec<Event>, NoMemory> {
    let mut events = Vec::new(alloc);
    for line in lines.lines() {
        push_event(&mut events, parse(alloc, line.as_bytes())?)?;
    }
    Ok(events)
}

fn push_event(events: &mut Vec<Event>, line: Line) -> Result<(), NoMemory> {
    if let Line::Happens(event) = line {
        events.push(event)?;
    }
    Ok(())
}
