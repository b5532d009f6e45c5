//! What machines say, as a text.

use pulsar_addresses::address::BrokerAddress;
use pulsar_addresses::options::{ConnectionRetryOptions, OperationRetryOptions};
use pulsar_discovery::machine::Machine;
use pulsar_discovery::manager::ConnectionManager;
use pulsar_discovery::outcome::{Found, Next, Outcome};
use pulsar_frame::message::Message;
use pulsar_frame::reader::FrameReader;
use pulsar_wire::error::{ConnectionError, IoKind};
use std::alloc::Global;
use std::test::Fail;

/// What a machine is told.
#[derive(Clone, Copy)]
pub enum Tell {
    Start,
    Link(u64),
    Lost,
    Late,
    Moment,
    Reply(&'static [u8]),
}

/// A manager of the service on this machine, with these retries of operations.
pub fn manager(alloc: Global, retries: Option<u32>) -> Result<ConnectionManager, Fail> {
    let operation = OperationRetryOptions {
        max_retries: retries,
        ..OperationRetryOptions::default()
    };
    Ok(ConnectionManager::new(
        alloc,
        "pulsar://127.0.0.1:6650",
        None,
        ConnectionRetryOptions::default(),
        operation,
        100,
        0,
        0,
    )?)
}

/// The one message of a frame.
fn message(alloc: Global, frame: &[u8]) -> Result<Message, Fail> {
    let mut frames = FrameReader::new(alloc);
    frames.feed(frame)?;
    Ok(frames.next()?.ok_or(ConnectionError::NotFound)?)
}

fn outcome(alloc: Global, tell: Tell) -> Result<Outcome, Fail> {
    Ok(match tell {
        Tell::Start => Outcome::Start,
        Tell::Link(link) => Outcome::Link(Ok(link)),
        Tell::Lost => Outcome::Failed(ConnectionError::Disconnected),
        Tell::Late => Outcome::Failed(ConnectionError::Io(IoKind::TimedOut)),
        Tell::Moment => Outcome::Moment,
        Tell::Reply(frame) => Outcome::Reply(message(alloc, frame)?),
    })
}

fn hex(alloc: Global, bytes: &[u8]) -> Result<String, Fail> {
    let mut text = String::new(alloc);
    for byte in bytes {
        text.push_str(format!(in alloc; "{byte:02x}")?.as_str())?;
    }
    Ok(text)
}

fn address(alloc: Global, address: &BrokerAddress) -> Result<String, Fail> {
    let url = address.url.as_str();
    let broker = &address.broker_url;
    let proxy = address.proxy;
    Ok(format!(in alloc; "{url} {broker} {proxy}")?)
}

fn found(alloc: Global, found: Found) -> Result<String, Fail> {
    match found {
        Found::Address(a) => address(alloc, &a),
        Found::Count(n) => Ok(format!(in alloc; "{n}")?),
        Found::Addresses(names) => {
            let mut text = String::new(alloc);
            for (name, place) in &names {
                let place = address(alloc, place)?;
                text.push_str(format!(in alloc; "{name} {place};")?.as_str())?;
            }
            Ok(text)
        }
        Found::Reply(link, message) => {
            let frame = hex(alloc, message.to_frame(alloc)?.as_slice())?;
            Ok(format!(in alloc; "{link} {frame}")?)
        }
    }
}

fn said(alloc: Global, next: Next) -> Result<String, Fail> {
    match next {
        Next::Get(a) => {
            let place = address(alloc, &a)?;
            Ok(format!(in alloc; "get {place}")?)
        }
        Next::Ask(link, message) => {
            let frame = hex(alloc, message.to_frame(alloc)?.as_slice())?;
            Ok(format!(in alloc; "ask {link} {frame}")?)
        }
        Next::Wait(delay) => Ok(format!(in alloc; "wait {delay}")?),
        Next::Done(x) => {
            let x = found(alloc, x)?;
            Ok(format!(in alloc; "done {x}")?)
        }
        Next::Refuse(e) => Ok(format!(in alloc; "refuse {e}")?),
    }
}

/// What a machine says to each of these.
pub fn run(alloc: Global, mut machine: Machine, tells: &[Tell]) -> Result<String, Fail> {
    let mut text = String::new(alloc);
    for tell in tells {
        let next = machine.go(outcome(alloc, *tell)?)?;
        text.push_str(said(alloc, next)?.as_str())?;
        text.push_str("\n")?;
    }
    Ok(text)
}
