//! What is read in messages of a broker.

use pulsar_exchange::content::Received;
use pulsar_frame::Message;
use pulsar_wire::commands::base::{BaseCommand, Body};
use pulsar_wire::commands::connection::{CommandError, CommandPong};
use pulsar_wire::{ConnectionError, NoMemory, bodies};
use std::alloc::Global;
use std::test::Fail;

fn received(alloc: Global, body: Body) -> Result<Received, NoMemory> {
    let message = Message {
        command: BaseCommand::with_body(body),
        payload: None,
    };
    Received::new(alloc, message)
}

/// It fails a request, and the broker tells why.
fn is_told(why: &ConnectionError) -> bool {
    match why {
        ConnectionError::PulsarError(_, Some(text)) => text.as_str() == "no",
        _ => false,
    }
}

/// It fails a request as the body of this name.
fn is_unexpected(why: &ConnectionError, name: &str) -> bool {
    match why {
        ConnectionError::UnexpectedResponse(text) => text.as_str() == name,
        _ => false,
    }
}

#[test]
fn an_error(rt: HostRuntime) -> Result<(), Fail> {
    let alloc = rt.alloc();
    let mut error = CommandError::new(alloc);
    error.message = String::from_str(alloc, "no")?;
    let reply = received(alloc, Body::Error(error))?;
    assert!(rt; reply.is(bodies::ERROR));
    assert!(rt; reply.key().is_some());
    assert!(rt; is_told(&reply.refusal(alloc)?));
    Ok(())
}

#[test]
fn another_body(rt: HostRuntime) -> Result<(), Fail> {
    let alloc = rt.alloc();
    let reply = received(alloc, Body::Pong(CommandPong {}))?;
    let copy = reply.copy(alloc)?;
    assert!(rt; is_unexpected(&copy.refusal(alloc)?, "pong"));
    assert!(rt; copy.into_message().payload.is_none());
    Ok(())
}
