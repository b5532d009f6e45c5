//! The connections of addresses.

use crate::help::manager;
use pulsar_addresses::options::{ConnectionRetryOptions, OperationRetryOptions};
use pulsar_addresses::random::jitter;
use pulsar_discovery::manager::{ConnectionManager, Got, Seen};
use pulsar_wire::error::{ConnectionError, IoKind};
use std::alloc::Global;
use std::test::Fail;

const CONNECTED: &[u8] = b"\x00\x00\x00\x0a\x00\x00\x00\x06\x08\x03\x1a\x02\x0a\x00";

/// Ends a connection.
fn end(manager: &mut ConnectionManager, link: u64, error: ConnectionError) -> Result<(), Fail> {
    if let Some(connection) = manager.link(link) {
        let _ = connection.close(error)?;
    }
    Ok(())
}

/// Makes a connection ready.
fn ready(manager: &mut ConnectionManager, link: u64, now: u64) -> Result<(), Fail> {
    if let Some(connection) = manager.link(link) {
        connection.opened(now)?;
        connection.feed(CONNECTED)?;
        let _ = connection.next(now)?;
    }
    Ok(())
}

#[test]
fn an_address_has_one_connection(rt: HostRuntime) -> Result<(), Fail> {
    let mut manager = manager(rt.alloc(), None)?;
    assert!(rt; matches!(manager.get_base_connection(0), Got::Started(0)));
    assert!(rt; matches!(manager.get_base_connection(0), Got::Waiting));
    assert!(rt; manager.look(0, 0)? == Seen::Same);
    ready(&mut manager, 0, 5)?;
    assert!(rt; manager.look(0, 5)? == Seen::Ready);
    assert!(rt; manager.look(0, 5)? == Seen::Same);
    assert!(rt; !manager.idle(0, 120004) && manager.idle(0, 120005));
    assert!(rt; matches!(manager.get_base_connection(9), Got::Ready(0)));
    assert!(rt; !manager.idle(0, 120008) && manager.idle(0, 120009));
    end(&mut manager, 0, ConnectionError::Disconnected)?;
    assert!(rt; manager.look(0, 9)? == Seen::Ended);
    assert!(rt; manager.look(0, 9)? == Seen::Same && manager.link(0).is_none());
    assert!(rt; matches!(manager.get_base_connection(9), Got::Started(1)));
    Ok(())
}

#[test]
fn an_attempt_is_tried_again(rt: HostRuntime) -> Result<(), Fail> {
    let mut manager = manager(rt.alloc(), None)?;
    assert!(rt; matches!(manager.get_base_connection(0), Got::Started(0)));
    end(
        &mut manager,
        0,
        ConnectionError::Io(IoKind::ConnectionRefused),
    )?;
    assert!(rt; manager.look(0, 0)? == Seen::Retry(10 + 10 * jitter(0, 0)));
    assert!(rt; matches!(manager.get_base_connection(0), Got::Waiting));
    assert!(rt; manager.is_pausing(0));
    assert!(rt; manager.again(0, 20)? == 1);
    end(&mut manager, 1, ConnectionError::Io(IoKind::TimedOut))?;
    assert!(rt; manager.look(1, 20)? == Seen::Retry(20 + 10 * jitter(0, 1)));
    assert!(rt; manager.is_pausing(1));
    assert!(rt; manager.again(1, 60)? == 2);
    end(&mut manager, 2, ConnectionError::Io(IoKind::Other))?;
    assert!(rt; manager.look(2, 60)? == Seen::Failed);
    assert!(rt; matches!(manager.get_base_connection(60), Got::Started(3)));
    Ok(())
}

fn manager_of(alloc: Global, url: &str) -> Result<ConnectionManager, ConnectionError> {
    ConnectionManager::new(
        alloc,
        url,
        None,
        ConnectionRetryOptions::default(),
        OperationRetryOptions::default(),
        100,
        0,
        0,
    )
}

#[test]
fn an_address_without_a_host_is_none(rt: HostRuntime) -> Result<(), Fail> {
    let alloc = rt.alloc();
    assert!(rt; matches!(manager_of(alloc, "pulsar:"), Err(ConnectionError::NotFound)));
    assert!(rt; matches!(manager_of(alloc, "x y"), Err(ConnectionError::NotFound)));
    let mut manager = manager_of(alloc, "pulsar+ssl://h")?;
    assert!(rt;
        matches!(
            manager.get_base_connection(0),
            Got::Refused(ConnectionError::NotFound)
        )
    );
    Ok(())
}

#[test]
fn an_address_is_one_with_its_copy(rt: HostRuntime) -> Result<(), Fail> {
    let mut manager = manager(rt.alloc(), None)?;
    let base = manager.get_base_address()?;
    let copy = base.copy()?;
    assert!(rt; base == copy && base.broker_url.as_str() == "127.0.0.1:6650" && !base.proxy);
    let mut proxied = base.copy()?;
    proxied.proxy = true;
    assert!(rt; base != proxied);
    assert!(rt; matches!(manager.get_connection(&base, 0), Got::Started(0)));
    assert!(rt; matches!(manager.get_connection(&copy, 0), Got::Waiting));
    assert!(rt; matches!(manager.get_connection(&proxied, 0), Got::Started(1)));
    Ok(())
}
