//! The listener.

use crate::broker::SharedBroker;
use crate::connection::converse;
use pulsar_wire::NoMemory;
use std::alloc::Global;
use std::io::Print;
use std::net::{Ipv4Addr, Net, TcpListener, TcpStream};
use std::sync::Wait;
use std::thread::Threads;
use std::time::{Clock, Duration};
use std::{io, thread};

/// How long the listener waits, in milliseconds, where no more connections can be open.
const PAUSE: u64 = 10;

/// Serves all connections to this port of this machine, until the program is ended. It prints what it listens on. It returns where it cannot
/// listen, or memory runs out.
pub fn serve<
    R: Net<Listener = TcpListener, Stream = TcpStream> + Threads + Wait + Sync + Clock + Print,
>(rt: &R, alloc: Global, port: u16) -> io::Result<()> {
    let listener = TcpListener::bind(rt, (Ipv4Addr::LOCALHOST, port))?;
    let url = announce(rt, alloc, &listener)?;
    match serve_at(rt, alloc, &listener, &url) {
        Ok(()) => Ok(()),
        Err(NoMemory) => Err(io::Error::from(io::ErrorKind::OutOfMemory)),
    }
}

/// The URL of this listener, which is printed.
fn announce<R: Print>(rt: &R, alloc: Global, listener: &TcpListener) -> io::Result<String> {
    let port = listener.local_addr()?.port();
    let url = format!(in alloc; "pulsar://127.0.0.1:{port}")?;
    println!(rt; "listening on {url}; nothing is kept when this program ends")?;
    Ok(url)
}

fn serve_at<R: Net<Listener = TcpListener, Stream = TcpStream> + Threads + Wait + Sync + Clock>(
    rt: &R,
    alloc: Global,
    listener: &TcpListener,
    url: &str,
) -> Result<(), NoMemory> {
    let broker = SharedBroker::new(alloc, url)?;
    accept(rt, alloc, listener, &broker, u64::MAX)
}

/// Serves so many connections, each on threads of its own, and returns when the last of them has ended, or memory has run out.
pub fn accept<R: Net<Listener = TcpListener, Stream = TcpStream> + Threads + Wait + Sync + Clock>(
    rt: &R,
    alloc: Global,
    listener: &TcpListener,
    broker: &SharedBroker,
    count: u64,
) -> Result<(), NoMemory> {
    thread::scope(thread::scope_env(), rt, |scope| {
        for _ in 0..count {
            let stream = connection(rt, listener);
            let link = broker.open(rt)?;
            let served = scope.spawn(move || converse(rt, alloc, broker, link, stream));
            if served.is_err() {
                broker.end(rt, link);
            }
        }
        Ok(())
    })
}

/// The next connection.
fn connection<R: Net<Listener = TcpListener, Stream = TcpStream> + Wait + Clock>(
    rt: &R,
    listener: &TcpListener,
) -> TcpStream {
    for _ in rt.forever() {
        match listener.accept() {
            Ok((stream, _)) => return stream,
            Err(_) => thread::sleep(rt, Duration::from_millis(PAUSE)),
        }
    }
    unreachable!()
}
