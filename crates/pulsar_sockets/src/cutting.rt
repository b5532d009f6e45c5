//! A broker that ends a connection in the middle of a frame.

use pulsar_broker::Broker;
use std::alloc::Global;
use std::io::{Read, Write};
use std::net::{Shutdown, TcpListener, TcpStream};
use std::time::Duration;

/// Serves two connections, one after the other. The first one is ended in the middle of the frame of this number, counted from 0.
pub fn serve_two(alloc: Global, listener: &TcpListener, url: &str, frame: u64) {
    let Ok(broker) = Broker::new(alloc, url) else {
        return;
    };
    let mut broker = broker;
    if let Ok((stream, _)) = listener.accept() {
        serve(alloc, &mut broker, 0, stream, Some(frame));
        broker.end(0);
    }
    if let Ok((stream, _)) = listener.accept() {
        serve(alloc, &mut broker, 1, stream, None);
    }
}

/// Serves a connection until it ends, or is cut.
fn serve(alloc: Global, broker: &mut Broker, link: u64, stream: TcpStream, cut: Option<u64>) {
    let mut stream = stream;
    let _ = stream.set_read_timeout(Some(Duration::from_secs(20)));
    let Ok(mut piece) = vec![in alloc; 0u8; 65_536] else {
        return;
    };
    let mut left = cut;
    for _ in 0..u64::MAX {
        let Ok(n) = stream.read(&mut piece) else {
            return;
        };
        if n == 0 || broker.feed(link, &piece[..n]).is_err() {
            return;
        }
        let Ok(bytes) = broker.take(link) else {
            return;
        };
        let (front, is_cut) = until(&bytes, &mut left);
        if stream.write_all(front).is_err() {
            return;
        }
        if is_cut {
            let _ = stream.shutdown(Shutdown::Both);
            return;
        }
    }
}

/// What is written of these whole frames: all of them, or a front up to the middle of the one that is cut.
fn until<'a>(bytes: &'a [u8], left: &mut Option<u64>) -> (&'a [u8], bool) {
    let Some(frames) = left else {
        return (bytes, false);
    };
    let mut rest = bytes;
    for _ in 0..bytes.len() {
        if rest.is_empty() {
            break;
        }
        let size = size_of(rest).min(rest.len());
        if *frames == 0 {
            let written = bytes
                .len()
                .saturating_sub(rest.len())
                .saturating_add(size / 2);
            return (bytes.get(..written).unwrap_or(bytes), true);
        }
        *frames -= 1;
        rest = &rest[size..];
    }
    (bytes, false)
}

/// The size of the first frame, with the four bytes that say it.
fn size_of(bytes: &[u8]) -> usize {
    match bytes {
        [a, b, c, d, ..] => (u32::from_be_bytes([*a, *b, *c, *d]) as usize).saturating_add(4),
        _ => bytes.len(),
    }
}
