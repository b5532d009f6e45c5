//! Peers that are no broker.

use crate::running::Runtime;
use std::alloc::{AllocError, Global};
use std::io::{ErrorKind, Read, Write};
use std::net::{Ipv4Addr, TcpListener, TcpStream};
use std::time::Duration;

/// Takes a connection, says these bytes, and hears it until it ends.
pub fn say_once(listener: &TcpListener, bytes: &[u8]) {
    if let Ok((stream, _)) = listener.accept() {
        converse(stream, bytes);
    }
}

fn converse(stream: TcpStream, bytes: &[u8]) {
    let mut stream = stream;
    // whoever is connected and says nothing is not waited for
    let _ = stream.set_read_timeout(Some(Duration::from_secs(20)));
    if stream.write_all(bytes).is_ok() {
        hear(&mut stream);
    }
}

/// Hears a connection until it ends.
fn hear(stream: &mut TcpStream) {
    let mut piece = [0u8; 4096];
    for _ in 0..u64::MAX {
        match stream.read(&mut piece) {
            Ok(n) if n > 0 => {}
            _ => return,
        }
    }
}

/// Connects to a port of this machine, says these bytes, and hears what comes until the connection is ended there.
pub fn call<R: Runtime>(rt: &R, port: u16, bytes: &[u8]) -> bool {
    let Ok(stream) = TcpStream::connect(rt, (Ipv4Addr::LOCALHOST, port)) else {
        return false;
    };
    let mut stream = stream;
    let _ = stream.set_read_timeout(Some(Duration::from_secs(20)));
    // it may be ended before all is said
    let _ = stream.write_all(bytes);
    let mut piece = [0u8; 4096];
    for _ in 0..u64::MAX {
        match stream.read(&mut piece) {
            Ok(n) if n > 0 => {}
            Ok(_) => return true,
            Err(error) => return error.kind() == ErrorKind::ConnectionReset,
        }
    }
    false
}

/// Bytes that follow no rule that a peer could know.
pub fn noise(alloc: Global, count: u64) -> Result<Vec<u8>, AllocError> {
    let mut bytes = Vec::new(alloc);
    let mut state = 88_172_645_463_325_252u64;
    for _ in 0..count {
        state ^= state.wrapping_shl(13);
        state ^= state.wrapping_shr(7);
        state ^= state.wrapping_shl(17);
        bytes.push((state % 256) as u8)?;
    }
    Ok(bytes)
}
