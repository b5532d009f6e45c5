//! One connection.

use crate::broker::SharedBroker;
use crate::sizes::Sizes;
use pulsar_frame::FrameReader;
use std::alloc::Global;
use std::io::{Read, Write};
use std::net::{Shutdown, TcpStream};
use std::sync::Wait;
use std::thread;
use std::thread::Threads;

/// How many bytes are read at a time.
const PIECE: usize = 65_536;

/// Serves a connection until it ends, and ends its link. A second thread says what is to be said on it; where none can be made the
/// connection ends.
pub fn converse<R: Threads + Wait + Sync>(
    rt: &R,
    alloc: Global,
    broker: &SharedBroker,
    link: u64,
    stream: TcpStream,
) {
    let _ = stream.set_nodelay(true);
    let stream = &stream;
    thread::scope(thread::scope_env(), rt, |scope| {
        if scope.spawn(move || say(rt, broker, link, stream)).is_ok() {
            hear(rt, alloc, broker, link, stream);
        }
        broker.end(rt, link);
        // whoever still writes stops
        let _ = stream.shutdown(Shutdown::Both);
    });
}

/// Feeds what comes, until nothing more comes, or it is no frame, or the frame is too long.
fn hear<R: Wait>(rt: &R, alloc: Global, broker: &SharedBroker, link: u64, stream: &TcpStream) {
    let Ok(mut piece) = vec![in alloc; 0u8; PIECE] else {
        return;
    };
    let mut sizes = Sizes::new();
    let mut frames = FrameReader::new(alloc);
    let mut stream = stream;
    for _ in 0..u64::MAX {
        let Ok(n) = stream.read(&mut piece) else {
            return;
        };
        let came = &piece[..n];
        let goes_on = n > 0 && sizes.are_short(came) && are_frames(&mut frames, came);
        if broker.feed(rt, link, came).is_err() || !goes_on {
            return;
        }
    }
}

/// What has come so far begins with frames, and what follows them may become one.
fn are_frames(frames: &mut FrameReader, piece: &[u8]) -> bool {
    if frames.feed(piece).is_err() {
        return false;
    }
    for _ in 0..u64::MAX {
        match frames.next() {
            Ok(Some(frame)) => drop(frame),
            Ok(None) => return true,
            Err(_) => return false,
        }
    }
    false
}

/// Writes what is to be written, until the link has ended. Where nothing can be written the connection ends.
fn say<R: Wait>(rt: &R, broker: &SharedBroker, link: u64, stream: &TcpStream) {
    let mut writer = stream;
    for _ in rt.forever() {
        let Some(bytes) = broker.next(rt, link) else {
            break;
        };
        if writer.write_all(&bytes).is_err() {
            break;
        }
    }
    let _ = stream.shutdown(Shutdown::Both);
}
