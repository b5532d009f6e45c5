//! Runs against peers that do not answer as they should.

use crate::cutting::serve_two;
use crate::paced::Paced;
use crate::peers::{noise, say_once};
use crate::running::{Ran, Runtime, listen, run_over, run_tcp, tcp};
use pulsar_cli::{DONE, FAILED};
use std::alloc::{AllocError, Global};
use std::{io, thread};

/// A frame `connected` of a server `x`.
const CONNECTED: &[u8] = b"\x00\x00\x00\x0b\x00\x00\x00\x07\x08\x03\x1a\x03\x0a\x01x";

/// The connection is cut in the middle of the receipt, which is the fifth frame. The next run works.
pub fn cut<R: Runtime>(rt: &R, alloc: Global) -> io::Result<bool> {
    let (listener, url) = listen(rt, alloc)?;
    let words = format!(in alloc; "produce {url} t")?;
    let ((), (first, second)) = thread::join(
        rt,
        || serve_two(alloc, &listener, &url, 4),
        || (
            run_tcp(rt, alloc, &words, b"a\n"),
            run_tcp(rt, alloc, &words, b"b\n"),
        ),
    );
    Ok(
        first?.is(rt, FAILED, "failed producer.connection.disconnected\n")?
            && second?.is(rt, DONE, "sent 0:1\ndone 1\n")?,
    )
}

/// Nobody listens on the port any more.
pub fn nobody<R: Runtime>(rt: &R, alloc: Global) -> io::Result<bool> {
    let (listener, url) = listen(rt, alloc)?;
    drop(listener);
    let words = format!(in alloc; "consume {url} t s 1")?;
    let mut edge = Paced::new(tcp(rt, 500));
    run_over(rt, alloc, &words, &[], &mut edge)?.is(rt, FAILED, "failed connection.io refused\n")
}

/// A run against a peer that says these bytes and no more, and may be silent for so long.
fn against<R: Runtime>(rt: &R, alloc: Global, bytes: &[u8], silence: u64) -> io::Result<Ran> {
    let (listener, url) = listen(rt, alloc)?;
    let words = format!(in alloc; "consume {url} t s 1")?;
    let ((), ran) = thread::join(
        rt,
        || say_once(&listener, bytes),
        || once(rt, alloc, &words, silence),
    );
    Ok(ran?)
}

fn once<R: Runtime>(rt: &R, alloc: Global, words: &str, silence: u64) -> Result<Ran, AllocError> {
    let mut edge = tcp(rt, silence);
    run_over(rt, alloc, words, &[], &mut edge)
}

/// A broker that says that it is connected, and answers nothing else. The client looks for the topic once more, over a connection on which
/// nothing comes.
pub fn no_answer<R: Runtime>(rt: &R, alloc: Global) -> io::Result<bool> {
    against(rt, alloc, CONNECTED, 2_000)?.is(rt, FAILED, "failed discovery.connection.io other\n")
}

/// A peer that says nothing.
pub fn silence<R: Runtime>(rt: &R, alloc: Global) -> io::Result<bool> {
    against(rt, alloc, &[], 500)?.is(rt, FAILED, "failed connection.io other\n")
}

/// A peer of another protocol.
pub fn no_frame<R: Runtime>(rt: &R, alloc: Global) -> io::Result<bool> {
    against(rt, alloc, b"SSH-2.0-OpenSSH_9.2p1\r\n", 500)?.is(
        rt,
        FAILED,
        "failed connection.io other\n",
    )
}

/// A peer that says anything.
pub fn random<R: Runtime>(rt: &R, alloc: Global) -> io::Result<bool> {
    let bytes = noise(alloc, 100_000)?;
    against(rt, alloc, &bytes, 500)?.is(rt, FAILED, "failed connection.io other\n")
}

/// A peer that says a frame of 5 MiB and one byte.
pub fn too_long<R: Runtime>(rt: &R, alloc: Global) -> io::Result<bool> {
    let mut bytes = vec![in alloc; 0u8; 5 * 1024 * 1024 + 5]?;
    bytes[0..4].copy_from_slice(&[0x00, 0x50, 0x00, 0x01]);
    against(rt, alloc, &bytes, 500)?.is(rt, FAILED, "failed connection.io other\n")
}
