//! Several runs at once.

use crate::running::{Ran, Runtime, listen, remembered, run_tcp};
use pulsar_cli::DONE;
use pulsar_listener::{SharedBroker, accept};
use std::alloc::{AllocError, Global};
use std::collections::BTreeSet;
use std::net::{Ipv4Addr, TcpStream};
use std::sync::atomic::{AtomicU64, Ordering};
use std::{io, thread};

/// How many lines each of the two producers sends.
const EACH: u64 = 100;

/// How many messages each of the two consumers takes: all lines of both producers.
const TAKEN: u64 = 200;

/// How many connections the broker takes.
const CONNECTIONS: u64 = 64;

/// Two producers and two consumers of one subscription at once. Whoever subscribed first is served as long as it grants permits, so each
/// consumer takes as many messages as the producers send, and more are sent until both have enough. Each line of the producers is consumed
/// by one of them, once.
pub fn two_and_two<R: Runtime>(rt: &R, alloc: Global) -> io::Result<bool> {
    let (listener, url) = listen(rt, alloc)?;
    let port = listener.local_addr()?.port();
    let broker = remembered(SharedBroker::new(alloc, &url))?;
    let (served, ran) = thread::join(
        rt,
        || accept(rt, alloc, &listener, &broker, CONNECTIONS),
        || {
            let ran = all_four(rt, alloc, &url);
            // the listener still waits for the connections that were not made
            for _ in 0..CONNECTIONS {
                let _ = TcpStream::connect(rt, (Ipv4Addr::LOCALHOST, port));
            }
            ran
        },
    );
    remembered(served)?;
    are_taken_once(rt, alloc, &ran?)
}

/// What the two consumers print.
fn all_four<R: Runtime>(rt: &R, alloc: Global, url: &str) -> Result<(Ran, Ran), AllocError> {
    let ended = AtomicU64::new(0);
    let (sent, (first, second)) = thread::join(
        rt,
        || produce_all(rt, alloc, url, &ended),
        || thread::join(
            rt,
            || consume(rt, alloc, url, &ended),
            || consume(rt, alloc, url, &ended),
        ),
    );
    sent?;
    Ok((first?, second?))
}

fn consume<R: Runtime>(
    rt: &R,
    alloc: Global,
    url: &str,
    ended: &AtomicU64,
) -> Result<Ran, AllocError> {
    let words = format!(in alloc; "consume {url} t s {TAKEN}")?;
    let ran = run_tcp(rt, alloc, &words, &[]);
    ended.fetch_add(1, Ordering::SeqCst);
    ran
}

/// The two producers at once, and then others until both consumers have ended.
fn produce_all<R: Runtime>(
    rt: &R,
    alloc: Global,
    url: &str,
    ended: &AtomicU64,
) -> Result<(), AllocError> {
    let (first, second) = thread::join(
        rt,
        || produce(rt, alloc, url, "a", EACH),
        || produce(rt, alloc, url, "b", EACH),
    );
    first?;
    second?;
    for round in 0..CONNECTIONS - 4 {
        if ended.load(Ordering::SeqCst) == 2 {
            break;
        }
        let name = format!(in alloc; "more{round}.")?;
        produce(rt, alloc, url, &name, EACH / 2)?;
    }
    Ok(())
}

/// Sends so many lines that begin with a name.
fn produce<R: Runtime>(
    rt: &R,
    alloc: Global,
    url: &str,
    name: &str,
    count: u64,
) -> Result<(), AllocError> {
    let words = format!(in alloc; "produce {url} t")?;
    let mut text = String::new(alloc);
    for i in 0..count {
        text.push_str(&format!(in alloc; "{name}{i}\n")?)?;
    }
    drop(run_tcp(rt, alloc, &words, text.as_bytes())?);
    Ok(())
}

/// Both have taken what they wanted, no line twice, and each line of the two producers.
fn are_taken_once<R: Runtime>(rt: &R, alloc: Global, ran: &(Ran, Ran)) -> io::Result<bool> {
    let mut taken = BTreeSet::new(alloc);
    let first = take_lines(alloc, &ran.0, &mut taken)?;
    let second = take_lines(alloc, &ran.1, &mut taken)?;
    let is_right = first == Some(TAKEN)
        && second == Some(TAKEN)
        && taken.len() as u64 == 2 * TAKEN
        && has_all(alloc, &taken, "a")?
        && has_all(alloc, &taken, "b")?;
    if !is_right {
        println!(rt;
            "taken {} of\n{}\nand\n{}",
            taken.len(),
            ran.0.text,
            ran.1.text
        )?;
    }
    Ok(is_right)
}

/// How many lines a consumer has printed before the last one, if it is done.
fn take_lines(
    alloc: Global,
    ran: &Ran,
    taken: &mut BTreeSet<String>,
) -> Result<Option<u64>, AllocError> {
    let done = format!(in alloc; "done {TAKEN}")?;
    let mut count = 0u64;
    for line in ran.text.split_terminator('\n') {
        if line == done.as_str() {
            return Ok((ran.status == DONE).then_some(count));
        }
        count = count.saturating_add(1);
        taken.insert(String::from_str(alloc, line)?)?;
    }
    Ok(None)
}

fn has_all(alloc: Global, taken: &BTreeSet<String>, name: &str) -> Result<bool, AllocError> {
    for i in 0..EACH {
        if !taken.contains(&format!(in alloc; "{name}{i}")?) {
            return Ok(false);
        }
    }
    Ok(true)
}
