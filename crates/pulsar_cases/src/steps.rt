//! The steps of a demo.

use crate::tally::Tally;
use pulsar_cli::{Demo, demo};
use pulsar_client::{Effect, Event};
use std::alloc::{AllocError, Global};
use std::{fs, io};

/// Runs the demo of each line of a file: its seed and its count, a colon, how many steps it has, its four numbers, and at which places its calls
/// and polls stand.
pub fn run_steps(rt: &HostRuntime, folder: &str, file: &str) -> io::Result<Tally> {
    let path = format!(in rt.alloc(); "{folder}/{file}")?;
    let text = fs::read_to_string(rt, path.as_str())?;
    let mut tally = Tally::default();
    for line in text.split_terminator('\n') {
        tally.add(Tally::one(is_line_right(rt, line)?));
    }
    Ok(tally)
}

fn is_line_right(rt: &HostRuntime, line: &str) -> io::Result<bool> {
    let Some((words, wanted)) = line.split_once(": ") else {
        println!(rt; "{line}: no colon")?;
        return Ok(false);
    };
    let Some((Some(seed), Some(count))) = words.split_once(' ').map(|(seed, count)| (
        seed.parse::<u64>().ok(),
        count.parse::<u64>().ok(),
    ))
    else {
        println!(rt; "{line}: no seed and count")?;
        return Ok(false);
    };
    let Ok(demo) = demo(rt.alloc(), seed, count) else {
        println!(rt; "{line}: no memory")?;
        return Ok(false);
    };
    let shown = shown(rt.alloc(), &demo)?;
    if shown.as_str() == wanted {
        return Ok(true);
    }
    println!(rt; "{words}: {shown}, wanted {wanted}")?;
    Ok(false)
}

/// How many steps there are, the four numbers, and where the calls and polls stand.
fn shown(alloc: Global, demo: &Demo) -> Result<String, AllocError> {
    let steps = demo.steps.len();
    let sent = demo.sent;
    let received = demo.received;
    let bytes = demo.bytes;
    let acked = demo.acked;
    let mut out = format!(in alloc; "{steps} {sent} {received} {bytes} {acked}")?;
    push_places(&mut out, &demo.steps)?;
    Ok(out)
}

fn push_places(out: &mut String, steps: &[(Event, Vec<Effect>)]) -> Result<(), AllocError> {
    for (place, (event, _)) in steps.iter().enumerate() {
        if matches!(event, Event::Call(_) | Event::Poll(_)) {
            write!(out, " {place}")?;
        }
    }
    Ok(())
}
