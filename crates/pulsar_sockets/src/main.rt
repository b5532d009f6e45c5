//! Runs `produce` and `consume` over sockets of this machine, against a broker in memory and against peers that are none, and says of each
//! case whether it went as it should.
#![tactic(auto)]

mod cases;
mod cutting;
mod lines;
mod one_byte;
mod paced;
mod peers;
mod running;

use crate::cases::{broker, faults, many};
use crate::running::Runtime;
use std::alloc::Global;
use std::io;
use std::io::Print;
use std::net::{Net, TcpListener, TcpStream};
use std::process::ExitCode;
use std::sync::Wait;
use std::thread::Threads;
use std::time::Clock;

fn main(rt: HostRuntime) -> ExitCode {
    run_cases(&rt, &rt)
}

/// Runs all cases. The runtime stands here a second time, as that of threads and sockets.
pub fn run_cases<
    R: Net<Listener = TcpListener, Stream = TcpStream> + Threads + Wait + Sync + Clock + Print,
>(rt: &HostRuntime, runtime: &R) -> ExitCode {
    match run_all(runtime, rt.alloc()) {
        Ok(0) => ExitCode::SUCCESS,
        Ok(_) => ExitCode::from(1),
        Err(error) => {
            let _ = eprintln!(rt; "the cases cannot be run: {error}");
            ExitCode::from(2)
        }
    }
}

/// Runs all cases, and answers how many went wrong.
fn run_all<R: Runtime>(rt: &R, alloc: Global) -> io::Result<u64> {
    let mut wrong = 0;
    tell(
        rt,
        "a thousand lines",
        broker::whole(rt, alloc)?,
        &mut wrong,
    )?;
    tell(
        rt,
        "a thousand lines, byte by byte",
        broker::byte_by_byte(rt, alloc)?,
        &mut wrong,
    )?;
    tell(
        rt,
        "two producers and two consumers",
        many::two_and_two(rt, alloc)?,
        &mut wrong,
    )?;
    tell(
        rt,
        "strangers to the listener",
        broker::strangers(rt, alloc)?,
        &mut wrong,
    )?;
    tell(
        rt,
        "a cut in a receipt, and the next run",
        faults::cut(rt, alloc)?,
        &mut wrong,
    )?;
    tell(rt, "nobody listens", faults::nobody(rt, alloc)?, &mut wrong)?;
    tell(
        rt,
        "no answer in time",
        faults::no_answer(rt, alloc)?,
        &mut wrong,
    )?;
    tell(rt, "silence", faults::silence(rt, alloc)?, &mut wrong)?;
    tell(rt, "no frame", faults::no_frame(rt, alloc)?, &mut wrong)?;
    tell(rt, "random bytes", faults::random(rt, alloc)?, &mut wrong)?;
    tell(
        rt,
        "a frame that is too long",
        faults::too_long(rt, alloc)?,
        &mut wrong,
    )?;
    Ok(wrong)
}

/// Says how a case went.
fn tell<R: Runtime>(rt: &R, name: &str, is_right: bool, wrong: &mut u64) -> io::Result<()> {
    let how = if is_right { "ok" } else { "WRONG" };
    if !is_right {
        *wrong = wrong.saturating_add(1);
    }
    println!(rt; "{name}: {how}")?;
    Ok(())
}
