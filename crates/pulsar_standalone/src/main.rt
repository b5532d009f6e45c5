//! The program `pulsar_standalone`: a broker in memory on a port of this machine.
#![tactic(auto)]

use pulsar_listener::serve;
use std::process::ExitCode;
use std::{env, io};

/// The port where none is named.
const PORT: u16 = 6650;

/// The port cannot be listened on.
const NO_PORT: u8 = 1;

/// The words are no form of the program.
const NO_FORM: u8 = 2;

/// Memory ran out.
const NO_MEMORY: u8 = 3;

fn main(rt: HostRuntime) -> ExitCode {
    let Some(port) = port(&rt) else {
        let _ = println!(rt; "pulsar_standalone [PORT]");
        return ExitCode::from(NO_FORM);
    };
    match serve(&rt, rt.alloc(), port) {
        Ok(()) => ExitCode::SUCCESS,
        Err(error) if error.kind() == io::ErrorKind::OutOfMemory => ExitCode::from(NO_MEMORY),
        Err(_) => {
            let _ = println!(rt; "cannot listen on 127.0.0.1:{port}: is the port in use?");
            ExitCode::from(NO_PORT)
        }
    }
}

/// The port among the words, if they are of the form.
fn port(rt: &HostRuntime) -> Option<u16> {
    let mut words = env::args(rt).ok()?.skip(1);
    let Some(word) = words.next() else {
        return Some(PORT);
    };
    if words.next().is_some() {
        return None;
    }
    word.parse().ok()
}
