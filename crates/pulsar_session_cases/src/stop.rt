//! Why a line has no answer.

use hex::FromHexError;
use pulsar_wire::{ConnectionError, NoMemory};
use std::alloc::AllocError;
use std::io;

#[derive(Clone, Copy)]
pub enum Stop {
    /// The line is no call.
    NoForm,
    /// Memory ran out.
    NoMemory,
    /// Standard input failed.
    Input,
    /// Standard output failed.
    Output,
}

impl Stop {
    /// The exit status.
    pub fn status(self) -> u8 {
        match self {
            Stop::NoForm => 2,
            Stop::NoMemory => 3,
            Stop::Input => 4,
            Stop::Output => 5,
        }
    }
}

impl From<NoMemory> for Stop {
    fn from(_e: NoMemory) -> Stop {
        Stop::NoMemory
    }
}

impl From<AllocError> for Stop {
    fn from(_e: AllocError) -> Stop {
        Stop::NoMemory
    }
}

impl From<FromHexError> for Stop {
    fn from(e: FromHexError) -> Stop {
        match e {
            FromHexError::OutOfMemory => Stop::NoMemory,
            _ => Stop::NoForm,
        }
    }
}

/// What could not be printed.
impl From<io::Error> for Stop {
    fn from(_e: io::Error) -> Stop {
        Stop::Output
    }
}

/// What could not be read or written.
impl From<ConnectionError> for Stop {
    fn from(e: ConnectionError) -> Stop {
        match e {
            ConnectionError::NoMemory => Stop::NoMemory,
            _ => Stop::NoForm,
        }
    }
}
