//! The bytes that came on a connection.

ghost use Rattle.std.specs.Prelude.{◌≡◌, [], ◌++◌, IfOk, OnOk};
ghost use Rattle.std.specs.Option.{option_map};
ghost use Rattle.pulsar_session.specs.Kept.{IsFirst, IsNext};

use crate::frames::{Next, is, take_next};
use pulsar_frame::reader::FrameReader;
use pulsar_wire::bodies;
use pulsar_wire::error::NoMemory;
use std::alloc::Global;
use std::marker::Model;

/// What the first frame says.
#[derive(Clone, Copy)]
pub enum First {
    /// It is not whole yet.
    Short,
    /// It is `connected`.
    Connected,
    /// It is no frame, or another one.
    Wrong,
}

/// The bytes that came and were not taken.
pub struct Incoming {
    alloc: Global,
    reader: FrameReader,
    // all of them once more until the first frame is taken, so that a wrong one stays in front
    greeting: Option<Vec<u8>>,
}

impl Drop for Incoming {
    fn drop(self) {
        let Incoming {
            alloc: _,
            reader: _,
            greeting: _,
        } = self;
    }
}

impl Model for Incoming {
    ghost use Rattle.std.specs.Prelude.{ℕ, List};
    ghost use Rattle.pulsar_session.specs.Greeting.{IsGreeted};

    ghost Value = { List ℕ };

    ghost view = { λ i. i.reader };

    ghost invariant = { IsGreeted };
}

impl Incoming {
    /// Nothing came. It takes no memory.
    pub fn new(alloc: Global) -> Incoming
        ensures { result ≡ [] }
    {
        Incoming {
            alloc,
            reader: FrameReader::new(alloc),
            greeting: Some(Vec::new(alloc)),
        }
    }

    /// Puts a piece behind the bytes that are there.
    pub fn feed(&mut self, piece: &[u8]) -> Result<(), NoMemory>
        ensures { OnOk result (self.new ≡ self.old ++ piece.now) }
    {
        let greeting = self.greeting.take();
        self.reader.feed(piece)?;
        self.greeting = longer(greeting, piece)?;
        Ok(())
    }

    /// The first frame, which is taken where it is `connected`.
    pub fn first(&mut self) -> Result<First, NoMemory>
        ensures { IfOk result (λ first. IsFirst first self.old self.new) }
    {
        let greeting = self.greeting.take();
        match take_next(self.alloc, &mut self.reader)? {
            Next::Short => {
                self.greeting = greeting;
                Ok(First::Short)
            }
            Next::Refused(_) => {
                self.greeting = greeting;
                Ok(First::Wrong)
            }
            Next::Whole(message) => {
                if is(&message, bodies::CONNECTED) {
                    return Ok(First::Connected);
                }
                let Some(bytes) = greeting else {
                    return Err(NoMemory);
                };
                self.reader = reader_of(self.alloc, &bytes)?;
                self.greeting = Some(bytes);
                Ok(First::Wrong)
            }
        }
    }

    /// The next frame, which is taken where it is whole.
    pub fn next(&mut self) -> Result<Next, NoMemory>
        ensures { IfOk result (λ next. IsNext next self.old self.new) }
    {
        self.greeting = None;
        take_next(self.alloc, &mut self.reader)
    }
}

/// What came until the first frame is taken, with a piece behind it.
fn longer(greeting: Option<Vec<u8>>, piece: &[u8]) -> Result<Option<Vec<u8>>, NoMemory>
    ensures { IfOk result (λ g. option_map (λ v. v.items) g ≡ option_map (λ v. v.items ++ piece.now) greeting) }
{
    match greeting {
        Some(mut bytes) => {
            bytes.extend_from_slice(piece)?;
            Ok(Some(bytes))
        }
        None => Ok(None),
    }
}

/// A reader that was fed these bytes.
fn reader_of(alloc: Global, bytes: &Vec<u8>) -> Result<FrameReader, NoMemory>
    ensures { IfOk result (λ r. r ≡ bytes.now.items) }
{
    let mut reader = FrameReader::new(alloc);
    reader.feed(bytes)?;
    Ok(reader)
}
