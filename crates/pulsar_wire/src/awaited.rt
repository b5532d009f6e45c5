//! What a request waits for.

/// What a request waits for: a pong, the answer to the request of this number, or that to a producer's message.
#[derive(Clone, Copy, PartialEq, Eq, PartialOrd, Ord)]
pub enum Awaited {
    Pong,
    Reply { number: u64 },
    Receipt { producer: u64, sequence: u64 },
}

/// That a frame waits for an answer, and whether it makes a producer.
#[derive(Clone, Copy)]
pub struct Claim {
    pub awaits: Awaited,
    pub creates: bool,
}
