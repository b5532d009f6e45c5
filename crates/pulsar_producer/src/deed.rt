//! What the plans of producers do, and what they are told.

ghost use Rattle.std.specs.Prelude.{◌≡◌, IfOk};
ghost use Rattle.pulsar_wire.specs.Failures.{fault};
ghost use Rattle.pulsar_outgoing.specs.Errors.{in_producer};
ghost use Rattle.pulsar_producer.specs.Plans.{fault_told};

use pulsar_addresses::content::{Refusal, Text};
use pulsar_outgoing::content::{Batch, Outgoing, Reports, Version};
use pulsar_outgoing::failing::in_producer;
use pulsar_outgoing::news;
use pulsar_outgoing::replies::Given;
use pulsar_searches::making::Command;
use pulsar_searches::turn::{self, Action, SearchOutcome};
use pulsar_wire::error::{ConnectionError, Error, NoMemory, ProducerError};
use std::alloc::Global;

/// What a plan is told.
pub type News = news::News<SearchOutcome, Command>;

/// A message as it is asked of a link. Where `block` is not set, it is refused where there is no room.
#[derive(Drop)]
pub struct Send {
    pub producer: u64,
    pub name: Text,
    pub sequence: u64,
    pub message: Outgoing,
    pub block: bool,
}

/// What a plan does next. Then it waits for news. Topic producers are named by their numbers.
#[derive(Drop)]
pub enum Deed {
    /// What a search does, or a command.
    Does(Action),
    /// Take its turn at a topic producer, or wait for it.
    TakesTurn(u64),
    /// Draw the number of a message, where the link of the topic producer is ready.
    Draws(u64),
    /// Ask for a message on the link.
    Sends {
        link: u64,
        send: Send,
    },
    /// Its turn is over.
    PassesTurn(u64),
    /// Find the command by which a topic producer is made again.
    Recalls(u64),
    /// A topic producer was made again, on this link.
    Remakes {
        number: u64,
        link: u64,
        given: Given,
    },
    /// Draw the number of a new topic producer.
    Numbers,
    /// The topic producer of this number was made on the link, and others of its producer are still to be made.
    Holds {
        link: u64,
        number: u64,
    },
    /// Close the topic producer of this number on the link.
    ClosesProducer {
        link: u64,
        number: u64,
    },
    /// Take the next batch of a topic producer.
    TakesBatch(u64),
    /// Tell those whose messages were in a batch what became of it.
    Settles(Reports),
    /// Nothing.
    Rests,
}

/// Why a plan fails at news.
pub fn error_told(news: News) -> ConnectionError
    ensures { fault result ≡ fault_told news }
{
    match news {
        News::Told(outcome) => turn::error_of(outcome),
        _ => ConnectionError::Disconnected,
    }
}
