//! A send that has been asked for.

ghost use Rattle.std.specs.Prelude.{◌≡◌, ◌⊎◌, ℕ, List, MatchOption, MatchResult, Ok, Err};
ghost use Rattle.pulsar_wire.specs.Failures.{failure};
ghost use Rattle.pulsar_outgoing.specs.Errors.{IsNoMemory};
ghost use Rattle.pulsar_calls.specs.Steps.{Step};
ghost use Rattle.pulsar_client.specs.Client.{Always, StandsFor};
ghost use Rattle.pulsar_calls.specs.Content.{answered, said};
ghost use Rattle.pulsar_client.specs.Taken.{IsPolled, IsTaken, is_lost, poll_said, polled_answer, taken_with};

use crate::answers::Taken;
use crate::pulsar::Pulsar;
use pulsar_calls::effect::Answer;
use pulsar_wire::commands::producer::CommandSendReceipt;
use pulsar_wire::error::{ConnectionError, Error, ProducerError};
use std::alloc::Global;

/// A send that has been asked for, by its ticket.
#[derive(Clone, Copy, Debug, PartialEq, Eq)]
pub struct SendFuture {
    pub ticket: u64,
}

impl SendFuture {
    /// What the send has ended with, and none while it waits. It is told once: then, and for a ticket that was never drawn, and where
    /// the call ended with anything else than a receipt, it is Producer(Custom).
    pub fn poll(&mut self, client: &mut Pulsar) -> Option<Result<CommandSendReceipt, Error>>
        ensures polled { Always (λ p. routes p) client.old (λ o h taken. IsPolled result self.old.ticket h taken) }
        ensures stands { Always (λ p. routes p) client.old (λ o h taken. StandsFor (λ p. routes p) o client.new h (taken_with self.old.ticket h taken)) }
        ensures same { self.new ≡ self.old }
    {
        let taken = client.take_answer(self.ticket);
        told(client.allocator(), taken)
    }
}

/// What there is of the ticket of a send.
fn told(alloc: Global, taken: Taken) -> Option<Result<CommandSendReceipt, Error>>
    ensures { (t : ℕ) (h : List Step) (ts : List ℕ) → IsTaken taken t h ts → IsPolled result t h ts }
{
    match taken {
        Taken::Waiting => None,
        Taken::Answer(answer) => Some(receipt_in(alloc, answer)),
        Taken::Unknown => Some(Err(lost(alloc))),
    }
}

/// The receipt in what a send ended with.
fn receipt_in(alloc: Global, answer: Result<Answer, Error>) -> Result<CommandSendReceipt, Error>
    ensures { MatchResult result (λ r. polled_answer (said answer) ≡ poll_said (Ok r))
        (λ e. (polled_answer (said answer) ≡ Err (failure e)) ⊎ (IsNoMemory (failure e) × (polled_answer (said answer) ≡ Err is_lost))) }
{
    match answer {
        Ok(answer) => match receipt_of(answer) {
            Some(receipt) => Ok(receipt),
            None => Err(lost(alloc)),
        },
        Err(error) => Err(error),
    }
}

fn receipt_of(answer: Answer) -> Option<CommandSendReceipt>
    ensures { MatchOption result (polled_answer (answered answer) ≡ Err is_lost) (λ r. polled_answer (answered answer) ≡ poll_said (Ok r)) }
{
    answer.into_receipt()
}

/// There is no receipt.
fn lost(alloc: Global) -> Error
    ensures { IsNoMemory (failure result) ⊎ (failure result ≡ is_lost) }
{
    match String::from_str(alloc, "producer unexpectedly disconnected") {
        Ok(text) => Error::Producer(ProducerError::Custom(text)),
        Err(_) => Error::Connection(ConnectionError::NoMemory),
    }
}
