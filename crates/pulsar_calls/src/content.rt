//! What a call says, what it ends with, and why something failed. It is boxed, so that acts are small. Contracts see it by its
//! content.

ghost use Rattle.std.specs.Prelude.{◌≡◌, [], ◌∷◌, ◌++◌, ℕ, List, Result, IfOk, drop};
ghost use Rattle.pulsar_calls.specs.Content as content;
ghost use Rattle.pulsar_calls.specs.Content.{asked, said};
ghost use Rattle.pulsar_calls.specs.Content.{numbers_from};
ghost use Rattle.pulsar_calls.specs.Content.{next_advice};
ghost use Rattle.pulsar_calls.specs.Parts.{failed_with, outcome_at, outcomes_of, sent_from};
ghost use Rattle.pulsar_wire.specs.declared.error.Error.{Error as Meant};
ghost use Rattle.pulsar_wire.specs.Failures.{sent};

use crate::act::Notice;
use crate::boxed::Boxed;
use crate::effect::Answer;
use crate::event::Call;
use pulsar_addresses::content::{Refusal, Text};
use pulsar_incoming::settings::Settings as Config;
use pulsar_outgoing::content::{Parts, Settings};
use pulsar_outgoing::news;
use pulsar_outgoing::replies::Given;
use pulsar_searches::making::Command;
use pulsar_searches::turn::SearchOutcome;
use pulsar_wire::error::{Error, NoMemory, ProducerError};
use std::alloc::Global;
use std::collections::{BTreeMap, VecDeque};
use std::marker::Model;

/// What the plan of a send is told.
pub type News = news::News<SearchOutcome, Command>;

/// What a user asks of the client.
pub struct Asking {
    call: Box<Call>,
}

impl Drop for Asking {
    fn drop(self) {
        let Asking { call: _ } = self;
    }
}

impl Model for Asking {
    ghost use Rattle.pulsar_calls.specs.Content.{Asked, asked};

    ghost Value = { Asked };

    ghost view = { λ a. asked a.call.value };
}

impl Asking {
    pub fn new(alloc: Global, call: Call) -> Result<Asking, NoMemory>
        ensures { IfOk result (λ a. a ≡ asked call) }
    {
        let call = Box::new(alloc, call)?;
        Ok(Asking { call })
    }

    /// The call to be looked at.
    pub fn call(&self) -> &Call
        ensures { asked result.now ≡ self.now }
    {
        &self.call
    }

    pub fn into_inner(self) -> Call
        ensures { asked result ≡ self }
    {
        let Asking { call } = self;
        Box::into_inner(call)
    }
}

/// What a call ends with.
pub struct Said {
    answer: Box<Result<Answer, Error>>,
}

impl Drop for Said {
    fn drop(self) {
        let Said { answer: _ } = self;
    }
}

impl Model for Said {
    ghost use Rattle.pulsar_calls.specs.Content as content;
    ghost use Rattle.pulsar_calls.specs.Content.{said};
    ghost use Rattle.pulsar_wire.specs.FailureCode.{failure_code};
    ghost use Rattle.std.specs.Coded.{codes};

    ghost Value = { content.Said };

    ghost coded = { Prim.hlevel (codes, failure_code (Prim.hlevel codes)) };

    ghost view = { λ s. said s.answer.value };
}

impl Said {
    pub fn new(alloc: Global, answer: Result<Answer, Error>) -> Result<Said, NoMemory>
        ensures { IfOk result (λ s. s ≡ said answer) }
    {
        let answer = Box::new(alloc, answer)?;
        Ok(Said { answer })
    }

    pub fn into_inner(self) -> Result<Answer, Error>
        ensures { said result ≡ self }
    {
        let Said { answer } = self;
        Box::into_inner(answer)
    }
}

/// What comes of what is asked of a topic producer, or of their numbers.
pub type Granted = Boxed<News>;

/// A topic producer that was made again: its link, and what its broker says of it.
#[derive(Drop)]
pub struct Remaking {
    pub link: u64,
    pub given: Given,
}

/// The same in a box.
pub type Remade = Boxed<Remaking>;

/// A producer that was built: its topic, how it is made and sends, and its topic producers in order.
#[derive(Drop)]
pub struct BuiltProducer {
    pub topic: Text,
    pub settings: Settings,
    pub parts: Parts,
}

/// The same in a box.
pub type Made = Boxed<BuiltProducer>;

/// A consumer that was made: the name of its topic, its number, how it is made, and the link of its subscription.
#[derive(Drop)]
pub struct Joining {
    pub topic: Text,
    pub number: u64,
    pub config: Config,
    pub link: u64,
}

/// The same in a box.
pub type Joined = Boxed<Joining>;

/// The command by which a consumer is subscribed again, in a box.
pub type Recalled = Boxed<Command>;

/// What others are told, in order.
pub struct Notices {
    all: VecDeque<Notice>,
}

impl Drop for Notices {
    fn drop(self) {
        let Notices { all: _ } = self;
    }
}

impl Model for Notices {
    ghost use Rattle.std.specs.Prelude.{List};
    ghost use Rattle.pulsar_calls.specs.declared.act.Notice.{Notice};
    ghost use Rattle.pulsar_wire.specs.FailureCode.{failure_code};
    ghost use Rattle.std.specs.Coded.{codes};

    ghost Value = { List Notice };

    ghost coded = { Prim.hlevel (codes, failure_code (Prim.hlevel codes)) };

    ghost view = { λ n. n.all.items };
}

impl Notices {
    /// None.
    pub fn new(alloc: Global) -> Notices
        ensures { result ≡ [] }
    {
        Notices {
            all: VecDeque::new(alloc),
        }
    }

    /// One more behind these.
    pub fn with(self, notice: Notice) -> Result<Notices, NoMemory>
        ensures { IfOk result (λ n. n ≡ self ++ notice ∷ []) }
    {
        let Notices { mut all } = self;
        all.push_back(notice)?;
        Ok(Notices { all })
    }

    /// All of them.
    pub fn into_inner(self) -> VecDeque<Notice>
        ensures { result.items ≡ self }
    {
        let Notices { all } = self;
        all
    }
}

/// What policies say of the messages that a call sends, one by one.
pub struct Advice {
    all: VecDeque<Option<usize>>,
}

impl Drop for Advice {
    fn drop(self) {
        let Advice { all: _ } = self;
    }
}

impl Model for Advice {
    ghost use Rattle.std.specs.Prelude.{ℕ, List, Option};

    ghost Value = { List (Option ℕ) };

    ghost view = { λ a. a.all.items };
}

impl Advice {
    /// Nothing is said.
    pub fn new(alloc: Global) -> Advice
        ensures { result ≡ [] }
    {
        Advice {
            all: VecDeque::new(alloc),
        }
    }

    /// And this of one more message.
    pub fn with(self, index: Option<usize>) -> Result<Advice, NoMemory>
        ensures { IfOk result (λ a. a ≡ self ++ index ∷ []) }
    {
        let Advice { mut all } = self;
        all.push_back(index)?;
        Ok(Advice { all })
    }

    /// What is said of the next message.
    pub fn next(&mut self) -> Option<usize>
        ensures index { result ≡ next_advice self.old }
        ensures left { self.new ≡ drop 1 self.old }
    {
        self.all.pop_front()?
    }
}

/// The sends that failed before they were queued, by ticket, and why.
pub struct Failures {
    all: BTreeMap<u64, Refusal>,
}

impl Drop for Failures {
    fn drop(self) {
        let Failures { all: _ } = self;
    }
}

impl Model for Failures {
    ghost use Rattle.std.specs.Prelude.{ℕ, List};
    ghost use Rattle.pulsar_wire.specs.Failures.{Failure};
    ghost use Rattle.pulsar_wire.specs.FailureCode.{failure_code};
    ghost use Rattle.std.specs.Coded.{codes};

    // the tickets with the failures, in their order
    ghost Value = { List (ℕ × Failure) };

    ghost coded = { Prim.hlevel (codes, failure_code (Prim.hlevel codes)) };

    ghost view = { λ f. f.all.entries };
}

impl Failures {
    /// None failed.
    pub fn new(alloc: Global) -> Failures
        ensures { result ≡ [] }
    {
        Failures {
            all: BTreeMap::new(alloc),
        }
    }

    /// The send of this ticket failed so, or did not fail.
    pub fn with(self, ticket: u64, failure: Option<Refusal>) -> Result<Failures, NoMemory>
        ensures { IfOk result (λ f. f ≡ failed_with ticket failure self) }
    {
        let Some(refusal) = failure else {
            return Ok(self);
        };
        let Failures { mut all } = self;
        all.insert(ticket, refusal)?;
        Ok(Failures { all })
    }

    /// What became of so many sends, whose tickets begin with this one.
    pub fn outcome(
        self,
        alloc: Global,
        first: u64,
        count: u64,
    ) -> Result<Result<Answer, Error>, NoMemory>
        ensures { IfOk result (λ answer. said answer ≡ sent_from first count self) }
    {
        if self.all.is_empty() {
            return Ok(Ok(Answer::Sends(tickets(alloc, first, count)?)));
        }
        let partial = self.partial(alloc, first, count)?;
        Ok(Err(Error::Producer(ProducerError::PartialSend(partial))))
    }

    fn partial(
        self,
        alloc: Global,
        first: u64,
        count: u64,
    ) -> Result<Vec<Result<u64, Error>>, NoMemory>
        ensures { IfOk result (λ sends. sent sends.items ≡ outcomes_of self (numbers_from first count)) }
    {
        let Failures { mut all } = self;
        let mut sent = Vec::new(alloc);
        let Some(after) = first.checked_add(count) else {
            return Err(NoMemory);
        };
        for ticket in first..after {
            sent.push(became(ticket, all.remove(&ticket)))?;
        }
        Ok(sent)
    }
}

/// What became of the send of a ticket that failed so, or did not fail.
fn became(ticket: u64, failure: Option<Refusal>) -> Result<u64, Error>
    ensures { (more : List (Result ℕ Meant)) → sent (result ∷ more) ≡ outcome_at ticket failure (sent more) }
{
    match failure {
        Some(refusal) => Err(refusal.into_inner()),
        None => Ok(ticket),
    }
}

/// So many tickets, from this one on.
fn tickets(alloc: Global, first: u64, count: u64) -> Result<Vec<u64>, NoMemory>
    ensures { IfOk result (λ ts. ts.items ≡ numbers_from first count) }
{
    let mut tickets = Vec::new(alloc);
    let Some(after) = first.checked_add(count) else {
        return Err(NoMemory);
    };
    for ticket in first..after {
        tickets.push(ticket)?;
    }
    Ok(tickets)
}
