//! The batches of a topic producer: one after the other is taken, sent, and settled.

ghost use Rattle.std.specs.Prelude.{◌≡◌, IfOk};
ghost use Rattle.pulsar_producer.specs.Batching as meaning;

use crate::deed::{Deed, News};
use crate::sending::{self, Sending, Sent};
use pulsar_outgoing::batch::Fate;
use pulsar_outgoing::content::{Batch, Members};
use pulsar_outgoing::orders::Errand;
use pulsar_searches::transition::Transition;
use pulsar_searches::turn::Ways;
use pulsar_wire::error::NoMemory;
use std::alloc::Global;

/// Where the batches of a topic producer stand.
#[derive(Drop)]
pub enum Batching {
    /// None is under way.
    Resting,
    /// The next one is taken.
    Taking,
    /// One is sent. So many messages are in it, and these wait for what becomes of it.
    Sending {
        members: Members,
        count: usize,
        sending: Sending,
    },
    /// Those are told.
    Settling,
}

/// Where they stand now, and what is done there.
#[derive(Drop)]
pub struct Goes {
    pub state: Batching,
    pub deed: Deed,
}

impl Batching {
    /// The frame of a batch is queued, and what becomes of that is waited for.
    pub fn is_sent(&self) -> bool
        ensures { result ≡ meaning.is_sent self.now }
    {
        match self {
            Batching::Sending { sending, .. } => sending.is_sent(),
            Batching::Resting | Batching::Taking | Batching::Settling => false,
        }
    }
}

/// Where they begin.
pub fn begins() -> Goes
    ensures { result ≡ meaning.begins }
{
    rests()
}

/// What news make of them.
pub fn told(
    alloc: Global,
    ways: &Ways,
    errand: Errand,
    state: Batching,
    news: News,
) -> Result<Goes, NoMemory>
    ensures { IfOk result (λ goes. goes ≡ meaning.told ways.now errand state news) }
{
    match state {
        Batching::Resting => Ok(in_resting(errand, news)),
        Batching::Taking => in_taking(alloc, errand, news),
        Batching::Sending {
            members,
            count,
            sending,
        } => {
            let step = sending::told(alloc, ways, errand, sending, news)?;
            sends(alloc, members, count, step)
        }
        Batching::Settling => Ok(takes(errand)),
    }
}

/// The client is stopped.
pub fn halted(alloc: Global, state: Batching) -> Result<Goes, NoMemory>
    ensures { IfOk result (λ goes. goes ≡ meaning.halted state) }
{
    match state {
        Batching::Sending {
            members,
            count,
            sending,
        } => cuts_off(alloc, sending.is_sent(), &members, count),
        Batching::Resting | Batching::Taking | Batching::Settling => Ok(rests()),
    }
}

/// What is not sent yet is halted; a batch whose receipt is waited for fails with its connection.
fn cuts_off(alloc: Global, is_sent: bool, members: &Members, count: usize) -> Result<Goes, NoMemory>
    ensures { IfOk result (λ goes. goes ≡ meaning.cuts_off is_sent members.now count) }
{
    if !is_sent {
        return settles(alloc, members, count, &Fate::Halted);
    }
    Ok(Goes {
        state: Batching::Settling,
        deed: Deed::Settles(members.cut(alloc)?),
    })
}

/// It waits until a batch was cut.
fn rests() -> Goes
    ensures { result ≡ meaning.rests }
{
    Goes {
        state: Batching::Resting,
        deed: Deed::Rests,
    }
}

fn takes(errand: Errand) -> Goes
    ensures { result ≡ meaning.takes errand }
{
    Goes {
        state: Batching::Taking,
        deed: Deed::TakesBatch(errand.producer),
    }
}

fn in_resting(errand: Errand, news: News) -> Goes
    ensures { result ≡ meaning.in_resting errand news }
{
    match news {
        News::Ready => takes(errand),
        _ => rests(),
    }
}

fn in_taking(alloc: Global, errand: Errand, news: News) -> Result<Goes, NoMemory>
    ensures { IfOk result (λ goes. goes ≡ meaning.in_taking errand news) }
{
    match news {
        News::HasBatch(Some(batch)) => starts(alloc, errand, batch),
        _ => Ok(rests()),
    }
}

/// A batch begins. Where nothing but a flush was cut nothing is sent.
fn starts(alloc: Global, errand: Errand, batch: Batch) -> Result<Goes, NoMemory>
    ensures { IfOk result (λ goes. goes ≡ meaning.starts errand batch) }
{
    let members = batch.members()?;
    let count = batch.count();
    if count == 0 {
        return settles(alloc, &members, 0, &Fate::Flushed);
    }
    match batch.message(alloc)? {
        Ok(message) => sends(alloc, members, count, sending::begins(errand, message)),
        Err(reason) => settles(alloc, &members, count, &Fate::not_written(alloc, reason)?),
    }
}

/// A batch is sent as one message.
fn sends(alloc: Global, members: Members, count: usize, step: Sent) -> Result<Goes, NoMemory>
    ensures { IfOk result (λ goes. goes ≡ meaning.sends members count step) }
{
    match step {
        Transition::Stays(sending, deed) => Ok(Goes {
            state: Batching::Sending {
                members,
                count,
                sending,
            },
            deed,
        }),
        Transition::Gives(Ok(reply)) => settles(
            alloc,
            &members,
            count,
            &Fate::of_reply(alloc, &reply)?,
        ),
        Transition::Gives(Err(refusal)) => settles(
            alloc,
            &members,
            count,
            &Fate::failed(alloc, refusal)?,
        ),
    }
}

/// Those whose messages were in a batch are told what became of it.
fn settles(alloc: Global, members: &Members, count: usize, fate: &Fate) -> Result<Goes, NoMemory>
    ensures { IfOk result (λ goes. goes ≡ meaning.settles members.now count fate.now) }
{
    let reports = members.reports(alloc, count, fate)?;
    Ok(Goes {
        state: Batching::Settling,
        deed: Deed::Settles(reports),
    })
}
