//! Which broker serves a topic.

ghost use Rattle.std.specs.Prelude.{◌≡◌, IfOk};
ghost use Rattle.pulsar_wire.specs.Failures.{fault};
ghost use Rattle.pulsar_searches.specs.Plans as meaning;
ghost use Rattle.pulsar_addresses.specs.Address.{in_discovery};

use crate::question::Request;
use crate::replies::{Heard, Pointed, place_in};
use crate::transition::Transition;
use crate::turn::{Action, SearchOutcome, SearchTransition, Ways, error_of, is_lost};
use pulsar_addresses::content::{Address, Refusal, Text};
use pulsar_wire::error::{ConnectionError, NoMemory};
use std::alloc::Global;

/// A question: which address is asked, whether with authority, whether it may be asked once more, and the retries so far.
#[derive(Drop)]
pub struct Search {
    pub last: Address,
    pub authority: bool,
    pub again: bool,
    pub retries: u32,
}

/// Where the search stands.
#[derive(Drop)]
pub enum Looking {
    /// It waits for a link to the address that is asked.
    Getting(Search),
    /// It waits for the answer.
    Asked { search: Search, link: u64 },
    /// It waits for the moment of its retry.
    Resting { search: Search, link: u64 },
    /// It waits for a link to the broker that it found.
    Reaching(Address),
}

/// Where it begins.
pub fn begins(
    alloc: Global,
    ways: &Ways,
) -> Result<SearchTransition<Looking, Result<Address, Refusal>>, NoMemory>
    ensures { IfOk result (λ turn. turn ≡ meaning.look_begins ways.now) }
{
    let search = Search {
        last: ways.base.copy(alloc)?,
        authority: false,
        again: true,
        retries: 0,
    };
    gets(alloc, search)
}

/// What an outcome makes of it.
pub fn told(
    alloc: Global,
    ways: &Ways,
    topic: &Text,
    looking: Looking,
    outcome: SearchOutcome,
) -> Result<SearchTransition<Looking, Result<Address, Refusal>>, NoMemory>
    ensures { IfOk result (λ turn. turn ≡ meaning.look_told ways.now topic.now looking outcome) }
{
    match looking {
        Looking::Getting(search) => match outcome {
            SearchOutcome::GotLink(link) => asks(alloc, topic, search, link),
            outcome => fails(alloc, error_of(outcome)),
        },
        Looking::Asked { search, link } => match outcome {
            SearchOutcome::Replied(reply) => {
                let heard = place_in(alloc, ways, search.last.is_proxy(), search.retries, &reply)?;
                told_by(alloc, ways, search, link, heard)
            }
            outcome => failed(alloc, search, error_of(outcome)),
        },
        Looking::Resting { search, link } => match outcome {
            SearchOutcome::Woken => asks(alloc, topic, asked_anew(search), link),
            outcome => fails(alloc, error_of(outcome)),
        },
        Looking::Reaching(found) => match outcome {
            SearchOutcome::GotLink(_) => Ok(Transition::Gives(Ok(found))),
            outcome => fails(alloc, error_of(outcome)),
        },
    }
}

/// A link to the address is got.
fn gets(
    alloc: Global,
    search: Search,
) -> Result<SearchTransition<Looking, Result<Address, Refusal>>, NoMemory>
    ensures { IfOk result (λ turn. turn ≡ meaning.look_gets search) }
{
    let address = search.last.copy(alloc)?;
    Ok(Transition::Stays(Looking::Getting(search), Action::Get(address)))
}

fn asks(
    alloc: Global,
    topic: &Text,
    search: Search,
    link: u64,
) -> Result<SearchTransition<Looking, Result<Address, Refusal>>, NoMemory>
    ensures { IfOk result (λ turn. turn ≡ meaning.look_asks topic.now search link) }
{
    let request = Request::lookup_topic(alloc, topic.as_str(), search.authority)?;
    Ok(Transition::Stays(
        Looking::Asked { search, link },
        Action::Ask { link, request },
    ))
}

/// The same question once more, after a wait: it is a new one.
fn asked_anew(search: Search) -> Search
    ensures { result ≡ meaning.asked_anew search }
{
    Search {
        last: search.last,
        authority: search.authority,
        again: true,
        retries: search.retries.saturating_add(1),
    }
}

fn fails(
    alloc: Global,
    error: ConnectionError,
) -> Result<SearchTransition<Looking, Result<Address, Refusal>>, NoMemory>
    ensures { IfOk result (λ turn. turn ≡ meaning.fails (in_discovery (fault error))) }
{
    Ok(Transition::Gives(Err(Refusal::in_discovery(alloc, error)?)))
}

fn failed(
    alloc: Global,
    search: Search,
    error: ConnectionError,
) -> Result<SearchTransition<Looking, Result<Address, Refusal>>, NoMemory>
    ensures { IfOk result (λ turn. turn ≡ meaning.look_failed search (fault error)) }
{
    if search.again && is_lost(&error) {
        gets(
            alloc,
            Search {
                last: search.last,
                authority: search.authority,
                again: false,
                retries: search.retries,
            },
        )
    } else {
        fails(alloc, error)
    }
}

/// What a reply says.
fn told_by(
    alloc: Global,
    ways: &Ways,
    search: Search,
    link: u64,
    heard: Heard<Pointed>,
) -> Result<SearchTransition<Looking, Result<Address, Refusal>>, NoMemory>
    ensures { IfOk result (λ turn. turn ≡ meaning.look_heard ways.now search link heard) }
{
    match heard {
        Heard::Says(pointed) => points(alloc, search.retries, pointed),
        Heard::Later => Ok(Transition::Stays(
            Looking::Resting { search, link },
            Action::Wait(ways.retry_delay),
        )),
        Heard::Denies(refusal) => Ok(Transition::Gives(Err(refusal))),
    }
}

/// Another broker is to be asked, or this one serves.
fn points(
    alloc: Global,
    retries: u32,
    pointed: Pointed,
) -> Result<SearchTransition<Looking, Result<Address, Refusal>>, NoMemory>
    ensures { IfOk result (λ turn. turn ≡ meaning.look_pointed retries pointed) }
{
    match pointed {
        Pointed::Redirects(last, authority) => gets(
            alloc,
            Search {
                last,
                authority,
                again: true,
                retries,
            },
        ),
        Pointed::Serves(found) => {
            let address = found.copy(alloc)?;
            Ok(Transition::Stays(Looking::Reaching(found), Action::Get(address)))
        }
    }
}
