//! The names of a topic: the topic itself, or its partitions.

ghost use Rattle.std.specs.Prelude.{◌≡◌, ◌-◌, [], Ok, Err, IfOk};
ghost use Rattle.pulsar_searches.specs.Plans as meaning;
ghost use Rattle.pulsar_addresses.specs.Address as addresses;
ghost use Rattle.pulsar_searches.specs.declared.transition.Transition.TheVariants.{Gives};

use crate::count::{self, Counting};
use crate::look::{self, Looking};
use crate::transition::Transition;
use crate::turn::{SearchOutcome, SearchTransition, Ways};
use pulsar_addresses::content::{Address, Names, Refusal, Text};
use pulsar_wire::error::NoMemory;
use std::alloc::Global;

/// A partition that is looked for: its name, how many there are, how many are left behind it, and those that were found.
#[derive(Drop)]
pub struct Part {
    pub name: Text,
    pub count: u32,
    pub left: u32,
    pub found: Names,
}

/// Where the search stands.
#[derive(Drop)]
pub enum Naming {
    /// It waits for the number of partitions.
    Counting(Counting),
    /// It looks for the topic itself.
    Whole(Looking),
    /// It looks for one of the partitions.
    Part { look: Looking, part: Part },
}

/// Where it begins.
pub fn begins(
    alloc: Global,
    ways: &Ways,
    topic: &Text,
) -> Result<SearchTransition<Naming, Result<Names, Refusal>>, NoMemory>
    ensures { IfOk result (λ turn. turn ≡ meaning.names_begins ways.now topic.now) }
{
    let turn = count::begins(alloc, ways, topic)?;
    after_count(alloc, ways, topic, turn)
}

/// What an outcome makes of it.
pub fn told(
    alloc: Global,
    ways: &Ways,
    topic: &Text,
    naming: Naming,
    outcome: SearchOutcome,
) -> Result<SearchTransition<Naming, Result<Names, Refusal>>, NoMemory>
    ensures { IfOk result (λ turn. turn ≡ meaning.names_told ways.now topic.now naming outcome) }
{
    match naming {
        Naming::Counting(counting) => {
            let turn = count::told(alloc, ways, topic, counting, outcome)?;
            after_count(alloc, ways, topic, turn)
        }
        Naming::Whole(look) => {
            let turn = look::told(alloc, ways, topic, look, outcome)?;
            after_whole(alloc, topic, turn)
        }
        Naming::Part { look, part } => {
            let turn = look::told(alloc, ways, &part.name, look, outcome)?;
            after_part(alloc, ways, topic, part, turn)
        }
    }
}

/// The number of partitions is asked for.
fn after_count(
    alloc: Global,
    ways: &Ways,
    topic: &Text,
    turn: SearchTransition<Counting, Result<u32, Refusal>>,
) -> Result<SearchTransition<Naming, Result<Names, Refusal>>, NoMemory>
    ensures { IfOk result (λ next. next ≡ meaning.and_then turn Naming.Counting (meaning.names_of ways.now topic.now)) }
{
    match turn {
        Transition::Stays(counting, action) => Ok(Transition::Stays(
            Naming::Counting(counting),
            action,
        )),
        Transition::Gives(Ok(count)) => names_of(alloc, ways, topic, count),
        Transition::Gives(Err(refusal)) => Ok(Transition::Gives(Err(refusal))),
    }
}

fn names_of(
    alloc: Global,
    ways: &Ways,
    topic: &Text,
    count: u32,
) -> Result<SearchTransition<Naming, Result<Names, Refusal>>, NoMemory>
    ensures { IfOk result (λ turn. turn ≡ meaning.names_of ways.now topic.now count) }
{
    if count == 0 {
        let turn = look::begins(alloc, ways)?;
        after_whole(alloc, topic, turn)
    } else {
        names_left(alloc, ways, topic, count, count, Names::new(alloc))
    }
}

/// The topic itself is looked for.
fn after_whole(
    alloc: Global,
    topic: &Text,
    turn: SearchTransition<Looking, Result<Address, Refusal>>,
) -> Result<SearchTransition<Naming, Result<Names, Refusal>>, NoMemory>
    ensures { IfOk result (λ next. next ≡ meaning.and_then turn Naming.Whole (λ place. Gives (Ok (addresses.name_found [] topic.now place)))) }
{
    match turn {
        Transition::Stays(look, action) => Ok(Transition::Stays(Naming::Whole(look), action)),
        Transition::Gives(Ok(address)) => {
            let names = Names::new(alloc).with(topic.copy()?, address)?;
            Ok(Transition::Gives(Ok(names)))
        }
        Transition::Gives(Err(refusal)) => Ok(Transition::Gives(Err(refusal))),
    }
}

/// The partitions that are left are looked for.
fn names_left(
    alloc: Global,
    ways: &Ways,
    topic: &Text,
    count: u32,
    left: u32,
    found: Names,
) -> Result<SearchTransition<Naming, Result<Names, Refusal>>, NoMemory>
    ensures { IfOk result (λ turn. turn ≡ meaning.names_left ways.now topic.now count left found) }
{
    if left == 0 {
        return Ok(Transition::Gives(Ok(found)));
    }
    let part = Part {
        name: partition_name(alloc, topic.as_str(), count.saturating_sub(left))?,
        count,
        left: left - 1,
        found,
    };
    let turn = look::begins(alloc, ways)?;
    Ok(begun(part, turn))
}

/// A partition's search has begun.
fn begun(
    part: Part,
    turn: SearchTransition<Looking, Result<Address, Refusal>>,
) -> SearchTransition<Naming, Result<Names, Refusal>>
    ensures { result ≡ meaning.and_then turn (λ l. Naming.Part l part) (λ place. Gives (Ok part.found)) }
{
    match turn {
        Transition::Stays(look, action) => Transition::Stays(Naming::Part { look, part }, action),
        Transition::Gives(Ok(_)) => Transition::Gives(Ok(part.found)),
        Transition::Gives(Err(refusal)) => Transition::Gives(Err(refusal)),
    }
}

fn partition_name(alloc: Global, topic: &str, index: u32) -> Result<Text, NoMemory>
    ensures { IfOk result (λ name. name ≡ meaning.partition_name topic.now index) }
{
    Ok(Text::new(format!(in alloc; "{topic}-partition-{index}")?))
}

/// A partition is looked for.
fn after_part(
    alloc: Global,
    ways: &Ways,
    topic: &Text,
    part: Part,
    turn: SearchTransition<Looking, Result<Address, Refusal>>,
) -> Result<SearchTransition<Naming, Result<Names, Refusal>>, NoMemory>
    ensures { IfOk result (λ next. next ≡ meaning.and_then turn (λ l. Naming.Part l part)
        (λ place. meaning.names_left ways.now topic.now part.count part.left (addresses.name_found part.found part.name place))) }
{
    match turn {
        Transition::Stays(look, action) => Ok(Transition::Stays(
            Naming::Part { look, part },
            action,
        )),
        Transition::Gives(Ok(address)) => {
            let Part {
                name,
                count,
                left,
                found,
            } = part;
            let found = found.with(name, address)?;
            names_left(alloc, ways, topic, count, left, found)
        }
        Transition::Gives(Err(refusal)) => Ok(Transition::Gives(Err(refusal))),
    }
}
