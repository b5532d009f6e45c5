//! The building of a producer: the names of its topic, and for each a topic producer.

ghost use Rattle.std.specs.Prelude.{◌≡◌, IfOk};
ghost use Rattle.pulsar_producer.specs.Plans as meaning;

use crate::deed::{Deed, News, error_told};
use crate::topic_producer::command;
use pulsar_addresses::content::{Address, Names, Refusal, Text};
use pulsar_outgoing::content::{Built, Left, Parts, Settings};
use pulsar_outgoing::orders::ProducerOrder;
use pulsar_outgoing::replies::given_by;
use pulsar_searches::making::{self, Command, Making, Served};
use pulsar_searches::names::{self, Naming};
use pulsar_searches::transition::Transition;
use pulsar_searches::turn::{SearchTransition, Ways};
use pulsar_wire::error::NoMemory;
use std::alloc::Global;

/// A topic, or a partition of one, for which a number is drawn: its broker, the names that are left behind it, and the topic producers
/// that were made before it.
#[derive(Drop)]
pub struct Part {
    pub topic: Text,
    pub place: Address,
    pub left: Left,
    pub made: Parts,
}

/// Where a building stands.
#[derive(Drop)]
pub enum BuildingProducer {
    /// It finds the names of the topic.
    Naming(Naming),
    /// It draws a number.
    Numbering(Part),
    /// It makes a topic producer of this number.
    Making {
        command: Command,
        making: Making,
        number: u64,
        left: Left,
        made: Parts,
    },
    /// It closes those that it made, and then it fails.
    Closing {
        left: Parts,
        refusal: Refusal,
    },
}

/// What a building gives at its end.
pub type Builds = Transition<BuildingProducer, Deed, Result<Parts, Refusal>>;

/// Where it begins.
pub fn begins(alloc: Global, ways: &Ways, order: &ProducerOrder) -> Result<Builds, NoMemory>
    ensures { IfOk result (λ step. step ≡ meaning.build_begins ways.now order.now) }
{
    let turn = names::begins(alloc, ways, &order.topic)?;
    names(alloc, turn)
}

/// What news make of it.
pub fn told(
    alloc: Global,
    ways: &Ways,
    order: &ProducerOrder,
    building: BuildingProducer,
    news: News,
) -> Result<Builds, NoMemory>
    ensures { IfOk result (λ step. step ≡ meaning.build_told ways.now order.now building news) }
{
    match building {
        BuildingProducer::Naming(naming) => in_naming(alloc, ways, order, naming, news),
        BuildingProducer::Numbering(part) => in_numbering(alloc, order, part, news),
        BuildingProducer::Making {
            command,
            making,
            number,
            left,
            made,
        } => in_producing(alloc, ways, command, making, number, left, made, news),
        BuildingProducer::Closing { left, refusal } => Ok(in_closing(left, refusal, news)),
    }
}

fn in_naming(
    alloc: Global,
    ways: &Ways,
    order: &ProducerOrder,
    naming: Naming,
    news: News,
) -> Result<Builds, NoMemory>
    ensures { IfOk result (λ step. step ≡ meaning.in_naming ways.now order.now naming news) }
{
    match news {
        News::Told(outcome) => {
            let turn = names::told(alloc, ways, &order.topic, naming, outcome)?;
            names(alloc, turn)
        }
        _ => Ok(Transition::Stays(BuildingProducer::Naming(naming), Deed::Rests)),
    }
}

fn in_numbering(
    alloc: Global,
    order: &ProducerOrder,
    part: Part,
    news: News,
) -> Result<Builds, NoMemory>
    ensures { IfOk result (λ step. step ≡ meaning.in_numbering order.now part news) }
{
    match news {
        News::Numbered(number) => numbered(alloc, order, part, number),
        News::Done => Ok(Transition::Stays(BuildingProducer::Numbering(part), Deed::Numbers)),
        news => {
            let refusal = Refusal::in_connection(alloc, error_told(news))?;
            Ok(closes(part.made, refusal))
        }
    }
}

fn in_producing(
    alloc: Global,
    ways: &Ways,
    command: Command,
    making: Making,
    number: u64,
    left: Left,
    made: Parts,
    news: News,
) -> Result<Builds, NoMemory>
    ensures { IfOk result (λ step. step ≡ meaning.in_producing ways.now command making number left made news) }
{
    match news {
        News::Told(outcome) => {
            let turn = making::told(alloc, ways, &command, making, outcome)?;
            makes(alloc, command, number, left, made, turn)
        }
        _ => Ok(Transition::Stays(
            BuildingProducer::Making {
                command,
                making,
                number,
                left,
                made,
            },
            Deed::Rests,
        )),
    }
}

fn in_closing(left: Parts, refusal: Refusal, news: News) -> Builds
    ensures { result ≡ meaning.in_closing left refusal news }
{
    match news {
        News::Told(_) => closes(left, refusal),
        _ => Transition::Stays(BuildingProducer::Closing { left, refusal }, Deed::Rests),
    }
}

/// The names of the topic are looked for.
fn names(
    alloc: Global,
    turn: SearchTransition<Naming, Result<Names, Refusal>>,
) -> Result<Builds, NoMemory>
    ensures { IfOk result (λ step. step ≡ meaning.build_names turn) }
{
    match turn {
        Transition::Stays(naming, action) => Ok(Transition::Stays(
            BuildingProducer::Naming(naming),
            Deed::Does(action),
        )),
        Transition::Gives(Ok(names)) => next(
            alloc,
            Left::new(names),
            Parts::new(alloc),
            Deed::Numbers,
        ),
        Transition::Gives(Err(refusal)) => Ok(Transition::Gives(Err(refusal))),
    }
}

/// The next of the names that are left, behind those for which a topic producer was made. This is done before it.
fn next(alloc: Global, mut left: Left, made: Parts, deed: Deed) -> Result<Builds, NoMemory>
    ensures { IfOk result (λ step. step ≡ meaning.build_next deed left made) }
{
    match left.next(alloc)? {
        Some((topic, place)) => Ok(Transition::Stays(
            BuildingProducer::Numbering(Part {
                topic,
                place,
                left,
                made,
            }),
            deed,
        )),
        None => Ok(Transition::Gives(Ok(made))),
    }
}

/// The topic producer of this number is made.
fn numbered(
    alloc: Global,
    order: &ProducerOrder,
    part: Part,
    number: u64,
) -> Result<Builds, NoMemory>
    ensures { IfOk result (λ step. step ≡ meaning.build_numbered order.now part number) }
{
    let Part {
        topic,
        place,
        left,
        made,
    } = part;
    let name = match &order.name {
        Some(name) => Some(name.copy()?),
        None => None,
    };
    let command = command(alloc, &topic, number, name, &order.options)?;
    makes(alloc, command, number, left, made, making::gets(0, place))
}

/// A topic producer is made.
fn makes(
    alloc: Global,
    command: Command,
    number: u64,
    left: Left,
    made: Parts,
    turn: SearchTransition<Making, Result<Served, Refusal>>,
) -> Result<Builds, NoMemory>
    ensures { IfOk result (λ step. step ≡ meaning.build_makes command number left made turn) }
{
    match turn {
        Transition::Stays(making, action) => Ok(Transition::Stays(
            BuildingProducer::Making {
                command,
                making,
                number,
                left,
                made,
            },
            Deed::Does(action),
        )),
        Transition::Gives(Ok(served)) => {
            let link = served.link;
            let built = built(alloc, command.topic, number, served)?;
            next(alloc, left, made.with(built)?, Deed::Holds { link, number })
        }
        Transition::Gives(Err(refusal)) => Ok(closes(made, refusal)),
    }
}

/// A topic producer was made.
fn built(alloc: Global, topic: Text, number: u64, served: Served) -> Result<Built, NoMemory>
    ensures { IfOk result (λ b. b ≡ meaning.built topic number served) }
{
    let given = given_by(alloc, &served.reply)?;
    Ok(Built {
        topic,
        number,
        link: served.link,
        given,
    })
}

/// The next of those that were made is closed; behind the last one the building fails with this.
fn closes(mut left: Parts, refusal: Refusal) -> Builds
    ensures { result ≡ meaning.build_closes left refusal }
{
    match left.next() {
        Some(built) => Transition::Stays(
            BuildingProducer::Closing { left, refusal },
            Deed::ClosesProducer {
                link: built.link,
                number: built.number,
            },
        ),
        None => Transition::Gives(Err(refusal)),
    }
}
