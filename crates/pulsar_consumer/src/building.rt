//! The building of a consumer: the name of its topic, its number, its subscription.

ghost use Rattle.std.specs.Prelude.{◌≡◌, IfOk};
ghost use Rattle.std.specs.Option.{option_map};
ghost use Rattle.pulsar_consumer.specs.Commands.{command};
ghost use Rattle.pulsar_consumer.specs.Plans as meaning;

use pulsar_addresses::content::{Address, Names, Refusal, Text};
use pulsar_incoming::orders::ConsumerOrder;
use pulsar_incoming::settings::Settings;
use pulsar_searches::making::{self, Command, Making, Served};
use pulsar_searches::names::{self, Naming};
use pulsar_searches::question::{Question, Request};
use pulsar_searches::transition::Transition;
use pulsar_searches::turn::{Action, SearchOutcome, SearchTransition, Ways, error_of};
use pulsar_wire::encoding::copying::copy_optional;
use pulsar_wire::error::{ConsumerError, Error, NoMemory};
use std::alloc::Global;
use std::collections::VecDeque;

/// The number of the body that answers the command which makes a subscription.
const SUCCESS: u32 = 13;

/// A consumer whose subscription was made on this link.
#[derive(Drop)]
pub struct Built {
    /// The name of its topic.
    pub topic: Text,
    /// Its number on the wire.
    pub number: u64,
    /// The link of its subscription.
    pub link: u64,
}

/// What a building does next. Then it waits for news.
#[derive(Drop)]
pub enum Deed {
    /// What a search does, or a command.
    Does(Action),
    /// Take this number for a consumer, or draw one.
    Numbers(Option<u64>),
    /// Nothing.
    Rests,
}

/// What a building is told.
#[derive(Drop)]
pub enum News {
    /// What came of an action. Numbers that are spent fail a draw.
    Told(SearchOutcome),
    /// It has this number.
    Numbered(u64),
    /// A live consumer has the number that was asked for.
    InUse,
}

/// Where a building stands.
#[derive(Drop)]
pub enum BuildingConsumer {
    /// It finds the names of the topic.
    Naming(Naming),
    /// It draws a number for the one name.
    Numbering {
        topic: Text,
        place: Address,
    },
    /// It makes the subscription.
    Making {
        command: Command,
        making: Making,
        number: u64,
    },
}

/// What a building gives at its end.
pub type Builds = Transition<BuildingConsumer, Deed, Result<Built, Refusal>>;

/// Where it begins.
pub fn begins(alloc: Global, ways: &Ways, order: &ConsumerOrder) -> Result<Builds, NoMemory>
    ensures { IfOk result (λ step. step ≡ meaning.build_begins ways.now order.now) }
{
    let turn = names::begins(alloc, ways, &order.topic)?;
    names(alloc, order, turn)
}

/// What news make of it.
pub fn told(
    alloc: Global,
    ways: &Ways,
    order: &ConsumerOrder,
    building: BuildingConsumer,
    news: News,
) -> Result<Builds, NoMemory>
    ensures { IfOk result (λ step. step ≡ meaning.build_told ways.now order.now building news) }
{
    match building {
        BuildingConsumer::Naming(naming) => in_naming(alloc, ways, order, naming, news),
        BuildingConsumer::Numbering { topic, place } => in_numbering(
            alloc, order, topic, place, news,
        ),
        BuildingConsumer::Making {
            command,
            making,
            number,
        } => in_making(alloc, ways, command, making, number, news),
    }
}

fn in_naming(
    alloc: Global,
    ways: &Ways,
    order: &ConsumerOrder,
    naming: Naming,
    news: News,
) -> Result<Builds, NoMemory>
    ensures { IfOk result (λ step. step ≡ meaning.in_naming ways.now order.now naming news) }
{
    match news {
        News::Told(outcome) => {
            let turn = names::told(alloc, ways, &order.topic, naming, outcome)?;
            names(alloc, order, turn)
        }
        News::Numbered(_) | News::InUse => Ok(Transition::Stays(
            BuildingConsumer::Naming(naming),
            Deed::Rests,
        )),
    }
}

fn in_numbering(
    alloc: Global,
    order: &ConsumerOrder,
    topic: Text,
    place: Address,
    news: News,
) -> Result<Builds, NoMemory>
    ensures { IfOk result (λ step. step ≡ meaning.in_numbering order.now topic place news) }
{
    match news {
        News::Told(outcome) => Ok(fails(Refusal::in_connection(alloc, error_of(outcome))?)),
        News::Numbered(number) => {
            let command = command(alloc, &topic, number, &order.config)?;
            Ok(makes(command, number, making::gets(0, place)))
        }
        News::InUse => Ok(fails(in_use(alloc)?)),
    }
}

fn in_making(
    alloc: Global,
    ways: &Ways,
    command: Command,
    making: Making,
    number: u64,
    news: News,
) -> Result<Builds, NoMemory>
    ensures { IfOk result (λ step. step ≡ meaning.in_making ways.now command making number news) }
{
    match news {
        News::Told(outcome) => {
            let turn = making::told(alloc, ways, &command, making, outcome)?;
            Ok(makes(command, number, turn))
        }
        News::Numbered(_) | News::InUse => Ok(Transition::Stays(
            BuildingConsumer::Making {
                command,
                making,
                number,
            },
            Deed::Rests,
        )),
    }
}

/// The names of the topic are looked for.
fn names(
    alloc: Global,
    order: &ConsumerOrder,
    turn: SearchTransition<Naming, Result<Names, Refusal>>,
) -> Result<Builds, NoMemory>
    ensures { IfOk result (λ step. step ≡ meaning.build_names order.now turn) }
{
    match turn {
        Transition::Stays(naming, action) => {
            Ok(Transition::Stays(BuildingConsumer::Naming(naming), Deed::Does(action)))
        }
        Transition::Gives(Ok(names)) => numbers(alloc, order, only(alloc, names)?),
        Transition::Gives(Err(refusal)) => Ok(fails(refusal)),
    }
}

/// The name was found.
#[derive(Drop)]
pub struct Found {
    pub name: Text,
    pub place: Address,
}

/// A number is drawn for the one name.
fn numbers(alloc: Global, order: &ConsumerOrder, found: Option<Found>) -> Result<Builds, NoMemory>
    ensures { IfOk result (λ step. step ≡ meaning.build_numbers order.now (option_map meaning.found found)) }
{
    match found {
        Some(Found { name, place }) => Ok(Transition::Stays(
            BuildingConsumer::Numbering { topic: name, place },
            Deed::Numbers(order.config.get().consumer_id),
        )),
        None => Ok(fails(not_found(alloc)?)),
    }
}

/// The one name.
fn only(alloc: Global, names: Names) -> Result<Option<Found>, NoMemory>
    ensures { IfOk result (λ found. option_map meaning.found found ≡ meaning.only names) }
{
    let mut all = VecDeque::from_vec(names.into_inner());
    match all.pop_front() {
        Some((name, address)) => match all.pop_front() {
            Some(_) => Ok(None),
            None => Ok(Some(Found {
                name: Text::new(name),
                place: Address::new(alloc, address)?,
            })),
        },
        None => Ok(None),
    }
}

/// The subscription is made.
fn makes(
    command: Command,
    number: u64,
    turn: SearchTransition<Making, Result<Served, Refusal>>,
) -> Builds
    ensures { result ≡ meaning.build_makes command number turn }
{
    match turn {
        Transition::Stays(making, action) => Transition::Stays(
            BuildingConsumer::Making {
                command,
                making,
                number,
            },
            Deed::Does(action),
        ),
        Transition::Gives(Ok(served)) => Transition::Gives(Ok(Built {
            topic: command.topic,
            number,
            link: served.link,
        })),
        Transition::Gives(Err(refusal)) => fails(refusal),
    }
}

fn fails(refusal: Refusal) -> Builds
    ensures { result ≡ meaning.build_fails refusal }
{
    Transition::Gives(Err(refusal))
}

/// The topic has no one name.
fn not_found(alloc: Global) -> Result<Refusal, NoMemory>
    ensures { IfOk result (λ r. r ≡ meaning.not_found) }
{
    let text = String::from_str(alloc, "Unable to create consumer - topic not found")?;
    Refusal::new(alloc, Error::Custom(text))
}

/// The number that was asked for is in use.
fn in_use(alloc: Global) -> Result<Refusal, NoMemory>
    ensures { IfOk result (λ r. r ≡ meaning.in_use) }
{
    Refusal::new(alloc, Error::Consumer(ConsumerError::BuildError))
}

/// The command that subscribes to this topic, under this number.
pub fn command(
    alloc: Global,
    topic: &Text,
    number: u64,
    settings: &Settings,
) -> Result<Command, NoMemory>
    ensures { IfOk result (λ c. c ≡ command topic.now number settings.now) }
{
    let config = settings.get();
    let question = Question::Subscribe {
        topic: topic.copy()?.into_inner(),
        subscription: config.subscription.clone()?,
        sub_type: config.sub_type,
        consumer_id: number,
        name: copy_optional(&config.consumer_name)?,
        options: config.options.copy()?,
    };
    Ok(Command {
        topic: topic.copy()?,
        request: Request::new(alloc, question)?,
        answer: SUCCESS,
    })
}
