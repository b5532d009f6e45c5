//! A send: its turn, its number, its frame, its receipt.

ghost use Rattle.std.specs.Prelude.{◌≡◌, IfOk};
ghost use Rattle.pulsar_wire.specs.Failures.{fault};
ghost use Rattle.pulsar_searches.specs.Plans.{verdict};
ghost use Rattle.pulsar_producer.specs.Batching.{is_sent_send};
ghost use Rattle.pulsar_outgoing.specs.Errors.{in_producer};
ghost use Rattle.pulsar_producer.specs.Plans as meaning;

use crate::deed::{Deed, News, Send, error_told};
use pulsar_addresses::content::{Address, Refusal};
use pulsar_frame::received::Received;
use pulsar_outgoing::content::Outgoing;
use pulsar_outgoing::failing::in_producer;
use pulsar_outgoing::news::Drawn;
use pulsar_outgoing::orders::Errand;
use pulsar_outgoing::replies::given_by;
use pulsar_searches::look::{self, Looking};
use pulsar_searches::making::{self, Command, Making, Served, verdict};
use pulsar_searches::transition::Transition;
use pulsar_searches::turn::{SearchOutcome, SearchTransition, Ways, is_lost};
use pulsar_wire::error::{ConnectionError, NoMemory};
use std::alloc::Global;

/// The number of the body that answers a message.
const SEND_RECEIPT: u32 = 7;

/// Where a send stands.
#[derive(Drop)]
pub enum Sending {
    /// It waits for its turn.
    Waiting {
        message: Outgoing,
    },
    /// It has its turn, and draws a number.
    Drawing {
        message: Outgoing,
    },
    /// Its frame is asked for, or stands in the line. Where it may have to be asked again, its message is kept.
    Asked {
        kept: Option<Outgoing>,
    },
    /// Its frame is queued.
    Sent,
    /// It finds how its producer is made again.
    Recalling {
        message: Outgoing,
    },
    /// It looks for the broker.
    Looking {
        message: Outgoing,
        command: Command,
        looking: Looking,
    },
    /// It makes its producer again.
    Making {
        message: Outgoing,
        command: Command,
        making: Making,
    },
    /// Its producer was made again.
    Remaking {
        message: Outgoing,
    },
    /// Its turn is over, and it fails.
    Ending {
        refusal: Refusal,
    },
}

impl Sending {
    /// Its frame is queued, and what becomes of that is waited for.
    pub fn is_sent(&self) -> bool
        ensures { result ≡ is_sent_send self.now }
    {
        matches!(self, Sending::Sent)
    }
}

/// What a send gives at its end: its receipt.
pub type Sent = Transition<Sending, Deed, Result<Received, Refusal>>;

/// Where it begins.
pub fn begins(errand: Errand, message: Outgoing) -> Sent
    ensures { result ≡ meaning.send_begins errand message }
{
    Transition::Stays(
        Sending::Waiting { message },
        Deed::TakesTurn(errand.producer),
    )
}

/// What news make of it.
pub fn told(
    alloc: Global,
    ways: &Ways,
    errand: Errand,
    sending: Sending,
    news: News,
) -> Result<Sent, NoMemory>
    ensures { IfOk result (λ step. step ≡ meaning.send_told ways.now errand sending news) }
{
    match sending {
        Sending::Waiting { message } => in_waiting(alloc, errand, message, news),
        Sending::Drawing { message } => in_drawing(alloc, errand, message, news),
        Sending::Asked { kept } => in_asked(alloc, errand, kept, news),
        Sending::Sent => in_sent(alloc, news),
        Sending::Recalling { message } => in_recalling(alloc, ways, errand, message, news),
        Sending::Looking {
            message,
            command,
            looking,
        } => in_looking(alloc, ways, errand, message, command, looking, news),
        Sending::Making {
            message,
            command,
            making,
        } => in_making(alloc, ways, errand, message, command, making, news),
        Sending::Remaking { message } => in_remaking(alloc, errand, message, news),
        Sending::Ending { refusal } => Ok(Transition::Gives(Err(refusal))),
    }
}

fn in_waiting(
    alloc: Global,
    errand: Errand,
    message: Outgoing,
    news: News,
) -> Result<Sent, NoMemory>
    ensures { IfOk result (λ step. step ≡ meaning.in_waiting errand message news) }
{
    match news {
        News::HasTurn(version) => Ok(draws(errand, message.with_version(version))),
        news => Ok(Transition::Gives(Err(in_producer(alloc, error_told(news))?))),
    }
}

fn in_drawing(
    alloc: Global,
    errand: Errand,
    message: Outgoing,
    news: News,
) -> Result<Sent, NoMemory>
    ensures { IfOk result (λ step. step ≡ meaning.in_drawing errand message news) }
{
    match news {
        News::Drew(drawn) => asks(alloc, errand, drawn, message),
        news => not_drawn(alloc, errand, message, error_told(news)),
    }
}

fn in_asked(
    alloc: Global,
    errand: Errand,
    kept: Option<Outgoing>,
    news: News,
) -> Result<Sent, NoMemory>
    ensures { IfOk result (λ step. step ≡ meaning.in_asked errand kept news) }
{
    match news {
        News::Queued => Ok(Transition::Stays(Sending::Sent, Deed::PassesTurn(errand.producer))),
        News::InLine => Ok(Transition::Stays(Sending::Asked { kept }, Deed::Rests)),
        news => not_queued(alloc, errand, kept, error_told(news)),
    }
}

fn in_sent(alloc: Global, news: News) -> Result<Sent, NoMemory>
    ensures { IfOk result (λ step. step ≡ meaning.in_sent news) }
{
    match news {
        News::Told(outcome) => receipt(alloc, outcome),
        _ => Ok(Transition::Stays(Sending::Sent, Deed::Rests)),
    }
}

fn in_recalling(
    alloc: Global,
    ways: &Ways,
    errand: Errand,
    message: Outgoing,
    news: News,
) -> Result<Sent, NoMemory>
    ensures { IfOk result (λ step. step ≡ meaning.in_recalling ways.now errand message news) }
{
    match news {
        News::Recalled(command) => {
            let turn = look::begins(alloc, ways)?;
            looks(alloc, errand, message, command, turn)
        }
        news => fails(alloc, errand, error_told(news)),
    }
}

fn in_looking(
    alloc: Global,
    ways: &Ways,
    errand: Errand,
    message: Outgoing,
    command: Command,
    looking: Looking,
    news: News,
) -> Result<Sent, NoMemory>
    ensures { IfOk result (λ step. step ≡ meaning.in_looking ways.now errand message command looking news) }
{
    match news {
        News::Told(outcome) => {
            let turn = look::told(alloc, ways, &command.topic, looking, outcome)?;
            looks(alloc, errand, message, command, turn)
        }
        _ => Ok(Transition::Stays(
            Sending::Looking {
                message,
                command,
                looking,
            },
            Deed::Rests,
        )),
    }
}

fn in_making(
    alloc: Global,
    ways: &Ways,
    errand: Errand,
    message: Outgoing,
    command: Command,
    making: Making,
    news: News,
) -> Result<Sent, NoMemory>
    ensures { IfOk result (λ step. step ≡ meaning.in_making ways.now errand message command making news) }
{
    match news {
        News::Told(outcome) => {
            let turn = making::told(alloc, ways, &command, making, outcome)?;
            makes(alloc, errand, message, command, turn)
        }
        _ => Ok(Transition::Stays(
            Sending::Making {
                message,
                command,
                making,
            },
            Deed::Rests,
        )),
    }
}

fn in_remaking(
    alloc: Global,
    errand: Errand,
    message: Outgoing,
    news: News,
) -> Result<Sent, NoMemory>
    ensures { IfOk result (λ step. step ≡ meaning.in_remaking errand message news) }
{
    match news {
        News::Done => Ok(draws(errand, message)),
        news => fails(alloc, errand, error_told(news)),
    }
}

/// A number is drawn for the message.
fn draws(errand: Errand, message: Outgoing) -> Sent
    ensures { result ≡ meaning.send_draws errand message }
{
    Transition::Stays(Sending::Drawing { message }, Deed::Draws(errand.producer))
}

/// The message is asked of the link. It is kept only where its frame is to stand in the line.
fn asks(alloc: Global, errand: Errand, drawn: Drawn, message: Outgoing) -> Result<Sent, NoMemory>
    ensures { IfOk result (λ step. step ≡ meaning.send_asks errand drawn message) }
{
    let kept = if errand.block && !drawn.room {
        Some(message.copy(alloc)?)
    } else {
        None
    };
    let Drawn {
        number,
        link,
        name,
        ..
    } = drawn;
    let send = Send {
        producer: errand.producer,
        name,
        sequence: number,
        message,
        block: errand.block,
    };
    Ok(Transition::Stays(Sending::Asked { kept }, Deed::Sends { link, send }))
}

/// No number was drawn: the link is not ready, or the numbers are spent.
fn not_drawn(
    alloc: Global,
    errand: Errand,
    message: Outgoing,
    error: ConnectionError,
) -> Result<Sent, NoMemory>
    ensures { IfOk result (λ step. step ≡ meaning.not_drawn errand message (fault error)) }
{
    if is_lost(&error) {
        return Ok(recalls(errand, message));
    }
    fails(alloc, errand, error)
}

/// The frame was refused, or dropped from the line.
fn not_queued(
    alloc: Global,
    errand: Errand,
    kept: Option<Outgoing>,
    error: ConnectionError,
) -> Result<Sent, NoMemory>
    ensures { IfOk result (λ step. step ≡ meaning.not_queued errand kept (fault error)) }
{
    match kept {
        Some(message) => not_drawn(alloc, errand, message, error),
        None => fails(alloc, errand, error),
    }
}

fn recalls(errand: Errand, message: Outgoing) -> Sent
    ensures { result ≡ meaning.send_recalls errand message }
{
    Transition::Stays(
        Sending::Recalling { message },
        Deed::Recalls(errand.producer),
    )
}

/// The turn is over, and then the send fails with this.
fn ends(errand: Errand, refusal: Refusal) -> Sent
    ensures { result ≡ meaning.send_ends errand refusal }
{
    Transition::Stays(
        Sending::Ending { refusal },
        Deed::PassesTurn(errand.producer),
    )
}

fn fails(alloc: Global, errand: Errand, error: ConnectionError) -> Result<Sent, NoMemory>
    ensures { IfOk result (λ step. step ≡ meaning.send_ends errand (in_producer (fault error))) }
{
    Ok(ends(errand, in_producer(alloc, error)?))
}

/// What comes of the frame is the answer.
fn receipt(alloc: Global, outcome: SearchOutcome) -> Result<Sent, NoMemory>
    ensures { IfOk result (λ step. step ≡ meaning.receipt (verdict 7 outcome)) }
{
    match verdict(alloc, SEND_RECEIPT, outcome)? {
        Ok(reply) => Ok(Transition::Gives(Ok(reply))),
        Err(error) => Ok(Transition::Gives(Err(in_producer(alloc, error)?))),
    }
}

/// The broker of the topic is looked for.
fn looks(
    alloc: Global,
    errand: Errand,
    message: Outgoing,
    command: Command,
    turn: SearchTransition<Looking, Result<Address, Refusal>>,
) -> Result<Sent, NoMemory>
    ensures { IfOk result (λ step. step ≡ meaning.send_looks errand message command turn) }
{
    match turn {
        Transition::Stays(looking, action) => Ok(Transition::Stays(
            Sending::Looking {
                message,
                command,
                looking,
            },
            Deed::Does(action),
        )),
        Transition::Gives(Ok(address)) => {
            makes(alloc, errand, message, command, making::gets(0, address))
        }
        Transition::Gives(Err(refusal)) => Ok(ends(errand, refusal)),
    }
}

/// The producer is made again.
fn makes(
    alloc: Global,
    errand: Errand,
    message: Outgoing,
    command: Command,
    turn: SearchTransition<Making, Result<Served, Refusal>>,
) -> Result<Sent, NoMemory>
    ensures { IfOk result (λ step. step ≡ meaning.send_makes errand message command turn) }
{
    match turn {
        Transition::Stays(making, action) => Ok(Transition::Stays(
            Sending::Making {
                message,
                command,
                making,
            },
            Deed::Does(action),
        )),
        Transition::Gives(Ok(served)) => remakes(alloc, errand, message, served),
        Transition::Gives(Err(refusal)) => Ok(ends(errand, refusal)),
    }
}

/// The producer was made again.
fn remakes(
    alloc: Global,
    errand: Errand,
    message: Outgoing,
    served: Served,
) -> Result<Sent, NoMemory>
    ensures { IfOk result (λ step. step ≡ meaning.send_remakes errand message served) }
{
    let given = given_by(alloc, &served.reply)?;
    Ok(Transition::Stays(
        Sending::Remaking { message },
        Deed::Remakes {
            number: errand.producer,
            link: served.link,
            given,
        },
    ))
}
