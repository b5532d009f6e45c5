//! Plans, as machines over their outcomes.

ghost use Rattle.std.specs.Prelude.{◌≡◌, IfOk};
ghost use Rattle.pulsar_wire.specs.Failures.{Custom, OfProducer, ProducerCustom, failure, fault};
ghost use Rattle.pulsar_plans.specs.Plan.{asks, begins, failure_of, fails, fails_with, fault_of, makes, makes_of, overrides, replied, stands, told, verdict, waits};
ghost use Rattle.pulsar_calls.specs.Content.{Done, Failed};

use crate::service::Service;
use crate::states::{BatchState, BuildState, ConsumerState, SearchState, SendState};
use crate::{
    answers, batches, departing, gathering, producing, search, sends, serving, subscribing,
    visiting,
};
use pulsar_addresses::content::Refusal as Failure;
use pulsar_calls::act::{
    Action, CallRefusal, Makes, Outcome, Place, Procedure, Round, Says, Share, TopicAsk, Verdict,
};
use pulsar_calls::content::{Failures, Said};
use pulsar_calls::effect::Answer;
use pulsar_exchange::content::{Received, Request, Subscribed};
use pulsar_incoming::orders::ConsumerOrder;
use pulsar_outgoing::content::Numbers;
use pulsar_outgoing::orders::{Errand, ProducerOrder};
use pulsar_producer::deed;
use pulsar_searches::transition::Transition;
use pulsar_searches::turn::{SearchTransition, Ways};
use pulsar_wire::error::{
    ConnectionError, ConsumerError, Error, IoKind, NoMemory, ProducerError, Reason,
};
use std::alloc::Global;

/// What a plan does at what it is told.
pub type PlanTransition = Transition<Plan, Action, Verdict>;

/// What is known of a request that is asked for: the number of its body, how its reply is answered, and what its success
/// leaves behind.
#[derive(Drop)]
pub struct Wanted {
    pub number: u32,
    pub says: Says,
    pub makes: Makes,
}

/// Where a plan stands.
#[derive(Drop)]
pub enum Plan {
    /// It gets a link of the address of the service, to be done with that.
    Building,
    /// It gets a link, to ask there.
    Getting(Request, Says),
    /// It asks for its request, whose frame may stand in the line.
    Asking(Wanted),
    /// It waits for the reply.
    Awaiting(Wanted),
    /// It looks for brokers in these ways.
    Searching {
        ways: Ways,
        search: SearchState,
    },
    /// It builds a producer.
    Producing {
        ways: Ways,
        order: ProducerOrder,
        building: BuildState,
    },
    /// It sends a message. Where it is a part of another call, that is told once it is queued.
    Sending {
        ways: Ways,
        errand: Errand,
        share: Option<Share>,
        sending: SendState,
    },
    /// It was queued, and tells the call that it is a part of.
    Reporting {
        ways: Ways,
        errand: Errand,
    },
    /// It stores a message. Where it is a part of another call, that is told.
    Storing(Option<Share>),
    /// Its message is stored, and waits for what becomes of its batch.
    Stored,
    /// It sends the batches of a topic producer.
    Batching {
        ways: Ways,
        errand: Errand,
        batching: BatchState,
    },
    /// It fails so, and does one thing before.
    Leaving(Failure),
    /// It waits for so many sends, of those whose tickets begin with this one.
    Gathering {
        first: u64,
        count: u64,
        left: u64,
        failures: Failures,
    },
    /// It closes a producer, whose topic producers these are.
    Shutting(Numbers),
    /// It asks the topic producer of this number, in its turn, and those that are left behind it.
    Visiting {
        round: Round,
        number: u64,
        left: Numbers,
        at: At,
    },
    /// It builds a consumer.
    Subscribing {
        ways: Ways,
        order: ConsumerOrder,
        building: ConsumerState,
    },
    /// It serves the consumer of this number.
    Serving {
        ways: Ways,
        number: u64,
        service: Service,
    },
    /// It has asked for an acknowledgement.
    Acknowledging,
    /// It closes the consumer of this ticket, which has this number, and finds its link.
    Departing {
        consumer: u64,
        number: u64,
    },
    /// It ends every link.
    Stopping,
}

/// Where a visit to a topic producer stands.
#[derive(Clone, Copy)]
pub enum At {
    /// It waits until all that was stored is settled.
    Settling,
    /// It waits for its turn.
    Turning,
    /// It finds the link.
    Finding,
    /// It asks there.
    Asking,
    /// It has asked, and its turn is over.
    Passing,
    /// It waits for the reply.
    Awaiting,
}

/// Where a procedure begins.
pub fn begins(alloc: Global, procedure: Procedure) -> Result<PlanTransition, NoMemory>
    ensures { IfOk result (λ turn. turn ≡ begins procedure) }
{
    match procedure {
        Procedure::Build(base) => Ok(Transition::Stays(Plan::Building, Action::Get(base))),
        Procedure::Stop => Ok(Transition::Stays(Plan::Stopping, Action::StopAll)),
        Procedure::Ask {
            place,
            request,
            says,
        } => match place {
            Place::At(address) => Ok(Transition::Stays(
                Plan::Getting(request, says),
                Action::Get(address),
            )),
            Place::Link(link) => asks(alloc, link, request, says),
        },
        Procedure::Search { ways, what } => search::begins(alloc, ways, what),
        Procedure::Produce { ways, order } => producing::begins(alloc, ways, order),
        Procedure::Send {
            ways,
            errand,
            share,
            message,
        } => sends::begins(alloc, ways, errand, share, message),
        Procedure::Store {
            number,
            share,
            entry,
        } => Ok(Transition::Stays(
            Plan::Storing(share),
            of_topic(number, TopicAsk::Store(entry)),
        )),
        Procedure::Batch { ways, errand } => batches::begins(alloc, ways, errand),
        Procedure::FailShare { share, refusal } => {
            let error = refusal_error(alloc, refusal)?;
            sends::leaves(alloc, Some(share), Failure::new(alloc, error)?)
        }
        Procedure::Gather { first, count } => gathering::begins(alloc, first, count),
        Procedure::Go { round, numbers } => visiting::next(alloc, round, numbers),
        Procedure::Close { producer, numbers } => Ok(Transition::Stays(
            Plan::Shutting(numbers),
            Action::Shut(producer),
        )),
        Procedure::Subscribe { ways, order } => subscribing::begins(alloc, ways, order),
        Procedure::Serve { ways, number } => Ok(serving::begins(ways, number)),
        Procedure::Acknowledge { link, request } => departing::acknowledges(alloc, link, request),
        Procedure::Leave { consumer, number } => Ok(departing::begins(consumer, number)),
        Procedure::Refuse(refusal) => refused(alloc, refusal),
    }
}

/// What an outcome makes of a plan.
pub fn told(alloc: Global, plan: Plan, outcome: Outcome) -> Result<PlanTransition, NoMemory>
    ensures { IfOk result (λ turn. turn ≡ told plan outcome) }
{
    match plan {
        Plan::Building => in_building(alloc, outcome),
        Plan::Getting(request, says) => in_getting(alloc, request, says, outcome),
        Plan::Asking(wanted) => in_asking(alloc, wanted, outcome),
        Plan::Awaiting(wanted) => in_awaiting(alloc, wanted, outcome),
        Plan::Searching { ways, search } => search::told(alloc, ways, search, outcome),
        Plan::Producing {
            ways,
            order,
            building,
        } => producing::told(alloc, ways, order, building, outcome),
        Plan::Sending {
            ways,
            errand,
            share,
            sending,
        } => sends::told(alloc, ways, errand, share, sending, outcome),
        Plan::Reporting { ways, errand } => sends::reported(alloc, ways, errand),
        Plan::Storing(share) => batches::stores(alloc, share, outcome),
        Plan::Stored => batches::stored(alloc, outcome),
        Plan::Batching {
            ways,
            errand,
            batching,
        } => batches::told(alloc, ways, errand, batching, outcome),
        Plan::Leaving(failure) => left(alloc, failure),
        Plan::Gathering {
            first,
            count,
            left,
            failures,
        } => gathering::told(alloc, first, count, left, failures, outcome),
        Plan::Shutting(numbers) => visiting::shut(alloc, numbers, outcome),
        Plan::Visiting {
            round,
            number,
            left,
            at,
        } => visiting::told(alloc, round, number, left, at, outcome),
        Plan::Subscribing {
            ways,
            order,
            building,
        } => subscribing::told(alloc, ways, order, building, outcome),
        Plan::Serving {
            ways,
            number,
            service,
        } => serving::told(alloc, ways, number, service, outcome),
        Plan::Acknowledging => done(alloc, Makes::Nothing),
        Plan::Departing { consumer, number } => departing::told(alloc, consumer, number, outcome),
        Plan::Stopping => in_stopping(alloc, outcome),
    }
}

fn in_building(alloc: Global, outcome: Outcome) -> Result<PlanTransition, NoMemory>
    ensures { IfOk result (λ turn. turn ≡ told Plan.Building outcome) }
{
    match outcome {
        Outcome::GotLink(_) => done(alloc, Makes::Client),
        outcome => fails(alloc, error_of(outcome)),
    }
}

fn in_getting(
    alloc: Global,
    request: Request,
    says: Says,
    outcome: Outcome,
) -> Result<PlanTransition, NoMemory>
    ensures { IfOk result (λ turn. turn ≡ told (Plan.Getting request says) outcome) }
{
    match outcome {
        Outcome::GotLink(link) => asks(alloc, link, request, says),
        outcome => fails(alloc, error_of(outcome)),
    }
}

fn in_asking(alloc: Global, wanted: Wanted, outcome: Outcome) -> Result<PlanTransition, NoMemory>
    ensures { IfOk result (λ turn. turn ≡ told (Plan.Asking wanted) outcome) }
{
    match outcome {
        Outcome::Queued => waits(alloc, wanted),
        Outcome::InLine => stands(alloc, wanted),
        outcome => fails(alloc, error_of(outcome)),
    }
}

fn in_awaiting(alloc: Global, wanted: Wanted, outcome: Outcome) -> Result<PlanTransition, NoMemory>
    ensures { IfOk result (λ turn. turn ≡ told (Plan.Awaiting wanted) outcome) }
{
    match outcome {
        Outcome::Replied(reply) => replied(alloc, wanted, reply),
        outcome => fails(alloc, error_of(outcome)),
    }
}

fn in_stopping(alloc: Global, outcome: Outcome) -> Result<PlanTransition, NoMemory>
    ensures { IfOk result (λ turn. turn ≡ told Plan.Stopping outcome) }
{
    match outcome {
        Outcome::Stopped => done(alloc, Makes::Nothing),
        outcome => fails(alloc, error_of(outcome)),
    }
}

/// A request is asked for on a link.
pub fn asks(
    alloc: Global,
    link: u64,
    request: Request,
    says: Says,
) -> Result<PlanTransition, NoMemory>
    ensures { IfOk result (λ turn. turn ≡ asks link request says) }
{
    let wanted = Wanted {
        number: request.number(),
        says,
        makes: makes(link, request.subscribed(alloc)?),
    };
    Ok(Transition::Stays(Plan::Asking(wanted), Action::Ask { link, request }))
}

/// What the success of a request leaves behind.
fn makes(link: u64, subscribed: Option<Subscribed>) -> Makes
    ensures { result ≡ makes_of link subscribed }
{
    match subscribed {
        Some(made) => Makes::RawConsumer { link, made },
        None => Makes::Nothing,
    }
}

/// A frame is queued: its reply is waited for, where it has one.
fn waits(alloc: Global, wanted: Wanted) -> Result<PlanTransition, NoMemory>
    ensures { IfOk result (λ turn. turn ≡ waits wanted) }
{
    if answers::is_answered(wanted.number) {
        Ok(Transition::Stays(Plan::Awaiting(wanted), Action::Rest))
    } else {
        done(alloc, Makes::Nothing)
    }
}

/// A frame stands in the line: that it is queued is waited for, where it has a reply.
fn stands(alloc: Global, wanted: Wanted) -> Result<PlanTransition, NoMemory>
    ensures { IfOk result (λ turn. turn ≡ stands wanted) }
{
    if answers::is_answered(wanted.number) {
        Ok(Transition::Stays(Plan::Asking(wanted), Action::Rest))
    } else {
        done(alloc, Makes::Nothing)
    }
}

/// A reply has come.
fn replied(alloc: Global, wanted: Wanted, reply: Received) -> Result<PlanTransition, NoMemory>
    ensures { IfOk result (λ turn. turn ≡ Transition.Gives (replied wanted reply)) }
{
    let is_answer = answers::is_answer(wanted.number, &reply);
    let said = answers::said(alloc, wanted.says, wanted.number, reply)?;
    let makes = if is_answer {
        wanted.makes
    } else {
        Makes::Nothing
    };
    Ok(Transition::Gives(Verdict { makes, said }))
}

pub fn done(alloc: Global, makes: Makes) -> Result<PlanTransition, NoMemory>
    ensures { IfOk result (λ turn. turn ≡ Transition.Gives (verdict makes Done)) }
{
    let said = Said::new(alloc, Ok(Answer::Done))?;
    Ok(Transition::Gives(Verdict { makes, said }))
}

/// A call that is not made.
fn refused(alloc: Global, refusal: CallRefusal) -> Result<PlanTransition, NoMemory>
    ensures { IfOk result (λ turn. turn ≡ Transition.Gives (verdict Makes.Nothing (Failed (failure_of refusal)))) }
{
    let error = refusal_error(alloc, refusal)?;
    let said = Said::new(alloc, Err(error))?;
    Ok(Transition::Gives(Verdict {
        makes: Makes::Nothing,
        said,
    }))
}

fn refusal_error(alloc: Global, refusal: CallRefusal) -> Result<Error, NoMemory>
    ensures { IfOk result (λ e. failure e ≡ failure_of refusal) }
{
    match refusal {
        CallRefusal::Shutdown => Ok(Error::Connection(ConnectionError::Shutdown)),
        CallRefusal::NoAddress => Ok(Error::Connection(ConnectionError::NotFound)),
        CallRefusal::NoOutbound => custom(alloc, "outbound size is 0"),
        CallRefusal::UnknownTicket => custom(alloc, "unknown ticket"),
        CallRefusal::NoTopic => custom(alloc, "topic not set"),
        CallRefusal::Closed => Ok(Error::Producer(ProducerError::Closed)),
        CallRefusal::NoBatches => custom_in_producer(alloc, "not a batching producer"),
        CallRefusal::NoPartition => custom_in_producer(alloc, "routing index out of range"),
        CallRefusal::NumberInUse => custom_in_producer(alloc, "number in use"),
        CallRefusal::TooLarge => Ok(Error::Producer(ProducerError::Connection(
            ConnectionError::Encoding(Reason::Batch),
        ))),
        CallRefusal::NoTopics => custom(
            alloc,
            "Cannot create consumer with no topics and no topic prefix",
        ),
        CallRefusal::ManyTopics => custom(alloc, "Unable to create consumer - topic not found"),
        CallRefusal::ConsumerClosed => Ok(Error::Consumer(ConsumerError::Closed)),
        CallRefusal::ConsumerInUse => Ok(Error::Consumer(ConsumerError::BuildError)),
    }
}

fn custom(alloc: Global, text: &str) -> Result<Error, NoMemory>
    ensures { IfOk result (λ e. failure e ≡ Custom text.now) }
{
    Ok(Error::Custom(String::from_str(alloc, text)?))
}

fn custom_in_producer(alloc: Global, text: &str) -> Result<Error, NoMemory>
    ensures { IfOk result (λ e. failure e ≡ OfProducer (ProducerCustom text.now)) }
{
    let text = String::from_str(alloc, text)?;
    Ok(Error::Producer(ProducerError::Custom(text)))
}

/// The end of a plan that failed so.
pub fn left(alloc: Global, failure: Failure) -> Result<PlanTransition, NoMemory>
    ensures { IfOk result (λ turn. turn ≡ fails_with failure) }
{
    let said = Said::new(alloc, Err(failure.into_inner()))?;
    Ok(Transition::Gives(Verdict {
        makes: Makes::Nothing,
        said,
    }))
}

/// This is asked of a topic producer.
pub fn of_topic(number: u64, ask: TopicAsk) -> Action
    ensures { result ≡ Action.OfTopic number ask }
{
    Action::OfTopic { number, ask }
}

/// The end of a plan that failed.
pub fn fails(alloc: Global, error: ConnectionError) -> Result<PlanTransition, NoMemory>
    ensures { IfOk result (λ turn. turn ≡ Transition.Gives (fails (fault error))) }
{
    Ok(Transition::Gives(failure(alloc, error)?))
}

pub fn failure(alloc: Global, error: ConnectionError) -> Result<Verdict, NoMemory>
    ensures { IfOk result (λ v. v ≡ fails (fault error)) }
{
    let said = Said::new(alloc, Err(Error::Connection(error)))?;
    Ok(Verdict {
        makes: Makes::Nothing,
        said,
    })
}

/// The stop of the client.
pub fn overrides(outcome: &Outcome) -> bool
    ensures { result ≡ overrides outcome.now }
{
    match outcome {
        Outcome::Cut | Outcome::Stopped => true,
        Outcome::GotLink(_)
        | Outcome::NotFound
        | Outcome::Failed(_)
        | Outcome::Canceled
        | Outcome::Queued
        | Outcome::InLine
        | Outcome::Refused(_)
        | Outcome::Replied(_)
        | Outcome::TimedOut
        | Outcome::Disconnected
        | Outcome::Woken
        | Outcome::Granted(_)
        | Outcome::Parted { .. }
        | Outcome::Settled(_)
        | Outcome::Word(_) => false,
    }
}

/// Why a plan fails at an outcome.
pub fn error_of(outcome: Outcome) -> ConnectionError
    ensures { fault result ≡ fault_of outcome }
{
    match outcome {
        Outcome::NotFound => ConnectionError::NotFound,
        Outcome::Failed(kind) => ConnectionError::Io(kind),
        Outcome::Canceled => ConnectionError::Canceled,
        Outcome::Refused(cause) => cause.into_inner(),
        Outcome::TimedOut => ConnectionError::Io(IoKind::TimedOut),
        Outcome::Stopped => ConnectionError::Shutdown,
        Outcome::Granted(granted) => deed::error_told(granted.into_inner()),
        Outcome::GotLink(_)
        | Outcome::Queued
        | Outcome::InLine
        | Outcome::Replied(_)
        | Outcome::Woken
        | Outcome::Parted { .. }
        | Outcome::Settled(_)
        | Outcome::Word(_)
        | Outcome::Cut
        | Outcome::Disconnected => ConnectionError::Disconnected,
    }
}
