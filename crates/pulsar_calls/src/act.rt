//! What a step is made of: acts, each one thing that happens. There are six kinds of act, and all that is special to a kind of
//! call, thing or event stands one level below them.

use crate::content::{Advice, Asking, Granted, Joined, Made, Notices, Recalled, Remade, Said};
use pulsar_addresses::content::{Address, Cause, Refusal as Failure};
use pulsar_exchange::content::{Received, Request, Subscribed};
use pulsar_incoming::orders::ConsumerOrder;
use pulsar_outgoing::batch::Receipt;
use pulsar_outgoing::content::{Entry, Numbers, Outgoing};
use pulsar_outgoing::orders::{Errand, ProducerOrder};
use pulsar_searches::plan::Sought;
use pulsar_searches::turn::Ways;
use pulsar_wire::error::IoKind;

/// One that has a plan. A cause serves them in the order of their ranks.
#[derive(Clone, Copy, PartialEq, Eq, PartialOrd, Ord)]
pub enum Who {
    /// The call of this ticket.
    Call(u64),
    /// The consumer of this number on the wire, which the call of this ticket built. Another one may have the number once it has ended.
    Consumer { number: u64, ticket: u64 },
    /// The topic producer of this number, which sends batches.
    Producer(u64),
}

/// What is told of consumers: to a call that builds one or needs the link of one, and to the plan of one.
#[derive(Drop)]
pub enum Word {
    /// A call that builds a consumer has this number for it.
    Numbered(u64),
    /// A live consumer has the number that it asked for.
    InUse,
    /// A call that waits for the link of a consumer is to find it once more.
    Again,
    /// The consumer whose link a call wants has ended.
    Closed,
    /// A flow of the consumer is due.
    Due,
    /// This flow is to be asked for: so many permits, on this link.
    Flow { link: u64, permits: u32 },
    /// No flow is due.
    NoFlow,
    /// The subscription of the consumer was lost, and is to be made again.
    Lost,
    /// It is made again by this command.
    Recalled(Recalled),
    /// The new subscription is live.
    Lives,
    /// The topic of the consumer has ended, whose subscription on this link is to be closed.
    TopicEnded { link: u64 },
    /// The consumer has ended.
    Over,
}

/// What a plan is told.
#[derive(Drop)]
pub enum Outcome {
    /// The address has this link, which is ready.
    GotLink(u64),
    /// The address cannot be reached.
    NotFound,
    /// The attempts that it started failed.
    Failed(IoKind),
    /// The attempts that it waited for failed.
    Canceled,
    /// Its frame is queued.
    Queued,
    /// Its frame stands in the line.
    InLine,
    /// Its link refuses its request.
    Refused(Cause),
    /// The reply to its request came.
    Replied(Received),
    /// The deadline of its request came.
    TimedOut,
    /// The link of its request ended.
    Disconnected,
    /// The moment for which it waited came.
    Woken,
    /// What it asked of a topic producer, or of their numbers, is done, and gives this.
    Granted(Granted),
    /// The send of this ticket, which is a part of it, was queued, or it failed so before.
    Parted {
        ticket: u64,
        failure: Option<Failure>,
    },
    /// What became of the batch in which its message went, or of its message before that.
    Settled(Result<Receipt, Failure>),
    /// This of a consumer.
    Word(Word),
    /// The client was stopped while its request waited for a reply.
    Cut,
    /// The client was stopped, and no request of it was queued.
    Stopped,
}

/// One is told an outcome.
#[derive(Drop)]
pub struct Notice {
    pub who: Who,
    pub outcome: Outcome,
}

/// Where a request is asked for.
#[derive(Drop)]
pub enum Place {
    /// On a link of this address.
    At(Address),
    /// On this link.
    Link(u64),
}

/// How the reply to a request is answered.
#[derive(Clone, Copy)]
pub enum Says {
    /// By the names of the topics that it tells.
    Names,
    /// By its body.
    Bodies,
    /// It says no more than that the call is done.
    Nothing,
}

/// Why a call is not made.
#[derive(Clone, Copy)]
pub enum CallRefusal {
    /// The client is not built, or was stopped.
    Shutdown,
    /// There is no room for any frame.
    NoOutbound,
    /// The options have no address.
    NoAddress,
    /// There is no such thing of this ticket.
    UnknownTicket,
    /// It is not said to what a producer sends.
    NoTopic,
    /// The producer was closed.
    Closed,
    /// The producer makes no batches.
    NoBatches,
    /// A policy, or the partition that it names, is not there.
    NoPartition,
    /// A producer of the client has the number.
    NumberInUse,
    /// The payload is too large for a batch.
    TooLarge,
    /// It is not said which topics a consumer reads.
    NoTopics,
    /// More is to be read than one topic.
    ManyTopics,
    /// The consumer has ended.
    ConsumerClosed,
    /// A live consumer has the number.
    ConsumerInUse,
}

/// A send that is a part of another call: the tickets of that call, and of the send.
#[derive(Clone, Copy)]
pub struct Share {
    pub of: u64,
    pub ticket: u64,
}

/// What is asked of each topic producer of a producer, one after the other.
#[derive(Clone, Copy)]
pub enum Round {
    /// A ping of its link.
    Checks,
    /// What it stores.
    Flushes,
    /// Its close.
    Closes,
}

/// What is to be done for a call.
#[derive(Drop)]
pub enum Procedure {
    /// Get a link of this address: then the client is built.
    Build(Address),
    /// End every link.
    Stop,
    /// Get or take a link, ask there, and answer the reply.
    Ask {
        place: Place,
        request: Request,
        says: Says,
    },
    /// Find this, looking for brokers in these ways.
    Search {
        ways: Ways,
        what: Sought,
    },
    /// Build a producer.
    Produce {
        ways: Ways,
        order: ProducerOrder,
    },
    /// Send a message in the turn of a topic producer.
    Send {
        ways: Ways,
        errand: Errand,
        share: Option<Share>,
        message: Outgoing,
    },
    /// Store a message until it is sent as a part of a batch of this topic producer.
    Store {
        number: u64,
        share: Option<Share>,
        entry: Entry,
    },
    /// Send the batches of a topic producer, one after the other.
    Batch {
        ways: Ways,
        errand: Errand,
    },
    /// Fail, as a part of another call.
    FailShare {
        share: Share,
        refusal: CallRefusal,
    },
    /// Wait for so many sends, whose tickets begin with this one: each is a part.
    Gather {
        first: u64,
        count: u64,
    },
    /// Ask each of these topic producers, in its turn.
    Go {
        round: Round,
        numbers: Numbers,
    },
    /// Close the producer of this ticket, whose topic producers these are.
    Close {
        producer: u64,
        numbers: Numbers,
    },
    /// Build a consumer.
    Subscribe {
        ways: Ways,
        order: ConsumerOrder,
    },
    /// Serve the consumer of this number: ask for its flows, make its subscription again where that is lost, and close it where its
    /// topic ends.
    Serve {
        ways: Ways,
        number: u64,
    },
    /// Ask for this on the link of a live subscription, where there is one.
    Acknowledge {
        link: Option<u64>,
        request: Request,
    },
    /// Close the consumer of this ticket, which has this number.
    Leave {
        consumer: u64,
        number: u64,
    },
    /// Fail.
    Refuse(CallRefusal),
}

/// What is asked of a topic producer.
#[derive(Drop)]
pub enum TopicAsk {
    /// The turn, or to wait for it.
    TakeTurn,
    /// The turn is over.
    PassTurn,
    /// The number of a message, where its link is ready.
    Draw,
    /// The command by which it is made again.
    Recall,
    /// It was made again.
    Remake(Remade),
    /// Its link.
    Find,
    /// To store a message.
    Store(Entry),
    /// To wait until all that it has taken is settled.
    Flush,
    /// Its next batch.
    TakeBatch,
}

/// What is asked of a consumer: by the ticket that it names, or by the one that serves it.
#[derive(Drop)]
pub enum ConsumerAsk {
    /// The link of the one of this ticket, or to wait until it has one.
    Find(u64),
    /// The flow that is due next of the one that is served.
    TakeFlow,
    /// The command by which that is subscribed again.
    Recall,
    /// It was subscribed again, on this link.
    Revive { link: u64 },
    /// It could not be subscribed again, for this reason.
    Fail(Failure),
}

/// What a plan does next. Then it waits for an outcome.
#[derive(Drop)]
pub enum Action {
    /// Get the ready link of an address.
    Get(Address),
    /// Ask for a request on the link.
    Ask { link: u64, request: Request },
    /// Wait for so many milliseconds.
    Wait(u64),
    /// Ask this of the topic producer of this number.
    OfTopic { number: u64, ask: TopicAsk },
    /// Draw the number of a new topic producer.
    Number,
    /// A topic producer of this number was made on the link for the call whose plan it is, which still makes others.
    Hold { link: u64, number: u64 },
    /// The producer of this ticket takes no sends from now on.
    Shut(u64),
    /// Take this number for a new consumer, or draw one.
    TakeNumber(Option<u64>),
    /// Ask this of a consumer: of its own, unless the ask names another.
    OfConsumer(ConsumerAsk),
    /// Tell another one, who joins those whom the present cause serves.
    Tell(Notice),
    /// Tell several others, who do so.
    TellAll(Notices),
    /// End every link.
    StopAll,
    /// Nothing.
    Rest,
}

/// What a call that succeeds leaves behind.
#[derive(Drop)]
pub enum Makes {
    Nothing,
    /// The client is built.
    Client,
    /// A consumer of one topic.
    Consumer(Joined),
    /// A consumer of a raw call to subscribe, on this link.
    RawConsumer { link: u64, made: Subscribed },
    /// A producer.
    Producer(Made),
}

/// What a plan gives at its end.
#[derive(Drop)]
pub struct Verdict {
    pub makes: Makes,
    pub said: Said,
}

/// How a link ends.
#[derive(Drop)]
pub enum End {
    /// It could not be opened.
    Unopened(IoKind),
    /// It was lost.
    Lost,
    /// It is due. The frames of the places below this were queued before the moment came.
    Overdue { below: u64 },
    /// What came on it is bad.
    Broken(Cause),
    /// Nothing uses it.
    Idles,
    /// The client is stopped.
    Stops,
}

/// What comes to a link.
#[derive(Drop)]
pub enum LinkAct {
    /// It is open.
    Opens,
    /// The next frame of what came is read.
    Reads,
    /// So many queued frames may be written.
    Drains(usize),
    /// It is pinged.
    Pings,
    /// It ends.
    Ends(End),
}

/// What the next frame of a link is.
#[derive(Drop)]
pub enum Arrival {
    /// There is none.
    Nothing,
    /// It was the first: the link is ready.
    Readied,
    /// It settles requests.
    Settles,
    /// It is for the consumers of this number.
    Gives { consumer: u64, reply: Received },
    /// Nobody is told of it.
    Passes,
    /// It is bad: the link is to end with this cause.
    Bad(Cause),
}

/// What comes of itself at its moment. At a tick those that are due come in the order of these kinds, and of their numbers.
#[derive(Clone, Copy, PartialEq, Eq, PartialOrd, Ord)]
pub enum Alarm {
    /// The attempt that follows that of this link, which failed.
    Retry(u64),
    /// This one has waited.
    Wake(Who),
    /// What this topic producer stores has waited.
    Batch(u64),
    /// This link is to be pinged.
    KeepAlive(u64),
    /// Links that nothing uses are to be ended.
    CheckIdle,
}

/// What an event brings. Each part comes where nothing is left of the one before.
#[derive(Drop)]
pub enum Part {
    Calls(Asking, Advice),
    ToLink { link: u64, act: LinkAct },
    /// What was due as the tick came.
    Rings(Alarm),
    /// The consumer of this ticket is polled.
    Polls(u64),
}

/// One act of a run.
#[derive(Drop)]
pub enum Act {
    /// A part of the event comes.
    Comes(Part),
    /// A plan begins.
    Starts {
        who: Who,
        procedure: Procedure,
    },
    /// A plan is told an outcome.
    Told(Notice),
    /// A plan does one thing.
    Does {
        who: Who,
        action: Action,
    },
    /// A plan ends.
    Answers {
        who: Who,
        verdict: Verdict,
    },
    /// An attempt to connect to an address begins, behind so many retries of a series that this one started.
    Dials {
        address: Address,
        starter: Who,
        retries: u32,
    },
}
