//! The calls of `produce` and of `consume`.

ghost use Rattle.std.specs.Prelude.{◌≡◌, ◌∷◌, [], if◌then◌else◌, IfOk, Some, map, true};
ghost use Rattle.pulsar_outgoing.specs.Wanted.{producer_wanted};
ghost use Rattle.pulsar_incoming.specs.Content.{consumer_wanted};
ghost use Rattle.pulsar_calls.specs.Content.{asked};
ghost use Rattle.pulsar_work.specs.Asking.{IsNext, IsSend, IsTake, making, work_in};
ghost use Rattle.pulsar_work.specs.Calls.{consumer_of, producer_of};
ghost use Rattle.pulsar_work.specs.Progress.{owed_ack};

use crate::progress::{Owed, Progress};
use pulsar_calls::event::Call;
use pulsar_consumer::{InitialPosition, SubType};
use pulsar_incoming::builder::ConsumerBuilder;
use pulsar_messages::serialize::message_from_bytes;
use pulsar_messages::{ConsumerOptions, ProducerOptions};
use pulsar_outgoing::producer_builder::ProducerBuilder;
use pulsar_wire::NoMemory;
use std::alloc::Global;
use std::cmp::Ordering;

/// What a job has to do.
#[derive(Debug, Drop)]
pub enum Task {
    /// Each line is sent to the topic.
    Produce {
        topic: String,
        lines: Vec<Vec<u8>>,
    },
    /// So many messages of the topic are taken and acknowledged.
    Consume {
        topic: String,
        subscription: String,
        count: u64,
    },
}

/// The ticket of the producer, or of the consumer. The Build has ticket 0.
pub const MADE: u64 = 1;

/// So many bytes are on their way to the broker at most, of lines of one length.
const ON_THE_WAY: usize = 4 * 1024 * 1024;

/// What a line takes on its way, beside its bytes.
const FIELDS: usize = 1024;

/// What a job does next.
#[derive(Debug, Drop)]
pub enum Next {
    /// A call.
    Call(Call),
    /// The acknowledgement of the item that was given last.
    Ack(Call),
    /// The consumer is asked for its next item.
    Poll,
    /// The last call.
    Stop,
    /// Nothing yet.
    Nothing,
}

/// What is next: Build; then the producer, and a send of each line; or the consumer, and polls, with an acknowledgement behind each item. The
/// last call comes where all have ended well, or where something has failed.
pub fn what_next(alloc: Global, task: &Task, progress: &Progress) -> Result<Next, NoMemory>
    ensures { IfOk result (λ n. IsNext (work_in task.now) progress.now n) }
{
    let calls = progress.calls();
    if calls == 0 {
        return Ok(Next::Call(Call::Build));
    }
    if !progress.has_ended(0) {
        return Ok(Next::Nothing);
    }
    if progress.failed {
        return Ok(Next::Stop);
    }
    if calls == 1 {
        return Ok(Next::Call(make(alloc, task)?));
    }
    if !progress.has_ended(MADE) {
        return Ok(Next::Nothing);
    }
    match task {
        Task::Produce { topic: _, lines } => send(
            alloc,
            lines,
            calls,
            progress.waiting(),
            progress.have_all_ended(),
        ),
        Task::Consume {
            topic: _,
            subscription: _,
            count,
        } => take(*count, progress),
    }
}

/// The call that makes the producer or the consumer.
fn make(alloc: Global, task: &Task) -> Result<Call, NoMemory>
    ensures { IfOk result (λ c. asked c ≡ making (work_in task.now)) }
{
    match task {
        Task::Produce { topic, lines: _ } => Ok(Call::Producer(producer(alloc, topic)?)),
        Task::Consume {
            topic,
            subscription,
            count: _,
        } => Ok(Call::Consumer(consumer(alloc, topic, subscription)?)),
    }
}

/// A producer whose messages wait for room on their connection.
fn producer(alloc: Global, topic: &str) -> Result<ProducerBuilder, NoMemory>
    ensures { IfOk result (λ b. producer_wanted b ≡ producer_of topic.now) }
{
    let mut options = ProducerOptions::new(alloc);
    options.block_queue_if_full = true;
    Ok(
        ProducerBuilder::new(alloc)
            .with_topic(topic)?
            .with_options(options),
    )
}

/// A consumer of a shared subscription, which begins with the earliest message.
fn consumer(alloc: Global, topic: &str, subscription: &str) -> Result<ConsumerBuilder, NoMemory>
    ensures { IfOk result (λ b. consumer_wanted b ≡ consumer_of topic.now subscription.now) }
{
    let mut options = ConsumerOptions::new(alloc);
    options.initial_position = InitialPosition::Earliest;
    Ok(
        ConsumerBuilder::new(alloc)
            .with_topic(topic)?
            .with_subscription(subscription)?
            .with_subscription_type(SubType::Shared)
            .with_options(options),
    )
}

/// The next line is sent, while so many have no receipt yet. When all have ended, the work is done.
fn send(
    alloc: Global,
    lines: &[Vec<u8>],
    calls: u64,
    waiting: usize,
    have_all_ended: bool,
) -> Result<Next, NoMemory>
    ensures { IfOk result (λ n. IsSend (map (λ line. line.items) lines.now) calls waiting have_all_ended n) }
{
    let sent = calls.saturating_sub(2) as usize;
    if sent < lines.len() {
        let line = &lines[sent];
        if !has_room(waiting, line.len()) {
            return Ok(Next::Nothing);
        }
        let message = message_from_bytes(alloc, line)?;
        return Ok(Next::Call(Call::Send {
            producer: MADE,
            message,
        }));
    }
    Ok(stop_at_the_end(have_all_ended))
}

/// A line of this length may join so many that are on their way. So what waits is bounded, and so is the time of a turn, in which the deadlines
/// of what was sent already run.
fn has_room(waiting: usize, length: usize) -> bool
    ensures { (waiting ≡ 0) → result ≡ true }
{
    waiting == 0 || waiting.saturating_mul(length.saturating_add(FIELDS)) <= ON_THE_WAY
}

/// The item that was given is acknowledged, or the next one is asked for. There are never more items than were asked for.
fn take(count: u64, progress: &Progress) -> Result<Next, NoMemory>
    ensures { IfOk result (λ n. IsTake count progress.now n) }
{
    if let Some(item) = &progress.owed {
        return Ok(Next::Ack(ack(item)?));
    }
    if progress.is_over {
        return Ok(stop_at_the_end(progress.have_all_ended()));
    }
    match progress.given.cmp(&count) {
        Ordering::Less => {
            if progress.is_dry {
                Ok(Next::Nothing)
            } else {
                Ok(Next::Poll)
            }
        }
        Ordering::Equal => Ok(stop_at_the_end(progress.have_all_ended())),
        Ordering::Greater => Err(NoMemory),
    }
}

/// The acknowledgement of an item.
fn ack(item: &Owed) -> Result<Call, NoMemory>
    ensures { IfOk result (λ c. asked c ∷ [] ≡ owed_ack (Some item.now)) }
{
    Ok(Call::Ack {
        consumer: MADE,
        topic: item.topic.clone()?,
        id: item.id.copy()?,
        cumulative: false,
    })
}

/// The last call comes when all others have ended.
fn stop_at_the_end(have_all_ended: bool) -> Next
    ensures { result ≡ (if have_all_ended then Next.Stop else Next.Nothing) }
{
    if have_all_ended {
        Next::Stop
    } else {
        Next::Nothing
    }
}
