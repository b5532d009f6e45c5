//! The course of a demo: the client and the broker exchange what they have for each other.

ghost use Rattle.std.specs.Prelude.{◌≡◌, [], ℕ, IfOk, OnOk, map};
ghost use Rattle.pulsar_calls.specs.Content.{heard, shown};
ghost use Rattle.pulsar_cli.specs.Demo.{Begins, Closes, Drains, Exchange, Exchanges, Next, Ordered, Polls, Receives, Round, Rounds, Sends, Turn, consumer_ticket, is_write, writes};
ghost use Rattle.pulsar_cli.specs.Played.{Leads, LeadsBy, heard_in};
ghost use Rattle.pulsar_cli.specs.Script.{defaults};

use crate::asking::{PRODUCER, ack_of, consumer, producer, send};
use crate::play::{LINK, Play};
use pulsar_client::{Call, Effect, Event};
use pulsar_machine::Machine;
use pulsar_wire::NoMemory;

/// How many frames are written at once, at the most.
const FRAMES: usize = 100;

/// How many exchanges are made in a row, at the most.
const EXCHANGES: u64 = 16;

/// The whole course of a demo.
pub fn go<M: Machine>(
    client: &mut M,
    play: &mut Play,
    seed: u64,
    count: u64,
) -> Result<(), NoMemory>
    ensures { OnOk result (
        Leads (λ none all. none ≡ [] → Ordered seed count all) (M.stands (defaults []) client.old)
        (M.stands (defaults []) client.new) seed count play.old play.new) }
{
    let consumer_ticket = play.tally.consumer;
    begin(client, play)?;
    sends(client, play, seed, count)?;
    let makes = consumer(play.alloc)?;
    turn(client, play, makes)?;
    rounds(client, play, consumer_ticket, count)?;
    close(client, play, consumer_ticket)?;
    Ok(())
}

/// Up to the producer.
fn begin<M: Machine>(client: &mut M, play: &mut Play) -> Result<(), NoMemory>
    ensures { OnOk result ((seed count : ℕ)
        → Leads (λ none all. none ≡ [] → Begins all) (M.stands (defaults []) client.old) (M.stands (defaults []) client.new) seed count play.old play.new) }
{
    let build = Box::new(play.alloc, Event::Call(Call::Build))?;
    submit(client, play, build)?;
    let opened = Box::new(play.alloc, Event::Opened(LINK))?;
    turn(client, play, opened)?;
    let makes = producer(play.alloc)?;
    turn(client, play, makes)?;
    Ok(())
}

/// The first messages are sent.
fn sends<M: Machine>(client: &mut M, play: &mut Play, seed: u64, count: u64) -> Result<(), NoMemory>
    ensures { OnOk result ((all : ℕ)
        → Leads (Sends seed count) (M.stands (defaults []) client.old) (M.stands (defaults []) client.new) seed all play.old play.new) }
{
    for place in 0..count {
        let sends = send(play.alloc, seed, place)?;
        turn(client, play, sends)?;
    }
    Ok(())
}

/// So many polls, each with the acknowledgement of its item.
fn rounds<M: Machine>(
    client: &mut M,
    play: &mut Play,
    consumer: u64,
    count: u64,
) -> Result<(), NoMemory>
    ensures { OnOk result ((seed all : ℕ)
        → Leads (Rounds consumer count) (M.stands (defaults []) client.old) (M.stands (defaults []) client.new) seed all play.old play.new) }
{
    for _made in 0..count {
        round(client, play, consumer)?;
    }
    Ok(())
}

/// A poll, and the acknowledgement of the item that it gave.
fn round<M: Machine>(client: &mut M, play: &mut Play, consumer: u64) -> Result<(), NoMemory>
    ensures { OnOk result ((seed count : ℕ)
        → Leads (Round consumer) (M.stands (defaults []) client.old) (M.stands (defaults []) client.new) seed count play.old play.new) }
{
    let ack = poll(client, play, consumer)?;
    exchanges(client, play)?;
    match ack {
        Some(ack) => {
            turn(client, play, ack)?;
            Ok(())
        }
        None => Ok(()),
    }
}

/// A poll. The answer is how its item is to be acknowledged.
fn poll<M: Machine>(
    client: &mut M,
    play: &mut Play,
    consumer: u64,
) -> Result<Option<Box<Event>>, NoMemory>
    ensures { IfOk result (λ ack. (seed count : ℕ)
        → Leads (Polls consumer (heard_in ack)) (M.stands (defaults []) client.old) (M.stands (defaults []) client.new) seed count play.old play.new) }
{
    let effects = client.step(Event::Poll(consumer))?;
    let ack = ack_of(play.alloc, consumer, &effects)?;
    let event = Box::new(play.alloc, Event::Poll(consumer))?;
    play.note(event, effects)?;
    Ok(ack)
}

/// The consumer is closed, and then the producer.
fn close<M: Machine>(client: &mut M, play: &mut Play, consumer: u64) -> Result<(), NoMemory>
    ensures { OnOk result ((seed count : ℕ) → consumer ≡ consumer_ticket count
        → Leads (Closes count) (M.stands (defaults []) client.old) (M.stands (defaults []) client.new) seed count play.old play.new) }
{
    let first = Box::new(play.alloc, Event::Call(Call::CloseConsumer { consumer }))?;
    turn(client, play, first)?;
    let call = Call::CloseProducer { producer: PRODUCER };
    let second = Box::new(play.alloc, Event::Call(call))?;
    turn(client, play, second)?;
    Ok(())
}

/// An event, and the exchanges behind it.
fn turn<M: Machine>(client: &mut M, play: &mut Play, event: Box<Event>) -> Result<(), NoMemory>
    ensures { OnOk result ((seed count : ℕ)
        → LeadsBy Turn (heard event.value) (M.stands (defaults []) client.old) (M.stands (defaults []) client.new) seed count play.old play.new) }
{
    submit(client, play, event)?;
    exchanges(client, play)?;
    Ok(())
}

/// Exchanges up to the first in which nothing is written.
fn exchanges<M: Machine>(client: &mut M, play: &mut Play) -> Result<(), NoMemory>
    ensures { OnOk result ((seed count : ℕ)
        → Leads Exchanges (M.stands (defaults []) client.old) (M.stands (defaults []) client.new) seed count play.old play.new) }
{
    for _made in 0..EXCHANGES {
        if !exchange(client, play)? {
            return Ok(());
        }
    }
    Ok(())
}

/// What is queued is written, and what the broker then has for the client comes. The answer is whether something was written.
fn exchange<M: Machine>(client: &mut M, play: &mut Play) -> Result<bool, NoMemory>
    ensures { IfOk result (λ wrote. (seed count : ℕ)
        → Leads (Exchange wrote) (M.stands (defaults []) client.old) (M.stands (defaults []) client.new) seed count play.old play.new) }
{
    let wrote = drain(client, play)?;
    receive(client, play)?;
    Ok(wrote)
}

fn drain<M: Machine>(client: &mut M, play: &mut Play) -> Result<bool, NoMemory>
    ensures { IfOk result (λ wrote. (seed count : ℕ)
        → Leads (Drains wrote) (M.stands (defaults []) client.old) (M.stands (defaults []) client.new) seed count play.old play.new) }
{
    let effects = client.step(Event::Drain(LINK, FRAMES))?;
    let wrote = writes(&effects);
    let event = Box::new(play.alloc, Event::Drain(LINK, FRAMES))?;
    play.note(event, effects)?;
    Ok(wrote)
}

fn receive<M: Machine>(client: &mut M, play: &mut Play) -> Result<(), NoMemory>
    ensures { OnOk result ((seed count : ℕ)
        → Leads Receives (M.stands (defaults []) client.old) (M.stands (defaults []) client.new) seed count play.old play.new) }
{
    let piece = play.take()?;
    if piece.is_empty() {
        return Ok(());
    }
    let event = Box::new(play.alloc, Event::Bytes(LINK, piece))?;
    submit(client, play, event)?;
    Ok(())
}

/// One event.
fn submit<M: Machine>(client: &mut M, play: &mut Play, event: Box<Event>) -> Result<(), NoMemory>
    ensures { OnOk result ((seed count : ℕ)
        → LeadsBy Next (heard event.value) (M.stands (defaults []) client.old) (M.stands (defaults []) client.new) seed count play.old play.new) }
{
    let copy = event.copy()?;
    let effects = client.step(copy)?;
    play.note(event, effects)?;
    Ok(())
}

/// Something is written.
fn writes(effects: &[Effect]) -> bool
    ensures { result ≡ writes (map shown effects.now) }
{
    let mut left = effects;
    while let Some((effect, rest)) = left.split_first() {
        if is_write(effect) {
            return true;
        }
        left = rest;
    }
    false
}

fn is_write(effect: &Effect) -> bool
    ensures { result ≡ is_write (shown effect.now) }
{
    matches!(effect, Effect::Write { .. })
}
