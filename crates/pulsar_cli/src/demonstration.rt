//! The demo: a client against a broker in memory.

ghost use Rattle.std.specs.Prelude.{[], Bool, List, IfOk};
ghost use Rattle.pulsar_acts.specs.Run.{Good};
ghost use Rattle.pulsar_calls.specs.Steps.{Step};
ghost use Rattle.pulsar_cli.specs.Demo.{IsDemo};
ghost use Rattle.pulsar_cli.specs.Played.{Holds, IsPlayed, counted, history, numbers};
ghost use Rattle.pulsar_cli.specs.Script.{defaults};

use crate::course::go;
use crate::options::{defaults, options};
use crate::play::Play;
use crate::played::Demo;
use crate::tally::Tally;
use pulsar_client::Pulsar;
use pulsar_machine::Machine;
use pulsar_wire::NoMemory;
use std::alloc::Global;

/// A client makes a producer, sends so many messages that are drawn from a seed, makes a consumer, polls as often and acknowledges what it
/// was given, and closes both. A broker in memory answers it, and nothing of it leaves the process.
pub fn demo(alloc: Global, seed: u64, count: u64) -> Result<Demo, NoMemory>
    ensures { IfOk result (λ d. IsDemo seed count (history d.steps) (numbers d)) }
{
    let Play { steps, tally, .. } = play(alloc, seed, count, true)?;
    let Some(steps) = steps else {
        return Err(NoMemory);
    };
    Ok(Demo {
        steps,
        sent: tally.sent,
        received: tally.received,
        bytes: tally.bytes,
        acked: tally.acked,
    })
}

/// What is counted of a demo of which no step is kept.
pub fn tally(alloc: Global, seed: u64, count: u64) -> Result<Tally, NoMemory>
    ensures { IfOk result (λ t. (h : List Step) × IsDemo seed count h (counted t)) }
{
    let Play { tally, .. } = play(alloc, seed, count, false)?;
    Ok(tally)
}

fn play(alloc: Global, seed: u64, count: u64, keeps: bool) -> Result<Play, NoMemory>
    ensures { IfOk result (λ p. IsPlayed keeps seed count p) }
{
    let options = options(&defaults(alloc)?, Vec::new(alloc))?;
    let client = Pulsar::new(alloc, options)?;
    let play = Play::new(alloc, seed, count, keeps)?;
    let played = drive(client, play, seed, count)?;
    Ok(played)
}

fn drive<M: Machine>(client: M, play: Play, seed: u64, count: u64) -> Result<Play, NoMemory>
    ensures { IfOk result (λ p. (keeps : Bool) → ((h : List Step) → M.good (defaults []) h → Good (defaults []) h)
        → M.stands (defaults []) client [] → Holds keeps [] seed count play [] → IsPlayed keeps seed count p) }
{
    let mut client = client;
    let mut play = play;
    go(&mut client, &mut play, seed, count)?;
    Ok(play)
}
