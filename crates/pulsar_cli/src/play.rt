//! What has happened in a demo.

ghost use Rattle.std.specs.Prelude.{◌≡◌, ◌∷◌, [], ℕ, Bool, List, IfOk, OnOk, map};
ghost use Rattle.pulsar_calls.specs.Steps.{Step};
ghost use Rattle.pulsar_calls.specs.Content.{heard, shown};
ghost use Rattle.pulsar_broker.specs.History.{Act};
ghost use Rattle.pulsar_broker.specs.Stands.{StandsFor};
ghost use Rattle.pulsar_client.specs.History.{step};
ghost use Rattle.pulsar_cli.specs.Demo.{IsAnswered, Owes, fed_in, piece_of, url};
ghost use Rattle.pulsar_cli.specs.Played.{Holds, Keeps};

use crate::tally::Tally;
use pulsar_broker::Broker;
use pulsar_client::{Effect, Event};
use pulsar_wire::NoMemory;
use std::alloc::Global;

/// The service of the client and of the broker.
const URL: &str = "pulsar://127.0.0.1:6650";

/// The only link.
pub const LINK: u64 = 0;

/// The broker, and what is counted of all steps so far. The client is outside.
#[derive(Drop)]
pub struct Play {
    pub alloc: Global,
    pub broker: Box<Broker>,
    /// The steps, oldest first, where they are kept.
    pub steps: Option<Vec<(Event, Vec<Effect>)>>,
    pub tally: Tally,
}

impl Play {
    /// Nothing has happened in a demo of so many messages. Its steps are kept, or are only counted.
    pub fn new(alloc: Global, seed: u64, count: u64, keeps: bool) -> Result<Play, NoMemory>
        ensures { IfOk result (λ p. Holds keeps [] seed count p []) }
    {
        let broker = Box::new(alloc, Broker::new(alloc, URL)?)?;
        let tally = Tally::new(alloc, seed, count)?;
        Ok(Play {
            alloc,
            broker,
            steps: no_steps(alloc, keeps),
            tally,
        })
    }

    /// An event has had these effects: what they write is fed to the broker.
    pub fn note(&mut self, event: Box<Event>, effects: Vec<Effect>) -> Result<(), NoMemory>
        ensures { OnOk result ((keeps : Bool) (seed count : ℕ) (h : List Step) → Holds keeps (piece_of (heard event.value)) seed count self.old h
            → IsAnswered (heard event.value) h → Holds keeps [] seed count self.new (step event.value effects.items ∷ h)) }
    {
        feed(&mut self.broker, &effects)?;
        self.tally.note(&event, &effects)?;
        keep(&mut self.steps, event, effects)?;
        Ok(())
    }

    /// What the broker has for the client.
    pub fn take(&mut self) -> Result<Vec<u8>, NoMemory>
        ensures owes { IfOk result (λ piece. (keeps : Bool) (seed count : ℕ) (h : List Step) → Holds keeps [] seed count self.old h → Owes h piece.items) }
        ensures holds { IfOk result (λ piece. (keeps : Bool) (seed count : ℕ) (h : List Step) → Holds keeps [] seed count self.old h
            → Holds keeps piece.items seed count self.new h) }
    {
        let piece = self.broker.take(LINK)?;
        Ok(piece)
    }
}

/// No step yet, where they are to be kept.
fn no_steps(alloc: Global, keeps: bool) -> Option<Vec<(Event, Vec<Effect>)>>
    ensures { Keeps keeps result [] }
{
    if keeps {
        return Some(Vec::new(alloc));
    }
    None
}

/// One more step, where they are kept.
fn keep(
    steps: &mut Option<Vec<(Event, Vec<Effect>)>>,
    event: Box<Event>,
    effects: Vec<Effect>,
) -> Result<(), NoMemory>
    ensures { OnOk result ((keeps : Bool) (h : List Step) → Keeps keeps steps.old h → Keeps keeps steps.new (step event.value effects.items ∷ h)) }
{
    match steps {
        Some(steps) => {
            steps.push((Box::into_inner(event), tight(effects)))?;
            Ok(())
        }
        None => Ok(()),
    }
}

/// They take no more room than they need: a demo may keep those of all its steps.
fn tight(effects: Vec<Effect>) -> Vec<Effect>
    ensures { result.items ≡ effects.items }
{
    let mut effects = effects;
    effects.shrink_to_fit();
    effects
}

/// All that is written is fed to the broker.
fn feed(broker: &mut Broker, effects: &[Effect]) -> Result<(), NoMemory>
    ensures { OnOk result ((acts : List Act) → StandsFor url acts broker.old
        → StandsFor url (fed_in (map shown effects.now) acts) broker.new) }
{
    for effect in effects {
        feed_one(broker, effect)?;
    }
    Ok(())
}

fn feed_one(broker: &mut Broker, effect: &Effect) -> Result<(), NoMemory>
    ensures { OnOk result ((acts : List Act) → StandsFor url acts broker.old
        → StandsFor url (fed_in (shown effect.now ∷ []) acts) broker.new) }
{
    match effect {
        Effect::Write { link, bytes } => broker.feed(*link, bytes),
        _ => Ok(()),
    }
}
