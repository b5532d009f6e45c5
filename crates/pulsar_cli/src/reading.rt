//! A script that is being read, and the text of its run.

ghost use Rattle.std.specs.Prelude.{◌≡◌, ◌⊎◌, ◌+◌, ◌-◌, ◌<◌, ◌++◌, [], ℕ, List, Err, IfErr, IfOk, IfSome, MatchOption, OnOk, length, map, string_bytes, take};
ghost use Rattle.pulsar_calls.specs.Content.{heard, shown};
ghost use Rattle.pulsar_calls.specs.Steps.{Step};
ghost use Rattle.pulsar_machine.specs.Options.{Options};
ghost use Rattle.pulsar_producer.specs.Routing.{Policy};
ghost use Rattle.pulsar_grammar.specs.Grammar.{Happens, line as meaning};
ghost use Rattle.pulsar_cli.specs.Choice.{choice_of};
ghost use Rattle.pulsar_grammar.specs.Parsed.{line_of, setting_of};
ghost use Rattle.pulsar_cli.specs.Script.{chooses};
ghost use Rattle.pulsar_cli.specs.Shown.{HasConsumed, IsNoScriptWith, KeepsReading, KeepsText, ReadsMore, Refuses, Running};
ghost use Rattle.pulsar_printing.specs.Text.{step};

use crate::options::{Choice, choose, defaults};
use crate::stop::Stop;
use pulsar_client::{Effect, Event};
use pulsar_grammar::line::{Line, parse};
use pulsar_grammar::setting::Setting;
use pulsar_grammar::word::cut_line;
use pulsar_printing::effect::push_step;
use pulsar_wire::NoMemory;
use std::alloc::Global;

/// A script that is being read. Its client is outside.
#[derive(Drop)]
pub struct Reading {
    pub alloc: Global,
    pub choice: Choice,
    // the front of a line whose end has not come
    pub pending: Vec<u8>,
    // text that is not yet put
    pub out: String,
    // how many events there were
    pub events: u64,
    // the number of the line that comes, from 1
    pub line: u64,
}

impl Reading {
    /// Nothing is read yet.
    pub fn new(alloc: Global) -> Result<Reading, NoMemory>
        ensures { IfOk result (λ r. (policies : List Policy) (o : Options) → Running policies o [] r [] []) }
    {
        let choice = defaults(alloc)?;
        Ok(Reading {
            alloc,
            choice,
            pending: Vec::new(alloc),
            out: String::new(alloc),
            events: 0,
            line: 1,
        })
    }

    /// The lines that end in a piece, up to the first that is an event, which is given with the count of the bytes behind it. Where none is an
    /// event, the front of the next line too.
    pub fn piece(&mut self, piece: &[u8]) -> Result<Option<(Event, usize)>, Stop>
        ensures less { IfOk result (λ found. IfSome found (λ p. p.1 < length piece.now)) }
        ensures ok { IfOk result (λ found. (policies : List Policy) (o : Options) (h : List Step) (put consumed : List ℕ)
            → Running policies o h self.old put consumed
            → MatchOption found (Running policies o h self.new put (consumed ++ piece.now))
            (λ p. HasConsumed policies o h self.new put (consumed ++ take (length piece.now - p.1) piece.now) (heard p.0))) }
        ensures stop { IfErr result (λ stop. (stop ≡ Stop.Refused) ⊎ (stop ≡ Stop.NoMemory)) }
        ensures refused { result ≡ Err Stop.Refused → (policies : List Policy) (o : Options) (h : List Step) (put consumed : List ℕ)
            → Running policies o h self.old put consumed → Refuses policies self.new put (consumed ++ piece.now) }
    {
        let mut rest = piece;
        while let Some((end, after)) = cut_line(rest) {
            self.more(end)?;
            if let Some(event) = self.line()? {
                return Ok(Some((event, after.len())));
            }
            rest = after;
        }
        self.more(rest)?;
        Ok(None)
    }

    /// The bytes of a line go on.
    fn more(&mut self, bytes: &[u8]) -> Result<(), Stop>
        ensures ok { OnOk result (self.new.pending.items ≡ self.old.pending.items ++ bytes.now) }
        ensures kept { OnOk result (KeepsReading self.old self.new) }
        ensures err { IfErr result (λ stop. stop ≡ Stop.NoMemory) }
    {
        match self.pending.extend_from_slice(bytes) {
            Ok(()) => Ok(()),
            Err(_) => Err(Stop::NoMemory),
        }
    }

    /// A line has ended. An event that it is is given, and not counted yet.
    pub fn line(&mut self) -> Result<Option<Event>, Stop>
        ensures ok { OnOk result (self.new.pending.items ≡ []) }
        ensures reads { IfOk result (λ found. MatchOption found (ReadsMore self.old self.new self.old.pending.items)
            (λ event. (meaning self.old.pending.items ≡ Happens (heard event)) × KeepsReading self.old self.new)) }
        ensures stop { IfErr result (λ stop. (stop ≡ Stop.Refused) ⊎ (stop ≡ Stop.NoMemory)) }
        ensures refused { result ≡ Err Stop.Refused
            → (self.new ≡ self.old) × IsNoScriptWith self.old self.old.pending.items }
    {
        let Ok(line) = parse(self.alloc, &self.pending) else {
            return Err(Stop::NoMemory);
        };
        let found = self.take(line)?;
        self.pending.clear();
        Ok(found)
    }

    /// A line is nothing, or a setting, or an event, or not of the grammar.
    fn take(&mut self, line: Line) -> Result<Option<Event>, Stop>
        ensures reads { IfOk result (λ found. (bytes : List ℕ) → meaning bytes ≡ line_of line
            → MatchOption found (ReadsMore self.old self.new bytes)
            (λ event. (meaning bytes ≡ Happens (heard event)) × (self.new ≡ self.old))) }
        ensures stop { IfErr result (λ stop. (stop ≡ Stop.Refused) ⊎ (stop ≡ Stop.NoMemory)) }
        ensures refused { result ≡ Err Stop.Refused
            → (self.new ≡ self.old) × ((bytes : List ℕ)
            → meaning bytes ≡ line_of line → IsNoScriptWith self.old bytes) }
    {
        match line {
            Line::Nothing => {
                self.counts()?;
                Ok(None)
            }
            Line::Sets(setting) => {
                self.set(setting)?;
                self.counts()?;
                Ok(None)
            }
            Line::Happens(event) => Ok(Some(event)),
            Line::Refused => Err(Stop::Refused),
        }
    }

    /// The next line comes.
    fn counts(&mut self) -> Result<(), Stop>
        ensures ok { OnOk result (self.new.line ≡ self.old.line + 1) }
        ensures choice { OnOk result (self.new.choice ≡ self.old.choice) }
        ensures text { OnOk result (KeepsText self.old self.new) }
        ensures err { IfErr result (λ stop. stop ≡ Stop.NoMemory) }
    {
        self.line = next(self.line)?;
        Ok(())
    }

    /// An option is chosen. It is refused behind an event.
    fn set(&mut self, setting: Setting) -> Result<(), Stop>
        ensures ok { OnOk result (choice_of self.new.choice ≡ chooses (setting_of setting) (choice_of self.old.choice)) }
        ensures first { OnOk result (self.old.events ≡ 0) }
        ensures text { OnOk result (KeepsText self.old self.new) }
        ensures line { OnOk result (self.new.line ≡ self.old.line) }
        ensures refused { IfErr result (λ stop. (stop ≡ Stop.Refused) × (self.new ≡ self.old) × (self.old.events ≡ 0 → ⊥)) }
    {
        if self.events != 0 {
            return Err(Stop::Refused);
        }
        choose(&mut self.choice, setting);
        Ok(())
    }

    /// The event of a line has had these effects: its text, and the next line comes.
    pub fn tells(&mut self, effects: &[Effect]) -> Result<(), Stop>
        ensures out { OnOk result (string_bytes self.new.out ≡ string_bytes self.old.out ++ step self.old.events (map shown effects.now)) }
        ensures events { OnOk result (self.new.events ≡ self.old.events + 1) }
        ensures line { OnOk result (self.new.line ≡ self.old.line + 1) }
        ensures choice { OnOk result (self.new.choice ≡ self.old.choice) }
        ensures pending { OnOk result (self.new.pending ≡ self.old.pending) }
        ensures err { IfErr result (λ stop. stop ≡ Stop.NoMemory) }
    {
        let Ok(()) = push_step(&mut self.out, self.events, effects) else {
            return Err(Stop::NoMemory);
        };
        self.events = next(self.events)?;
        self.line = next(self.line)?;
        Ok(())
    }
}

/// The next number; a count that is spent is want of memory.
fn next(count: u64) -> Result<u64, Stop>
    ensures ok { IfOk result (λ n. n ≡ count + 1) }
    ensures err { IfErr result (λ stop. stop ≡ Stop.NoMemory) }
{
    match count.checked_add(1) {
        Some(next) => Ok(next),
        None => Err(Stop::NoMemory),
    }
}
