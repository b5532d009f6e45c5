//! The top call: the words of the command line, and a script's run.

ghost use Rattle.std.specs.Prelude.{◌≡◌, ◌<◌, ◌++◌, ◌≤◌, ◌↔◌, ◌⊎◌, false, true, [], ℕ, List, Option, Ok, Err, None, Some, MatchOption, MatchResult, OnErr, OnOk, IfErr, IfOk, IfSome, map, string_bytes};
ghost use Rattle.pulsar_client.specs.Client.{StandsFor};
ghost use Rattle.pulsar_calls.specs.Content.{heard};
ghost use Rattle.pulsar_streams.specs.Outside.{Rose};
ghost use Rattle.pulsar_acts.specs.Run.{Good};
ghost use Rattle.pulsar_calls.specs.Steps.{Step};
ghost use Rattle.pulsar_machine.specs.Options.{Options};
ghost use Rattle.pulsar_producer.specs.Routing.{Policy};
ghost use Rattle.pulsar_cli.specs.Script.{Adds, AddsFront, IsDone, Printed, Ran, Seen, seen, since};
ghost use Rattle.pulsar_work.specs.Form.{Asking};
ghost use Rattle.pulsar_job.specs.Went.{HasGone, edge_seen};
ghost use Rattle.pulsar_cli.specs.Form.{Demo, IsLine, Job, Script, Shows, form, line};
ghost use Rattle.pulsar_cli.specs.Shown.{Awaits, Fed, Going, Halts, HasConsumed, HasFound, HasTold, InTurn, IsLast, Prints, Refuses, Refusing, Running, Told, options_in, remaining, unread};

use crate::demonstration::tally;
use crate::feed::{Feed, Next};
use crate::form::Form;
use crate::options::options;
use crate::reading::Reading;
use crate::stop::Stop;
use pulsar_client::pulsar::Pulsar;
use pulsar_client::{CustomRoutingPolicy, Event};
use pulsar_job::putting::put_all;
use pulsar_job::{DONE, NO_MEMORY, REFUSED, SINK_FAILED, SOURCE_FAILED, Status, TOO_LONG, served};
use pulsar_printing::effect::push_refusal;
use pulsar_pumps::Edge;
use pulsar_streams::outside::sink::Sink;
use pulsar_streams::outside::source::Source;
use pulsar_wire::NoMemory;
use std::alloc::Global;
use std::sync::Wait;
use std::thread::Threads;

/// Runs the program with these words, and a client with these policies. The edge is asked by `produce` and `consume` alone.
pub fn run<R: Threads + Wait + Sync, S: Source, K: Sink, E: Edge>(
    rt: &R,
    alloc: Global,
    words: &[String],
    source: &mut S,
    sink: &mut K,
    edge: &mut E,
    policies: Vec<Box<dyn CustomRoutingPolicy>>,
) -> Status
    ensures no_form { (result ≡ 2) ↔ (form (map string_bytes words.now) ≡ None) }
    ensures nothing { result ≡ 2 → (source.new ≡ source.old) × (sink.new ≡ sink.old) × (edge.new ≡ edge.old) }
    ensures status { result ≤ 7 }
    ensures runs { form (map string_bytes words.now) ≡ Some Script
        → Ran (map (λ p. routes p) policies.items) result (seen S.left S.faults source.old source.new) (seen K.holds K.faults sink.old sink.new)
        × (edge.new ≡ edge.old) }
    ensures shows { (seed count : ℕ) → form (map string_bytes words.now) ≡ Some (Demo seed count)
        → Shows seed count result (seen K.holds K.faults sink.old sink.new) × (source.new ≡ source.old) × (edge.new ≡ edge.old) }
    ensures works { (a : Asking) → form (map string_bytes words.now) ≡ Some (Job a)
        → HasGone (λ o h. Good o h) a (map (λ p. routes p) policies.items) result (seen S.left S.faults source.old source.new)
        (seen K.holds K.faults sink.old sink.new)
        (edge_seen E.failures E.first E.greatest edge.old edge.new) }
{
    match Form::of(words) {
        Some(Form::Script) => script(alloc, source, sink, policies),
        Some(Form::Demo { seed, count }) => show(alloc, seed, count, sink),
        None => served::<Pulsar, R, S, K, E>(rt, alloc, words, source, sink, edge, policies),
    }
}

/// Prints the line of a demo.
fn show<K: Sink>(alloc: Global, seed: u64, count: u64, sink: &mut K) -> Status
    ensures { Shows seed count result (seen K.holds K.faults sink.old sink.new) }
{
    let Ok(line) = demo_line(alloc, seed, count) else {
        return NO_MEMORY;
    };
    match put_all(sink, line.as_bytes()) {
        Ok(()) => DONE,
        Err(_) => SINK_FAILED,
    }
}

/// The line of a demo.
fn demo_line(alloc: Global, seed: u64, count: u64) -> Result<String, NoMemory>
    ensures { IfOk result (λ text. IsLine seed count (string_bytes text)) }
{
    let tally = tally(alloc, seed, count)?;
    let text = numbers_line(alloc, tally.sent, tally.received, tally.bytes, tally.acked)?;
    Ok(text)
}

fn numbers_line(
    alloc: Global,
    sent: u64,
    received: u64,
    bytes: u64,
    acked: u64,
) -> Result<String, NoMemory>
    ensures { IfOk result (λ text. string_bytes text
        ≡ line (record { sent = sent; received = received; bytes = bytes; acked = acked })) }
{
    let text = format!(in alloc; "sent {sent} received {received} bytes {bytes} acked {acked}\n")?;
    Ok(text)
}

/// Reads a script from the source and prints its run to the sink. Its client has these policies. It is made here, and driven where it is held:
/// whoever lends out a client of another crate hides what is said of its policies.
pub fn script<S: Source, K: Sink>(
    alloc: Global,
    source: &mut S,
    sink: &mut K,
    policies: Vec<Box<dyn CustomRoutingPolicy>>,
) -> Status
    ensures { Ran (map (λ p. routes p) policies.items) result (seen S.left S.faults source.old source.new) (seen K.holds K.faults sink.old sink.new) }
{
    let Ok((mut reading, mut feed)) = begin(alloc) else {
        return NO_MEMORY;
    };
    let found = match next(&mut reading, &mut feed, source, sink) {
        Ok(Some(found)) => found,
        Ok(None) => return DONE,
        Err(stop) => return halt(stop, &mut reading, sink),
    };
    let Ok(options) = options(&reading.choice, policies) else {
        drop(found);
        return NO_MEMORY;
    };
    let Ok(client) = Pulsar::new(alloc, options) else {
        drop(found);
        return NO_MEMORY;
    };
    drive(client, &mut reading, &mut feed, found, source, sink)
}

/// Nothing is read yet.
fn begin(alloc: Global) -> Result<(Reading, Feed), Stop>
    ensures { IfOk result (λ p. (policies : List Policy) (o : Options) (content held : Option (List ℕ)) (faults count : ℕ)
        → Going policies o [] p.0 p.1 (since content faults (λ _. content) (λ _. faults) p.1) (since held count (λ _. held) (λ _. count) p.1)) }
{
    let Ok(reading) = Reading::new(alloc) else {
        return Err(Stop::NoMemory);
    };
    let feed = Feed::new(alloc)?;
    Ok((reading, feed))
}

/// The events from this one on. The client is put into a box, since a loop holds it, and it keeps much.
fn drive<S: Source, K: Sink>(
    client: Pulsar,
    reading: &mut Reading,
    feed: &mut Feed,
    found: Next,
    source: &mut S,
    sink: &mut K,
) -> Status
    ensures { (ps : List Policy) (o : Options) (h : List Step) (content held : Option (List ℕ)) (faults count : ℕ)
        → Awaits ps o h reading.old feed.old (since content faults S.left S.faults source.old) (since held count K.holds K.faults sink.old)
        (heard found.event) found.last
        → o ≡ options_in ps reading.old → StandsFor (λ p. routes (p.vtable, p.value)) o client h []
        → Ran ps result (since content faults S.left S.faults source.new) (since held count K.holds K.faults sink.new) }
{
    let Ok(client) = Box::new(reading.alloc, client) else {
        drop(found);
        return NO_MEMORY;
    };
    steps(client, reading, feed, found, source, sink)
}

/// Each event by a step of the client.
fn steps<S: Source, K: Sink>(
    client: Box<Pulsar>,
    reading: &mut Reading,
    feed: &mut Feed,
    found: Next,
    source: &mut S,
    sink: &mut K,
) -> Status
    ensures { (ps : List Policy) (o : Options) (h : List Step) (content held : Option (List ℕ)) (faults count : ℕ)
        → Awaits ps o h reading.old feed.old (since content faults S.left S.faults source.old) (since held count K.holds K.faults sink.old)
        (heard found.event) found.last
        → o ≡ options_in ps reading.old → StandsFor (λ p. routes (p.vtable, p.value)) o client.value h []
        → Ran ps result (since content faults S.left S.faults source.new) (since held count K.holds K.faults sink.new) }
{
    let mut client = client;
    let mut found = found;
    loop {
        let Next { event, last } = found;
        let Ok(effects) = client.step(event) else {
            return NO_MEMORY;
        };
        let Ok(()) = reading.tells(&effects) else {
            return NO_MEMORY;
        };
        if last {
            return finish(reading, sink);
        }
        found = match next(reading, feed, source, sink) {
            Ok(Some(found)) => found,
            Ok(None) => return DONE,
            Err(stop) => return halt(stop, reading, sink),
        };
    }
}

/// The next event. The text that waits is put before another piece is taken.
fn next<S: Source, K: Sink>(
    reading: &mut Reading,
    feed: &mut Feed,
    source: &mut S,
    sink: &mut K,
) -> Result<Option<Next>, Stop>
    ensures found { (ps : List Policy) (o : Options) (h : List Step) (content held : Option (List ℕ)) (faults count : ℕ)
        → Going ps o h reading.old feed.old (since content faults S.left S.faults source.old) (since held count K.holds K.faults sink.old)
        → HasFound ps o h reading.new feed.new (since content faults S.left S.faults source.new) (since held count K.holds K.faults sink.new) result }
    ensures less { IfOk result (λ found. IfSome found (λ n. n.last ≡ false → remaining feed.new < remaining feed.old)) }
    ensures grows { K.faults sink.old ≤ K.faults sink.new }
{
    loop {
        if let Some(event) = event_of(reading, feed)? {
            return Ok(Some(Next { event, last: false }));
        }
        flush(reading, sink)?;
        if !feed.refill(source)? {
            return last(reading, sink);
        }
    }
}

/// The next event of the piece.
fn event_of(reading: &mut Reading, feed: &mut Feed) -> Result<Option<Event>, Stop>
    ensures found { IfOk result (λ found. (ps : List Policy) (o : Options) (h : List Step) (put bytes : List ℕ) (source : Seen)
        → Running ps o h reading.old put bytes → Fed feed.old source bytes
        → MatchOption found (Running ps o h reading.new put (bytes ++ unread feed.old))
        (λ event. (front : List ℕ) × HasConsumed ps o h reading.new put front (heard event) × Fed feed.new source front)) }
    ensures none { result ≡ Ok None → feed.new ≡ feed.old }
    ensures less { IfOk result (λ found. IfSome found (λ _. remaining feed.new < remaining feed.old)) }
    ensures stop { IfErr result (λ stop. (stop ≡ Stop.Refused) ⊎ (stop ≡ Stop.NoMemory)) }
    ensures refused { result ≡ Err Stop.Refused → (ps : List Policy) (o : Options) (h : List Step) (put bytes : List ℕ) (source : Seen)
        → Running ps o h reading.old put bytes → Fed feed.old source bytes → Refuses ps reading.new put (bytes ++ unread feed.old) }
    ensures taken { IfErr result (λ _. feed.new ≡ feed.old) }
{
    match reading.piece(feed.unread())? {
        Some((event, count)) => {
            feed.keep(count);
            Ok(Some(event))
        }
        None => Ok(None),
    }
}

/// The source has ended, and so does the last line.
fn last<K: Sink>(reading: &mut Reading, sink: &mut K) -> Result<Option<Next>, Stop>
    ensures runs { (ps : List Policy) (o : Options) (h : List Step) (old : Option (List ℕ)) (bytes : List ℕ)
        → Prints ps o h reading.old old (K.holds sink.old) bytes
        → MatchResult result (λ found. MatchOption found (IsDone ps bytes old (K.holds sink.new))
        (λ n. IsLast ps o h reading.new old (K.holds sink.new) bytes (heard n.event)))
        (λ stop. Halts ps stop reading.new old (K.holds sink.new) bytes) }
    ensures last { IfOk result (λ found. IfSome found (λ n. n.last ≡ true)) }
    ensures stop { IfErr result (λ stop. InTurn stop (K.faults sink.old) (K.faults sink.new)) }
    ensures grows { K.faults sink.old ≤ K.faults sink.new }
{
    match reading.line()? {
        Some(event) => Ok(Some(Next { event, last: true })),
        None => {
            flush(reading, sink)?;
            Ok(None)
        }
    }
}

/// All was read and told: the text that waits is put.
fn finish<K: Sink>(reading: &mut Reading, sink: &mut K) -> Status
    ensures runs { (ps : List Policy) (o : Options) (h : List Step) (source : Seen) (held : Option (List ℕ)) (count : ℕ)
        → HasTold ps o h reading.old source (since held count K.holds K.faults sink.old)
        → Ran ps result source (since held count K.holds K.faults sink.new) }
{
    match flush(reading, sink) {
        Ok(()) => DONE,
        Err(_) => SINK_FAILED,
    }
}

/// The status of a run that stops so.
fn halt<K: Sink>(stop: Stop, reading: &mut Reading, sink: &mut K) -> Status
    ensures told { Told result stop }
    ensures runs { (ps : List Policy) (old : Option (List ℕ)) (bytes : List ℕ) (faults : ℕ) → faults ≤ K.faults sink.old
        → Halts ps stop reading.old old (K.holds sink.old) bytes
        → Printed ps result bytes old (K.holds sink.new) (Rose faults (K.faults sink.new) → ⊥) }
    ensures kept { (stop ≡ Stop.Refused → ⊥) → sink.new ≡ sink.old }
{
    match stop {
        Stop::Refused => refused(reading, sink),
        Stop::NoMemory => NO_MEMORY,
        Stop::Source => SOURCE_FAILED,
        Stop::Sink => SINK_FAILED,
        Stop::TooLong => TOO_LONG,
    }
}

/// A line is not in the grammar: the text of the lines before is put, and then the refusal.
fn refused<K: Sink>(reading: &mut Reading, sink: &mut K) -> Status
    ensures runs { (ps : List Policy) (old : Option (List ℕ)) (bytes : List ℕ)
        → Refusing ps reading.old old (K.holds sink.old) bytes
        → Printed ps result bytes old (K.holds sink.new) (Rose (K.faults sink.old) (K.faults sink.new) → ⊥) }
    ensures status { (result ≡ 1) ⊎ (result ≡ 3) }
    ensures grows { K.faults sink.old ≤ K.faults sink.new }
{
    let Ok(()) = push_refusal(&mut reading.out, reading.line) else {
        return NO_MEMORY;
    };
    let _ = flush(reading, sink);
    REFUSED
}

/// Puts the text that is there.
fn flush<K: Sink>(reading: &mut Reading, sink: &mut K) -> Result<(), Stop>
    ensures ok { OnOk result (Adds (K.holds sink.old) (K.holds sink.new) (string_bytes reading.old.out)) }
    ensures kept { OnOk result ((ps : List Policy) (o : Options) (h : List Step) (put consumed : List ℕ) → Running ps o h reading.old put consumed
        → Running ps o h reading.new (put ++ string_bytes reading.old.out) consumed) }
    ensures stop { IfErr result (λ stop. stop ≡ Stop.Sink) }
    ensures front { OnErr result (AddsFront (K.holds sink.old) (K.holds sink.new) (string_bytes reading.old.out)) }
    ensures rises { OnErr result (Rose (K.faults sink.old) (K.faults sink.new)) }
    ensures grows { K.faults sink.old ≤ K.faults sink.new }
{
    let Ok(()) = put_all(sink, reading.out.as_bytes()) else {
        return Err(Stop::Sink);
    };
    reading.out.clear();
    Ok(())
}
