//! Pumps: rounds until one answers an end.

ghost use Rattle.std.specs.Prelude.{◌≡◌, ◌||◌, false, true, IfOk, OnErr, map};
ghost use Rattle.pulsar_pumps.specs.Made.{made_of};
ghost use Rattle.pulsar_pumps.specs.Pumping.{PumpIn, PumpOut, TurnOut, end, is_ended, is_idle, is_last, says_ended, says_idle, says_last};

use crate::outside::input::Input;
use crate::outside::output::Output;
use crate::rounds::{PumpEnd, round_in, round_out};
use crate::submitter::{Receipt, Submitter};
use pulsar_calls::event::Event;
use pulsar_wire::error::NoMemory;

/// Submits all that comes on the link, until it has ended or is lost. Each event that it submitted is appended to `made` with its receipt.
pub fn pump_in<S: Submitter, I: Input>(
    submitter: &mut S,
    link: u64,
    input: &mut I,
    made: &mut Vec<(Event, Receipt)>,
) -> Result<PumpEnd, NoMemory>
    ensures ran { let s = end (map made_of made.old.items) (S.told submitter.old) (I.given input.old) (I.faults input.old) in
        let t = end (map made_of made.new.items) (S.told submitter.new) (I.given input.new) (I.faults input.new) in
        PumpIn link s t result }
    ensures ended { IfOk result (λ e. is_ended e ≡ true → S.over submitter.new link true) }
{
    for _ in 0..u64::MAX {
        match round_in(submitter, link, input, made) {
            Ok(Some(end)) => return Ok(end),
            Ok(None) => {}
            Err(e) => return Err(e),
        }
    }
    Err(NoMemory)
}

/// Writes all that is to be written on the link, until it has ended or is lost. Where nothing is there to write it waits until somebody else
/// has submitted an event that is no Drain, or answers Idle where nobody else submits. Each event that it submitted is appended to `made`
/// with its receipt.
pub fn pump_out<S: Submitter, O: Output>(
    submitter: &mut S,
    link: u64,
    output: &mut O,
    made: &mut Vec<(Event, Receipt)>,
) -> Result<PumpEnd, NoMemory>
    ensures ran { let s = end (map made_of made.old.items) (S.told submitter.old) (O.taken output.old) (O.faults output.old) in
        let t = end (map made_of made.new.items) (S.told submitter.new) (O.taken output.new) (O.faults output.new) in
        PumpOut link s t result }
    ensures ended { IfOk result (λ e. is_ended e ≡ true → S.over submitter.new link true) }
    ensures shut { IfOk result (λ e. O.is_shut output.new ≡ (is_last e || O.is_shut output.old)) }
    ensures stays { OnErr result (O.is_shut output.new ≡ O.is_shut output.old) }
    ensures idle { IfOk result (λ e. is_idle e ≡ true → S.others ≡ false) }
{
    for _ in 0..u64::MAX {
        match turn_out(submitter, link, output, made) {
            Ok(Some(end)) => return Ok(end),
            Ok(None) => {}
            Err(e) => return Err(e),
        }
    }
    Err(NoMemory)
}

/// One round, and the wait behind it where it found nothing to write.
fn turn_out<S: Submitter, O: Output>(
    submitter: &mut S,
    link: u64,
    output: &mut O,
    made: &mut Vec<(Event, Receipt)>,
) -> Result<Option<PumpEnd>, NoMemory>
    ensures ran { let s = end (map made_of made.old.items) (S.told submitter.old) (O.taken output.old) (O.faults output.old) in
        let t = end (map made_of made.new.items) (S.told submitter.new) (O.taken output.new) (O.faults output.new) in
        TurnOut link s t result }
    ensures ended { IfOk result (λ r. says_ended r ≡ true → S.over submitter.new link true) }
    ensures shut { IfOk result (λ r. O.is_shut output.new ≡ (says_last r || O.is_shut output.old)) }
    ensures stays { OnErr result (O.is_shut output.new ≡ O.is_shut output.old) }
    ensures idle { IfOk result (λ r. says_idle r ≡ true → S.others ≡ false) }
{
    match round_out(submitter, link, output, made) {
        Ok(Some(PumpEnd::Idle)) => match goes_on(submitter, link, seen(made)) {
            Ok(true) => Ok(None),
            Ok(false) => Ok(Some(PumpEnd::Idle)),
            Err(e) => Err(e),
        },
        Ok(Some(PumpEnd::LinkEnded)) => Ok(Some(PumpEnd::LinkEnded)),
        Ok(Some(PumpEnd::Lost)) => Ok(Some(PumpEnd::Lost)),
        Ok(None) => Ok(None),
        Err(e) => Err(e),
    }
}

/// Waits for news. The link may have ended since the round began, with nothing to come behind its last Drain: then it goes on at once.
fn goes_on<S: Submitter>(submitter: &mut S, link: u64, seen: u64) -> Result<bool, NoMemory>
    ensures told { S.told submitter.new ≡ S.told submitter.old }
    ensures others { IfOk result (λ b. b ≡ false → S.others ≡ false) }
{
    match submitter.ended(link) {
        Ok(true) => Ok(true),
        Ok(false) => submitter.wait(seen),
        Err(e) => Err(e),
    }
}

/// One above the place of the last event.
fn seen(made: &[(Event, Receipt)]) -> u64 {
    match made.last() {
        Some((_, receipt)) => receipt.index.saturating_add(1),
        None => 0,
    }
}
