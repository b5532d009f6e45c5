//! One link of a client.

ghost use Rattle.std.specs.Prelude.{◌≡◌, ◌==◌, ◌&&◌, nat_le, length, ◌-◌, ◌++◌, ◌∷◌, [], ℕ, false, IfOk, OnOk, Some, None, map, if◌then◌else◌};
ghost use Rattle.std.specs.BTreeMap.{get};
ghost use Rattle.std.specs.List.{filter_map, list_any};
ghost use Rattle.std.specs.Option.{is_some, option_to_list};
ghost use Rattle.std.specs.Ordering.{nat_cmp};
ghost use Rattle.pulsar_session.specs.Kept.{came_of};
ghost use Rattle.pulsar_requests.specs.Waits.{is_empty};
ghost use Rattle.pulsar_session.specs.Link.{Asks, after as after_call, asked, came, ends, is_memory, is_ready};
ghost use Rattle.pulsar_calls.specs.Content.{shown};
ghost use Rattle.pulsar_links.specs.Links.{after, arrival, arrives, change_in, close, closed_by, effects, is_own_end, line_places, lost, new_places, queues, queues_at, settled_in, settles, times_out, write};
ghost use Rattle.pulsar_calls.specs.Content.{numbers_from};
ghost use Rattle.pulsar_links.specs.Links as links;
ghost use Rattle.pulsar_links.specs.LinkRules as rules;
ghost use Rattle.pulsar_links.specs.LinkRules.{is_resting_at, answered_by, dropped, ended_places, lost_with, moved_up, tells_asker, told_at};
ghost use Rattle.pulsar_links.specs.Kept.{seat_of, settled};
ghost use Rattle.pulsar_links.specs.Seats.{asker_at, askers_left, got_since, is_asked, later, ping_left, place_of, room_in, seat_asked, seat_of_fresh, took};

use crate::ask::ask;
use pulsar_addresses::content::{Address, Cause};
use pulsar_calls::act::{Arrival, End, LinkAct, Notice, Outcome, Who};
use pulsar_calls::effect::{Effect, Settlement};
use pulsar_exchange::content::{Received, Request};
use pulsar_session::connection::Connection;
use pulsar_session::states::{Arrived, Asked, Stage};
use pulsar_wire::error::{ConnectionError, NoMemory};
use std::alloc::Global;
use std::collections::BTreeMap;

/// A link: the address that it is for, its connection, who asked for the frames of its places that are to be told something, the
/// moment at which it was last got, and the place of the ping that keeps it alive, while that waits.
pub struct Row {
    pub address: Address,
    pub connection: Connection,
    pub askers: BTreeMap<u64, Who>,
    pub got: u64,
    pub ping: Option<u64>,
}

impl Drop for Row {
    fn drop(self) {
        let Row {
            address: _,
            connection: _,
            askers: _,
            got: _,
            ping: _,
        } = self;
    }
}

impl Row {
    /// A link that is dialed. Nobody has asked on it, and it counts as got now.
    pub fn new(alloc: Global, address: Address, connection: Connection, now: u64) -> Row
        ensures { seat_of result ≡ seat_of_fresh address now connection }
    {
        Row {
            address,
            connection,
            askers: BTreeMap::new(alloc),
            got: now,
            ping: None,
        }
    }

    /// It is open.
    pub fn open(&mut self, now: u64, link: u64, out: &mut Vec<Effect>) -> Result<(), NoMemory>
        ensures out { OnOk result (map shown out.new.items ≡ map shown out.old.items ++ effects link LinkAct.Opens now self.old.connection) }
        ensures sees { OnOk result (Some (seat_of self.new) ≡ took LinkAct.Opens now (seat_of self.old)) }
    {
        let before = self.connection.queued();
        self.connection.opened(now)?;
        queue(out, link, before, &self.connection)
    }

    /// The next frame is read: what it is, and who is told of a reply.
    pub fn read(
        &mut self,
        alloc: Global,
        now: u64,
        link: u64,
        out: &mut Vec<Effect>,
    ) -> Result<(Arrival, Vec<Notice>), NoMemory>
        ensures out { OnOk result (map shown out.new.items ≡ map shown out.old.items ++ effects link LinkAct.Reads now self.old.connection) }
        ensures arrival { IfOk result (λ r. r.0 ≡ arrival self.old.connection) }
        ensures notices { IfOk result (λ r. r.1.items ≡ answered_by (came self.old.connection) (seat_of self.old).askers) }
        ensures sees { OnOk result (Some (seat_of self.new) ≡ took LinkAct.Reads now (seat_of self.old)) }
    {
        let before = self.connection.queued();
        let arrived = self.connection.next(now)?;
        self.got = got_since(&arrived, now, self.got);
        let read = self.take(alloc, link, arrived, out)?;
        queue(out, link, before, &self.connection)?;
        Ok(read)
    }

    /// What came is taken.
    fn take(
        &mut self,
        alloc: Global,
        link: u64,
        arrived: Option<Arrived>,
        out: &mut Vec<Effect>,
    ) -> Result<(Arrival, Vec<Notice>), NoMemory>
        ensures out { OnOk result (map shown out.new.items ≡ map shown out.old.items ++ map (settles link Settlement.Reply) (settled_in (came_of arrived))) }
        ensures arrival { IfOk result (λ r. r.0 ≡ arrives (came_of arrived)) }
        ensures notices { IfOk result (λ r. r.1.items ≡ answered_by (came_of arrived) (seat_of self.old).askers) }
        ensures sees { OnOk result (seat_of self.new ≡ settled (settled_in (came_of arrived)) (seat_of self.old)) }
    {
        match arrived {
            None => Ok((Arrival::Nothing, Vec::new(alloc))),
            Some(Arrived::Ready) => Ok((Arrival::Readied, Vec::new(alloc))),
            Some(Arrived::Settled { places, reply }) => {
                let reply = Received::new(alloc, reply)?;
                let notices = self.settle(alloc, link, places, reply, out)?;
                Ok((Arrival::Settles, notices))
            }
            Some(Arrived::ForConsumer { consumer, reply }) => {
                let reply = Received::new(alloc, reply)?;
                Ok((Arrival::Gives { consumer, reply }, Vec::new(alloc)))
            }
            Some(Arrived::Challenge | Arrived::Dropped) => Ok((Arrival::Passes, Vec::new(alloc))),
            Some(Arrived::Bad(error)) => {
                let cause = Cause::new(alloc, error)?;
                Ok((Arrival::Bad(cause), Vec::new(alloc)))
            }
        }
    }

    /// The requests of these places are settled by a reply: who asked for them.
    fn settle(
        &mut self,
        alloc: Global,
        link: u64,
        places: Vec<u64>,
        reply: Received,
        out: &mut Vec<Effect>,
    ) -> Result<Vec<Notice>, NoMemory>
        ensures out { OnOk result (map shown out.new.items ≡ map shown out.old.items ++ map (settles link Settlement.Reply) places.items) }
        ensures notices { IfOk result (λ ns. ns.items ≡ filter_map (tells_asker (λ place. Outcome.Replied reply) (seat_of self.old).askers) places.items) }
        ensures sees { OnOk result (seat_of self.new ≡ settled places.items (seat_of self.old)) }
    {
        settle_all(out, link, &places)?;
        let notices = answer_all(alloc, &self.askers, &places, reply)?;
        self.ping = ping_left(&places, self.ping);
        forget(&mut self.askers, places);
        Ok(notices)
    }

    /// So many frames may be written: who asked for those that move up from the line, in their order.
    pub fn drain(
        &mut self,
        alloc: Global,
        now: u64,
        link: u64,
        most: usize,
        out: &mut Vec<Effect>,
    ) -> Result<Vec<Notice>, NoMemory>
        ensures out { OnOk result (map shown out.new.items ≡ map shown out.old.items ++ effects link (LinkAct.Drains most) now self.old.connection) }
        ensures notices { IfOk result (λ ns. ns.items
            ≡ moved_up (seat_of self.old).askers self.old.connection (after (LinkAct.Drains most) now self.old.connection)) }
        ensures sees { OnOk result (Some (seat_of self.new) ≡ took (LinkAct.Drains most) now (seat_of self.old)) }
    {
        let before = self.connection.queued();
        let bytes = self.connection.drain(most, now)?;
        write(out, link, bytes)?;
        queue(out, link, before, &self.connection)?;
        let after = self.connection.queued();
        tell_queued(alloc, &self.askers, before, after)
    }

    /// It is pinged.
    pub fn ping(&mut self, now: u64, link: u64, out: &mut Vec<Effect>) -> Result<(), NoMemory>
        ensures out { OnOk result (map shown out.new.items ≡ map shown out.old.items ++ effects link LinkAct.Pings now self.old.connection) }
        ensures sees { OnOk result (Some (seat_of self.new) ≡ took LinkAct.Pings now (seat_of self.old)) }
    {
        let before = self.connection.queued();
        let answer = self.connection.send_ping(now);
        if let Err(ConnectionError::NoMemory) = &answer {
            return Err(NoMemory);
        }
        self.ping = place_of(&answer);
        queue(out, link, before, &self.connection)
    }

    /// It is ready, and was not got for so long, and no request of it waits and no frame stands in its line.
    pub fn rests(&self, now: u64, most: u64) -> bool
        ensures { result ≡ is_resting_at now most (seat_of self.now) }
    {
        self.connection.stage() == Stage::Ready
            && self.got.saturating_add(most) <= now
            && self.connection.is_idle()
            && self.connection.standing() == 0
    }

    /// Whether there is room on it, where it is ready.
    pub fn room(&self) -> Option<bool>
        ensures { result ≡ room_in (seat_of self.now) }
    {
        match self.connection.stage() {
            Stage::Ready => Some(self.connection.has_room()),
            Stage::Dialing | Stage::Handshaking | Stage::Over => None,
        }
    }

    /// An end closes it: a deadline only where it is due still.
    pub fn is_over_by(&self, end: &End, now: u64) -> bool
        ensures { result ≡ is_some (closed_by end.now now self.now.connection) }
    {
        match end {
            End::Overdue { below: _ } => self.connection.due(now),
            End::Unopened(_) | End::Lost | End::Broken(_) | End::Idles | End::Stops => true,
        }
    }

    /// It ends: all whom that serves on it.
    pub fn end(
        &self,
        alloc: Global,
        now: u64,
        link: u64,
        end: &End,
        out: &mut Vec<Effect>,
    ) -> Result<Vec<Notice>, NoMemory>
        ensures out { OnOk result (map shown out.new.items ≡ map shown out.old.items
            ++ (map (lost link end.now now self.now.connection) (ends self.now.connection) ++ close link (is_own_end end.now))) }
        ensures notices { IfOk result (λ ns. ns.items ≡ ended_places end.now now self.now.connection (seat_of self.now).askers) }
    {
        let mut notices = Vec::new(alloc);
        for place in self.connection.waiting()? {
            self.lose(now, link, end, place, &mut notices, out)?;
        }
        let first = self.connection.queued();
        let standing = self.connection.standing();
        drop_all(&mut notices, &self.askers, end, first, standing)?;
        close(out, link, is_own_end(end))?;
        Ok(notices)
    }

    /// The request of a place ends with it.
    fn lose(
        &self,
        now: u64,
        link: u64,
        end: &End,
        place: u64,
        notices: &mut Vec<Notice>,
        out: &mut Vec<Effect>,
    ) -> Result<(), NoMemory>
        ensures out { OnOk result (map shown out.new.items ≡ map shown out.old.items ++ lost link end.now now self.now.connection place ∷ []) }
        ensures notices { OnOk result (notices.new.items ≡ notices.old.items
            ++ option_to_list (tells_asker (rules.lost end.now now self.now.connection) (seat_of self.now).askers place)) }
    {
        let is_timed_out = self.times_out(end, now, place);
        out.push(Effect::Settled {
            link,
            place,
            outcome: settlement(is_timed_out),
        })?;
        tell_asker(notices, &self.askers, place, lost(end, is_timed_out))
    }

    /// The request of a place times out at an end.
    fn times_out(&self, end: &End, now: u64, place: u64) -> bool
        ensures { result ≡ times_out end.now now self.now.connection place }
    {
        match end {
            End::Overdue { below } => place < *below && self.connection.overdue(place, now),
            End::Unopened(_) | End::Lost | End::Broken(_) | End::Idles | End::Stops => false,
        }
    }

    /// A request is asked for: whether it is queued or stands in the line, and what the one who asks is told.
    pub fn ask(
        &mut self,
        alloc: Global,
        now: u64,
        who: Who,
        link: u64,
        request: Request,
        out: &mut Vec<Effect>,
    ) -> Result<(bool, Outcome), NoMemory>
        ensures out { OnOk result (map shown out.new.items ≡ map shown out.old.items
            ++ queues link self.old.connection (after_call (Asks now request) self.old.connection)) }
        ensures asked { IfOk result (λ r. r.0 ≡ is_asked (asked now request self.old.connection)) }
        ensures told { IfOk result (λ r. r.1 ≡ told_at (asked now request self.old.connection)) }
        ensures sees { OnOk result (seat_of self.new ≡ seat_asked who now request (seat_of self.old)) }
    {
        let before = self.connection.queued();
        let is_asker = request.is_awaited();
        let answer = ask(&mut self.connection, now, request);
        let place = place_of(&answer);
        let told = told_at(alloc, answer)?;
        queue(out, link, before, &self.connection)?;
        seat(&mut self.askers, is_asker, place, who)?;
        Ok(told)
    }
}

/// A link counts as got when it becomes ready.
fn got_since(arrived: &Option<Arrived>, now: u64, got: u64) -> u64
    ensures { result ≡ got_since (change_in (arrives (came_of arrived.now))) now got }
{
    match arrived {
        Some(Arrived::Ready) => now,
        Some(
            Arrived::Settled { .. }
            | Arrived::ForConsumer { .. }
            | Arrived::Challenge
            | Arrived::Dropped
            | Arrived::Bad(_),
        )
        | None => got,
    }
}

/// A ping waits until its place is settled.
fn ping_left(settled: &[u64], ping: Option<u64>) -> Option<u64>
    ensures { result ≡ ping_left settled.now ping }
{
    let Some(place) = ping else {
        return None;
    };
    if settled.contains(&place) {
        None
    } else {
        Some(place)
    }
}

/// The place of a frame that is asked for.
fn place_of(answer: &Result<Asked, ConnectionError>) -> Option<u64>
    ensures { result ≡ place_of answer.now }
{
    match answer {
        Ok(Asked::Queued(place) | Asked::Waiting(place)) => Some(*place),
        Err(_) => None,
    }
}

/// Whether a request is asked for, and what the one who asks is told at once.
fn told_at(
    alloc: Global,
    answer: Result<Asked, ConnectionError>,
) -> Result<(bool, Outcome), NoMemory>
    ensures memory { OnOk result (is_memory answer ≡ false) }
    ensures asked { IfOk result (λ r. r.0 ≡ is_asked answer) }
    ensures told { IfOk result (λ r. r.1 ≡ told_at answer) }
{
    match answer {
        Ok(Asked::Queued(_)) => Ok((true, Outcome::Queued)),
        Ok(Asked::Waiting(_)) => Ok((true, Outcome::InLine)),
        Err(ConnectionError::NoMemory) => Err(NoMemory),
        Err(error) => Ok((false, Outcome::Refused(Cause::new(alloc, error)?))),
    }
}

/// Who asks for a frame that has a reply is the asker of its place.
fn seat(
    askers: &mut BTreeMap<u64, Who>,
    is_asker: bool,
    place: Option<u64>,
    who: Who,
) -> Result<(), NoMemory>
    ensures { OnOk result ((p : ℕ) → get nat_cmp askers.new p ≡ asker_at is_asker who place (get nat_cmp askers.old) p) }
{
    if let Some(place) = place {
        if is_asker {
            askers.insert(place, who)?;
        }
    }
    Ok(())
}

/// The requests of these places are settled by a reply.
fn settle_all(out: &mut Vec<Effect>, link: u64, places: &[u64]) -> Result<(), NoMemory>
    ensures { OnOk result (map shown out.new.items ≡ map shown out.old.items ++ map (settles link Settlement.Reply) places.now) }
{
    for place in places {
        out.push(Effect::Settled {
            link,
            place: *place,
            outcome: Settlement::Reply,
        })?;
    }
    Ok(())
}

/// Those who asked for these places are told the reply, the last of them by itself and the others by a copy.
fn answer_all(
    alloc: Global,
    askers: &BTreeMap<u64, Who>,
    places: &[u64],
    reply: Received,
) -> Result<Vec<Notice>, NoMemory>
    ensures { IfOk result (λ ns. ns.items ≡ filter_map (tells_asker (λ place. Outcome.Replied reply) (get nat_cmp askers.now)) places.now) }
{
    let Some((last, others)) = places.split_last() else {
        return Ok(Vec::new(alloc));
    };
    let mut notices = answer_by_copies(alloc, askers, others, &reply)?;
    tell_asker(&mut notices, askers, *last, Outcome::Replied(reply))?;
    Ok(notices)
}

fn answer_by_copies(
    alloc: Global,
    askers: &BTreeMap<u64, Who>,
    places: &[u64],
    reply: &Received,
) -> Result<Vec<Notice>, NoMemory>
    ensures { IfOk result (λ ns. ns.items ≡ filter_map (tells_asker (λ place. Outcome.Replied reply.now) (get nat_cmp askers.now)) places.now) }
{
    let mut notices = Vec::new(alloc);
    for place in places {
        let copy = reply.copy(alloc)?;
        tell_asker(&mut notices, askers, *place, Outcome::Replied(copy))?;
    }
    Ok(notices)
}

/// Those of these places are no askers any more.
fn forget(askers: &mut BTreeMap<u64, Who>, places: Vec<u64>)
    ensures { (place : ℕ) → get nat_cmp askers.new place ≡ askers_left places.items (get nat_cmp askers.old) place }
{
    for place in places {
        askers.remove(&place);
    }
}

/// Those who asked for the frames of these places, which stood in the line.
fn tell_queued(
    alloc: Global,
    askers: &BTreeMap<u64, Who>,
    first: u64,
    end: u64,
) -> Result<Vec<Notice>, NoMemory>
    ensures { IfOk result (λ ns. ns.items ≡ filter_map (tells_asker (λ place. Outcome.Queued) (get nat_cmp askers.now)) (numbers_from first (end - first))) }
{
    let mut notices = Vec::new(alloc);
    for place in first..end {
        tell_asker(&mut notices, askers, place, Outcome::Queued)?;
    }
    Ok(notices)
}

/// Those who asked for the frames that stand in the line, which are dropped.
fn drop_all(
    notices: &mut Vec<Notice>,
    askers: &BTreeMap<u64, Who>,
    end: &End,
    first: u64,
    count: u64,
) -> Result<(), NoMemory>
    ensures { OnOk result (notices.new.items ≡ notices.old.items ++ filter_map (tells_asker (λ place. dropped end.now) (get nat_cmp askers.now))
        (numbers_from first count)) }
{
    let Some(after) = first.checked_add(count) else {
        return Err(NoMemory);
    };
    for place in first..after {
        let outcome = dropped(end);
        tell_asker(notices, askers, place, outcome)?;
    }
    Ok(())
}

fn close(out: &mut Vec<Effect>, link: u64, is_own: bool) -> Result<(), NoMemory>
    ensures { OnOk result (map shown out.new.items ≡ map shown out.old.items ++ close link is_own) }
{
    if is_own {
        out.push(Effect::Close { link })?;
    }
    Ok(())
}

/// The one who asked for a place is told, if there is one.
fn tell_asker(
    notices: &mut Vec<Notice>,
    askers: &BTreeMap<u64, Who>,
    place: u64,
    outcome: Outcome,
) -> Result<(), NoMemory>
    ensures { OnOk result (notices.new.items ≡ notices.old.items ++ option_to_list (tells_asker (λ p. outcome) (get nat_cmp askers.now) place)) }
{
    if let Some(who) = askers.get(&place) {
        notices.push(Notice { who: *who, outcome })?;
    }
    Ok(())
}

/// The frames that are queued from a place on.
fn queue(
    out: &mut Vec<Effect>,
    link: u64,
    first: u64,
    connection: &Connection,
) -> Result<(), NoMemory>
    ensures { OnOk result (map shown out.new.items ≡ map shown out.old.items
        ++ filter_map (queues_at link connection.now) (numbers_from first (connection.now.waits.queued - first))) }
{
    for place in first..connection.queued() {
        queue_one(out, link, place, connection)?;
    }
    Ok(())
}

fn queue_one(
    out: &mut Vec<Effect>,
    link: u64,
    place: u64,
    connection: &Connection,
) -> Result<(), NoMemory>
    ensures { OnOk result (map shown out.new.items ≡ map shown out.old.items ++ option_to_list (queues_at link connection.now place)) }
{
    if let Some(frame) = connection.frame(place) {
        let bytes = frame.to_vec(*out.allocator())?;
        out.push(Effect::Queued { link, place, bytes })?;
    }
    Ok(())
}

fn write(out: &mut Vec<Effect>, link: u64, bytes: Vec<u8>) -> Result<(), NoMemory>
    ensures { OnOk result (map shown out.new.items ≡ map shown out.old.items ++ write link bytes.items) }
{
    if !bytes.is_empty() {
        out.push(Effect::Write { link, bytes })?;
    }
    Ok(())
}

fn settlement(is_timed_out: bool) -> Settlement
    ensures { result ≡ links.lost_so is_timed_out }
{
    if is_timed_out {
        Settlement::TimedOut
    } else {
        Settlement::Disconnected
    }
}

/// What one is told whose request ends with its link.
fn lost(end: &End, is_timed_out: bool) -> Outcome
    ensures { result ≡ lost_with end.now is_timed_out }
{
    match end {
        End::Overdue { .. } => lost_so(is_timed_out),
        End::Unopened(_) | End::Lost | End::Broken(_) | End::Idles => Outcome::Disconnected,
        End::Stops => Outcome::Cut,
    }
}

fn lost_so(is_timed_out: bool) -> Outcome
    ensures { result ≡ rules.lost_so is_timed_out }
{
    if is_timed_out {
        Outcome::TimedOut
    } else {
        Outcome::Disconnected
    }
}

/// What those are told whose frames stand in the line of a link that ends.
fn dropped(end: &End) -> Outcome
    ensures { result ≡ dropped end.now }
{
    match end {
        End::Unopened(_) | End::Lost | End::Overdue { .. } | End::Broken(_) | End::Idles => {
            Outcome::Disconnected
        }
        End::Stops => Outcome::Stopped,
    }
}

/// The client closes the connection itself, unless it never was open or is lost.
fn is_own_end(end: &End) -> bool
    ensures { result ≡ is_own_end end.now }
{
    match end {
        End::Unopened(_) | End::Lost => false,
        End::Overdue { .. } | End::Broken(_) | End::Idles | End::Stops => true,
    }
}
