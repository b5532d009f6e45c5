//! The links of a client, and who asked on each.

ghost use Rattle.std.specs.Prelude.{◌≡◌, ◌==◌, ◌&&◌, ◌+◌, ◌++◌, ◌∷◌, [], ℕ, false, IfOk, OnOk, None, Some, not, map, if◌then◌else◌};
ghost use Rattle.std.specs.BTreeMap.{IsOrdered, keys};
ghost use Rattle.std.specs.List.{flat_map};
ghost use Rattle.std.specs.List.Sorted.{IsStrictlySortedBy};
ghost use Rattle.std.specs.Option.{is_some, option_map};
ghost use Rattle.std.specs.Ordering.{nat_cmp};
ghost use Rattle.pulsar_calls.specs.Content.{shown};
ghost use Rattle.pulsar_links.specs.LinkEffects.{asked_at, given_at};
ghost use Rattle.pulsar_links.specs.Due.{moment_at};
ghost use Rattle.pulsar_links.specs.Kept.{AreStarted, AreTimed, IsEnd, is_due, links_in, live_in, seat_of};
ghost use Rattle.pulsar_requests.specs.Soonest.{has_come};
ghost use Rattle.pulsar_links.specs.LinkRules.{resting_at, answered_on, due_part, may_ping, moved_on, on_link, over_links, stop_act, told_at};
ghost use Rattle.pulsar_links.specs.Seats.{answer_at, arrival_at, got_at, room_at, has_ended, is_asked, is_busy, seat_asked, seat_got, seat_of_fresh, seat_fed, took_some, url_at};

use crate::due::DueMoments;
use crate::row::Row;
use pulsar_addresses::content::{Address, Cause};
use pulsar_calls::act::{Act, Arrival, End, LinkAct, Notice, Outcome, Part, Who};
use pulsar_calls::effect::Effect;
use pulsar_exchange::content::Request;
use pulsar_session::connection::Connection;
use pulsar_session::states::Stage;
use pulsar_wire::error::{ConnectionError, NoMemory};
use std::alloc::Global;
use std::collections::{BTreeMap, BTreeSet, VecDeque};
use url::Url;

/// How many links were started, and those of them that have not ended, by number.
pub struct Links {
    pub alloc: Global,
    pub started: u64,
    pub live: BTreeMap<u64, Row>,
    /// When each live link is due.
    pub due: DueMoments,
    // a call ran out of memory
    failed: bool,
    ghost timed: { failed ≡ false → AreTimed due live },
    ghost fresh: { failed ≡ false → AreStarted started live },
}

impl Drop for Links {
    fn drop(self) {
        let Links {
            alloc: _,
            started: _,
            live: _,
            due: _,
            failed: _,
        } = self;
    }
}

impl Links {
    /// No link was started.
    pub fn new(alloc: Global) -> Links
        ensures started { result.started ≡ 0 }
        ensures live { (l : ℕ) → live_in result.live l ≡ None }
    {
        Links {
            alloc,
            started: 0,
            live: BTreeMap::new(alloc),
            due: DueMoments::new(alloc),
            failed: false,
        }
    }

    /// Where a link stands that has not ended.
    pub fn stage(&self, link: u64) -> Option<Stage>
        ensures { result ≡ option_map (λ seat. seat.seen.stage) (live_in self.now.live link) }
    {
        match self.live.get(&link) {
            Some(row) => Some(row.connection.stage()),
            None => None,
        }
    }

    /// A link of this number was started, and has ended.
    pub fn has_ended(&self, link: u64) -> bool
        ensures { result ≡ has_ended link (links_in self.now.started self.now.live) }
    {
        link < self.started && !self.live.contains_key(&link)
    }

    /// Whether there is room on a link, where it is ready.
    pub fn room(&self, link: u64) -> Option<bool>
        ensures { result ≡ room_at (live_in self.now.live link) }
    {
        match self.live.get(&link) {
            Some(row) => row.room(),
            None => None,
        }
    }

    /// A request waits on a link that has not ended.
    pub fn is_busy(&self, link: u64) -> bool
        ensures { result ≡ is_busy (live_in self.now.live link) }
    {
        match self.live.get(&link) {
            Some(row) => !row.connection.is_idle(),
            None => false,
        }
    }

    /// One more link is started, which is dialed.
    pub fn start(
        &mut self,
        address: Address,
        connection: Connection,
        now: u64,
    ) -> Result<(), NoMemory>
        ensures started { OnOk result (self.new.started ≡ self.old.started + 1) }
        ensures live { OnOk result ((l : ℕ) → live_in self.new.live l
            ≡ (if l == self.old.started then Some (seat_of_fresh address now connection) else live_in self.old.live l)) }
    {
        if self.failed {
            return Err(NoMemory);
        }
        let link = self.started;
        let Some(after) = link.checked_add(1) else {
            return Err(NoMemory);
        };
        self.failed = true;
        self.started = after;
        put(self.alloc, &mut self.live, link, address, connection, now)?;
        keep(&self.live, &mut self.due, link)?;
        self.failed = false;
        Ok(())
    }

    /// The address that a link is for.
    pub fn address(&self, link: u64) -> Result<Option<Address>, NoMemory>
        ensures { IfOk result (λ a. a ≡ option_map (λ seat. seat.address) (live_in self.now.live link)) }
    {
        match self.live.get(&link) {
            Some(row) => Ok(Some(row.address.copy(self.alloc)?)),
            None => Ok(None),
        }
    }

    /// The address of a link that has not ended.
    pub fn url(&self, link: u64) -> Result<Option<Url>, NoMemory>
        ensures { IfOk result (λ u. u ≡ url_at (live_in self.now.live link)) }
    {
        match self.live.get(&link) {
            Some(row) => Ok(Some(row.address.url().clone()?)),
            None => Ok(None),
        }
    }

    /// A link is got.
    pub fn got(&mut self, now: u64, link: u64) -> Result<(), NoMemory>
        ensures started { OnOk result (self.new.started ≡ self.old.started) }
        ensures live { OnOk result ((l : ℕ) → live_in self.new.live l ≡ got_at (Some link) now l (live_in self.old.live l)) }
    {
        if self.failed {
            return Err(NoMemory);
        }
        self.failed = true;
        got_at(&mut self.live, now, link);
        keep(&self.live, &mut self.due, link)?;
        self.failed = false;
        Ok(())
    }

    /// A link that has not ended is to be pinged: its earlier ping does not wait.
    pub fn may_ping(&self, link: u64) -> bool
        ensures { result ≡ may_ping (live_in self.now.live link) }
    {
        match self.live.get(&link) {
            Some(row) => row.ping.is_none(),
            None => false,
        }
    }

    /// A link is pinged.
    pub fn ping(&mut self, now: u64, link: u64, out: &mut Vec<Effect>) -> Result<(), NoMemory>
        ensures out { OnOk result (map shown out.new.items ≡ map shown out.old.items ++ given_at link LinkAct.Pings now (live_in self.old.live link)) }
        ensures started { OnOk result (self.new.started ≡ self.old.started) }
        ensures live { OnOk result ((l : ℕ) → live_in self.new.live l
            ≡ (if l == link then took_some LinkAct.Pings now (live_in self.old.live l) else live_in self.old.live l)) }
    {
        if self.failed {
            return Err(NoMemory);
        }
        self.failed = true;
        ping_at(&mut self.live, now, link, out)?;
        keep(&self.live, &mut self.due, link)?;
        self.failed = false;
        Ok(())
    }

    /// The ready links on which nothing waits and that were not got for so long, in their order.
    pub fn resting(&self, now: u64, most: u64) -> Result<Vec<u64>, NoMemory>
        ensures { IfOk result (λ links. links.items ≡ over_links (resting_at now most) (links_in self.now.started self.now.live)) }
    {
        if self.failed {
            return Err(NoMemory);
        }
        let links = all_resting(self.alloc, &self.live, now, most)?;
        Ok(links)
    }

    /// A piece is fed to an open link.
    pub fn feed(&mut self, link: u64, piece: &[u8]) -> Result<(), NoMemory>
        ensures started { OnOk result (self.new.started ≡ self.old.started) }
        ensures live { OnOk result ((l : ℕ) → live_in self.new.live l
            ≡ (if l == link then option_map (seat_fed piece.now) (live_in self.old.live l) else live_in self.old.live l)) }
    {
        if self.failed {
            return Err(NoMemory);
        }
        self.failed = true;
        feed_at(&mut self.live, link, piece)?;
        keep(&self.live, &mut self.due, link)?;
        self.failed = false;
        Ok(())
    }

    /// The ends of the links that are due, in their order.
    pub fn due_parts(&self, now: u64) -> Result<VecDeque<Part>, NoMemory>
        ensures { IfOk result (λ ps. ps.items ≡ over_links (due_part now) (links_in self.now.started self.now.live)) }
    {
        if self.failed {
            return Err(NoMemory);
        }
        let links = self.due.come(now)?;
        let parts = ends_due(self.alloc, &self.live, links, now)?;
        Ok(parts)
    }

    /// The ends of all links, in their order.
    pub fn stop_acts(&self) -> Result<VecDeque<Act>, NoMemory>
        ensures { IfOk result (λ acts. acts.items ≡ over_links stop_act (links_in self.now.started self.now.live)) }
    {
        if self.failed {
            return Err(NoMemory);
        }
        let acts = ends_all(self.alloc, &self.live)?;
        Ok(acts)
    }

    /// A link is open.
    pub fn open(&mut self, now: u64, link: u64, out: &mut Vec<Effect>) -> Result<(), NoMemory>
        ensures out { OnOk result (map shown out.new.items ≡ map shown out.old.items ++ given_at link LinkAct.Opens now (live_in self.old.live link)) }
        ensures started { OnOk result (self.new.started ≡ self.old.started) }
        ensures live { OnOk result ((l : ℕ) → live_in self.new.live l
            ≡ (if l == link then took_some LinkAct.Opens now (live_in self.old.live l) else live_in self.old.live l)) }
    {
        if self.failed {
            return Err(NoMemory);
        }
        self.failed = true;
        open_at(&mut self.live, now, link, out)?;
        keep(&self.live, &mut self.due, link)?;
        self.failed = false;
        Ok(())
    }

    /// The next frame of a link is read: what it is, and who is told of a reply.
    pub fn read(
        &mut self,
        now: u64,
        link: u64,
        out: &mut Vec<Effect>,
    ) -> Result<(Arrival, Vec<Notice>), NoMemory>
        ensures out { OnOk result (map shown out.new.items ≡ map shown out.old.items ++ given_at link LinkAct.Reads now (live_in self.old.live link)) }
        ensures arrival { IfOk result (λ r. r.0 ≡ arrival_at (live_in self.old.live link)) }
        ensures notices { IfOk result (λ r. r.1.items ≡ answered_on (live_in self.old.live link)) }
        ensures started { OnOk result (self.new.started ≡ self.old.started) }
        ensures live { OnOk result ((l : ℕ) → live_in self.new.live l
            ≡ (if l == link then took_some LinkAct.Reads now (live_in self.old.live l) else live_in self.old.live l)) }
    {
        if self.failed {
            return Err(NoMemory);
        }
        self.failed = true;
        let read = read_at(self.alloc, &mut self.live, now, link, out)?;
        keep(&self.live, &mut self.due, link)?;
        self.failed = false;
        Ok(read)
    }

    /// So many frames of a link may be written: who asked for those that move up from the line.
    pub fn drain(
        &mut self,
        now: u64,
        link: u64,
        most: usize,
        out: &mut Vec<Effect>,
    ) -> Result<Vec<Notice>, NoMemory>
        ensures out { OnOk result (map shown out.new.items ≡ map shown out.old.items ++ given_at link (LinkAct.Drains most) now (live_in self.old.live link)) }
        ensures notices { IfOk result (λ ns. ns.items ≡ moved_on most now (live_in self.old.live link)) }
        ensures started { OnOk result (self.new.started ≡ self.old.started) }
        ensures live { OnOk result ((l : ℕ) → live_in self.new.live l
            ≡ (if l == link then took_some (LinkAct.Drains most) now (live_in self.old.live l) else live_in self.old.live l)) }
    {
        if self.failed {
            return Err(NoMemory);
        }
        self.failed = true;
        let notices = drain_at(self.alloc, &mut self.live, now, link, most, out)?;
        keep(&self.live, &mut self.due, link)?;
        self.failed = false;
        Ok(notices)
    }

    /// A link ends, unless it is due no more: its address, and all whom its end serves on it.
    pub fn end(
        &mut self,
        now: u64,
        link: u64,
        end: &End,
        out: &mut Vec<Effect>,
    ) -> Result<Option<(Address, Vec<Notice>)>, NoMemory>
        ensures out { OnOk result (map shown out.new.items ≡ map shown out.old.items ++ given_at link (LinkAct.Ends end.now) now (live_in self.old.live link)) }
        ensures end { IfOk result (λ r. IsEnd r end.now now (live_in self.old.live link)) }
        ensures started { OnOk result (self.new.started ≡ self.old.started) }
        ensures live { OnOk result ((l : ℕ) → live_in self.new.live l
            ≡ (if l == link then took_some (LinkAct.Ends end.now) now (live_in self.old.live l) else live_in self.old.live l)) }
    {
        if self.failed {
            return Err(NoMemory);
        }
        let ended = end_at(self.alloc, &self.live, now, link, end, out)?;
        if ended.is_none() {
            return Ok(None);
        }
        self.failed = true;
        drop(self.live.remove(&link));
        keep(&self.live, &mut self.due, link)?;
        self.failed = false;
        Ok(ended)
    }

    /// A request is asked for on a link: whether it is queued or stands in the line, and what the one who asks is told.
    pub fn ask(
        &mut self,
        now: u64,
        who: Who,
        link: u64,
        request: Request,
        out: &mut Vec<Effect>,
    ) -> Result<(bool, Outcome), NoMemory>
        ensures out { OnOk result (map shown out.new.items ≡ map shown out.old.items ++ asked_at link now request (live_in self.old.live link)) }
        ensures asked { IfOk result (λ r. r.0 ≡ is_asked (answer_at now request (live_in self.old.live link))) }
        ensures told { IfOk result (λ r. r.1 ≡ told_at (answer_at now request (live_in self.old.live link))) }
        ensures started { OnOk result (self.new.started ≡ self.old.started) }
        ensures live { OnOk result ((l : ℕ) → live_in self.new.live l
            ≡ (if l == link then option_map (seat_asked who now request) (live_in self.old.live l) else live_in self.old.live l)) }
    {
        if self.failed {
            return Err(NoMemory);
        }
        self.failed = true;
        let answer = ask_at(self.alloc, &mut self.live, now, who, link, request, out)?;
        keep(&self.live, &mut self.due, link)?;
        self.failed = false;
        Ok(answer)
    }
}

/// A link is dialed.
fn put(
    alloc: Global,
    live: &mut BTreeMap<u64, Row>,
    link: u64,
    address: Address,
    connection: Connection,
    now: u64,
) -> Result<(), NoMemory>
    ensures { OnOk result ((l : ℕ) → live_in live.new l ≡ (if l == link then Some (seat_of_fresh address now connection) else live_in live.old l)) }
{
    drop(live.insert(link, Row::new(alloc, address, connection, now))?);
    Ok(())
}

fn got_at(live: &mut BTreeMap<u64, Row>, now: u64, link: u64)
    ensures { (l : ℕ) → live_in live.new l ≡ (if l == link then option_map (seat_got now) (live_in live.old l) else live_in live.old l) }
{
    if let Some(row) = live.get_mut(&link) {
        row.got = now;
    }
}

fn ping_at(
    live: &mut BTreeMap<u64, Row>,
    now: u64,
    link: u64,
    out: &mut Vec<Effect>,
) -> Result<(), NoMemory>
    ensures out { OnOk result (map shown out.new.items ≡ map shown out.old.items ++ given_at link LinkAct.Pings now (live_in live.old link)) }
    ensures live { OnOk result ((l : ℕ) → live_in live.new l ≡ (if l == link then took_some LinkAct.Pings now (live_in live.old l) else live_in live.old l)) }
{
    let Some(row) = live.get_mut(&link) else {
        return Ok(());
    };
    row.ping(now, link, out)?;
    Ok(())
}

/// All links that rest.
fn all_resting(
    alloc: Global,
    live: &BTreeMap<u64, Row>,
    now: u64,
    most: u64,
) -> Result<Vec<u64>, NoMemory>
    ensures links { IfOk result (λ links. links.items ≡ flat_map (on_link (resting_at now most) (live_in live.now)) (keys live.now)) }
    ensures ordered { OnOk result (IsOrdered nat_cmp live.now) }
{
    let mut links = Vec::new(alloc);
    for (link, row) in live {
        let rests = row.rests(now, most);
        add_resting(&mut links, *link, rests)?;
    }
    Ok(links)
}

fn add_resting(links: &mut Vec<u64>, link: u64, rests: bool) -> Result<(), NoMemory>
    ensures { OnOk result (links.new.items ≡ links.old.items ++ (if rests then link ∷ [] else [])) }
{
    if rests {
        links.push(link)?;
    }
    Ok(())
}

fn feed_at(live: &mut BTreeMap<u64, Row>, link: u64, piece: &[u8]) -> Result<(), NoMemory>
    ensures { OnOk result ((l : ℕ) → live_in live.new l ≡ (if l == link then option_map (seat_fed piece.now) (live_in live.old l) else live_in live.old l)) }
{
    let Some(row) = live.get_mut(&link) else {
        return Ok(());
    };
    row.connection.feed(piece)?;
    Ok(())
}

fn open_at(
    live: &mut BTreeMap<u64, Row>,
    now: u64,
    link: u64,
    out: &mut Vec<Effect>,
) -> Result<(), NoMemory>
    ensures out { OnOk result (map shown out.new.items ≡ map shown out.old.items ++ given_at link LinkAct.Opens now (live_in live.old link)) }
    ensures live { OnOk result ((l : ℕ) → live_in live.new l ≡ (if l == link then took_some LinkAct.Opens now (live_in live.old l) else live_in live.old l)) }
{
    let Some(row) = live.get_mut(&link) else {
        return Ok(());
    };
    row.open(now, link, out)?;
    Ok(())
}

fn read_at(
    alloc: Global,
    live: &mut BTreeMap<u64, Row>,
    now: u64,
    link: u64,
    out: &mut Vec<Effect>,
) -> Result<(Arrival, Vec<Notice>), NoMemory>
    ensures out { OnOk result (map shown out.new.items ≡ map shown out.old.items ++ given_at link LinkAct.Reads now (live_in live.old link)) }
    ensures arrival { IfOk result (λ r. r.0 ≡ arrival_at (live_in live.old link)) }
    ensures notices { IfOk result (λ r. r.1.items ≡ answered_on (live_in live.old link)) }
    ensures live { OnOk result ((l : ℕ) → live_in live.new l ≡ (if l == link then took_some LinkAct.Reads now (live_in live.old l) else live_in live.old l)) }
{
    let Some(row) = live.get_mut(&link) else {
        return Ok((Arrival::Nothing, Vec::new(alloc)));
    };
    let read = row.read(alloc, now, link, out)?;
    Ok(read)
}

fn drain_at(
    alloc: Global,
    live: &mut BTreeMap<u64, Row>,
    now: u64,
    link: u64,
    most: usize,
    out: &mut Vec<Effect>,
) -> Result<Vec<Notice>, NoMemory>
    ensures out { OnOk result (map shown out.new.items ≡ map shown out.old.items ++ given_at link (LinkAct.Drains most) now (live_in live.old link)) }
    ensures notices { IfOk result (λ ns. ns.items ≡ moved_on most now (live_in live.old link)) }
    ensures live { OnOk result ((l : ℕ)
        → live_in live.new l ≡ (if l == link then took_some (LinkAct.Drains most) now (live_in live.old l) else live_in live.old l)) }
{
    let Some(row) = live.get_mut(&link) else {
        return Ok(Vec::new(alloc));
    };
    let notices = row.drain(alloc, now, link, most, out)?;
    Ok(notices)
}

/// What the end of a link gives, unless it is due no more.
fn end_at(
    alloc: Global,
    live: &BTreeMap<u64, Row>,
    now: u64,
    link: u64,
    end: &End,
    out: &mut Vec<Effect>,
) -> Result<Option<(Address, Vec<Notice>)>, NoMemory>
    ensures out { OnOk result (map shown out.new.items ≡ map shown out.old.items ++ given_at link (LinkAct.Ends end.now) now (live_in live.now link)) }
    ensures end { IfOk result (λ r. IsEnd r end.now now (live_in live.now link)) }
    ensures left { IfOk result (λ r. took_some (LinkAct.Ends end.now) now (live_in live.now link) ≡ (if is_some r then None else live_in live.now link)) }
{
    let Some(row) = live.get(&link) else {
        return Ok(None);
    };
    if !row.is_over_by(end, now) {
        return Ok(None);
    }
    let notices = row.end(alloc, now, link, end, out)?;
    let address = row.address.copy(alloc)?;
    Ok(Some((address, notices)))
}

fn ask_at(
    alloc: Global,
    live: &mut BTreeMap<u64, Row>,
    now: u64,
    who: Who,
    link: u64,
    request: Request,
    out: &mut Vec<Effect>,
) -> Result<(bool, Outcome), NoMemory>
    ensures out { OnOk result (map shown out.new.items ≡ map shown out.old.items ++ asked_at link now request (live_in live.old link)) }
    ensures asked { IfOk result (λ r. r.0 ≡ is_asked (answer_at now request (live_in live.old link))) }
    ensures told { IfOk result (λ r. r.1 ≡ told_at (answer_at now request (live_in live.old link))) }
    ensures live { OnOk result ((l : ℕ)
        → live_in live.new l ≡ (if l == link then option_map (seat_asked who now request) (live_in live.old l) else live_in live.old l)) }
{
    let Some(row) = live.get_mut(&link) else {
        let cause = Cause::new(alloc, ConnectionError::Disconnected)?;
        return Ok((false, Outcome::Refused(cause)));
    };
    let answer = row.ask(alloc, now, who, link, request, out)?;
    Ok(answer)
}

/// The ends of those of these links that are due.
fn ends_due(
    alloc: Global,
    live: &BTreeMap<u64, Row>,
    links: BTreeSet<u64>,
    now: u64,
) -> Result<VecDeque<Part>, NoMemory>
    ensures ends { IfOk result (λ ps. ps.items ≡ flat_map (on_link (due_part now) (live_in live.now)) links.keys) }
    ensures ordered { OnOk result (IsStrictlySortedBy nat_cmp links.keys) }
{
    let mut parts = VecDeque::new(alloc);
    for link in links {
        end_due(&mut parts, live, now, link)?;
    }
    Ok(parts)
}

/// The ends of all links.
fn ends_all(alloc: Global, live: &BTreeMap<u64, Row>) -> Result<VecDeque<Act>, NoMemory>
    ensures ends { IfOk result (λ acts. acts.items ≡ flat_map (on_link stop_act (live_in live.now)) (keys live.now)) }
    ensures ordered { OnOk result (IsOrdered nat_cmp live.now) }
{
    let mut acts = VecDeque::new(alloc);
    for (link, _) in live {
        acts.push_back(Act::Comes(Part::ToLink {
            link: *link,
            act: LinkAct::Ends(End::Stops),
        }))?;
    }
    Ok(acts)
}

/// A link that is due ends.
fn end_due(
    parts: &mut VecDeque<Part>,
    live: &BTreeMap<u64, Row>,
    now: u64,
    link: u64,
) -> Result<(), NoMemory>
    ensures { OnOk result (parts.new.items ≡ parts.old.items ++ on_link (due_part now) (live_in live.now) link) }
{
    match live.get(&link) {
        Some(row) if row.connection.due(now) => {
            let below = row.connection.queued();
            parts.push_back(Part::ToLink {
                link,
                act: LinkAct::Ends(End::Overdue { below }),
            })?;
            Ok(())
        }
        _ => Ok(()),
    }
}

/// When a link is due is kept.
fn keep(live: &BTreeMap<u64, Row>, due: &mut DueMoments, link: u64) -> Result<(), NoMemory>
    ensures timed { OnOk result ((now : ℕ) → has_come now (moment_at due.new link) ≡ is_due now (live_in live.now link)) }
    ensures others { OnOk result ((l : ℕ) → (l == link) ≡ false → moment_at due.new l ≡ moment_at due.old l) }
{
    let moment = due_at(live, link);
    due.set(link, moment)?;
    Ok(())
}

/// When a link is due.
fn due_at(live: &BTreeMap<u64, Row>, link: u64) -> Option<u64>
    ensures { (now : ℕ) → has_come now result ≡ is_due now (live_in live.now link) }
{
    match live.get(&link) {
        Some(row) => row.connection.due_at(),
        None => None,
    }
}
