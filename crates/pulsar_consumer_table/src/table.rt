//! The consumers of a client.

ghost use Rattle.std.specs.Prelude.{◌≡◌, ◌++◌, false, true, IfOk, OnOk, None, Some, IsTrue, ◌↔◌, if◌then◌else◌};
ghost use Rattle.std.proofs.Props.{props};
ghost use Rattle.std.specs.BTreeMap.{IsOrdered};
ghost use Rattle.std.specs.List.{flat_map, list_any};
ghost use Rattle.std.specs.Option.{is_some, option_copied, option_map, option_to_list};
ghost use Rattle.std.specs.Ordering.{nat_cmp};
ghost use Rattle.pulsar_calls.specs.Content.{shown};
ghost use Rattle.pulsar_calls.specs.declared.act.Word.{Word};
ghost use Rattle.pulsar_consumer.specs.Topic.{Asks, Loses, Polls, resubscribes};
ghost use Rattle.pulsar_consumer_table.specs.Consumers as meaning;
ghost use Rattle.pulsar_consumer_table.specs.Consumers.{IsHeard, all_changed, changed, closes, hears, is_ended_at, is_in_use, is_passed, joined, link_at, member_after, names_in, next_free, none, number_at, numbered, numbering, over_rows, polled, some_row, sought, why_not};
ghost use Rattle.pulsar_consumer_table.specs.KeptConsumers.{AreHeard, AreListed, consumers_in, member_in, rows_in};
ghost use Rattle.pulsar_consumer_table.specs.Notices.{again_at, heard_at, polled_due, revived_at, stopped_seekers, word_to};

use crate::hearing::{
    close_all, fail_at, hear_all, known_number, leave_all, link_of, lives_there, living, living_on,
    lose_all, poll_at, prune_all, prune_each, relist, revive_at, seek_at, stop_all, stop_seekers,
    take_flow_at,
};
use crate::listing::{Listing, listed};
use crate::numbers::{Numbering, Numbers};
use crate::row::{ConsumerRow, LinkAnswer};
use pulsar_addresses::content::Refusal as Failure;
use pulsar_calls::act::{Arrival, CallRefusal, Notice, Who};
use pulsar_calls::effect::Effect;
use pulsar_consumer::Consumer;
use pulsar_exchange::content::Received;
use pulsar_searches::making::Command;
use pulsar_wire::error::NoMemory;
use std::alloc::Global;
use std::collections::{BTreeMap, BTreeSet};
use url::Url;

/// The consumers of a client, by the tickets of the calls that made them, and their numbers. Those that have a number are found without a
/// look at the others.
pub struct Consumers {
    pub alloc: Global,
    pub rows: BTreeMap<u64, ConsumerRow>,
    pub numbers: Numbers,
    /// The tickets of those that have a number.
    pub listing: Listing,
    /// The tickets of those that live on a link.
    pub heard: Listing,
    // a call ran out of memory
    failed: bool,
    ghost ordered: { failed ≡ false → IsOrdered nat_cmp rows } by { Prim.hlevel props },
    ghost listed: { failed ≡ false → AreListed listing (rows_in rows) },
    ghost lives: { failed ≡ false → AreHeard heard (rows_in rows) },
}

impl Drop for Consumers {
    fn drop(self) {
        let Consumers {
            alloc: _,
            rows: _,
            numbers: _,
            listing: _,
            heard: _,
            failed: _,
        } = self;
    }
}

impl Consumers {
    /// There is none. The first number is this.
    pub fn new(alloc: Global, first_number: u64) -> Consumers
        ensures { consumers_in result.rows result.numbers ≡ none first_number }
    {
        Consumers {
            alloc,
            rows: BTreeMap::new(alloc),
            numbers: Numbers::new(alloc, first_number),
            listing: BTreeMap::new(alloc),
            heard: BTreeMap::new(alloc),
            failed: false,
        }
    }

    /// There is a consumer of this ticket.
    pub fn has(&self, ticket: u64) -> bool
        ensures { result ≡ is_some ((consumers_in self.now.rows self.now.numbers).rows ticket) }
    {
        self.rows.contains_key(&ticket)
    }

    /// The consumer that the call of this ticket built.
    pub fn built(&self, ticket: u64) -> Option<&Consumer>
        ensures { option_map (λ c. c.inner) (option_copied result) ≡ meaning.built_at ((consumers_in self.now.rows self.now.numbers).rows ticket) }
    {
        let row = self.rows.get(&ticket)?;
        if row.consumer.inner.is_raw() {
            return None;
        }
        Some(&row.consumer)
    }

    /// One more consumer.
    pub fn join(&mut self, ticket: u64, row: ConsumerRow) -> Result<(), NoMemory>
        ensures { OnOk result (consumers_in self.new.rows self.new.numbers ≡ joined ticket (member_in row) (consumers_in self.old.rows self.old.numbers)) }
    {
        if self.failed {
            return Err(NoMemory);
        }
        self.failed = true;
        let number = known_number(&self.rows, ticket);
        let link = link_of(&self.rows, ticket);
        self.rows.insert(ticket, row)?;
        let new_number = known_number(&self.rows, ticket);
        let new_link = link_of(&self.rows, ticket);
        relist(&mut self.listing, self.alloc, ticket, number, new_number)?;
        relist(&mut self.heard, self.alloc, ticket, link, new_link)?;
        self.failed = false;
        Ok(())
    }

    /// What a consumer gives to a poll at this moment, and what it is told then, if there is one.
    pub fn poll(
        &mut self,
        ticket: u64,
        clock: u64,
    ) -> Result<Option<(Effect, Option<Notice>)>, NoMemory>
        ensures effect { IfOk result (λ r. option_map (λ x. shown x.0) r
            ≡ option_map (polled ticket) ((consumers_in self.old.rows self.old.numbers).rows ticket)) }
        ensures due { IfOk result (λ r. flat_map (λ x. option_to_list x.1) (option_to_list r)
            ≡ polled_due clock ticket ((consumers_in self.old.rows self.old.numbers).rows ticket)) }
        ensures after { OnOk result (consumers_in self.new.rows self.new.numbers
            ≡ changed ticket (member_after (Polls clock)) (consumers_in self.old.rows self.old.numbers)) }
    {
        if self.failed {
            return Err(NoMemory);
        }
        self.failed = true;
        let given = poll_at(self.alloc, &mut self.rows, ticket, clock)?;
        self.failed = false;
        Ok(given)
    }

    /// A live subscription is on this link. It takes no memory.
    pub fn hears_on(&self, link: u64) -> bool
        ensures heard { result ≡ some_row (meaning.lives_at link) (consumers_in self.now.rows self.now.numbers) }
        ensures one { IsTrue result ↔ IsHeard link (consumers_in self.now.rows self.now.numbers).rows }
    {
        self.is_heard(link)
    }

    fn is_heard(&self, link: u64) -> bool
        ensures { result ≡ some_row (meaning.lives_at link) (consumers_in self.now.rows self.now.numbers) }
    {
        if self.failed {
            return any_lives(&self.rows, link);
        }
        self.is_listed_on(link)
    }

    fn is_listed_on(&self, link: u64) -> bool
        requires { self.now.failed ≡ false }
        ensures { result ≡ some_row (meaning.lives_at link) (consumers_in self.now.rows self.now.numbers) }
    {
        match listed(&self.heard, link) {
            Some(tickets) => any_living(&self.rows, tickets, link),
            None => false,
        }
    }

    /// Consumers hear what comes to a link: what they are told.
    pub fn hear(&mut self, link: u64, arrival: Arrival) -> Result<Vec<Notice>, NoMemory>
        ensures notices { IfOk result (λ ns. ns.items ≡ over_rows (heard_at link arrival) (consumers_in self.old.rows self.old.numbers)) }
        ensures after { OnOk result (consumers_in self.new.rows self.new.numbers
            ≡ all_changed (hears link arrival) (consumers_in self.old.rows self.old.numbers)) }
    {
        match arrival {
            Arrival::Gives { consumer, reply } => self.hear_frame(link, consumer, reply),
            Arrival::Nothing
            | Arrival::Readied
            | Arrival::Settles
            | Arrival::Passes
            | Arrival::Bad(_) => Ok(Vec::new(self.alloc)),
        }
    }

    /// The consumers of this number on the link hear a frame for them.
    fn hear_frame(
        &mut self,
        link: u64,
        number: u64,
        reply: Received,
    ) -> Result<Vec<Notice>, NoMemory>
        ensures notices { IfOk result (λ ns. ns.items ≡ over_rows (heard_at link (Arrival.Gives number reply)) (consumers_in self.old.rows self.old.numbers)) }
        ensures after { OnOk result (consumers_in self.new.rows self.new.numbers
            ≡ all_changed (hears link (Arrival.Gives number reply)) (consumers_in self.old.rows self.old.numbers)) }
    {
        if self.failed {
            return Err(NoMemory);
        }
        self.failed = true;
        let tickets = living(self.alloc, &self.rows, &self.listing, number, link)?;
        let notices = hear_all(self.alloc, &mut self.rows, &tickets, link, reply)?;
        prune_all(&mut self.listing, &self.rows, number, &tickets)?;
        leave_all(&mut self.heard, &self.rows, link, &tickets)?;
        self.failed = false;
        Ok(notices)
    }

    /// A link ends: what those are told whose subscriptions were live on it.
    pub fn end(&mut self, link: u64) -> Result<Vec<Notice>, NoMemory>
        ensures notices { IfOk result (λ ns. ns.items ≡ over_rows (λ t m. word_to t m (meaning.word_if (resubscribes link m.seen) Word.Lost))
            (consumers_in self.old.rows self.old.numbers)) }
        ensures after { OnOk result (consumers_in self.new.rows self.new.numbers
            ≡ all_changed (member_after (Loses link)) (consumers_in self.old.rows self.old.numbers)) }
    {
        if self.failed {
            return Err(NoMemory);
        }
        self.failed = true;
        let tickets = living_on(self.alloc, &self.rows, &self.heard, link)?;
        let notices = lose_all(self.alloc, &mut self.rows, &tickets, link)?;
        prune_each(&mut self.listing, &self.rows, &tickets)?;
        drop(self.heard.remove(&link));
        self.failed = false;
        Ok(notices)
    }

    /// The consumers of this number on a link end where their close is asked for: what they are told.
    pub fn close_asked(
        &mut self,
        link: u64,
        number: Option<u64>,
        is_asked: bool,
    ) -> Result<Vec<Notice>, NoMemory>
        ensures notices { IfOk result (λ ns. ns.items ≡ over_rows (λ t m. word_to t m (meaning.word_of_close number link is_asked m))
            (consumers_in self.old.rows self.old.numbers)) }
        ensures after { OnOk result (consumers_in self.new.rows self.new.numbers
            ≡ all_changed (closes number link is_asked) (consumers_in self.old.rows self.old.numbers)) }
    {
        match number {
            Some(number) => self.close_if(link, number, is_asked),
            None => Ok(Vec::new(self.alloc)),
        }
    }

    fn close_if(&mut self, link: u64, number: u64, is_asked: bool) -> Result<Vec<Notice>, NoMemory>
        ensures notices { IfOk result (λ ns. ns.items ≡ over_rows (λ t m. word_to t m (meaning.word_of_close (Some number) link is_asked m))
            (consumers_in self.old.rows self.old.numbers)) }
        ensures after { OnOk result (consumers_in self.new.rows self.new.numbers
            ≡ all_changed (closes (Some number) link is_asked) (consumers_in self.old.rows self.old.numbers)) }
    {
        if !is_asked {
            return Ok(Vec::new(self.alloc));
        }
        self.close(link, number)
    }

    fn close(&mut self, link: u64, number: u64) -> Result<Vec<Notice>, NoMemory>
        ensures notices { IfOk result (λ ns. ns.items ≡ over_rows (λ t m. word_to t m (meaning.word_of_close (Some number) link true m))
            (consumers_in self.old.rows self.old.numbers)) }
        ensures after { OnOk result (consumers_in self.new.rows self.new.numbers
            ≡ all_changed (closes (Some number) link true) (consumers_in self.old.rows self.old.numbers)) }
    {
        if self.failed {
            return Err(NoMemory);
        }
        self.failed = true;
        let tickets = living(self.alloc, &self.rows, &self.listing, number, link)?;
        let notices = close_all(self.alloc, &mut self.rows, &tickets)?;
        prune_all(&mut self.listing, &self.rows, number, &tickets)?;
        leave_all(&mut self.heard, &self.rows, link, &tickets)?;
        self.failed = false;
        Ok(notices)
    }

    /// What one is told who wants the link of a consumer. One that is told nothing waits.
    pub(crate) fn seek(&mut self, ticket: u64, who: Who) -> Result<LinkAnswer, NoMemory>
        ensures sought { IfOk result (λ s. s ≡ sought ((consumers_in self.old.rows self.old.numbers).rows ticket)) }
        ensures after { OnOk result (consumers_in self.new.rows self.new.numbers
            ≡ changed ticket (meaning.seeks who) (consumers_in self.old.rows self.old.numbers)) }
    {
        if self.failed {
            return Err(NoMemory);
        }
        self.failed = true;
        let found = seek_at(&mut self.rows, ticket, who)?;
        self.failed = false;
        Ok(found)
    }

    /// The flow of a consumer that is to be asked for next, with its link. It counts as asked for.
    pub(crate) fn take_flow(&mut self, ticket: u64) -> Result<Option<(u64, u32)>, NoMemory>
        ensures flow { IfOk result (λ f. f ≡ meaning.flow_at ((consumers_in self.old.rows self.old.numbers).rows ticket)) }
        ensures after { OnOk result (consumers_in self.new.rows self.new.numbers
            ≡ changed ticket (member_after Asks) (consumers_in self.old.rows self.old.numbers)) }
    {
        if self.failed {
            return Err(NoMemory);
        }
        self.failed = true;
        let flow = take_flow_at(&mut self.rows, ticket);
        self.failed = false;
        Ok(flow)
    }

    /// The command by which a consumer is subscribed again.
    pub(crate) fn recall(&self, ticket: u64) -> Result<Option<Command>, NoMemory>
        ensures { IfOk result (λ c. c ≡ meaning.recalled ((consumers_in self.now.rows self.now.numbers).rows ticket)) }
    {
        match self.rows.get(&ticket) {
            Some(row) => Ok(Some(row.consumer.inner.command()?)),
            None => Ok(None),
        }
    }

    /// A consumer has ended, or there is none.
    pub(crate) fn is_ended(&self, ticket: u64) -> bool
        ensures { result ≡ is_ended_at ((consumers_in self.now.rows self.now.numbers).rows ticket) }
    {
        match self.rows.get(&ticket) {
            Some(row) => row.consumer.inner.is_ended(),
            None => true,
        }
    }

    /// A consumer was subscribed again, on a link to this address: who is told of it.
    pub(crate) fn revive(
        &mut self,
        ticket: u64,
        link: u64,
        url: Option<Url>,
    ) -> Result<Vec<Notice>, NoMemory>
        ensures notices { IfOk result (λ ns. ns.items ≡ revived_at link url ticket ((consumers_in self.old.rows self.old.numbers).rows ticket)) }
        ensures after { OnOk result (consumers_in self.new.rows self.new.numbers
            ≡ changed ticket (meaning.revived link url) (consumers_in self.old.rows self.old.numbers)) }
    {
        if self.failed {
            return Err(NoMemory);
        }
        self.failed = true;
        let old_link = link_of(&self.rows, ticket);
        let notices = revive_at(self.alloc, &mut self.rows, ticket, link, url)?;
        let new_link = link_of(&self.rows, ticket);
        relist(&mut self.heard, self.alloc, ticket, old_link, new_link)?;
        self.failed = false;
        Ok(notices)
    }

    /// A consumer could not be subscribed again: who is told of it.
    pub(crate) fn fail(&mut self, ticket: u64, failure: Failure) -> Result<Vec<Notice>, NoMemory>
        ensures notices { IfOk result (λ ns. ns.items ≡ again_at ((consumers_in self.old.rows self.old.numbers).rows ticket)) }
        ensures after { OnOk result (consumers_in self.new.rows self.new.numbers
            ≡ changed ticket (meaning.failed failure) (consumers_in self.old.rows self.old.numbers)) }
    {
        if self.failed {
            return Err(NoMemory);
        }
        self.failed = true;
        let number = known_number(&self.rows, ticket);
        let link = link_of(&self.rows, ticket);
        let notices = fail_at(self.alloc, &mut self.rows, ticket, failure)?;
        let new_number = known_number(&self.rows, ticket);
        let new_link = link_of(&self.rows, ticket);
        relist(&mut self.listing, self.alloc, ticket, number, new_number)?;
        relist(&mut self.heard, self.alloc, ticket, link, new_link)?;
        self.failed = false;
        Ok(notices)
    }

    /// The client is stopped: those who wait for the link of a consumer are told so, and all consumers end.
    pub fn stop(&mut self, notices: &mut Vec<Notice>) -> Result<(), NoMemory>
        ensures notices { OnOk result (notices.new.items ≡ notices.old.items ++ over_rows stopped_seekers (consumers_in self.old.rows self.old.numbers)) }
        ensures after { OnOk result (consumers_in self.new.rows self.new.numbers ≡ all_changed meaning.stopped (consumers_in self.old.rows self.old.numbers)) }
    {
        if self.failed {
            return Err(NoMemory);
        }
        self.failed = true;
        stop_seekers(&self.rows, notices)?;
        stop_all(&mut self.rows);
        self.listing = BTreeMap::new(self.alloc);
        self.heard = BTreeMap::new(self.alloc);
        self.failed = false;
        Ok(())
    }

    /// What the call of a ticket gets that builds a consumer: the number that was asked for, or one that is drawn.
    pub fn number(&mut self, ticket: u64, wanted: Option<u64>) -> Result<Numbering, NoMemory>
        ensures numbering { IfOk result (λ n. n ≡ numbering (consumers_in self.old.rows self.old.numbers) wanted) }
        ensures after { OnOk result (consumers_in self.new.rows self.new.numbers ≡ numbered ticket wanted (consumers_in self.old.rows self.old.numbers)) }
    {
        if self.failed {
            return Err(NoMemory);
        }
        match wanted {
            Some(number) => self.take_number(ticket, number),
            None => self.draw_number(ticket),
        }
    }

    fn take_number(&mut self, ticket: u64, number: u64) -> Result<Numbering, NoMemory>
        requires { self.old.failed ≡ false }
        ensures numbering { IfOk result (λ n. n ≡ numbering (consumers_in self.old.rows self.old.numbers) (Some number)) }
        ensures after { OnOk result (consumers_in self.new.rows self.new.numbers
            ≡ numbered ticket (Some number) (consumers_in self.old.rows self.old.numbers)) }
    {
        if self.is_in_use(number) {
            return Ok(Numbering::InUse);
        }
        self.numbers.hold(ticket, number)?;
        Ok(Numbering::Has(number))
    }

    fn draw_number(&mut self, ticket: u64) -> Result<Numbering, NoMemory>
        requires { self.old.failed ≡ false }
        ensures numbering { IfOk result (λ n. n ≡ numbering (consumers_in self.old.rows self.old.numbers) None) }
        ensures after { OnOk result (consumers_in self.new.rows self.new.numbers ≡ numbered ticket None (consumers_in self.old.rows self.old.numbers)) }
    {
        let number = self.next_free();
        self.numbers.pass(number);
        if number == u64::MAX {
            return Ok(Numbering::Spent);
        }
        self.numbers.hold(ticket, number)?;
        Ok(Numbering::Has(number))
    }

    /// The next number that is neither in use nor was named.
    fn next_free(&self) -> u64
        requires { self.now.failed ≡ false }
        ensures { result ≡ next_free (consumers_in self.now.rows self.now.numbers) }
    {
        let mut number = self.numbers.next;
        while number < u64::MAX && self.is_passed(number) {
            number += 1;
        }
        number
    }

    fn is_passed(&self, number: u64) -> bool
        requires { self.now.failed ≡ false }
        ensures { result ≡ is_passed (consumers_in self.now.rows self.now.numbers) number }
    {
        self.is_in_use(number) || self.numbers.is_named(number)
    }

    /// A consumer that has not ended has this number, or a build holds it.
    fn is_in_use(&self, number: u64) -> bool
        requires { self.now.failed ≡ false }
        ensures { result ≡ is_in_use (consumers_in self.now.rows self.now.numbers) number }
    {
        self.has_number(number) || self.numbers.is_held(number)
    }

    fn has_number(&self, number: u64) -> bool
        requires { self.now.failed ≡ false }
        ensures { result ≡ some_row (meaning.has_number number) (consumers_in self.now.rows self.now.numbers) }
    {
        match listed(&self.listing, number) {
            Some(tickets) => any_has(&self.rows, tickets, number),
            None => false,
        }
    }

    /// A consumer that was built, and has not ended, has this number.
    pub fn is_taken(&self, number: Option<u64>) -> Result<bool, NoMemory>
        ensures { IfOk result (λ b. b ≡ meaning.is_taken (consumers_in self.now.rows self.now.numbers) number) }
    {
        if self.failed {
            return Err(NoMemory);
        }
        match number {
            Some(number) => Ok(self.is_built_with(number)),
            None => Ok(false),
        }
    }

    fn is_built_with(&self, number: u64) -> bool
        requires { self.now.failed ≡ false }
        ensures { result ≡ some_row (meaning.has_built number) (consumers_in self.now.rows self.now.numbers) }
    {
        match listed(&self.listing, number) {
            Some(tickets) => any_built(&self.rows, tickets, number),
            None => false,
        }
    }

    /// The key of a consumer that is built. No other ever has it.
    pub fn draw_key(&mut self) -> Result<u64, NoMemory>
        ensures drawn { IfOk result (λ key. key ≡ (consumers_in self.old.rows self.old.numbers).next_key) }
        ensures after { OnOk result (consumers_in self.new.rows self.new.numbers ≡ meaning.keyed (consumers_in self.old.rows self.old.numbers)) }
    {
        self.numbers.draw_key()
    }

    /// The call of this ticket has ended, and holds no number.
    pub fn free(&mut self, ticket: u64)
        ensures { consumers_in self.new.rows self.new.numbers ≡ meaning.freed ticket (consumers_in self.old.rows self.old.numbers) }
    {
        self.numbers.free(ticket);
    }

    /// A raw call names a number, or none.
    pub fn name(&mut self, number: Option<u64>) -> Result<(), NoMemory>
        ensures { OnOk result (consumers_in self.new.rows self.new.numbers ≡ names_in number (consumers_in self.old.rows self.old.numbers)) }
    {
        match number {
            Some(number) => self.numbers.name(number),
            None => Ok(()),
        }
    }

    /// Why there is no consumer for a call on the one of this ticket.
    pub fn why_not(&self, ticket: u64) -> Option<CallRefusal>
        ensures { result ≡ why_not (consumers_in self.now.rows self.now.numbers) ticket }
    {
        match self.rows.get(&ticket) {
            Some(row) => refusal_for(row.consumer.inner.is_raw(), row.consumer.inner.is_ended()),
            None => Some(CallRefusal::UnknownTicket),
        }
    }

    /// The link of the live subscription of a consumer.
    pub fn link(&self, ticket: u64) -> Option<u64>
        ensures { result ≡ link_at ((consumers_in self.now.rows self.now.numbers).rows ticket) }
    {
        match self.rows.get(&ticket) {
            Some(row) => row.consumer.inner.link(),
            None => None,
        }
    }

    /// The number of a consumer.
    pub fn number_of(&self, ticket: u64) -> u64
        ensures { result ≡ number_at ((consumers_in self.now.rows self.now.numbers).rows ticket) }
    {
        match self.rows.get(&ticket) {
            Some(row) => row.consumer.inner.number(),
            None => 0,
        }
    }
}

fn any_lives(rows: &BTreeMap<u64, ConsumerRow>, link: u64) -> bool
    ensures lives { result ≡ list_any (λ e. meaning.lives_at link (Some (member_in e.1))) rows.now.entries }
    ensures ordered { IsOrdered nat_cmp rows.now }
{
    rows.iter()
        .any(|(_, row)| row.consumer.inner.lives_on(link))
}

fn any_living(rows: &BTreeMap<u64, ConsumerRow>, tickets: &BTreeSet<u64>, link: u64) -> bool
    ensures { result ≡ list_any (λ t. meaning.lives_at link (rows_in rows.now t)) tickets.now.keys }
{
    tickets.iter().any(|t| lives_there(rows, *t, link))
}

fn any_has(rows: &BTreeMap<u64, ConsumerRow>, tickets: &BTreeSet<u64>, number: u64) -> bool
    ensures { result ≡ list_any (λ t. meaning.has_number number (rows_in rows.now t)) tickets.now.keys }
{
    tickets.iter().any(|t| has_number_at(rows, *t, number))
}

fn has_number_at(rows: &BTreeMap<u64, ConsumerRow>, ticket: u64, number: u64) -> bool
    ensures { result ≡ meaning.has_number number (rows_in rows.now ticket) }
{
    match rows.get(&ticket) {
        Some(row) => row.has_number(number),
        None => false,
    }
}

fn any_built(rows: &BTreeMap<u64, ConsumerRow>, tickets: &BTreeSet<u64>, number: u64) -> bool
    ensures { result ≡ list_any (λ t. meaning.has_built number (rows_in rows.now t)) tickets.now.keys }
{
    tickets.iter().any(|t| is_built_at(rows, *t, number))
}

fn is_built_at(rows: &BTreeMap<u64, ConsumerRow>, ticket: u64, number: u64) -> bool
    ensures { result ≡ meaning.has_built number (rows_in rows.now ticket) }
{
    match rows.get(&ticket) {
        Some(row) => !row.consumer.inner.is_raw() && row.has_number(number),
        None => false,
    }
}

fn refusal_for(is_raw: bool, is_ended: bool) -> Option<CallRefusal>
    ensures { result ≡ meaning.refusal_for is_raw is_ended }
{
    if is_raw {
        Some(CallRefusal::UnknownTicket)
    } else if is_ended {
        Some(CallRefusal::ConsumerClosed)
    } else {
        None
    }
}
