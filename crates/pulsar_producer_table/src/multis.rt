//! The producers of many topics of a client.

ghost use Rattle.std.specs.Prelude.{◌≡◌, ◌++◌, IfOk, OnOk, map, option_copied};
ghost use Rattle.std.specs.List.{flat_map};
ghost use Rattle.std.specs.Option.{is_some, option_map};
ghost use Rattle.pulsar_calls.specs.Notices.{stopped_one};
ghost use Rattle.pulsar_producer.specs.MultiTopic.{Hands, Joins, Passes, Removes, Takes, handed, is_free};
ghost use Rattle.pulsar_producer_table.specs.KeptMultis.{multis_of};
ghost use Rattle.pulsar_producer_table.specs.Multis as meaning;
ghost use Rattle.pulsar_producer_table.specs.Notices.{stopped_takers};
ghost use Rattle.pulsar_producer_table.specs.Takers.{who_of};

use crate::takers::who_of;
use pulsar_addresses::content::Text;
use pulsar_calls::act::{Notice, Outcome};
use pulsar_outgoing::content::Settings;
use pulsar_outgoing::multi_topic::{Handing, Multi, MultiSaid, Taker};
use pulsar_producer::{CustomRoutingPolicy, MultiTopicProducer, Producer, ProducerOptions};
use pulsar_wire::error::NoMemory;
use std::alloc::Global;
use std::collections::{BTreeMap, VecDeque};

/// The producers of many topics: the client's own, and by the tickets of the calls that made them all others.
pub struct Multis {
    pub alloc: Global,
    pub own: MultiTopicProducer,
    pub made: BTreeMap<u64, MultiTopicProducer>,
}

impl Drop for Multis {
    fn drop(self) {
        let Multis {
            alloc: _,
            own: _,
            made: _,
        } = self;
    }
}

impl Multis {
    /// The client's own alone, of default options.
    pub fn new(alloc: Global) -> Result<Multis, NoMemory>
        ensures { IfOk result (λ m. multis_of m ≡ meaning.only_own) }
    {
        let settings = Settings::new(alloc, ProducerOptions::new(alloc))?;
        Ok(Multis {
            alloc,
            own: MultiTopicProducer::new(alloc, None, settings),
            made: BTreeMap::new(alloc),
        })
    }

    /// One of them.
    pub fn at(&self, multi: Multi) -> Option<&MultiTopicProducer>
        ensures { option_copied result ≡ meaning.at multi (multis_of self.now) }
    {
        match multi {
            Multi::Own => Some(&self.own),
            Multi::Made(ticket) => self.made.get(&ticket),
        }
    }

    /// There is this one.
    pub fn has(&self, multi: Multi) -> bool
        ensures { result ≡ is_some (meaning.at multi (multis_of self.now)) }
    {
        match multi {
            Multi::Own => true,
            Multi::Made(ticket) => self.made.contains_key(&ticket),
        }
    }

    /// The call of this ticket makes one.
    pub fn make(
        &mut self,
        ticket: u64,
        name: Option<Text>,
        settings: Settings,
    ) -> Result<(), NoMemory>
        ensures { OnOk result (multis_of self.new ≡ meaning.with_made ticket name settings (multis_of self.old)) }
    {
        let made = MultiTopicProducer::new(self.alloc, name, settings);
        self.made.insert(ticket, made)?;
        Ok(())
    }

    /// What the policies of the client say of a message that is handed on.
    pub fn advice(
        &self,
        multi: Multi,
        handing: &Handing,
        policies: &[Box<dyn CustomRoutingPolicy>],
    ) -> Option<usize>
        ensures { result ≡ meaning.advice_at (map (λ p. routes p) policies.now) handing.now (meaning.at multi (multis_of self.now)) }
    {
        let one = self.at(multi)?;
        one.advice(handing.topic.as_str(), handing.message.message(), policies)
    }

    /// One wants the turn of one of them. It has it at once where nobody has it; there may be none.
    pub fn take_turn(&mut self, multi: Multi, taker: Taker) -> Result<Option<bool>, NoMemory>
        ensures has { IfOk result (λ has. has ≡ option_map is_free (meaning.at multi (multis_of self.old))) }
        ensures after { OnOk result (multis_of self.new ≡ meaning.changed multi (Takes taker) (multis_of self.old)) }
    {
        match multi {
            Multi::Own => Ok(Some(self.own.take_turn(taker)?)),
            Multi::Made(ticket) => take_turn(&mut self.made, ticket, taker),
        }
    }

    /// The turn of one of them is over: the one who has it now.
    pub fn pass_turn(&mut self, multi: Multi) -> Option<Taker>
        ensures next { result ≡ meaning.next_on (meaning.at multi (multis_of self.old)) }
        ensures after { multis_of self.new ≡ meaning.changed multi Passes (multis_of self.old) }
    {
        match multi {
            Multi::Own => self.own.pass_turn(),
            Multi::Made(ticket) => pass_turn(&mut self.made, ticket),
        }
    }

    /// A message is handed on by one of them, by what the policies said of it, and what it says to that. There may be none.
    pub fn hand(
        &mut self,
        multi: Multi,
        handing: Handing,
        advice: Option<usize>,
    ) -> Result<Option<MultiSaid>, NoMemory>
        ensures said { IfOk result (λ said. said ≡ option_map (handed advice handing) (meaning.at multi (multis_of self.old))) }
        ensures after { OnOk result (multis_of self.new ≡ meaning.changed multi (Hands handing.topic handing.message) (multis_of self.old)) }
    {
        match multi {
            Multi::Own => Ok(Some(self.own.hand(self.alloc, handing, advice)?)),
            Multi::Made(ticket) => hand(&mut self.made, self.alloc, ticket, handing, advice),
        }
    }

    /// The producer of a topic was built for one of them.
    pub fn join(&mut self, multi: Multi, topic: Text, producer: Producer) -> Result<(), NoMemory>
        ensures { OnOk result (multis_of self.new ≡ meaning.changed multi (Joins topic producer) (multis_of self.old)) }
    {
        match multi {
            Multi::Own => self.own.join(topic, producer),
            Multi::Made(ticket) => join(&mut self.made, ticket, topic, producer),
        }
    }

    /// One of them is to have no producer of this topic: the one that it had.
    pub fn remove(&mut self, multi: Multi, topic: &Text) -> Option<Producer>
        ensures producer { result ≡ meaning.found_in topic.now (meaning.at multi (multis_of self.old)) }
        ensures after { multis_of self.new ≡ meaning.changed multi (Removes topic.now) (multis_of self.old) }
    {
        match multi {
            Multi::Own => self.own.remove(topic.as_str()),
            Multi::Made(ticket) => remove(&mut self.made, ticket, topic),
        }
    }

    /// Those that wait for a turn are told that the client is stopped.
    pub fn stop(&self, notices: &mut Vec<Notice>) -> Result<(), NoMemory>
        ensures { OnOk result (notices.new.items ≡ notices.old.items ++ stopped_takers (multis_of self.now)) }
    {
        stop_all(self.own.waiting(), notices)?;
        stop_made(&self.made, notices)
    }
}

fn take_turn(
    made: &mut BTreeMap<u64, MultiTopicProducer>,
    ticket: u64,
    taker: Taker,
) -> Result<Option<bool>, NoMemory>
    ensures has { IfOk result (λ has. has ≡ option_map is_free (meaning.made_by ticket made.old.entries)) }
    ensures after { OnOk result (made.new.entries ≡ meaning.made_changed ticket (Takes taker) made.old.entries) }
{
    match made.get_mut(&ticket) {
        Some(one) => Ok(Some(one.take_turn(taker)?)),
        None => Ok(None),
    }
}

fn pass_turn(made: &mut BTreeMap<u64, MultiTopicProducer>, ticket: u64) -> Option<Taker>
    ensures next { result ≡ meaning.next_on (meaning.made_by ticket made.old.entries) }
    ensures after { made.new.entries ≡ meaning.made_changed ticket Passes made.old.entries }
{
    match made.get_mut(&ticket) {
        Some(one) => one.pass_turn(),
        None => None,
    }
}

fn hand(
    made: &mut BTreeMap<u64, MultiTopicProducer>,
    alloc: Global,
    ticket: u64,
    handing: Handing,
    advice: Option<usize>,
) -> Result<Option<MultiSaid>, NoMemory>
    ensures said { IfOk result (λ said. said ≡ option_map (handed advice handing) (meaning.made_by ticket made.old.entries)) }
    ensures after { OnOk result (made.new.entries ≡ meaning.made_changed ticket (Hands handing.topic handing.message) made.old.entries) }
{
    match made.get_mut(&ticket) {
        Some(one) => Ok(Some(one.hand(alloc, handing, advice)?)),
        None => {
            drop(handing);
            Ok(None)
        }
    }
}

fn join(
    made: &mut BTreeMap<u64, MultiTopicProducer>,
    ticket: u64,
    topic: Text,
    producer: Producer,
) -> Result<(), NoMemory>
    ensures { OnOk result (made.new.entries ≡ meaning.made_changed ticket (Joins topic producer) made.old.entries) }
{
    match made.get_mut(&ticket) {
        Some(one) => one.join(topic, producer),
        None => {
            drop(topic);
            drop(producer);
            Ok(())
        }
    }
}

fn remove(
    made: &mut BTreeMap<u64, MultiTopicProducer>,
    ticket: u64,
    topic: &Text,
) -> Option<Producer>
    ensures producer { result ≡ meaning.found_in topic.now (meaning.made_by ticket made.old.entries) }
    ensures after { made.new.entries ≡ meaning.made_changed ticket (Removes topic.now) made.old.entries }
{
    match made.get_mut(&ticket) {
        Some(one) => one.remove(topic.as_str()),
        None => None,
    }
}

/// Those that wait for the turn of any of these.
fn stop_made(
    made: &BTreeMap<u64, MultiTopicProducer>,
    notices: &mut Vec<Notice>,
) -> Result<(), NoMemory>
    ensures { OnOk result (notices.new.items ≡ notices.old.items ++ map stopped_one (map who_of (flat_map (λ e. e.1.waiting) made.now.entries))) }
{
    for (_, one) in made {
        stop_all(one.waiting(), notices)?;
    }
    Ok(())
}

fn stop_all(waiting: &VecDeque<Taker>, notices: &mut Vec<Notice>) -> Result<(), NoMemory>
    ensures { OnOk result (notices.new.items ≡ notices.old.items ++ map stopped_one (map who_of waiting.now.items)) }
{
    for taker in waiting {
        notices.push(Notice {
            who: who_of(*taker),
            outcome: Outcome::Stopped,
        })?;
    }
    Ok(())
}
