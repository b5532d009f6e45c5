//! What verdicts make.

ghost use Rattle.std.specs.Prelude.{◌≡◌, ◌∷◌, [], IfOk, OnOk};
ghost use Rattle.std.specs.Option.{option_to_list};
ghost use Rattle.pulsar_links.specs.Kept.{live_in};
ghost use Rattle.pulsar_producer_table.specs.KeptProducers.{producers_of};
ghost use Rattle.pulsar_consumer_table.specs.KeptConsumers.{consumers_in, member_in};
ghost use Rattle.pulsar_consumer_table.specs.Notices.{due_to};
ghost use Rattle.pulsar_acts.specs.Reading.{made_due, serves_by};
ghost use Rattle.pulsar_acts.specs.Rules.{left_with};
ghost use Rattle.pulsar_acts.specs.Tables.{chosen_of, consumers_made, joins_as, producers_made, view_of};
ghost use Rattle.pulsar_acts.specs.View.{consumers_left, member_on, producers_left, setup_of, ways_of};
ghost use Rattle.pulsar_calls.specs.Who.{ticket_of};

use crate::tables::Tables;
use pulsar_calls::act::{Act as Deed, Makes, Notice, Procedure, Who};
use pulsar_calls::content::{Joined, Joining};
use pulsar_calls::who::{rank, ticket_of};
use pulsar_consumer::TopicConsumer;
use pulsar_consumer_table::due;
use pulsar_consumer_table::row::{ConsumerRow, plain};
use pulsar_exchange::content::Subscribed;
use pulsar_wire::error::NoMemory;
use std::alloc::Global;
use std::collections::VecDeque;

impl Tables {
    /// What a verdict makes has the ticket of its call: what a consumer is told that is made.
    pub(super) fn makes(&mut self, who: Who, makes: Makes) -> Result<Option<Notice>, NoMemory>
        ensures due { IfOk result (λ n. option_to_list n ≡ made_due (live_in self.old.links.live)
            (consumers_in self.old.consumers.rows self.old.consumers.numbers).next_key who makes) }
        ensures sees { OnOk result (view_of self.new
            ≡ record (view_of self.old) {
              consumers = consumers_made (live_in self.old.links.live) who makes
                  (consumers_in self.old.consumers.rows self.old.consumers.numbers);
              producers = producers_made (chosen_of self.old.settings) who makes
                  (producers_of self.old.producers);
            }) }
        ensures settings { self.new.settings ≡ self.old.settings }
    {
        match makes {
            Makes::Nothing | Makes::Client => Ok(None),
            Makes::Consumer(joined) => self.joins(who, joined),
            Makes::RawConsumer { link, made } => {
                self.joins_raw(who, link, made)?;
                Ok(None)
            }
            Makes::Producer(made) => {
                self.producers.join(
                    rank(who).1,
                    made.into_inner(),
                    self.settings.seed,
                    self.settings.first_number,
                )?;
                Ok(None)
            }
        }
    }

    /// A consumer was built. A flow of it is due.
    fn joins(&mut self, who: Who, joined: Joined) -> Result<Option<Notice>, NoMemory>
        ensures due { IfOk result (λ n. option_to_list n ≡ due_to (ticket_of who) (member_on (live_in self.old.links.live) joined.link
            (setup_of (consumers_in self.old.consumers.rows self.old.consumers.numbers).next_key joined))) }
        ensures sees { OnOk result (view_of self.new
            ≡ record (view_of self.old) {
              consumers = consumers_made (live_in self.old.links.live) who (Makes.Consumer joined)
                  (consumers_in self.old.consumers.rows self.old.consumers.numbers);
            }) }
        ensures settings { self.new.settings ≡ self.old.settings }
    {
        let Joining {
            topic,
            number,
            config,
            link,
        } = joined.into_inner();
        let url = self.links.url(link)?;
        let key = self.consumers.draw_key()?;
        let config = plain(self.alloc, config)?;
        let consumer = TopicConsumer::new(self.alloc, key, topic, number, config, false);
        let row = ConsumerRow::new(self.alloc, consumer, link, url)?;
        let notice = due(&row, ticket_of(who));
        self.joins_as(who, row)?;
        Ok(notice)
    }

    /// A raw consumer was made.
    fn joins_raw(&mut self, who: Who, link: u64, made: Subscribed) -> Result<(), NoMemory>
        ensures sees { OnOk result (view_of self.new
            ≡ record (view_of self.old) {
              consumers = consumers_made (live_in self.old.links.live) who (Makes.RawConsumer link made)
                  (consumers_in self.old.consumers.rows self.old.consumers.numbers);
            }) }
        ensures settings { self.new.settings ≡ self.old.settings }
    {
        let url = self.links.url(link)?;
        let consumer = TopicConsumer::of_raw(self.alloc, made)?;
        let row = ConsumerRow::new(self.alloc, consumer, link, url)?;
        self.joins_as(who, row)
    }

    /// A consumer has the ticket of the call that makes it.
    fn joins_as(&mut self, who: Who, row: ConsumerRow) -> Result<(), NoMemory>
        ensures sees { OnOk result (view_of self.new
            ≡ record (view_of self.old) {
              consumers = joins_as who (member_in row) (consumers_in self.old.consumers.rows self.old.consumers.numbers);
            }) }
        ensures settings { self.new.settings ≡ self.old.settings }
    {
        match who {
            Who::Call(ticket) => self.consumers.join(ticket, row),
            Who::Consumer { .. } | Who::Producer(_) => {
                drop(row);
                Ok(())
            }
        }
    }

    /// A call that has ended holds no number, and makes no topic producers.
    pub(super) fn frees(&mut self, who: Who)
        ensures sees { view_of self.new ≡ record (view_of self.old) {
          consumers = consumers_left who (consumers_in self.old.consumers.rows self.old.consumers.numbers);
          producers = producers_left who (producers_of self.old.producers);
        } }
        ensures settings { self.new.settings ≡ self.old.settings }
    {
        match who {
            Who::Call(ticket) => {
                self.consumers.free(ticket);
                self.producers.free(ticket);
            }
            Who::Consumer { .. } | Who::Producer(_) => {}
        }
    }

    /// What follows a verdict: the topic producers of a producer send their batches, where they do, and a consumer is served, each by a plan
    /// of its own.
    pub(super) fn left_with(&self, who: Who, makes: &Makes) -> Result<VecDeque<Deed>, NoMemory>
        ensures { IfOk result (λ acts. acts.items ≡ left_with (ways_of (chosen_of self.now.settings)) who makes.now) }
    {
        match makes {
            Makes::Producer(made) => self.batches_made(made.get()),
            Makes::Consumer(joined) => self.serves(who, joined.get()),
            Makes::Nothing | Makes::Client | Makes::RawConsumer { .. } => {
                Ok(VecDeque::new(self.alloc))
            }
        }
    }

    /// A consumer is served by a plan of its own.
    fn serves(&self, who: Who, joining: &Joining) -> Result<VecDeque<Deed>, NoMemory>
        ensures { IfOk result (λ acts. acts.items ≡ serves_by (ways_of (chosen_of self.now.settings)) who joining.now) }
    {
        let number = joining.number;
        let ticket = ticket_of(who);
        match self.settings.ways(self.alloc)? {
            Some(ways) => one(
                self.alloc,
                Deed::Starts {
                    who: Who::Consumer { number, ticket },
                    procedure: Procedure::Serve { ways, number },
                },
            ),
            None => Ok(VecDeque::new(self.alloc)),
        }
    }
}

fn one(alloc: Global, act: Deed) -> Result<VecDeque<Deed>, NoMemory>
    ensures { IfOk result (λ acts. acts.items ≡ act ∷ []) }
{
    let mut acts = VecDeque::new(alloc);
    acts.push_back(act)?;
    Ok(acts)
}
