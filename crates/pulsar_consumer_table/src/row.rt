//! One consumer of a client.

ghost use Rattle.std.specs.Prelude.{◌≡◌, [], ◌&&◌, ◌==◌, not, IfOk, OnOk, Some};
ghost use Rattle.pulsar_calls.specs.Content.{shown};
ghost use Rattle.pulsar_consumer.specs.Topic.{Asks, Ends, Hears, Loses, Polls, is_due as is_flow_due, is_ended, lives_on, resubscribes};
ghost use Rattle.pulsar_consumer.specs.Frames.{frame_in};
ghost use Rattle.pulsar_consumer_table.specs.Consumers.{ends_on, failed, flow_at, hears_frame, member_after, plain, polled, polled_item, polled_so, revived, seeks, sought, stopped, subscribed_on, unsought, who_of, word_if, word_of_frame};
ghost use Rattle.pulsar_consumer_table.specs.KeptConsumers.{is_known, member_in};

use pulsar_addresses::content::Refusal;
use pulsar_calls::act::{Who, Word};
use pulsar_calls::effect::{Effect, Handed};
use pulsar_consumer::consumer::Consumer;
use pulsar_consumer::frame::Frame;
use pulsar_consumer::topic_consumer::TopicConsumer;
use pulsar_exchange::content::Received;
use pulsar_frame::items::Unread as Item;
use pulsar_incoming::message::MessageData;
use pulsar_incoming::polled::{Ending, Polled};
use pulsar_incoming::settings::Settings;
use pulsar_incoming::unread::Unread;
use pulsar_wire::bodies;
use pulsar_wire::error::NoMemory;
use std::alloc::Global;
use url::Url;

/// What one who wants the link of a consumer is told: that of its live subscription, that it has ended, or nothing yet.
#[derive(Clone, Copy)]
pub enum LinkAnswer {
    Found(u64),
    Gone,
    Later,
}

/// A consumer, and those who wait until it is subscribed again.
pub struct ConsumerRow {
    pub consumer: Consumer,
    pub seekers: Vec<Who>,
}

impl Drop for ConsumerRow {
    fn drop(self) {
        let ConsumerRow {
            consumer: _,
            seekers: _,
        } = self;
    }
}

impl ConsumerRow {
    /// One that was made, with a subscription on a link to this address.
    pub fn new(
        alloc: Global,
        mut consumer: TopicConsumer,
        link: u64,
        url: Option<Url>,
    ) -> Result<ConsumerRow, NoMemory>
        ensures { IfOk result (λ r. member_in r ≡ subscribed_on link url (record { seen = consumer; seekers = [] })) }
    {
        if let Some(url) = url {
            consumer.subscribe(link, url)?;
        }
        Ok(ConsumerRow {
            consumer: Consumer::new(alloc, consumer),
            seekers: Vec::new(alloc),
        })
    }

    /// Who it is where it has a plan, by the ticket of the call that made it.
    pub fn who(&self, ticket: u64) -> Who
        ensures { result ≡ who_of ticket (member_in self.now) }
    {
        Who::Consumer {
            number: self.consumer.inner.number(),
            ticket,
        }
    }

    /// It has not ended, and has this number.
    pub fn has_number(&self, number: u64) -> bool
        ensures { result ≡ (not (is_ended (member_in self.now).seen) && ((member_in self.now).seen.number == number)) }
    {
        !self.consumer.inner.is_ended() && self.consumer.inner.number() == number
    }

    /// It is to be found by this number: it has not ended, or lives on a link.
    pub fn is_known(&self, number: u64) -> bool
        ensures { result ≡ is_known number (Some (member_in self.now)) }
    {
        let is_there = !self.consumer.inner.is_ended() || self.consumer.inner.link().is_some();
        self.consumer.inner.number() == number && is_there
    }

    /// A frame for its number comes on a link: what its plan is told.
    pub fn hear(
        &mut self,
        alloc: Global,
        link: u64,
        reply: Received,
    ) -> Result<Option<Word>, NoMemory>
        ensures word { IfOk result (λ w. w ≡ word_of_frame link reply (member_in self.old)) }
        ensures after { OnOk result (member_in self.new ≡ hears_frame link reply (member_in self.old)) }
    {
        if reply.is(bodies::MESSAGE) {
            return self.hear_message(alloc, link, reply);
        }
        if reply.is(bodies::REACHED_END_OF_TOPIC) {
            return Ok(self.end_topic(link));
        }
        if reply.is(bodies::CLOSE_CONSUMER) {
            return Ok(self.lose(link));
        }
        Ok(None)
    }

    /// A message for it comes on a link: a flow may be due.
    fn hear_message(
        &mut self,
        alloc: Global,
        link: u64,
        reply: Received,
    ) -> Result<Option<Word>, NoMemory>
        ensures word { IfOk result (λ w. w ≡ word_if
            (lives_on link (member_in self.old).seen && is_flow_due (member_after (Hears link (frame_in reply)) (member_in self.old)).seen) Word.Due) }
        ensures after { OnOk result (member_in self.new ≡ member_after (Hears link (frame_in reply)) (member_in self.old)) }
    {
        let lives = self.consumer.inner.lives_on(link);
        let frame = Frame::received(alloc, reply)?;
        self.consumer.inner.hear(link, frame)?;
        Ok(word_if(lives && self.consumer.inner.is_due(), Word::Due))
    }

    /// Its topic ends, where its subscription on this link is live.
    fn end_topic(&mut self, link: u64) -> Option<Word>
        ensures word { result ≡ word_if (resubscribes link (member_in self.old).seen) (Word.TopicEnded link) }
        ensures after { member_in self.new ≡ ends_on link Ending.TopicEnded (member_in self.old) }
    {
        let is_served = self.consumer.inner.resubscribes(link);
        if self.consumer.inner.lives_on(link) {
            self.consumer.inner.end(Ending::TopicEnded);
        }
        word_if(is_served, Word::TopicEnded { link })
    }

    /// Its subscription on this link is lost.
    pub fn lose(&mut self, link: u64) -> Option<Word>
        ensures word { result ≡ word_if (resubscribes link (member_in self.old).seen) Word.Lost }
        ensures after { member_in self.new ≡ member_after (Loses link) (member_in self.old) }
    {
        let is_served = self.consumer.inner.resubscribes(link);
        self.consumer.inner.lose(link);
        word_if(is_served, Word::Lost)
    }

    /// It has this number, and lives on this link.
    pub fn lives_with(&self, number: u64, link: u64) -> bool
        ensures { result ≡ (((member_in self.now).seen.number == number) && lives_on link (member_in self.now).seen) }
    {
        self.consumer.inner.number() == number && self.consumer.inner.lives_on(link)
    }

    /// It ends by its close: what its plan is told.
    pub fn close(&mut self) -> Option<Word>
        ensures word { result ≡ word_if (not (member_in self.old).seen.is_raw) Word.Over }
        ensures after { member_in self.new ≡ member_after (Ends Ending.Closed) (member_in self.old) }
    {
        self.consumer.inner.end(Ending::Closed);
        word_if(!self.consumer.inner.is_raw(), Word::Over)
    }

    /// What one is told who wants its link. One that is told nothing waits.
    pub fn seek(&mut self, who: Who) -> Result<LinkAnswer, NoMemory>
        ensures sought { IfOk result (λ s. s ≡ sought (Some (member_in self.old))) }
        ensures after { OnOk result (member_in self.new ≡ seeks who (member_in self.old)) }
    {
        if let Some(link) = self.consumer.inner.link() {
            return Ok(LinkAnswer::Found(link));
        }
        if self.consumer.inner.is_ended() {
            return Ok(LinkAnswer::Gone);
        }
        self.seekers.push(who)?;
        Ok(LinkAnswer::Later)
    }

    /// A flow of it is due.
    pub fn due(&self) -> Option<Word>
        ensures { result ≡ word_if (is_flow_due (member_in self.now).seen) Word.Due }
    {
        word_if(self.consumer.inner.is_due(), Word::Due)
    }

    /// The flow that is to be asked for next, with its link. It counts as asked for.
    pub fn take_flow(&mut self) -> Option<(u64, u32)>
        ensures flow { result ≡ flow_at (Some (member_in self.old)) }
        ensures after { member_in self.new ≡ member_after Asks (member_in self.old) }
    {
        let link = self.consumer.inner.link();
        let flow = self.consumer.inner.ask();
        match (link, flow) {
            (Some(link), Some(permits)) => Some((link, permits)),
            _ => None,
        }
    }

    /// It was subscribed again, on a link to this address. Those who wait for its link look again.
    pub fn revive(&mut self, link: u64, url: Option<Url>) -> Result<(), NoMemory>
        ensures { OnOk result (member_in self.new ≡ revived link url (member_in self.old)) }
    {
        if let Some(url) = url {
            self.consumer.inner.subscribe(link, url)?;
        }
        self.forget_seekers();
        Ok(())
    }

    /// It could not be subscribed again. Those who wait for its link look again.
    pub fn fail(&mut self, refusal: Refusal) -> Result<(), NoMemory>
        ensures { OnOk result (member_in self.new ≡ failed refusal (member_in self.old)) }
    {
        self.consumer.inner.fail(refusal)?;
        self.forget_seekers();
        Ok(())
    }

    /// The client is stopped.
    pub fn stop(&mut self)
        ensures { member_in self.new ≡ stopped (member_in self.old) }
    {
        self.consumer.inner.end(Ending::Stopped);
        self.forget_seekers();
    }

    /// Nobody waits for its link any longer.
    fn forget_seekers(&mut self)
        ensures { member_in self.new ≡ unsought (member_in self.old) }
    {
        self.seekers = Vec::new(*self.seekers.allocator());
    }

    /// What it gives to a poll at this moment.
    pub fn poll(&mut self, alloc: Global, ticket: u64, clock: u64) -> Result<Effect, NoMemory>
        ensures effect { IfOk result (λ e. shown e ≡ polled ticket (member_in self.old)) }
        ensures after { OnOk result (member_in self.new ≡ member_after (Polls clock) (member_in self.old)) }
    {
        let found = self.consumer.inner.poll(clock)?;
        effect_of(alloc, ticket, self.consumer.inner.topic(), found)
    }
}

/// No dead letters are asked for, and no message is asked for again.
pub fn plain(alloc: Global, config: Settings) -> Result<Settings, NoMemory>
    ensures { IfOk result (λ s. s ≡ plain config) }
{
    let mut config = config.get().copy()?;
    config.unacked_message_redelivery_delay = None;
    config.dead_letter_policy = None;
    Settings::new(alloc, config)
}

/// A word, where that is so.
fn word_if(is_so: bool, word: Word) -> Option<Word>
    ensures { result ≡ word_if is_so word }
{
    if is_so {
        return Some(word);
    }
    drop(word);
    None
}

/// The effect of a poll that finds this.
fn effect_of(alloc: Global, ticket: u64, topic: &str, found: Polled) -> Result<Effect, NoMemory>
    ensures { IfOk result (λ e. shown e ≡ polled_so ticket topic.now found) }
{
    match found {
        Polled::Item(item) => effect_of_item(alloc, ticket, topic, item),
        Polled::Empty => Ok(Effect::Empty { ticket }),
        Polled::End => Ok(Effect::End { ticket }),
    }
}

fn effect_of_item(alloc: Global, ticket: u64, topic: &str, item: Unread) -> Result<Effect, NoMemory>
    ensures { IfOk result (λ e. shown e ≡ polled_item ticket topic.now item) }
{
    match item.into_inner() {
        Item::Message { id, payload } => {
            let topic = String::from_str(alloc, topic)?;
            let id = MessageData::of(id, &payload);
            Ok(Effect::Item {
                ticket,
                item: Ok(Handed { topic, id, payload }),
            })
        }
        Item::Failure(error) => Ok(Effect::Item {
            ticket,
            item: Err(error),
        }),
    }
}
