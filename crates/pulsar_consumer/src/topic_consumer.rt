//! A consumer of one topic, or of one partition.

ghost use Rattle.std.specs.Prelude.{◌≡◌, map, Some, None, IfOk, OnOk};
ghost use Rattle.std.specs.Option.{is_some, option_map, option_or};
ghost use Rattle.pulsar_wire.specs.Views.{message_id_values};
ghost use Rattle.pulsar_messages.specs.Content.{message_content};
ghost use Rattle.pulsar_consumer.specs.Commands.{command_of};
ghost use Rattle.pulsar_incoming.specs.Content.{config_values};
ghost use Rattle.pulsar_consumer.specs.Topic.{Asks, Checks, Ends, Fails, FailsCopy, Forgets, Hears, IsAt, IsCopied, Lives, Loses, Polls, Stops, TakesCopy, acked, acked_by, after, asked_again, copy_due, first_due, fresh, is_due, is_ended, is_over, link_of, lives_on, of_raw, polled, queue_of, resubscribes};
ghost use Rattle.pulsar_consumer.specs.Topic as meaning;

use crate::building::command;
use crate::engine::ConsumerEngine;
use crate::frame::Frame;
use crate::frame_item::FrameItem;
use crate::letter::LetterCopy;
use pulsar_addresses::content::{Refusal, Text};
use pulsar_exchange::content::Subscribed;
use pulsar_incoming::config::ConsumerConfig;
use pulsar_incoming::polled::{Ending, Polled};
use pulsar_incoming::settings::Settings;
use pulsar_searches::making::Command;
use pulsar_wire::commands::ids::MessageIdData;
use pulsar_wire::error::NoMemory;
use std::alloc::Global;
use std::marker::Model;
use url::Url;

/// How many messages the broker may send at once where nothing is said of it.
const DEFAULT_BATCH_SIZE: u32 = 1000;

/// How many items may be unread where nothing is said of it.
const DEFAULT_QUEUE_SIZE: u32 = 1000;

/// A consumer of one topic, or of one partition. It knows links and numbers, and never who asks.
pub struct TopicConsumer {
    alloc: Global,
    key: u64,
    topic: Text,
    number: u64,
    config: Settings,
    is_raw: bool,
    engine: ConsumerEngine,
    ended: Option<Ending>,
    received: u64,
    last: Option<u64>,
}

impl Drop for TopicConsumer {
    fn drop(self) {
        let TopicConsumer {
            alloc: _,
            key: _,
            topic: _,
            number: _,
            config: _,
            is_raw: _,
            engine: _,
            ended: _,
            received: _,
            last: _,
        } = self;
    }
}

impl Model for TopicConsumer {
    ghost use Rattle.pulsar_consumer.specs.Kept.{seen_of};
    ghost use Rattle.pulsar_consumer.specs.Topic.{Seen};
    ghost use Rattle.pulsar_wire.specs.FailureCode.{failure_code};
    ghost use Rattle.std.specs.Coded.{codes};

    ghost Value = { Seen };

    ghost coded = { Prim.hlevel (codes, failure_code (Prim.hlevel codes)) };

    ghost view = { seen_of };
}

impl TopicConsumer {
    /// One that was made so, and has heard nothing. No other has its key, also later. A raw one grants no permits, and is not subscribed again.
    pub fn new(
        alloc: Global,
        key: u64,
        topic: Text,
        number: u64,
        config: Settings,
        is_raw: bool,
    ) -> TopicConsumer
        ensures { result ≡ fresh (record { key = key; topic = topic; number = number; config = config; is_raw = is_raw }) }
    {
        let queue = queue_of(config.get().options.receiver_queue_size);
        let delay = config.get().unacked_message_redelivery_delay;
        let batch = if is_raw {
            None
        } else {
            Some(config.get().batch_size.unwrap_or(DEFAULT_BATCH_SIZE))
        };
        TopicConsumer {
            alloc,
            key,
            topic,
            number,
            config,
            is_raw,
            engine: ConsumerEngine::new(alloc, queue as usize, batch, delay),
            ended: None,
            received: 0,
            last: None,
        }
    }

    /// The consumer that a raw call makes. It has no dead letters, so that nothing names its key.
    pub fn of_raw(alloc: Global, made: Subscribed) -> Result<TopicConsumer, NoMemory>
        ensures { IfOk result (λ t. t ≡ fresh (of_raw made)) }
    {
        let made = made.into_inner();
        let config = ConsumerConfig {
            subscription: made.subscription,
            sub_type: made.sub_type,
            batch_size: None,
            consumer_name: made.name,
            consumer_id: Some(made.consumer),
            unacked_message_redelivery_delay: None,
            options: made.options,
            dead_letter_policy: None,
        };
        let config = Settings::new(alloc, config)?;
        let topic = Text::new(made.topic);
        Ok(TopicConsumer::new(alloc, 0, topic, made.consumer, config, true))
    }

    /// Its key, which no other one that makes copies ever has.
    pub fn key(&self) -> u64
        ensures { result ≡ self.now.key }
    {
        self.key
    }

    /// Its topic.
    pub fn topic(&self) -> &str
        ensures { result.now ≡ self.now.topic }
    {
        self.topic.as_str()
    }

    /// Its number on the wire.
    pub fn number(&self) -> u64
        ensures { result ≡ self.now.number }
    {
        self.number
    }

    /// A raw call made it.
    pub fn is_raw(&self) -> bool
        ensures { result ≡ self.now.is_raw }
    {
        self.is_raw
    }

    /// How it was made.
    pub fn config(&self) -> &ConsumerConfig
        ensures { config_values result.now ≡ self.now.config }
    {
        self.config.get()
    }

    /// The URL of its live subscription.
    pub fn connection(&self) -> Option<&Url>
        ensures { option_map (λ u. u.now) result ≡ option_map (λ l. l.url) self.now.engine.live }
    {
        match self.engine.live() {
            Some(live) => Some(live.url()),
            None => None,
        }
    }

    /// When it gave its last message.
    pub fn last_message_received(&self) -> Option<u64>
        ensures { result ≡ self.now.last }
    {
        self.last
    }

    /// How many messages it gave.
    pub fn messages_received(&self) -> u64
        ensures { result ≡ self.now.received }
    {
        self.received
    }

    /// The link of its live subscription. Acknowledgements, flows and its closing frame are asked for there, and nowhere else.
    pub fn link(&self) -> Option<u64>
        ensures { result ≡ link_of self.now }
    {
        match self.engine.live() {
            Some(live) => Some(live.link()),
            None => None,
        }
    }

    /// A subscription of it is live on this link.
    pub fn lives_on(&self, link: u64) -> bool
        ensures { result ≡ lives_on link self.now }
    {
        self.link() == Some(link)
    }

    /// It is to be subscribed again once its subscription on this link is lost.
    pub fn resubscribes(&self, link: u64) -> bool
        ensures { result ≡ resubscribes link self.now }
    {
        self.lives_on(link) && !self.is_raw
    }

    /// The command by which it is subscribed again.
    pub fn command(&self) -> Result<Command, NoMemory>
        ensures { IfOk result (λ c. c ≡ command_of self.now) }
    {
        command(self.alloc, &self.topic, self.number, &self.config)
    }

    /// It has ended.
    pub fn is_ended(&self) -> bool
        ensures { result ≡ is_ended self.now }
    {
        self.ended.is_some()
    }

    /// Why it has ended.
    pub fn ending(&self) -> Option<Ending>
        ensures { result ≡ self.now.ended }
    {
        self.ended
    }

    /// A subscription of it was made, on this link to this address. One that has ended takes none.
    pub fn subscribe(&mut self, link: u64, url: Url) -> Result<(), NoMemory>
        ensures { OnOk result (self.new ≡ after (Lives link url) self.old) }
    {
        if self.is_ended() {
            return Ok(());
        }
        self.engine.subscribe(link, url)?;
        Ok(())
    }

    /// It is this moment now.
    pub fn tell(&mut self, clock: u64)
        ensures { self.new ≡ after (IsAt clock) self.old }
    {
        self.engine.tell(clock);
    }

    /// A message for it came on this link.
    pub fn hear(&mut self, link: u64, frame: Frame) -> Result<(), NoMemory>
        ensures { OnOk result (self.new ≡ after (Hears link frame) self.old) }
    {
        if self.lives_on(link) {
            self.hear_frame(frame)?;
        }
        Ok(())
    }

    fn hear_frame(&mut self, frame: Frame) -> Result<(), NoMemory>
        ensures { OnOk result (self.new ≡ meaning.heard frame self.old) }
    {
        let policy = &self.config.get().dead_letter_policy;
        let frame = frame.sorted(self.alloc, policy)?;
        self.engine.hear(frame)?;
        Ok(())
    }

    /// Its subscription on this link ends: the link has ended, or the broker has closed it.
    pub fn lose(&mut self, link: u64)
        ensures { self.new ≡ after (Loses link) self.old }
    {
        if !self.lives_on(link) {
            return;
        }
        self.lose_it();
    }

    /// It could not be subscribed again: that is its last item, and it ends.
    pub fn fail(&mut self, refusal: Refusal) -> Result<(), NoMemory>
        ensures { OnOk result (self.new ≡ after (Fails refusal) self.old) }
    {
        if self.is_ended() {
            return Ok(());
        }
        self.engine.hear(Frame::failed(self.alloc, refusal)?)?;
        self.end(Ending::NotSubscribed);
        Ok(())
    }

    /// It ends. What came is still given, and what is pending goes on.
    pub fn end(&mut self, why: Ending)
        ensures { self.new ≡ after (Ends why) self.old }
    {
        self.engine.shut();
        self.ended = self.ended.or(Some(why));
    }

    /// The client is stopped: what is pending fails, and no copy of a dead letter is made any more.
    pub fn stop(&mut self) -> Result<(), NoMemory>
        ensures { OnOk result (self.new ≡ after Stops self.old) }
    {
        self.engine.stop()?;
        Ok(())
    }

    /// What it gives to a poll at this moment.
    pub fn poll(&mut self, clock: u64) -> Result<Polled, NoMemory>
        ensures given { IfOk result (λ p. p ≡ polled self.old) }
        ensures after { OnOk result (self.new ≡ after (Polls clock) self.old) }
    {
        self.engine.tell(clock);
        match self.engine.give()? {
            Some(item) => {
                self.count(clock, &item);
                Ok(Polled::Item(item.hand(self.alloc)?))
            }
            None => Ok(self.give_none()),
        }
    }

    /// A copy of a dead letter is to be sent to the other topic now.
    pub fn is_copy_due(&self) -> bool
        ensures { result ≡ is_some (copy_due self.now) }
    {
        self.engine.is_copy_due()
    }

    /// The copy that is to be sent to the other topic now. It counts as under way.
    pub fn take_copy(&mut self) -> Result<Option<LetterCopy>, NoMemory>
        ensures copy { IfOk result (λ c. option_map (λ x. (x.key, message_content x.message.value)) c ≡ copy_due self.old) }
        ensures after { OnOk result (self.new ≡ after TakesCopy self.old) }
    {
        let key = self.key;
        match self.engine.take_copy(self.topic.as_str())? {
            Some(message) => Ok(Some(LetterCopy { key, message })),
            None => Ok(None),
        }
    }

    /// At this moment the copy that the consumer of this key took has its receipt: the id of its entry, which is acknowledged where a
    /// subscription is live.
    pub fn copy_sent(&mut self, key: u64, clock: u64) -> Result<Option<MessageIdData>, NoMemory>
        ensures acked { IfOk result (λ id. option_map message_id_values id ≡ acked key self.old) }
        ensures after { OnOk result (self.new ≡ after (IsCopied key clock) self.old) }
    {
        if self.key != key {
            return Ok(None);
        }
        let acked = self.own_sent(clock)?;
        Ok(acked)
    }

    fn own_sent(&mut self, clock: u64) -> Result<Option<MessageIdData>, NoMemory>
        ensures acked { IfOk result (λ id. option_map message_id_values id ≡ acked_by self.old.engine) }
        ensures after { OnOk result (self.new ≡ record self.old { engine = meaning.copied (meaning.clocked clock self.old.engine) }) }
    {
        self.engine.tell(clock);
        let acked = self.engine.copy_sent()?;
        Ok(acked)
    }

    /// At this moment the copy that the consumer of this key took could not be sent: one error is given for what is left of its frame.
    pub fn copy_failed(&mut self, key: u64, clock: u64) -> Result<(), NoMemory>
        ensures { OnOk result (self.new ≡ after (FailsCopy key clock) self.old) }
    {
        if self.key == key {
            self.own_failed(clock)?;
        }
        Ok(())
    }

    fn own_failed(&mut self, clock: u64) -> Result<(), NoMemory>
        ensures { OnOk result (self.new ≡ record self.old { engine = meaning.copy_failed (meaning.clocked clock self.old.engine) }) }
    {
        self.engine.tell(clock);
        self.engine.copy_failed()?;
        Ok(())
    }

    /// The message of this id is acknowledged, or asked for again by its user.
    pub fn forget(&mut self, id: &MessageIdData) -> Result<(), NoMemory>
        ensures { OnOk result (self.new ≡ after (Forgets (message_id_values id.now)) self.old) }
    {
        self.engine.forget(id)?;
        Ok(())
    }

    /// The messages that are to be asked for again at this moment, in the order of their ids. They are kept no longer.
    pub fn check(&mut self, clock: u64) -> Result<Vec<MessageIdData>, NoMemory>
        ensures named { IfOk result (λ ids. map message_id_values ids.items ≡ asked_again clock self.old) }
        ensures after { OnOk result (self.new ≡ after (Checks clock) self.old) }
    {
        let named = self.engine.check(clock)?;
        Ok(named)
    }

    /// When the next check is due, which names messages that are to be asked for again.
    pub fn next_check(&self) -> Option<u64>
        ensures { result ≡ self.now.engine.check }
    {
        self.engine.next_check()
    }

    /// It has ended, and no dead letter is pending: it is served no longer.
    pub fn is_over(&self) -> bool
        ensures { result ≡ is_over self.now }
    {
        self.is_ended() && !self.engine.is_pending()
    }

    /// A flow is to be asked for.
    pub fn is_due(&self) -> bool
        ensures { result ≡ is_due self.now }
    {
        self.engine.is_due()
    }

    /// The flow that is to be asked for next. It counts as asked for.
    pub fn ask(&mut self) -> Option<u32>
        ensures flow { result ≡ first_due self.old.engine.live }
        ensures after { self.new ≡ after Asks self.old }
    {
        self.engine.ask()
    }

    fn lose_it(&mut self)
        ensures { self.new ≡ meaning.loses self.old }
    {
        if self.is_raw {
            self.end(Ending::LinkLost);
        } else {
            self.engine.lose();
        }
    }

    fn count(&mut self, clock: u64, item: &FrameItem)
        ensures { self.new ≡ meaning.counts clock item.now self.old }
    {
        if item.is_message() {
            self.received = self.received.saturating_add(1);
            self.last = Some(clock);
        }
    }

    /// Once it has ended and nothing is pending, it keeps no memory for items.
    fn give_none(&mut self) -> Polled
        ensures given { result ≡ meaning.polled_from None (meaning.over (meaning.is_pending self.old.engine) self.old.ended) }
        ensures after { self.new ≡ self.old }
    {
        if self.is_over() {
            self.engine.let_go();
            Polled::End
        } else {
            Polled::Empty
        }
    }
}

/// How many items may be unread.
fn queue_of(size: Option<u32>) -> u32
    ensures { result ≡ queue_of size }
{
    match size {
        Some(0) => 1,
        Some(size) => size,
        None => DEFAULT_QUEUE_SIZE,
    }
}
