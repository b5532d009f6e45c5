//! One connection, as its users see it.

ghost use Rattle.std.specs.Prelude.{◌≡◌, ℕ, Some, None, false, IfOk, OnOk, length, map, string_bytes, option_copied};
ghost use Rattle.std.specs.List.{flat_map};
ghost use Rattle.std.specs.Option.{is_none, option_map};
ghost use Rattle.pulsar_wire.specs.Views.{message_id_values};
ghost use Rattle.pulsar_messages.specs.Content.{authentication_values, consumer_options_values, producer_message_values, producer_options_values};
ghost use Rattle.pulsar_messages.specs.Words.{AuthChallenge, CloseConsumer, CloseConsumerUnawaited, CloseProducer, CreateProducer, GetConsumerStats, GetLastMessageId, GetSchema, GetTopicsOfNamespace, LookupPartitionedTopic, LookupTopic, Seek, Send, SendAck, SendFlow, SendPing, SendRedeliver, Subscribe, Unsubscribe};
ghost use Rattle.pulsar_requests.specs.Soonest.{has_come};
ghost use Rattle.pulsar_requests.specs.Waits.{is_empty, is_overdue};
ghost use Rattle.pulsar_wire.specs.Failures.{fault};
ghost use Rattle.pulsar_session.specs.Kept.{OnAnswer, arrives, came_of};
ghost use Rattle.pulsar_session.specs.Link.{Asks, Closes, Drains, Feeds, Opens, Takes, after, asked, came, due, ends, frame_at, fresh, has_room, written};
ghost use Rattle.pulsar_session.specs.Soonest.{due_at};

use crate::frames::{Arrival, command_frame, message_frame};
use crate::link::{Link, Setup};
use crate::states::{Arrived, Asked, Stage};
use pulsar_messages::{
    Authentication, ConsumerOptions, ProducerMessage, ProducerOptions, messages as builders,
};
use pulsar_wire::awaited::{Awaited, Claim};
use pulsar_wire::commands::enumerations::SubType;
use pulsar_wire::commands::ids::MessageIdData;
use pulsar_wire::commands::topics::Mode;
use pulsar_wire::error::{ConnectionError, NoMemory};
use std::alloc::Global;
use std::marker::Model;
use url::Url;
use uuid::Uuid;

/// One connection to a broker, from the moment at which it is dialed. It is told what happens to its stream, and the moments,
/// in milliseconds; it knows its frames by their places, from 0 in the order of their queueing. Where a call answers
/// `NoMemory`, nothing is said of the connection afterwards.
pub struct Connection {
    link: Link,
}

impl Drop for Connection {
    fn drop(self) {
        let Connection { link: _ } = self;
    }
}

/// What sends on a connection is the connection.
pub type ConnectionSender = Connection;

/// Why a connection ended, if it has.
pub type SharedError = Option<ConnectionError>;

impl Model for Connection {
    ghost use Rattle.pulsar_session.specs.Link.{Seen};

    ghost Value = { Seen };

    ghost use Rattle.pulsar_session.specs.Kept.{table};

    ghost view = { λ c. table c.link };
}

impl Connection {
    /// A connection that is dialed at `now`, and is to be ready `connection_timeout` later. It greets with the credential,
    /// and behind a proxy with the address of the broker. A request may wait for `operation_timeout`. There is room for
    /// `outbound` frames that are not written. Requests are numbered from `first_number`. It takes no memory.
    pub fn new(
        alloc: Global,
        id: Uuid,
        url: Url,
        auth: Option<Authentication>,
        proxy: Option<String>,
        connection_timeout: u64,
        operation_timeout: u64,
        outbound: usize,
        first_number: u64,
        now: u64,
    ) -> Result<Connection, NoMemory>
        ensures { IfOk result (λ c. c ≡ fresh (record {
          id = id;
          url = url;
          auth = option_map authentication_values auth;
          proxy = option_map string_bytes proxy;
          connection_timeout = connection_timeout;
          operation_timeout = operation_timeout;
          outbound = outbound;
          first_number = first_number;
          made = now;
        })) }
    {
        let setup = Setup {
            id,
            url,
            auth,
            proxy,
            connection_timeout,
            operation_timeout,
            outbound,
            first_number,
            made: now,
        };
        Ok(Connection {
            link: Link::new(alloc, setup),
        })
    }

    /// The id that it was made with.
    pub fn id(&self) -> Uuid
        ensures { result ≡ self.now.setup.id }
    {
        self.link.setup.id
    }

    /// The address that it was made with.
    pub fn url(&self) -> &Url
        ensures { result.now ≡ self.now.setup.url }
    {
        &self.link.setup.url
    }

    /// It has not ended.
    pub fn is_valid(&self) -> bool
        ensures { result ≡ is_none self.now.error }
    {
        self.link.error.is_none()
    }

    /// Why it ended.
    pub fn error(&self) -> Option<&ConnectionError>
        ensures { option_map fault (option_copied result) ≡ self.now.error }
    {
        self.link.error.as_ref()
    }

    /// What sends on it.
    pub fn sender(&mut self) -> &mut ConnectionSender
        ensures same { result.ghost_name ≡ self.entry.ghost_name }
        ensures value { result.now ≡ self.entry.now }
    {
        self
    }

    /// Its stream is open: the first frame is queued. Only one that is being dialed is opened.
    pub fn opened(&mut self, now: u64) -> Result<(), NoMemory>
        ensures { OnOk result (self.new ≡ after (Opens now) self.old) }
    {
        self.link.tell(now);
        self.link.open()?;
        Ok(())
    }

    /// Bytes came on its stream.
    pub fn feed(&mut self, piece: &[u8]) -> Result<(), NoMemory>
        ensures { OnOk result (self.new ≡ after (Feeds piece.now) self.old) }
    {
        self.link.feed(piece)?;
        Ok(())
    }

    /// The next frame of what came. The answer is `None` exactly where no whole frame is left, or the connection is not open.
    pub fn next(&mut self, now: u64) -> Result<Option<Arrived>, NoMemory>
        ensures came { IfOk result (λ a. came_of a ≡ came self.old) }
        ensures seen { OnOk result (self.new ≡ after (Takes now) self.old) }
    {
        match self.next_boxed(now)? {
            Some(arrival) => Ok(Some(arrival.into_arrived())),
            None => Ok(None),
        }
    }

    /// The same, with its message in a box: less is moved.
    pub fn next_boxed(&mut self, now: u64) -> Result<Option<Arrival>, NoMemory>
        ensures came { IfOk result (λ a. arrives a ≡ came self.old) }
        ensures seen { OnOk result (self.new ≡ after (Takes now) self.old) }
    {
        self.link.tell(now);
        let arrival = self.link.next()?;
        Ok(arrival)
    }

    /// The bytes of the first frames that are not written, at most so many. Then the line moves up.
    pub fn drain(&mut self, frames: usize, now: u64) -> Result<Vec<u8>, NoMemory>
        ensures written { IfOk result (λ bytes. bytes.items ≡ flat_map (λ f. f) (written frames self.old)) }
        ensures seen { OnOk result (self.new ≡ after (Drains frames now) self.old) }
    {
        self.link.tell(now);
        let bytes = self.link.drain(frames)?;
        Ok(bytes)
    }

    /// It is to be closed by now: it was dialed for too long, or a request waited for too long.
    pub fn due(&self, now: u64) -> bool
        ensures { result ≡ due now self.now }
    {
        self.link.due(now)
    }

    /// The first moment at which it is due as it stands now, if there is one.
    pub fn due_at(&self) -> Option<u64>
        ensures moment { result ≡ due_at self.now }
        ensures due { (now : ℕ) → due now self.now ≡ has_come now result }
    {
        self.link.due_at()
    }

    /// Where it stands.
    pub fn stage(&self) -> Stage
        ensures { result ≡ self.now.stage }
    {
        self.link.stage
    }

    /// The places of the requests that wait.
    pub fn waiting(&self) -> Result<Vec<u64>, NoMemory>
        ensures { IfOk result (λ ps. ps.items ≡ ends self.now) }
    {
        self.link.waiting()
    }

    /// No request of it waits for an answer.
    pub fn is_idle(&self) -> bool
        ensures { result ≡ is_empty self.now.waits.waiting }
    {
        self.link.requests.is_empty()
    }

    /// How many frames stand in its line.
    pub fn standing(&self) -> u64
        ensures { result ≡ length self.now.line }
    {
        self.link.line.len() as u64
    }

    /// One more frame may be queued at once.
    pub fn has_room(&self) -> bool
        ensures { result ≡ has_room self.now }
    {
        self.link.has_room()
    }

    /// How many frames were queued.
    pub fn queued(&self) -> u64
        ensures { result ≡ self.now.waits.queued }
    {
        self.link.requests.queued()
    }

    /// A frame that is queued and not written. There is none any longer once the connection is closed.
    pub fn frame(&self, place: u64) -> Option<&[u8]>
        ensures { option_copied result ≡ frame_at place self.now }
    {
        self.link.frame(place)
    }

    /// The request of this place waits, and is due.
    pub fn overdue(&self, place: u64, now: u64) -> bool
        ensures { result ≡ is_overdue place now self.now.waits }
    {
        self.link.requests.is_overdue(place, now)
    }

    /// The connection ends with this cause. The answer has the places of the requests that waited. Its frames are let go: the
    /// bytes of one that is queued are read before. One that has ended stays as it is.
    pub fn close(&mut self, cause: ConnectionError) -> Result<Vec<u64>, NoMemory>
        ensures places { IfOk result (λ ps. ps.items ≡ ends self.old) }
        ensures seen { OnOk result (self.new ≡ after (Closes (fault cause)) self.old) }
    {
        let places = self.link.close(cause)?;
        Ok(places)
    }

    /// Sends a message of a producer. `now` is the caller's clock in milliseconds, and becomes the message's publish time as it
    /// is: a connection has no clock of its own, and what it was told before decides only what is due. `block` says that the
    /// message may stand in the line, and not that the call waits.
    pub fn send(
        &mut self,
        now: u64,
        producer_id: u64,
        name: &str,
        sequence_id: u64,
        message: ProducerMessage,
        block: bool,
    ) -> Result<Asked, ConnectionError>
        ensures answer { OnAnswer result (result ≡ asked now
            (Send producer_id name.now sequence_id (producer_message_values message) block)
            self.old) }
        ensures seen { OnAnswer result (self.new ≡ after (Asks now
            (Send producer_id name.now sequence_id (producer_message_values message) block))
            self.old) }
    {
        self.link.tell(now);
        self.link.draw(false)?;
        let frame = message_frame(
            self.link.alloc,
            builders::send(
                self.link.alloc,
                producer_id,
                name,
                sequence_id,
                message,
                now,
            ),
        )?;
        self.link
            .ask(frame, receipt_of(producer_id, sequence_id), block)
    }

    /// Asks for a pong.
    pub fn send_ping(&mut self, now: u64) -> Result<Asked, ConnectionError>
        ensures answer { OnAnswer result (result ≡ asked now SendPing self.old) }
        ensures seen { OnAnswer result (self.new ≡ after (Asks now SendPing) self.old) }
    {
        self.link.tell(now);
        self.link.draw(false)?;
        let frame = command_frame(self.link.alloc, builders::ping())?;
        self.link.ask(frame, pong(), true)
    }

    /// Asks which broker serves a topic.
    pub fn lookup_topic(
        &mut self,
        now: u64,
        topic: &str,
        authoritative: bool,
    ) -> Result<Asked, ConnectionError>
        ensures answer { OnAnswer result (result ≡ asked now (LookupTopic topic.now authoritative) self.old) }
        ensures seen { OnAnswer result (self.new ≡ after (Asks now (LookupTopic topic.now authoritative)) self.old) }
    {
        self.link.tell(now);
        let number = self.link.draw(true)?;
        let frame = command_frame(
            self.link.alloc,
            builders::lookup_topic(self.link.alloc, topic, authoritative, number),
        )?;
        self.link.ask(frame, reply_to(number, false), true)
    }

    /// Asks how many partitions a topic has.
    pub fn lookup_partitioned_topic(
        &mut self,
        now: u64,
        topic: &str,
    ) -> Result<Asked, ConnectionError>
        ensures answer { OnAnswer result (result ≡ asked now (LookupPartitionedTopic topic.now) self.old) }
        ensures seen { OnAnswer result (self.new ≡ after (Asks now (LookupPartitionedTopic topic.now)) self.old) }
    {
        self.link.tell(now);
        let number = self.link.draw(true)?;
        let frame = command_frame(
            self.link.alloc,
            builders::lookup_partitioned_topic(self.link.alloc, topic, number),
        )?;
        self.link.ask(frame, reply_to(number, false), true)
    }

    /// Asks how a consumer fares.
    pub fn get_consumer_stats(
        &mut self,
        now: u64,
        consumer_id: u64,
    ) -> Result<Asked, ConnectionError>
        ensures answer { OnAnswer result (result ≡ asked now (GetConsumerStats consumer_id) self.old) }
        ensures seen { OnAnswer result (self.new ≡ after (Asks now (GetConsumerStats consumer_id)) self.old) }
    {
        self.link.tell(now);
        let number = self.link.draw(true)?;
        let frame = command_frame(
            self.link.alloc,
            builders::consumer_stats(number, consumer_id),
        )?;
        self.link.ask(frame, reply_to(number, false), true)
    }

    /// Asks for the last message of a topic.
    pub fn get_last_message_id(
        &mut self,
        now: u64,
        consumer_id: u64,
    ) -> Result<Asked, ConnectionError>
        ensures answer { OnAnswer result (result ≡ asked now (GetLastMessageId consumer_id) self.old) }
        ensures seen { OnAnswer result (self.new ≡ after (Asks now (GetLastMessageId consumer_id)) self.old) }
    {
        self.link.tell(now);
        let number = self.link.draw(true)?;
        let frame = command_frame(
            self.link.alloc,
            builders::get_last_message_id(consumer_id, number),
        )?;
        self.link.ask(frame, reply_to(number, false), true)
    }

    /// Makes a producer on a topic. The broker names it where no name is given.
    pub fn create_producer(
        &mut self,
        now: u64,
        topic: &str,
        producer_id: u64,
        name: Option<&str>,
        options: &ProducerOptions,
    ) -> Result<Asked, ConnectionError>
        ensures answer { OnAnswer result (result ≡ asked now
            (CreateProducer topic.now producer_id (option_copied name.entry) (producer_options_values options.now))
            self.old) }
        ensures seen { OnAnswer result (self.new ≡ after (Asks now
            (CreateProducer topic.now producer_id (option_copied name.entry) (producer_options_values options.now)))
            self.old) }
    {
        self.link.tell(now);
        let number = self.link.draw(true)?;
        let frame = command_frame(
            self.link.alloc,
            builders::create_producer(self.link.alloc, topic, name, producer_id, number, options),
        )?;
        self.link.ask(frame, reply_to(number, true), true)
    }

    /// Asks for the topics of a namespace.
    pub fn get_topics_of_namespace(
        &mut self,
        now: u64,
        namespace: &str,
        mode: Mode,
    ) -> Result<Asked, ConnectionError>
        ensures answer { OnAnswer result (result ≡ asked now
            (GetTopicsOfNamespace namespace.now mode)
            self.old) }
        ensures seen { OnAnswer result (self.new ≡ after (Asks now
            (GetTopicsOfNamespace namespace.now mode))
            self.old) }
    {
        self.link.tell(now);
        let number = self.link.draw(true)?;
        let frame = command_frame(
            self.link.alloc,
            builders::get_topics_of_namespace(self.link.alloc, number, namespace, mode),
        )?;
        self.link.ask(frame, reply_to(number, false), true)
    }

    /// Ends a producer.
    pub fn close_producer(&mut self, now: u64, producer_id: u64) -> Result<Asked, ConnectionError>
        ensures answer { OnAnswer result (result ≡ asked now (CloseProducer producer_id) self.old) }
        ensures seen { OnAnswer result (self.new ≡ after (Asks now (CloseProducer producer_id)) self.old) }
    {
        self.link.tell(now);
        let number = self.link.draw(true)?;
        let frame = command_frame(
            self.link.alloc,
            builders::close_producer(producer_id, number),
        )?;
        self.link.ask(frame, reply_to(number, false), true)
    }

    /// Makes a consumer on a subscription of a topic.
    pub fn subscribe(
        &mut self,
        now: u64,
        topic: &str,
        subscription: &str,
        sub_type: SubType,
        consumer_id: u64,
        name: Option<&str>,
        options: &ConsumerOptions,
    ) -> Result<Asked, ConnectionError>
        ensures answer { OnAnswer result (result ≡ asked now
            (Subscribe topic.now subscription.now sub_type consumer_id (option_copied name.entry) (consumer_options_values options.now))
            self.old) }
        ensures seen { OnAnswer result (self.new ≡ after (Asks now
            (Subscribe topic.now subscription.now sub_type consumer_id (option_copied name.entry) (consumer_options_values options.now)))
            self.old) }
    {
        self.link.tell(now);
        let number = self.link.draw(true)?;
        let frame = command_frame(
            self.link.alloc,
            builders::subscribe(
                self.link.alloc,
                topic,
                subscription,
                sub_type,
                consumer_id,
                number,
                name,
                options,
            ),
        )?;
        self.link.ask(frame, reply_to(number, false), true)
    }

    /// Allows the broker to deliver as many messages more. Nothing answers it.
    pub fn send_flow(
        &mut self,
        now: u64,
        consumer_id: u64,
        permits: u32,
    ) -> Result<Asked, ConnectionError>
        ensures answer { OnAnswer result (result ≡ asked now (SendFlow consumer_id permits) self.old) }
        ensures seen { OnAnswer result (self.new ≡ after (Asks now (SendFlow consumer_id permits)) self.old) }
    {
        self.link.tell(now);
        self.link.draw(false)?;
        let frame = command_frame(self.link.alloc, builders::flow(consumer_id, permits))?;
        self.link.ask(frame, None, true)
    }

    /// Acknowledges these messages, or all up to each of them. Nothing answers it.
    pub fn send_ack(
        &mut self,
        now: u64,
        consumer_id: u64,
        ids: Vec<MessageIdData>,
        cumulative: bool,
    ) -> Result<Asked, ConnectionError>
        ensures answer { OnAnswer result (result ≡ asked now
            (SendAck consumer_id (map message_id_values ids.items) cumulative)
            self.old) }
        ensures seen { OnAnswer result (self.new ≡ after (Asks now
            (SendAck consumer_id (map message_id_values ids.items) cumulative))
            self.old) }
    {
        self.link.tell(now);
        self.link.draw(false)?;
        let frame = command_frame(self.link.alloc, builders::ack(consumer_id, ids, cumulative))?;
        self.link.ask(frame, None, true)
    }

    /// Asks for these messages again. Nothing answers it.
    pub fn send_redeliver_unacknowleged_messages(
        &mut self,
        now: u64,
        consumer_id: u64,
        ids: Vec<MessageIdData>,
    ) -> Result<Asked, ConnectionError>
        ensures answer { OnAnswer result (result ≡ asked now
            (SendRedeliver consumer_id (map message_id_values ids.items))
            self.old) }
        ensures seen { OnAnswer result (self.new ≡ after (Asks now
            (SendRedeliver consumer_id (map message_id_values ids.items)))
            self.old) }
    {
        self.link.tell(now);
        self.link.draw(false)?;
        let frame = command_frame(
            self.link.alloc,
            builders::redeliver_unacknowleged_messages(consumer_id, ids),
        )?;
        self.link.ask(frame, None, true)
    }

    /// Ends a consumer.
    pub fn close_consumer(&mut self, now: u64, consumer_id: u64) -> Result<Asked, ConnectionError>
        ensures answer { OnAnswer result (result ≡ asked now (CloseConsumer consumer_id) self.old) }
        ensures seen { OnAnswer result (self.new ≡ after (Asks now (CloseConsumer consumer_id)) self.old) }
    {
        self.link.tell(now);
        let number = self.link.draw(true)?;
        let frame = command_frame(
            self.link.alloc,
            builders::close_consumer(consumer_id, number),
        )?;
        self.link.ask(frame, reply_to(number, false), true)
    }

    /// Ends a consumer where nobody waits for the answer. It draws a number as every close does.
    pub fn send_close_consumer(
        &mut self,
        now: u64,
        consumer_id: u64,
    ) -> Result<Asked, ConnectionError>
        ensures answer { OnAnswer result (result ≡ asked now (CloseConsumerUnawaited consumer_id) self.old) }
        ensures seen { OnAnswer result (self.new ≡ after (Asks now (CloseConsumerUnawaited consumer_id)) self.old) }
    {
        self.link.tell(now);
        let number = self.link.draw(true)?;
        let frame = command_frame(
            self.link.alloc,
            builders::close_consumer(consumer_id, number),
        )?;
        self.link.ask(frame, None, true)
    }

    /// Moves a subscription to a message, or to a moment.
    pub fn seek(
        &mut self,
        now: u64,
        consumer_id: u64,
        id: Option<MessageIdData>,
        time: Option<u64>,
    ) -> Result<Asked, ConnectionError>
        ensures answer { OnAnswer result (result ≡ asked now
            (Seek consumer_id (option_map message_id_values id) time)
            self.old) }
        ensures seen { OnAnswer result (self.new ≡ after (Asks now
            (Seek consumer_id (option_map message_id_values id) time))
            self.old) }
    {
        self.link.tell(now);
        let number = self.link.draw(true)?;
        let frame = command_frame(
            self.link.alloc,
            builders::seek(consumer_id, number, id, time),
        )?;
        self.link.ask(frame, reply_to(number, false), true)
    }

    /// Ends a subscription.
    pub fn unsubscribe(&mut self, now: u64, consumer_id: u64) -> Result<Asked, ConnectionError>
        ensures answer { OnAnswer result (result ≡ asked now (Unsubscribe consumer_id) self.old) }
        ensures seen { OnAnswer result (self.new ≡ after (Asks now (Unsubscribe consumer_id)) self.old) }
    {
        self.link.tell(now);
        let number = self.link.draw(true)?;
        let frame = command_frame(self.link.alloc, builders::unsubscribe(consumer_id, number))?;
        self.link.ask(frame, reply_to(number, false), true)
    }

    /// Answers a challenge of the broker. Nothing answers it.
    pub fn auth_challenge(
        &mut self,
        now: u64,
        auth: Authentication,
    ) -> Result<Asked, ConnectionError>
        ensures answer { OnAnswer result (result ≡ asked now
            (AuthChallenge (authentication_values auth))
            self.old) }
        ensures seen { OnAnswer result (self.new ≡ after (Asks now
            (AuthChallenge (authentication_values auth)))
            self.old) }
    {
        self.link.tell(now);
        self.link.draw(false)?;
        let frame = command_frame(self.link.alloc, builders::auth_challenge(auth))?;
        self.link.ask(frame, None, true)
    }

    /// Asks for a schema of a topic, the newest where no version is given.
    pub fn get_schema(
        &mut self,
        now: u64,
        topic: &str,
        version: Option<&[u8]>,
    ) -> Result<Asked, ConnectionError>
        ensures answer { OnAnswer result (result ≡ asked now
            (GetSchema topic.now (option_copied version.entry))
            self.old) }
        ensures seen { OnAnswer result (self.new ≡ after (Asks now
            (GetSchema topic.now (option_copied version.entry)))
            self.old) }
    {
        self.link.tell(now);
        let number = self.link.draw(true)?;
        let frame = command_frame(
            self.link.alloc,
            builders::get_schema(self.link.alloc, number, topic, version),
        )?;
        self.link.ask(frame, reply_to(number, false), true)
    }
}

/// A claim to the reply of this number.
fn reply_to(number: u64, creates: bool) -> Option<Claim>
    ensures { result ≡ Some (record { awaits = Awaited.Reply number; creates = creates }) }
{
    Some(Claim {
        awaits: Awaited::Reply { number },
        creates,
    })
}

/// A claim to the receipt of a message.
fn receipt_of(producer: u64, sequence: u64) -> Option<Claim>
    ensures { result ≡ Some (record { awaits = Awaited.Receipt producer sequence; creates = false }) }
{
    Some(Claim {
        awaits: Awaited::Receipt { producer, sequence },
        creates: false,
    })
}

/// A claim to a pong.
fn pong() -> Option<Claim>
    ensures { result ≡ Some (record { awaits = Awaited.Pong; creates = false }) }
{
    Some(Claim {
        awaits: Awaited::Pong,
        creates: false,
    })
}
