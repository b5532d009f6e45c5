//! What a broker keeps: producers, consumers and topics.

ghost use Rattle.std.specs.Prelude.{◌≡◌, ◌==◌, ◌&&◌, ◌||◌, ◌++◌, ◌<◌, ℕ, List, [], Option, bytes_eq, IfOk, IsSome, OnOk, None, Some};
ghost use Rattle.std.specs.BTreeMap.{btree_map_len};
ghost use Rattle.std.specs.List.{flat_map};
ghost use Rattle.std.specs.Option.{is_some, option_copied, option_map};
ghost use Rattle.pulsar_frame.specs.Payload.{PayloadValues, payload_values};
ghost use Rattle.pulsar_frame.specs.Shown.{message_values};
ghost use Rattle.pulsar_broker.specs.Asked.{ClosesConsumer, ClosesProducer, Grants, MakesProducer, Subscribes};
ghost use Rattle.pulsar_broker.specs.History.{bytes_for};
ghost use Rattle.pulsar_broker.specs.Kept.{IsAnswered, IsKept, IsNamed, IsTurned, asked_in, consumers_in, lists, message_in, owed_on, seats_in, state_in};
ghost use Rattle.pulsar_broker.specs.State as meaning;
ghost use Rattle.pulsar_broker.specs.declared.outbox.Outbox.{Outbox};
ghost use Rattle.pulsar_broker.specs.State.{answer, answer_send, closed, fresh, granted_more, joined, serve_all, set_at, to, turn, without};

use crate::answers;
use crate::asked::{self, Asked};
use crate::consumer::Consumer;
use crate::keys::{
    drop_producer, drop_producers, drop_seat, first_of, seat_at, set_producer, set_seat, topic_at,
};
use crate::outbox::Outbox;
use crate::topic::Topic;
use crate::topics::{list_in, serve_of, store_in, unlist_in};
use pulsar_frame::{Message, Payload};
use pulsar_wire::NoMemory;
use pulsar_wire::commands::base::BaseCommand;
use std::alloc::Global;
use std::collections::BTreeMap;

/// The producers and the consumers of all links, and the topics.
#[derive(Drop)]
pub struct Tables {
    alloc: Global,
    /// The topics of the producers, by link and number.
    producers: BTreeMap<(u64, u64), String>,
    /// The consumers by their seats, in the order in which they subscribed.
    consumers: BTreeMap<u64, Consumer>,
    /// How many seats were taken.
    seats: u64,
    /// The seats of the consumers, by link and number.
    seat_of: BTreeMap<(u64, u64), u64>,
    topics: BTreeMap<String, Topic>,
}

impl Tables {
    pub fn new(alloc: Global) -> Tables
        ensures state { state_in result ≡ fresh }
        ensures kept { IsKept result }
    {
        Tables {
            alloc,
            producers: BTreeMap::new(alloc),
            consumers: BTreeMap::new(alloc),
            seats: 0,
            seat_of: BTreeMap::new(alloc),
            topics: BTreeMap::new(alloc),
        }
    }

    /// The producers and the consumers of a link leave. It takes no memory.
    pub fn end(&mut self, link: u64)
        ensures after { IsNamed (state_in self.old) → state_in self.new ≡ without link (state_in self.old) }
        ensures kept { IsKept self.old → IsKept self.new }
    {
        drop_producers(&mut self.producers, link);
        self.close_all(link);
    }

    /// The consumers of a link leave.
    fn close_all(&mut self, link: u64)
        ensures after { IsNamed (state_in self.old) → ((n : ℕ) → (state_in self.old).producers link n ≡ None)
            → state_in self.new ≡ without link (state_in self.old) }
        ensures kept { IsKept self.old → IsKept self.new }
    {
        while let Some(number) = first_of(&self.seat_of, link) {
            self.close(link, number);
        }
    }

    /// A frame of a link is answered, and then the consumers are served.
    pub fn turn(
        &mut self,
        url: &str,
        link: u64,
        command: &BaseCommand,
        payload: &mut Option<Payload>,
        out: &mut Outbox,
    ) -> Result<(), NoMemory>
        ensures { OnOk result (IsKept self.old → IsTurned (turn url.now link (message_in command.now payload.old)
            (state_in self.old)) self.old self.new out.old out.new) }
    {
        let due = self.answer(url, link, asked::read(&command.body), payload, out)?;
        self.serve_each(&due, out)?;
        Ok(())
    }

    /// What is asked on a link is answered. The answer is the seats of all consumers for which something may be there now.
    fn answer(
        &mut self,
        url: &str,
        link: u64,
        asked: Asked<'_>,
        payload: &mut Option<Payload>,
        out: &mut Outbox,
    ) -> Result<Vec<u64>, NoMemory>
        ensures { IfOk result (λ due. IsAnswered (answer url.now link (option_map payload_values payload.old) (asked_in asked.entry)
            (state_in self.old)) self.old self.new out.old out.new due.items) }
    {
        match asked {
            Asked::Connects => Ok(self.say(link, answers::greeting(self.alloc), out)?),
            Asked::Pings => Ok(self.say(link, answers::ponged(), out)?),
            Asked::CountsPartitions { request } => {
                Ok(self.say(link, answers::not_partitioned(request), out)?)
            }
            Asked::LooksUp { request } => {
                Ok(self.say(link, answers::found_here(self.alloc, url, request)?, out)?)
            }
            Asked::MakesProducer {
                topic,
                producer,
                request,
                name,
            } => Ok(self.make_producer(link, topic, producer, request, name, out)?),
            Asked::Sends { producer, sequence } => {
                Ok(self.send(link, producer, sequence, payload.take(), out)?)
            }
            Asked::Subscribes {
                topic,
                subscription,
                consumer,
                request,
                position,
            } => Ok(self.subscribe(link, topic, subscription, consumer, request, position, out)?),
            Asked::Grants { consumer, permits } => Ok(self.grant(link, consumer, permits)?),
            Asked::Acknowledges => Ok(Vec::new(self.alloc)),
            Asked::ClosesProducer { producer, request } => {
                Ok(self.close_producer(link, producer, request, out)?)
            }
            Asked::ClosesConsumer { consumer, request } => {
                Ok(self.close_consumer(link, consumer, request, out)?)
            }
            Asked::AsksElse { request } => {
                Ok(self.say(link, answers::unsupported(self.alloc, request)?, out)?)
            }
            Asked::SaysElse => Ok(Vec::new(self.alloc)),
        }
    }

    /// An answer that changes nothing.
    fn say(&self, link: u64, message: Message, out: &mut Outbox) -> Result<Vec<u64>, NoMemory>
        ensures { IfOk result (λ due. IsAnswered
            (record { state = state_in self.now; given = to link (message_values message) }) self.now self.now out.old out.new due.items) }
    {
        out.post(link, message)?;
        Ok(Vec::new(self.alloc))
    }

    /// A producer is made under a number; one that had it is gone.
    fn make_producer(
        &mut self,
        link: u64,
        topic: &str,
        producer: u64,
        request: u64,
        name: Option<&str>,
        out: &mut Outbox,
    ) -> Result<Vec<u64>, NoMemory>
        ensures { IfOk result (λ due. (url : List ℕ) (payload : Option PayloadValues)
            → IsAnswered (answer url link payload (MakesProducer topic.now producer request (option_copied name.entry))
            (state_in self.old)) self.old self.new out.old out.new due.items) }
    {
        let topic = String::from_str(self.alloc, topic)?;
        set_producer(&mut self.producers, link, producer, topic)?;
        let answer = answers::producer_made(self.alloc, producer, request, name)?;
        out.post(link, answer)?;
        Ok(Vec::new(self.alloc))
    }

    /// A producer is closed, if there is one.
    fn close_producer(
        &mut self,
        link: u64,
        producer: u64,
        request: u64,
        out: &mut Outbox,
    ) -> Result<Vec<u64>, NoMemory>
        ensures { IfOk result (λ due. (url : List ℕ) (payload : Option PayloadValues)
            → IsAnswered (answer url link payload (ClosesProducer producer request)
            (state_in self.old)) self.old self.new out.old out.new due.items) }
    {
        drop_producer(&mut self.producers, link, producer);
        out.post(link, answers::succeeded(request))?;
        Ok(Vec::new(self.alloc))
    }

    /// A message of a producer is stored: something may be there for the consumers of its topic.
    fn send(
        &mut self,
        link: u64,
        producer: u64,
        sequence: u64,
        payload: Option<Payload>,
        out: &mut Outbox,
    ) -> Result<Vec<u64>, NoMemory>
        ensures { IfOk result (λ due. IsAnswered (answer_send link producer sequence (option_map payload_values payload)
            ((state_in self.old).producers link producer) (state_in self.old)) self.old self.new out.old out.new due.items) }
    {
        let Some(payload) = payload else {
            return Ok(Vec::new(self.alloc));
        };
        let Some(topic) = topic_at(&self.producers, link, producer) else {
            return Ok(Vec::new(self.alloc));
        };
        let (place, seats) = store_in(self.alloc, &mut self.topics, topic, payload)?;
        out.post(
            link,
            answers::receipt(self.alloc, producer, sequence, place),
        )?;
        Ok(seats)
    }

    /// A consumer is granted permits: something may be there for it.
    fn grant(&mut self, link: u64, number: u64, permits: u32) -> Result<Vec<u64>, NoMemory>
        ensures { IfOk result (λ due. (url : List ℕ) (payload : Option PayloadValues) (out : Outbox)
            → IsAnswered (answer url link payload (Grants number permits) (state_in self.old)) self.old self.new out out due.items) }
    {
        let mut due = Vec::new(self.alloc);
        let Some(seat) = seat_at(&self.seat_of, link, number) else {
            return Ok(due);
        };
        if !grant_at(&mut self.consumers, seat, permits)? {
            return Ok(due);
        }
        due.push(seat)?;
        Ok(due)
    }

    /// A consumer subscribes; one that had its number is closed.
    fn subscribe(
        &mut self,
        link: u64,
        topic: &str,
        subscription: &str,
        number: u64,
        request: u64,
        position: Option<i32>,
        out: &mut Outbox,
    ) -> Result<Vec<u64>, NoMemory>
        ensures { IfOk result (λ due. (url : List ℕ) (payload : Option PayloadValues)
            → IsAnswered (answer url link payload (Subscribes topic.now subscription.now number request position)
            (state_in self.old)) self.old self.new out.old out.new due.items) }
    {
        self.close(link, number);
        self.seat(link, number, topic, subscription, position)?;
        out.post(link, answers::succeeded(request))?;
        Ok(Vec::new(self.alloc))
    }

    /// A consumer is closed, if there is one.
    fn close_consumer(
        &mut self,
        link: u64,
        number: u64,
        request: u64,
        out: &mut Outbox,
    ) -> Result<Vec<u64>, NoMemory>
        ensures { IfOk result (λ due. (url : List ℕ) (payload : Option PayloadValues)
            → IsAnswered (answer url link payload (ClosesConsumer number request) (state_in self.old)) self.old self.new out.old out.new due.items) }
    {
        self.close(link, number);
        out.post(link, answers::succeeded(request))?;
        Ok(Vec::new(self.alloc))
    }

    /// The consumer that a link has under a number leaves, if there is one. It takes no memory.
    fn close(&mut self, link: u64, number: u64)
        ensures after { state_in self.new ≡ closed link number (state_in self.old) }
        ensures kept { IsKept self.old → IsKept self.new }
        ensures fewer { IsSome (seats_in self.old.seat_of link number) → btree_map_len self.new.seat_of < btree_map_len self.old.seat_of }
    {
        let Some(seat) = drop_seat(&mut self.seat_of, link, number) else {
            return;
        };
        let Some(consumer) = self.consumers.remove(&seat) else {
            return;
        };
        unlist_in(&mut self.topics, consumer.topic.as_str(), seat);
    }

    /// A consumer takes the next seat.
    fn seat(
        &mut self,
        link: u64,
        number: u64,
        topic: &str,
        subscription: &str,
        position: Option<i32>,
    ) -> Result<(), NoMemory>
        ensures after { OnOk result (state_in self.new ≡ joined link number topic.now subscription.now position (state_in self.old)) }
        ensures listed { OnOk result ((name : List ℕ) (k : ℕ)
            → lists self.new.topics name k ≡ (lists self.old.topics name k || (bytes_eq topic.now name && (k == self.old.seats)))) }
    {
        let seat = self.seats;
        let Some(seats) = seat.checked_add(1) else {
            return Err(NoMemory);
        };
        let consumer = Consumer::new(self.alloc, link, number, topic, subscription)?;
        list_in(
            self.alloc,
            &mut self.topics,
            topic,
            subscription,
            position,
            seat,
        )?;
        drop(self.consumers.insert(seat, consumer)?);
        set_seat(&mut self.seat_of, link, number, seat)?;
        self.seats = seats;
        Ok(())
    }

    /// The consumers of these seats are served, one after the other.
    fn serve_each(&mut self, seats: &[u64], out: &mut Outbox) -> Result<(), NoMemory>
        ensures after { OnOk result (state_in self.new ≡ (serve_all seats.now (state_in self.old)).state) }
        ensures given { OnOk result ((l : ℕ) → owed_on out.new l
            ≡ owed_on out.old l ++ flat_map (bytes_for l) (serve_all seats.now (state_in self.old)).given) }
        ensures listed { OnOk result ((name : List ℕ) (k : ℕ) → lists self.new.topics name k ≡ lists self.old.topics name k) }
    {
        for seat in seats {
            self.serve(*seat, out)?;
        }
        Ok(())
    }

    /// The consumer of a seat is served.
    fn serve(&mut self, seat: u64, out: &mut Outbox) -> Result<(), NoMemory>
        ensures after { OnOk result (state_in self.new ≡ (meaning.serve seat (state_in self.old)).state) }
        ensures given { OnOk result ((l : ℕ) → owed_on out.new l ≡ owed_on out.old l ++ flat_map (bytes_for l) (meaning.serve seat (state_in self.old)).given) }
        ensures listed { OnOk result ((name : List ℕ) (k : ℕ) → lists self.new.topics name k ≡ lists self.old.topics name k) }
    {
        let Some(consumer) = self.consumers.get_mut(&seat) else {
            return Ok(());
        };
        serve_of(self.alloc, &mut self.topics, consumer, out)?;
        Ok(())
    }
}

/// The consumer of a seat is granted permits. The answer is whether there is one.
fn grant_at(
    consumers: &mut BTreeMap<u64, Consumer>,
    seat: u64,
    permits: u32,
) -> Result<bool, NoMemory>
    ensures found { IfOk result (λ found. found ≡ is_some (consumers_in consumers.old seat)) }
    ensures after { OnOk result ((k : ℕ) → consumers_in consumers.new k
        ≡ set_at seat (option_map (granted_more permits) (consumers_in consumers.old seat)) (consumers_in consumers.old) k) }
{
    let Some(consumer) = consumers.get_mut(&seat) else {
        return Ok(false);
    };
    consumer.grant(permits)?;
    Ok(true)
}
