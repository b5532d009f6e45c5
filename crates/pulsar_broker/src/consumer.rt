//! A consumer, and what it is served.

ghost use Rattle.std.specs.Prelude.{◌≡◌, ◌+◌, ◌++◌, ◌<◌, ◌<ℤ◌, ℕ, [], IfOk, OnOk, drop, map, pos};
ghost use Rattle.std.specs.List.{flat_map};
ghost use Rattle.pulsar_wire.specs.Views.{message_metadata_values};
ghost use Rattle.pulsar_frame.specs.Batch.{num_messages_in_batch};
ghost use Rattle.pulsar_frame.specs.Payload.{payload_values};
ghost use Rattle.pulsar_broker.specs.Answers as meaning_answers;
ghost use Rattle.pulsar_broker.specs.History.{bytes_for};
ghost use Rattle.pulsar_broker.specs.Kept.{consumer_in, owed_on};
ghost use Rattle.pulsar_broker.specs.State as meaning;
ghost use Rattle.pulsar_broker.specs.State.{Served, granted_more, owed_to, serving_from};

use crate::answers::delivery;
use crate::outbox::Outbox;
use pulsar_frame::Payload;
use pulsar_wire::NoMemory;
use std::alloc::Global;

/// A consumer of a link, and the permits that it was granted and has spent: spent ones may pass those that were granted.
#[derive(Drop)]
pub struct Consumer {
    pub link: u64,
    pub number: u64,
    pub topic: String,
    pub subscription: String,
    pub granted: u64,
    pub spent: u64,
}

impl Consumer {
    /// One that was granted nothing yet.
    pub fn new(
        alloc: Global,
        link: u64,
        number: u64,
        topic: &str,
        subscription: &str,
    ) -> Result<Consumer, NoMemory>
        ensures { IfOk result (λ c. consumer_in c ≡ meaning.joining link number topic.now subscription.now) }
    {
        Ok(Consumer {
            link,
            number,
            topic: String::from_str(alloc, topic)?,
            subscription: String::from_str(alloc, subscription)?,
            granted: 0,
            spent: 0,
        })
    }

    /// It is granted so many permits more. A sum that no u64 holds is want of memory.
    pub fn grant(&mut self, permits: u32) -> Result<(), NoMemory>
        ensures { OnOk result (consumer_in self.new ≡ granted_more permits (consumer_in self.old)) }
    {
        let Some(granted) = self.granted.checked_add(u64::from(permits)) else {
            return Err(NoMemory);
        };
        self.granted = granted;
        Ok(())
    }

    /// It is served the messages of its topic from a cursor on, as long as it has permits. The answer is where the cursor stands then.
    pub fn serve(
        &mut self,
        alloc: Global,
        cursor: u64,
        messages: &[Payload],
        out: &mut Outbox,
    ) -> Result<u64, NoMemory>
        ensures cursor { IfOk result (λ n. n ≡ (serving_from cursor (consumer_in self.old) (map payload_values messages.now)).cursor) }
        ensures after { OnOk result (consumer_in self.new ≡ record (consumer_in self.old)
            { spent = (serving_from cursor (consumer_in self.old) (map payload_values messages.now)).spent }) }
        ensures given { OnOk result ((l : ℕ) → owed_on out.new l ≡ owed_on out.old l
            ++ flat_map (bytes_for l) (map (owed_to self.old.link) (serving_from cursor (consumer_in self.old) (map payload_values messages.now)).messages)) }
    {
        let mut place = cursor;
        for message in messages_from(messages, cursor) {
            if self.spent >= self.granted {
                break;
            }
            self.give(alloc, place, message, out)?;
            place = next(place)?;
        }
        Ok(place)
    }

    /// It is given a message, which costs its weight.
    fn give(
        &mut self,
        alloc: Global,
        place: u64,
        message: &Payload,
        out: &mut Outbox,
    ) -> Result<(), NoMemory>
        ensures after { OnOk result (consumer_in self.new ≡ record (consumer_in self.old)
            { spent = self.old.spent + meaning.weight (payload_values message.now) }) }
        ensures given { OnOk result ((l : ℕ) → owed_on out.new l ≡ owed_on out.old l
            ++ bytes_for l (owed_to self.old.link (meaning_answers.delivery self.old.number place (payload_values message.now)))) }
    {
        let Some(spent) = self.spent.checked_add(weight(message)) else {
            return Err(NoMemory);
        };
        out.post(self.link, delivery(alloc, self.number, place, message)?)?;
        self.spent = spent;
        Ok(())
    }
}

/// The messages from a place on.
fn messages_from(messages: &[Payload], place: u64) -> &[Payload]
    ensures { result.now ≡ drop place messages.now }
{
    match usize::try_from(place) {
        Ok(place) if place < messages.len() => &messages[place..],
        _ => &[],
    }
}

/// What a message costs: as many permits as its batch has entries, none where that number is negative, and one where it is no batch.
#[tactic(auto, unfolding(pulsar_wire::specs::Views::message_metadata_values))]
fn weight(message: &Payload) -> u64
    ensures { result ≡ meaning.weight (payload_values message.now) }
{
    match message.metadata.num_messages_in_batch {
        None => 1,
        Some(count) => u64::try_from(count).unwrap_or(0),
    }
}

/// The next place.
fn next(place: u64) -> Result<u64, NoMemory>
    ensures { IfOk result (λ n. n ≡ place + 1) }
{
    match place.checked_add(1) {
        Some(next) => Ok(next),
        None => Err(NoMemory),
    }
}
