//! What a run counts.

ghost use Rattle.std.specs.Prelude.{◌≡◌, ◌+◌, IfOk, OnOk};
ghost use Rattle.pulsar_frame.specs.Shown.{message_values};
ghost use Rattle.pulsar_frame.specs.Key.{key};
ghost use Rattle.pulsar_wire.specs.declared.key.RequestKey.TheVariants as keys;
ghost use Rattle.pulsar_speed.specs.Tallies.{number_in, CountsOne};

use pulsar_frame::message::Message;
use pulsar_wire::error::ConnectionError;
use pulsar_wire::key::RequestKey;

/// How many there were, how many bytes they had, and the sum of a number of each.
#[derive(Clone, Copy)]
pub struct Tally {
    pub count: u64,
    pub bytes: u64,
    pub sum: u64,
}

impl Tally {
    /// Nothing was counted yet.
    pub fn new() -> Tally
        ensures { result ≡ record { count = 0; bytes = 0; sum = 0 } }
    {
        Tally {
            count: 0,
            bytes: 0,
            sum: 0,
        }
    }

    /// One more message, with the last number of its key. It is Exhausted where a count is at its end.
    pub fn count_message(&mut self, message: &Message) -> Result<(), ConnectionError>
        ensures { OnOk result (CountsOne self.old self.new (number_in (message_values message.now))) }
    {
        self.count_one(number_in(message))
    }

    /// One more, with its number. It is Exhausted where a count is at its end.
    pub fn count_one(&mut self, number: u64) -> Result<(), ConnectionError>
        ensures { OnOk result (CountsOne self.old self.new number) }
    {
        self.count = added(self.count, 1)?;
        self.sum = added(self.sum, number)?;
        Ok(())
    }

    /// So many bytes more. It is Exhausted where the count is at its end.
    pub fn count_bytes(&mut self, bytes: usize) -> Result<(), ConnectionError>
        ensures { OnOk result (self.new ≡ record self.old { bytes = self.old.bytes + bytes }) }
    {
        self.bytes = added(self.bytes, bytes as u64)?;
        Ok(())
    }
}

fn added(a: u64, b: u64) -> Result<u64, ConnectionError>
    ensures { IfOk result (λ sum. sum ≡ a + b) }
{
    a.checked_add(b).ok_or(ConnectionError::Exhausted)
}

/// The last number of a message's key, or 0.
#[tactic(auto, unfolding(crate::specs::Tallies::number_in))]
fn number_in(message: &Message) -> u64
    ensures { result ≡ number_in (message_values message.now) }
{
    match message.request_key() {
        Some(RequestKey::RequestId(number)) => number,
        Some(RequestKey::ProducerSend { sequence_id, .. }) => sequence_id,
        Some(RequestKey::Consumer { consumer_id }) => consumer_id,
        Some(RequestKey::CloseConsumer { request_id, .. }) => request_id,
        Some(RequestKey::AuthChallenge) | None => 0,
    }
}
