//! A subscription that is live, and what remains of its permits.

ghost use Rattle.std.specs.Prelude.{◌≡◌, ◌+◌, ◌-◌, ◌^◌, ◌<◌, ◌≤◌, nat_lt, Some, IfOk, OnOk};
ghost use Rattle.std.specs.Option.{is_some};
ghost use Rattle.pulsar_consumer.specs.KeptLive.{HasPermits};
ghost use Rattle.pulsar_consumer.specs.Topic as meaning;

use pulsar_wire::error::NoMemory;
use std::alloc::Global;
use std::collections::VecDeque;
use std::marker::Model;
use url::Url;

/// A subscription that is live.
#[derive(Drop)]
pub struct Live {
    link: u64,
    url: Url,
    level: u32,
    weight: u32,
    due: VecDeque<u32>,
}

impl Model for Live {
    ghost use Rattle.pulsar_consumer.specs.KeptLive.{live_of};
    ghost use Rattle.pulsar_consumer.specs.Topic.{Live as Meant};

    ghost Value = { Meant };

    ghost view = { live_of };
}

impl Live {
    /// A new one, on this link to this address.
    pub fn new(alloc: Global, batch: Option<u32>, link: u64, url: Url) -> Result<Live, NoMemory>
        ensures { IfOk result (λ l. l ≡ meaning.subscribed batch link url) }
    {
        let mut due = VecDeque::new(alloc);
        let level = match batch {
            Some(batch) => {
                due.push_back(batch)?;
                batch
            }
            None => 0,
        };
        Ok(Live {
            link,
            url,
            level,
            weight: 0,
            due,
        })
    }

    /// Its link.
    pub fn link(&self) -> u64
        ensures { result ≡ self.now.link }
    {
        self.link
    }

    /// The address of its link.
    pub fn url(&self) -> &Url
        ensures { result.now ≡ self.now.url }
    {
        &self.url
    }

    /// A frame of this weight is begun.
    pub fn begin(&mut self, weight: u32)
        ensures { self.new ≡ meaning.begins weight self.old }
    {
        self.weight = weight;
    }

    /// The frame that was begun is finished. Where less than half of the permits are left, more are granted.
    pub(crate) fn finish(&mut self, batch: Option<u32>) -> Result<(), NoMemory>
        requires { HasPermits (Some self.old) batch }
        ensures says { OnOk result (self.new ≡ meaning.finishes batch self.old) }
        ensures kept { HasPermits (Some self.new) batch }
    {
        if let Some(batch) = batch {
            self.finish_by(batch)?;
        }
        Ok(())
    }

    fn finish_by(&mut self, batch: u32) -> Result<(), NoMemory>
        requires { HasPermits (Some self.old) (Some batch) }
        ensures says { OnOk result (self.new ≡ meaning.finishes_by batch self.old) }
        ensures kept { HasPermits (Some self.new) (Some batch) }
    {
        if is_low(batch, self.level, self.weight) {
            self.due.push_back(granted(batch, self.level, self.weight))?;
            self.level = batch;
        } else {
            self.level -= self.weight;
        }
        self.weight = 0;
        Ok(())
    }

    /// A flow is to be asked for.
    pub fn is_due(&self) -> bool
        ensures { result ≡ is_some (meaning.first_in self.now.due) }
    {
        self.due.front().is_some()
    }

    /// The flow that is to be asked for next. It counts as asked for.
    pub fn ask(&mut self) -> Option<u32>
        ensures flow { result ≡ meaning.first_in self.old.due }
        ensures after { self.new ≡ meaning.asked self.old }
    {
        self.due.pop_front()
    }
}

/// Less than half of the permits are left behind a frame of this weight.
fn is_low(batch: u32, level: u32, weight: u32) -> bool
    ensures { result ≡ nat_lt level (meaning.half batch + weight) }
{
    u64::from(level) < u64::from(batch - batch / 2) + u64::from(weight)
}

/// How many permits bring them up to the batch size again.
fn granted(batch: u32, level: u32, weight: u32) -> u32
    requires least { meaning.half batch ≤ level }
    requires small { weight < 2 ^ 31 }
    ensures { result ≡ batch + weight - level }
{
    let missing = (u64::from(batch) + u64::from(weight)).saturating_sub(u64::from(level));
    missing as u32
}
