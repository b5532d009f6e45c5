//! What the plans of those do that use a producer of many topics, and what they are told.

ghost use Rattle.std.specs.Prelude.{◌≡◌, IfOk};
ghost use Rattle.pulsar_wire.specs.Failures.{fault};
ghost use Rattle.pulsar_producer.specs.MultiPlans.{multi_failure, multi_fault_told};

use crate::deed::{Deed, News, error_told};
use pulsar_addresses::content::Refusal;
use pulsar_outgoing::failing::in_producer;
use pulsar_outgoing::multi_topic::{MultiAsk, MultiSaid};
use pulsar_wire::error::{ConnectionError, NoMemory};
use std::alloc::Global;

/// What a plan does next. Then it waits for news.
#[derive(Drop)]
pub enum MultiDeed {
    /// This is asked of the producer of many topics.
    Asks(MultiAsk),
    /// What is done as a producer is built.
    Does(Deed),
}

/// What a plan is told.
#[derive(Drop)]
pub enum MultiNews {
    /// What the producer of many topics says.
    Said(MultiSaid),
    /// What came of all else that it did.
    Told(News),
}

/// Why a plan fails at news.
pub fn multi_error_told(news: MultiNews) -> ConnectionError
    ensures { fault result ≡ multi_fault_told news }
{
    match news {
        MultiNews::Told(news) => error_told(news),
        MultiNews::Said(_) => ConnectionError::Disconnected,
    }
}

/// The same as an error of a producer.
pub fn multi_failure(alloc: Global, news: MultiNews) -> Result<Refusal, NoMemory>
    ensures { IfOk result (λ r. r ≡ multi_failure news) }
{
    in_producer(alloc, multi_error_told(news))
}
