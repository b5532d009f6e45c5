//! Who has a turn at a topic producer, or at a producer of many topics.

ghost use Rattle.std.specs.Prelude.{◌≡◌};
ghost use Rattle.pulsar_producer_table.specs.Takers.{who_at, who_of};

use pulsar_calls::act::Who;
use pulsar_calls::who::in_turn;
use pulsar_outgoing::multi_topic::Taker;

/// Who has a turn at a producer of many topics so.
pub(crate) fn who_of(taker: Taker) -> Who
    ensures { result ≡ who_of taker }
{
    match taker {
        Taker::Call(ticket) => Who::Call(ticket),
        Taker::Copy {
            consumer,
            ticket,
            ..
        } => Who::Consumer {
            number: consumer,
            ticket,
        },
    }
}

/// Who has a turn at the topic producer of this number so.
pub(crate) fn who_at(number: u64, taker: Taker) -> Who
    ensures { result ≡ who_at number taker }
{
    match taker {
        Taker::Call(turn) => in_turn(number, turn),
        Taker::Copy {
            consumer,
            ticket,
            ..
        } => Who::Consumer {
            number: consumer,
            ticket,
        },
    }
}
