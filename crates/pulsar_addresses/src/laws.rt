//! What holds of addresses. The body compares, and the contract says what the answer means.

ghost use Rattle.std.specs.Prelude.{◌≡◌, ◌↔◌, IsTrue};
ghost use Rattle.std.specs.List.{fold};
ghost use Rattle.pulsar_addresses.specs.Address.{IsSame, address_words, place};

use crate::address::BrokerAddress;
use std::hash::{Hash, Hasher};

/// Addresses are equal exactly where the texts of their URLs and of their brokers are, and both are a proxy's or neither is.
pub fn addresses_are_equal(a: &BrokerAddress, b: &BrokerAddress) -> bool
    ensures { IsTrue result ↔ IsSame (place a.now) (place b.now) }
{
    a == b
}

/// An address gives these two texts and this choice to a hasher, whichever it is, and nothing else: equal addresses have one hash.
pub fn addresses_hash_alike<H: Hasher>(
    a: &BrokerAddress,
    b: &BrokerAddress,
    first: &mut H,
    second: &mut H,
)
    ensures first { first.new ≡ fold H.write first.old (address_words (place a.now)) }
    ensures second { second.new ≡ fold H.write second.old (address_words (place b.now)) }
    ensures alike { IsSame (place a.now) (place b.now) → first.old ≡ second.old → first.new ≡ second.new }
{
    a.hash(first);
    b.hash(second);
}
