//! The policy of the program's client.

ghost use Rattle.std.specs.Prelude.{◌≡◌};

use pulsar_client::{CustomRoutingPolicy, Message};

/// Every message goes to the second partition.
#[derive(Drop)]
pub struct Second;

impl CustomRoutingPolicy for Second {
    ghost routes = { λ _ _ _. 1 };

    fn route(&self, _message: &Message, _num_producers: usize) -> usize {
        1
    }
}
