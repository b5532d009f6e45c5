//! The id of a message as a key.

ghost use Rattle.std.specs.Cmp;
ghost use Rattle.std.specs.Cmp.{eq_by_cmp_equiv, partial_order_from_agreeing_total};
ghost use Rattle.std.specs.Ordering.{eq_by_cmp};
ghost use Rattle.std.specs.Prelude.{◌≡◌, IfOk, Some, refl};
ghost use Rattle.pulsar_wire.specs.Orders.{id_order};
ghost use Rattle.pulsar_wire.specs.Views.{message_id_values};
ghost use Rattle.pulsar_consumer.specs.IdOrder.{id_total};

use pulsar_wire::commands::ids::MessageIdData;
use pulsar_wire::error::NoMemory;
use std::cmp::Ordering;
use std::marker::Model;

/// The id of a message. Contracts see it by its content, so that a key is told from another by its fields alone.
#[derive(Drop)]
pub struct KeptId {
    id: MessageIdData,
}

impl Model for KeptId {
    ghost use Rattle.pulsar_wire.specs.Row.{Values};
    ghost use Rattle.pulsar_wire.specs.Rows.{message_id};
    ghost use Rattle.pulsar_wire.specs.Views.{message_id_values};

    ghost Value = { Values message_id };

    ghost view = { λ k. message_id_values k.id };
}

impl KeptId {
    /// The key of this id.
    pub fn of(id: &MessageIdData) -> Result<KeptId, NoMemory>
        ensures { IfOk result (λ k. k ≡ message_id_values id.now) }
    {
        let id = id.copy()?;
        Ok(KeptId { id })
    }

    /// The same key once more.
    pub fn copy(&self) -> Result<KeptId, NoMemory>
        ensures { IfOk result (λ k. k ≡ self.now) }
    {
        KeptId::of(&self.id)
    }

    /// The id.
    pub fn into_inner(self) -> MessageIdData
        ensures { message_id_values result ≡ self }
    {
        let KeptId { id } = self;
        id
    }
}

impl PartialEq for KeptId {
    ghost eq = { λ a b. eq_by_cmp id_order a b };

    ghost laws = { Cmp.partial_equiv_from_equiv (eq_by_cmp_equiv id_total) };

    fn eq(&self, other: &KeptId) -> bool {
        self.cmp(other).is_eq()
    }
}

impl Eq for KeptId {
    ghost laws = { eq_by_cmp_equiv id_total };
}

impl PartialOrd for KeptId {
    ghost partial_cmp = { λ a b. Some (id_order a b) };

    ghost laws = { partial_order_from_agreeing_total id_order id_total (λ a b. refl) (λ a b. refl) };

    fn partial_cmp(&self, other: &KeptId) -> Option<Ordering> {
        Some(self.cmp(other))
    }
}

impl Ord for KeptId {
    ghost cmp = { id_order };

    ghost total = { id_total };

    ghost matches_partial_cmp = { λ a b. refl };

    ghost matches_eq = { λ a b. refl };

    #[tactic(auto, unfolding(pulsar_wire::specs::Views::message_id_values))]
    fn cmp(&self, other: &KeptId) -> Ordering {
        self.id.cmp(&other.id)
    }
}
