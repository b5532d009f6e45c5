//! What a consumer has not given yet.

ghost use Rattle.std.specs.Prelude.{◌≡◌, IfOk};
ghost use Rattle.pulsar_frame.specs.Held.{item_of};
ghost use Rattle.pulsar_frame.specs.Items.{is_message};

use pulsar_frame::items::Unread as Item;
use pulsar_wire::error::NoMemory;
use std::alloc::Global;
use std::marker::Model;

/// A message, or why there is none, in a box.
pub struct Unread {
    item: Box<Item>,
}

impl Drop for Unread {
    fn drop(self) {
        let Unread { item: _ } = self;
    }
}

impl Model for Unread {
    ghost use Rattle.pulsar_frame.specs.Held.{item_of};
    ghost use Rattle.pulsar_frame.specs.Items.{Item as Meant};
    ghost use Rattle.pulsar_wire.specs.FailureCode.{failure_code};
    ghost use Rattle.std.specs.Coded.{codes};

    ghost Value = { Meant };

    ghost coded = { Prim.hlevel (codes, failure_code (Prim.hlevel codes)) };

    ghost view = { λ u. item_of u.item.value };
}

impl Unread {
    /// This item.
    pub fn new(alloc: Global, item: Item) -> Result<Unread, NoMemory>
        ensures { IfOk result (λ u. u ≡ item_of item) }
    {
        let item = Box::new(alloc, item)?;
        Ok(Unread { item })
    }

    /// It is a message.
    pub fn is_message(&self) -> bool
        ensures { result ≡ is_message self.now }
    {
        match &*self.item {
            Item::Message { .. } => true,
            Item::Failure(_) => false,
        }
    }

    /// The item without its box.
    pub fn into_inner(self) -> Item
        ensures { item_of result ≡ self }
    {
        let Unread { item } = self;
        Box::into_inner(item)
    }
}
