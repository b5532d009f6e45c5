//! What a frame gives.

ghost use Rattle.std.specs.Prelude.{◌≡◌, IfOk};
ghost use Rattle.pulsar_consumer.specs.Items.{handed, is_message};
ghost use Rattle.pulsar_consumer.specs.KeptItem.{item_of};

use pulsar_frame::items::Unread as Item;
use pulsar_incoming::unread::Unread;
use pulsar_wire::error::NoMemory;
use std::alloc::Global;
use std::marker::Model;

/// A message, or why there is none, in a box. Contracts see it by its content, and not as it is written.
pub struct FrameItem {
    item: Box<Item>,
}

impl Drop for FrameItem {
    fn drop(self) {
        let FrameItem { item: _ } = self;
    }
}

impl Model for FrameItem {
    ghost use Rattle.pulsar_consumer.specs.Items.{Item as Meant};
    ghost use Rattle.pulsar_consumer.specs.KeptItem.{item_of};
    ghost use Rattle.pulsar_wire.specs.FailureCode.{failure_code};
    ghost use Rattle.std.specs.Coded.{codes};

    ghost Value = { Meant };

    ghost coded = { Prim.hlevel (codes, failure_code (Prim.hlevel codes)) };

    ghost view = { λ u. item_of u.item.value };
}

impl FrameItem {
    /// This item.
    pub fn new(alloc: Global, item: Item) -> Result<FrameItem, NoMemory>
        ensures { IfOk result (λ u. u ≡ item_of item) }
    {
        let item = Box::new(alloc, item)?;
        Ok(FrameItem { item })
    }

    /// It is a message.
    pub fn is_message(&self) -> bool
        ensures { result ≡ is_message self.now }
    {
        match &*self.item {
            Item::Message { .. } => true,
            Item::Failure(_) => false,
        }
    }

    /// The item.
    pub fn get(&self) -> &Item
        ensures { item_of result.now ≡ self.now }
    {
        &self.item
    }

    /// The item without its box.
    pub fn into_inner(self) -> Item
        ensures { item_of result ≡ self }
    {
        let FrameItem { item } = self;
        Box::into_inner(item)
    }

    /// It is handed out.
    #[tactic(auto, using(crate::proofs::Handing::handed_is))]
    pub fn hand(self, alloc: Global) -> Result<Unread, NoMemory>
        ensures { IfOk result (λ u. u ≡ handed self) }
    {
        Unread::new(alloc, self.into_inner())
    }
}
