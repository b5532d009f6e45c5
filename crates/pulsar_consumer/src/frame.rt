//! A message of the broker as a consumer takes it.

ghost use Rattle.std.specs.Prelude.{◌≡◌, ◌<◌, ◌^◌, ◌∷◌, ◌++◌, [], map, Some, IfOk, OnOk};
ghost use Rattle.std.specs.Option.{option_map};
ghost use Rattle.pulsar_wire.specs.Views.{body_values, message_id_values};
ghost use Rattle.pulsar_frame.specs.Batch.{batch_items};
ghost use Rattle.pulsar_frame.specs.Payload.{payload_values};
ghost use Rattle.pulsar_frame.specs.Items as meant;
ghost use Rattle.pulsar_frame.specs.Items.{is_compressed, weight_behind};
ghost use Rattle.pulsar_consumer.specs.Items.{given, items_of, opened};
ghost use Rattle.pulsar_consumer.specs.KeptItem.{item_of};
ghost use Rattle.pulsar_incoming.specs.Content.{dead_letter_values};
ghost use Rattle.pulsar_consumer.specs.DeadLetters as dead;
ghost use Rattle.pulsar_consumer.specs.Frames as meaning;
ghost use Rattle.pulsar_consumer.specs.Frames.{frame_by, frame_in};

use crate::dead_letter::is_dead;
use crate::frame_item::FrameItem;
use crate::letter::Letter;
use pulsar_addresses::content::Refusal;
use pulsar_exchange::content::Received;
use pulsar_frame::batch::iterator::BatchedMessageIterator;
use pulsar_frame::items::Unread as Item;
use pulsar_frame::payload::Payload;
use pulsar_incoming::config::DeadLetterPolicy;
use pulsar_wire::commands::base::Body;
use pulsar_wire::commands::consumer::delivery::CommandMessage;
use pulsar_wire::commands::ids::MessageIdData;
use pulsar_wire::error::{ConnectionError, ConsumerError, Error, IoKind, NoMemory, Reason};
use std::alloc::Global;
use std::collections::VecDeque;
use std::marker::Model;

/// What it costs, its items, its entries that go to another topic, and how often its message was given before.
#[derive(Drop)]
pub struct Frame {
    weight: u32,
    items: VecDeque<FrameItem>,
    letters: VecDeque<Letter>,
    redeliveries: Option<u32>,
}

impl Model for Frame {
    ghost use Rattle.pulsar_consumer.specs.Frames.{Frame as Meant};
    ghost use Rattle.pulsar_consumer.specs.KeptFrame.{frame_of};
    ghost use Rattle.pulsar_wire.specs.FailureCode.{failure_code};
    ghost use Rattle.std.specs.Coded.{codes};
    ghost use Rattle.std.specs.Prelude.{◌<◌, ◌^◌};

    ghost Value = { Meant };

    ghost coded = { Prim.hlevel (codes, failure_code (Prim.hlevel codes)) };

    ghost view = { frame_of };

    // its weight is a number of entries
    ghost invariant = { λ i. i.weight < 2 ^ 31 };
}

impl Frame {
    /// The frame of a message.
    pub fn received(alloc: Global, received: Received) -> Result<Frame, NoMemory>
        ensures { IfOk result (λ f. f ≡ frame_in received) }
    {
        let mut message = received.into_box();
        let payload = message.payload.take();
        match &message.command.body {
            Some(body) => frame_with(alloc, payload, body),
            None => Ok(Frame::empty(alloc, 0, None)),
        }
    }

    /// Why a consumer could not be subscribed again.
    pub fn failed(alloc: Global, refusal: Refusal) -> Result<Frame, NoMemory>
        ensures { IfOk result (λ f. f ≡ meaning.failed refusal) }
    {
        let items = one(alloc, Item::Failure(refusal.into_inner()))?;
        Ok(Frame {
            weight: 0,
            items,
            letters: VecDeque::new(alloc),
            redeliveries: None,
        })
    }

    fn empty(alloc: Global, weight: u32, redeliveries: Option<u32>) -> Frame
        requires { weight < 2 ^ 31 }
        ensures { result ≡ record { weight = weight; items = []; letters = []; redeliveries = redeliveries } }
    {
        Frame {
            weight,
            items: VecDeque::new(alloc),
            letters: VecDeque::new(alloc),
            redeliveries,
        }
    }

    /// By the policy of a consumer it may be a dead letter.
    pub(crate) fn sorted(
        self,
        alloc: Global,
        policy: &Option<DeadLetterPolicy>,
    ) -> Result<Frame, NoMemory>
        ensures { IfOk result (λ f. f ≡ frame_by (option_map dead_letter_values policy.now) self) }
    {
        let Frame {
            weight,
            items,
            letters: _,
            redeliveries,
        } = self;
        if is_dead(policy, redeliveries) {
            return dead_frame(alloc, weight, items, redeliveries);
        }
        Ok(Frame {
            weight,
            items,
            letters: VecDeque::new(alloc),
            redeliveries,
        })
    }

    /// How many permits it costs.
    pub fn weight(&self) -> u32
        ensures says { result ≡ self.now.weight }
        ensures small { result < 2 ^ 31 }
    {
        self.weight
    }

    /// Its items in order, and its entries that go to another topic.
    pub(crate) fn into_parts(self) -> (VecDeque<FrameItem>, VecDeque<Letter>)
        ensures items { result.0.items ≡ self.items }
        ensures letters { result.1.items ≡ self.letters }
    {
        let Frame { items, letters, .. } = self;
        (items, letters)
    }
}

/// What a body brings, with what stands behind it.
fn frame_with(alloc: Global, payload: Option<Payload>, body: &Body) -> Result<Frame, NoMemory>
    ensures { IfOk result (λ f. f ≡ meaning.frame_with (option_map payload_values payload) (Some (body_values body.now))) }
{
    match body {
        Body::Message(message) => frame_of_message(alloc, payload, message),
        _ => Ok(Frame::empty(alloc, 0, None)),
    }
}

/// What a message command brings, with its payload.
#[tactic(auto, unfolding(pulsar_wire::specs::Views::message_values, pulsar_wire::specs::Views::message_id_values))]
fn frame_of_message(
    alloc: Global,
    payload: Option<Payload>,
    message: &CommandMessage,
) -> Result<Frame, NoMemory>
    ensures { IfOk result (λ f. f ≡ meaning.frame_with (option_map payload_values payload) (Some (body_values (Body.Message message.now)))) }
{
    let redeliveries = message.redelivery_count;
    match payload {
        Some(payload) => frame_of(alloc, message.message_id.copy()?, payload, redeliveries),
        None => Ok(Frame::empty(alloc, 1, redeliveries)),
    }
}

/// What a payload brings under its id.
fn frame_of(
    alloc: Global,
    id: MessageIdData,
    payload: Payload,
    redeliveries: Option<u32>,
) -> Result<Frame, NoMemory>
    ensures { IfOk result (λ f. f ≡ record {
      weight = weight_behind (Some (payload_values payload));
      items = items_of (message_id_values id) (payload_values payload);
      letters = [];
      redeliveries = redeliveries;
    }) }
{
    let weight = weight_of(&payload);
    Ok(Frame {
        weight,
        items: items(alloc, id, payload)?,
        letters: VecDeque::new(alloc),
        redeliveries,
    })
}

/// A dead letter with these items: an error among them is given in any case, and the messages go to another topic.
fn dead_frame(
    alloc: Global,
    weight: u32,
    mut items: VecDeque<FrameItem>,
    redeliveries: Option<u32>,
) -> Result<Frame, NoMemory>
    requires { weight < 2 ^ 31 }
    ensures { IfOk result (λ f. f ≡ record {
      weight = weight;
      items = dead.faults items.items;
      letters = dead.letters items.items;
      redeliveries = redeliveries;
    }) }
{
    let mut faults = VecDeque::new(alloc);
    let mut letters = VecDeque::new(alloc);
    while let Some(item) = items.pop_front() {
        sort(alloc, item, &mut faults, &mut letters)?;
    }
    Ok(Frame {
        weight,
        items: faults,
        letters,
        redeliveries,
    })
}

/// An item stands behind the errors, or behind the entries that are copied.
fn sort(
    alloc: Global,
    item: FrameItem,
    faults: &mut VecDeque<FrameItem>,
    letters: &mut VecDeque<Letter>,
) -> Result<(), NoMemory>
    ensures faults { OnOk result (faults.new.items ≡ faults.old.items ++ dead.faults (item ∷ [])) }
    ensures letters { OnOk result (letters.new.items ≡ letters.old.items ++ dead.letters (item ∷ [])) }
{
    match item.into_inner() {
        Item::Message { id, payload } => letters.push_back(Letter::new(alloc, id, payload)?)?,
        Item::Failure(error) => faults.push_back(FrameItem::new(alloc, Item::Failure(error))?)?,
    }
    Ok(())
}

/// How many permits a payload costs.
#[tactic(auto, unfolding(pulsar_wire::specs::Views::message_metadata_values))]
fn weight_of(payload: &Payload) -> u32
    ensures says { result ≡ weight_behind (Some (payload_values payload.now)) }
    ensures small { result < 2 ^ 31 }
{
    weight(payload.metadata.num_messages_in_batch)
}

/// How many permits a payload of so many entries costs.
fn weight(count: Option<i32>) -> u32
    ensures says { result ≡ meant.weight_of count }
    ensures small { result < 2 ^ 31 }
{
    match count {
        Some(count) => match u32::try_from(count) {
            Ok(count) => count,
            Err(_) => 0,
        },
        None => 1,
    }
}

/// One item.
fn one(alloc: Global, item: Item) -> Result<VecDeque<FrameItem>, NoMemory>
    ensures { IfOk result (λ items. items.items ≡ item_of item ∷ []) }
{
    let mut items = VecDeque::new(alloc);
    items.push_back(FrameItem::new(alloc, item)?)?;
    Ok(items)
}

/// What a payload gives under its id.
#[tactic(auto, unfolding(pulsar_wire::specs::Views::message_metadata_values))]
fn items(
    alloc: Global,
    id: MessageIdData,
    payload: Payload,
) -> Result<VecDeque<FrameItem>, NoMemory>
    ensures { IfOk result (λ items. items.items ≡ items_of (message_id_values id) (payload_values payload)) }
{
    if is_compressed(payload.metadata.compression) {
        let error = Error::Consumer(ConsumerError::Io(IoKind::Other));
        return one(alloc, Item::Failure(error));
    }
    match payload.metadata.num_messages_in_batch {
        Some(_) => open(alloc, id, payload),
        None => one(alloc, Item::Message { id, payload }),
    }
}

fn is_compressed(compression: Option<i32>) -> bool
    ensures { result ≡ is_compressed compression }
{
    match compression {
        Some(kind) => kind != 0,
        None => false,
    }
}

/// The messages of a batch in order, or one failure where it does not parse.
fn open(alloc: Global, id: MessageIdData, payload: Payload) -> Result<VecDeque<FrameItem>, NoMemory>
    ensures { IfOk result (λ items. items.items ≡ opened (batch_items (message_id_values id) (payload_values payload))) }
{
    match BatchedMessageIterator::new(id, payload) {
        Ok(messages) => all_of(alloc, messages),
        Err(ConnectionError::Decoding(Reason::Batch)) => {
            let error = ConnectionError::Decoding(Reason::Batch);
            one(alloc, Item::Failure(Error::Connection(error)))
        }
        Err(_) => Err(NoMemory),
    }
}

fn all_of(
    alloc: Global,
    mut messages: BatchedMessageIterator,
) -> Result<VecDeque<FrameItem>, NoMemory>
    ensures { IfOk result (λ items. items.items ≡ map given messages) }
{
    let mut items = VecDeque::new(alloc);
    while let Some((id, payload)) = messages.next() {
        items.push_back(FrameItem::new(alloc, Item::Message { id, payload })?)?;
    }
    Ok(items)
}
