//! What a consumer holds: the frames that came for it, as far as they are not given, the permits of its subscription, and the ids of messages
//! that are to be given again.

ghost use Rattle.std.specs.Prelude.{◌≡◌, ◌++◌, ◌-◌, ◌∷◌, [], false, ◌||◌, not, map, take, drop, length, None, Some, IfOk, OnOk, if◌then◌else◌};
ghost use Rattle.std.specs.Option.{is_some, option_map, option_or};
ghost use Rattle.pulsar_frame.specs.Payload.{payload_values};
ghost use Rattle.pulsar_wire.specs.Views.{message_id_values};
ghost use Rattle.pulsar_messages.specs.Content.{message_content};
ghost use Rattle.pulsar_consumer.specs.DeadLetters.{copy_of, lost_letter};
ghost use Rattle.pulsar_consumer.specs.Redelivery.{due_at, due_before, first_check, forget, keep_all, keep_item, next_check};
ghost use Rattle.pulsar_consumer.specs.Topic as meaning;

use crate::dead_letter::copy_of;
use crate::frame::Frame;
use crate::frame_item::FrameItem;
use crate::kept::KeptIds;
use crate::letter::{Entry, Letter};
use crate::live::Live;
use pulsar_frame::items::Unread as Item;
use pulsar_messages::Message;
use pulsar_wire::commands::ids::MessageIdData;
use pulsar_wire::error::{Error, NoMemory};
use std::alloc::Global;
use std::collections::VecDeque;
use std::marker::Model;
use url::Url;

/// So many milliseconds lie between two checks.
const PAUSE: u64 = 500;

/// What a consumer holds.
pub struct ConsumerEngine {
    alloc: Global,
    queue: usize,
    batch: Option<u32>,
    delay: Option<u64>,
    clock: u64,
    live: Option<Live>,
    unread: VecDeque<FrameItem>,
    rest: VecDeque<FrameItem>,
    letters: VecDeque<Letter>,
    copying: Option<MessageIdData>,
    waiting: VecDeque<Frame>,
    kept: KeptIds,
    check: Option<u64>,
    stopped: bool,
}

impl Drop for ConsumerEngine {
    fn drop(self) {
        let ConsumerEngine {
            alloc: _,
            queue: _,
            batch: _,
            delay: _,
            clock: _,
            live: _,
            unread: _,
            rest: _,
            letters: _,
            copying: _,
            waiting: _,
            kept: _,
            check: _,
            stopped: _,
        } = self;
    }
}

impl Model for ConsumerEngine {
    ghost use Rattle.pulsar_consumer.specs.KeptEngine.{engine_of};
    ghost use Rattle.pulsar_consumer.specs.KeptLive.{HasPermits};
    ghost use Rattle.pulsar_consumer.specs.Topic.{Engine as Meant};
    ghost use Rattle.pulsar_wire.specs.FailureCode.{failure_code};
    ghost use Rattle.std.specs.Coded.{codes};

    ghost Value = { Meant };

    ghost coded = { Prim.hlevel (codes, failure_code (Prim.hlevel codes)) };

    ghost view = { engine_of };

    ghost invariant = { λ i. HasPermits i.live i.batch };
}

impl ConsumerEngine {
    /// Nothing is held. So many items may be unread, so many messages may be sent at once, and a message that is not acknowledged is asked for
    /// again after this delay.
    pub(crate) fn new(
        alloc: Global,
        queue: usize,
        batch: Option<u32>,
        delay: Option<u64>,
    ) -> ConsumerEngine
        ensures { result ≡ meaning.nothing_held queue batch delay }
    {
        ConsumerEngine {
            alloc,
            queue,
            batch,
            delay,
            clock: 0,
            live: None,
            unread: VecDeque::new(alloc),
            rest: VecDeque::new(alloc),
            letters: VecDeque::new(alloc),
            copying: None,
            waiting: VecDeque::new(alloc),
            kept: KeptIds::new(alloc),
            check: None,
            stopped: false,
        }
    }

    /// The subscription that is live.
    pub(crate) fn live(&self) -> Option<&Live>
        ensures { option_map (λ l. l.now) result ≡ self.now.live }
    {
        match &self.live {
            Some(live) => Some(live),
            None => None,
        }
    }

    /// A subscription is live on this link to this address. From the first on there are checks.
    pub(crate) fn subscribe(&mut self, link: u64, url: Url) -> Result<(), NoMemory>
        ensures { OnOk result (self.new ≡ meaning.lives link url self.old) }
    {
        self.live = Some(Live::new(self.alloc, self.batch, link, url)?);
        self.check = self.check.or(first_check(self.delay, self.clock));
        Ok(())
    }

    /// No subscription is live.
    pub(crate) fn lose(&mut self)
        ensures { self.new ≡ meaning.cut_off self.old }
    {
        self.live = None;
    }

    /// No subscription is live, and none will be: nothing is asked for again.
    pub(crate) fn shut(&mut self)
        ensures { self.new ≡ meaning.shut self.old }
    {
        self.live = None;
        self.delay = None;
        self.kept = KeptIds::new(self.alloc);
        self.check = None;
    }

    /// When the next check is due.
    pub(crate) fn next_check(&self) -> Option<u64>
        ensures { result ≡ self.now.check }
    {
        self.check
    }

    /// The moment at which items are placed from now on.
    pub(crate) fn tell(&mut self, clock: u64)
        ensures { self.new ≡ meaning.clocked clock self.old }
    {
        self.clock = clock;
    }

    /// One more frame came.
    pub(crate) fn hear(&mut self, frame: Frame) -> Result<(), NoMemory>
        ensures { OnOk result (self.new ≡ meaning.hears frame self.old) }
    {
        self.waiting.push_back(frame)?;
        self.advance()?;
        Ok(())
    }

    /// The first unread item, which is given.
    pub(crate) fn give(&mut self) -> Result<Option<FrameItem>, NoMemory>
        ensures item { IfOk result (λ item. item ≡ meaning.first_of self.old.unread) }
        ensures after { OnOk result (self.new ≡ meaning.gives self.old) }
    {
        match self.unread.pop_front() {
            Some(item) => {
                self.advance()?;
                Ok(Some(item))
            }
            None => Ok(None),
        }
    }

    /// A flow is to be asked for.
    pub(crate) fn is_due(&self) -> bool
        ensures { result ≡ is_some (meaning.first_due self.now.live) }
    {
        match &self.live {
            Some(live) => live.is_due(),
            None => false,
        }
    }

    /// The memory in which nothing is left is given back.
    pub(crate) fn let_go(&mut self)
        ensures { self.new ≡ self.old }
    {
        let_items_go(self.alloc, &mut self.unread);
        let_items_go(self.alloc, &mut self.rest);
        let_letters_go(self.alloc, &mut self.letters);
        let_frames_go(self.alloc, &mut self.waiting);
    }

    /// The flow that is to be asked for next. It counts as asked for.
    pub(crate) fn ask(&mut self) -> Option<u32>
        ensures flow { result ≡ meaning.first_due self.old.live }
        ensures after { self.new ≡ record self.old { live = option_map meaning.asked self.old.live } }
    {
        match &mut self.live {
            Some(live) => live.ask(),
            None => None,
        }
    }

    /// An entry of a dead letter is to be copied, or its copy is under way.
    pub(crate) fn is_pending(&self) -> bool
        ensures { result ≡ meaning.is_pending self.now }
    {
        is_pending(&self.copying, &self.letters)
    }

    /// An entry is to be copied now.
    pub(crate) fn is_copy_due(&self) -> bool
        ensures { result ≡ is_some (meaning.to_copy self.now) }
    {
        self.copying.is_none() && has_letters(&self.letters)
    }

    /// The copy of the entry that is to be copied now, with the topic from which it comes. It counts as under way.
    pub(crate) fn take_copy(&mut self, topic: &str) -> Result<Option<Box<Message>>, NoMemory>
        ensures copy { IfOk result (λ c. option_map (λ m. message_content m.value) c ≡ option_map (copy_of topic.now) (meaning.to_copy self.old)) }
        ensures after { OnOk result (self.new ≡ meaning.takes_copy self.old) }
    {
        if self.copying.is_some() {
            return Ok(None);
        }
        match self.letters.pop_front() {
            Some(letter) => self.copy(topic, letter),
            None => Ok(None),
        }
    }

    fn copy(&mut self, topic: &str, letter: Letter) -> Result<Option<Box<Message>>, NoMemory>
        ensures copy { IfOk result (λ c. option_map (λ m. message_content m.value) c ≡ Some (copy_of topic.now letter)) }
        ensures after { OnOk result (self.new ≡ record self.old { copying = Some letter.0 }) }
    {
        let Entry { id, payload } = letter.into_inner();
        let message = copy_of(self.alloc, topic, &id, payload)?;
        self.copying = Some(id);
        Ok(Some(Box::new(self.alloc, message)?))
    }

    /// The copy that is under way has its receipt: its entry is left out, and acknowledged where a subscription is live.
    pub(crate) fn copy_sent(&mut self) -> Result<Option<MessageIdData>, NoMemory>
        ensures acked { IfOk result (λ id. option_map message_id_values id ≡ meaning.acked_by self.old) }
        ensures after { OnOk result (self.new ≡ meaning.copied self.old) }
    {
        let Some(id) = self.copying.take() else {
            return Ok(None);
        };
        let is_live = self.live.is_some();
        if is_live {
            self.kept.forget(&id)?;
        }
        self.advance()?;
        Ok(only_if(is_live, id))
    }

    /// The copy that is under way could not be sent: one error is given for what is left of its frame.
    pub(crate) fn copy_failed(&mut self) -> Result<(), NoMemory>
        ensures { OnOk result (self.new ≡ meaning.copy_failed self.old) }
    {
        if self.copying.is_none() {
            return Ok(());
        }
        self.give_up()?;
        Ok(())
    }

    /// The client is stopped: what is pending fails, and no copy is made any more.
    pub(crate) fn stop(&mut self) -> Result<(), NoMemory>
        ensures { OnOk result (self.new ≡ meaning.stops self.old) }
    {
        let is_pending = self.is_pending();
        self.stopped = true;
        if is_pending {
            self.give_up()?;
        }
        Ok(())
    }

    /// The message of this id is acknowledged, or asked for again.
    pub(crate) fn forget(&mut self, id: &MessageIdData) -> Result<(), NoMemory>
        ensures { OnOk result (self.new ≡ record self.old { kept = forget (message_id_values id.now) self.old.kept }) }
    {
        self.kept.forget(id)?;
        Ok(())
    }

    /// The messages that are due before this moment, which are asked for again where a subscription is live. The next check is due later.
    pub(crate) fn check(&mut self, clock: u64) -> Result<Vec<MessageIdData>, NoMemory>
        ensures named { IfOk result (λ ids. map message_id_values ids.items ≡ (if is_some self.old.live then due_before clock self.old.kept else [])) }
        ensures after { OnOk result (self.new ≡ meaning.checks clock self.old) }
    {
        let next = next_check(clock, self.check);
        let named = self.name_due(clock)?;
        self.check = next;
        Ok(named)
    }

    fn name_due(&mut self, clock: u64) -> Result<Vec<MessageIdData>, NoMemory>
        ensures named { IfOk result (λ ids. map message_id_values ids.items ≡ (if is_some self.old.live then due_before clock self.old.kept else [])) }
        ensures after { OnOk result (self.new ≡ meaning.names_due clock self.old) }
    {
        if self.live.is_none() {
            return Ok(Vec::new(self.alloc));
        }
        let named = self.kept.take_due(clock)?;
        Ok(named)
    }

    /// Items are placed, and frames begun and finished, as far as there is room.
    fn advance(&mut self) -> Result<(), NoMemory>
        ensures { OnOk result (self.new ≡ meaning.advances self.old) }
    {
        self.place()?;
        self.go_on()?;
        Ok(())
    }

    /// The frame that is begun places items while there is room.
    fn place(&mut self) -> Result<(), NoMemory>
        ensures { OnOk result (self.new ≡ meaning.places self.old) }
    {
        let due = due_at(self.delay, self.clock);
        place(
            &mut self.unread,
            &mut self.rest,
            &mut self.kept,
            self.queue,
            due,
        )?;
        Ok(())
    }

    /// Frames are finished and begun as far as all items before them are placed.
    #[tactic(auto, using(crate::proofs::Going::stuck, crate::proofs::Going::step_some, crate::proofs::Going::step_none))]
    fn go_on(&mut self) -> Result<(), NoMemory>
        ensures { OnOk result (self.new ≡ meaning.goes_on self.old.waiting self.old) }
    {
        'frames: while self.is_finished() {
            self.finish()?;
            match self.waiting.pop_front() {
                Some(frame) => self.begin(frame)?,
                None => return Ok(()),
            }
        }
        Ok(())
    }

    /// Each item of the frame that is begun is placed, and none of its entries is pending.
    fn is_finished(&self) -> bool
        ensures { result ≡ meaning.is_finished self.now }
    {
        is_placed(&self.rest) && !self.is_pending()
    }

    /// The frame that was begun is finished.
    fn finish(&mut self) -> Result<(), NoMemory>
        ensures { OnOk result (self.new ≡ meaning.finish self.old) }
    {
        if let Some(live) = &mut self.live {
            live.finish(self.batch)?;
        }
        Ok(())
    }

    /// A frame is begun.
    fn begin(&mut self, frame: Frame) -> Result<(), NoMemory>
        ensures { OnOk result (self.new ≡ meaning.begin frame self.old) }
    {
        if let Some(live) = &mut self.live {
            live.begin(frame.weight());
        }
        let (items, letters) = frame.into_parts();
        self.open(items, letters)?;
        self.place()?;
        Ok(())
    }

    /// What the frame that is begun has. Once the client is stopped its entries are given up.
    fn open(
        &mut self,
        items: VecDeque<FrameItem>,
        letters: VecDeque<Letter>,
    ) -> Result<(), NoMemory>
        ensures { OnOk result (self.new ≡ meaning.opens items.items letters.items self.old) }
    {
        self.rest = items;
        self.letters = letters;
        if self.stopped && has_letters(&self.letters) {
            self.rest.push_back(lost_letter(self.alloc)?)?;
            self.letters = VecDeque::new(self.alloc);
        }
        Ok(())
    }

    /// One error is given for the entries of the frame that is begun which are left.
    fn give_up(&mut self) -> Result<(), NoMemory>
        ensures { OnOk result (self.new ≡ meaning.gives_up self.old) }
    {
        self.rest.push_back(lost_letter(self.alloc)?)?;
        self.letters = VecDeque::new(self.alloc);
        self.copying = None;
        self.advance()?;
        Ok(())
    }
}

/// What is given where a copy could not be sent.
fn lost_letter(alloc: Global) -> Result<FrameItem, NoMemory>
    ensures { IfOk result (λ item. item ≡ lost_letter) }
{
    let text = String::from_str(alloc, "DLQ send error")?;
    FrameItem::new(alloc, Item::Failure(Error::Custom(text)))
}

/// An entry is to be copied, or its copy is under way.
fn is_pending(copying: &Option<MessageIdData>, letters: &VecDeque<Letter>) -> bool
    ensures { result ≡ (is_some (option_map message_id_values copying.now) || not (meaning.no_letters letters.now.items)) }
{
    copying.is_some() || has_letters(letters)
}

/// Entries are left that are to be copied.
#[tactic(auto, using(crate::proofs::Going::counts_no_letters))]
fn has_letters(letters: &VecDeque<Letter>) -> bool
    ensures { result ≡ not (meaning.no_letters letters.now.items) }
{
    !letters.is_empty()
}

/// An entry is acknowledged only where a subscription is live.
fn only_if(is_live: bool, id: MessageIdData) -> Option<MessageIdData>
    ensures { option_map message_id_values result ≡ meaning.only_if is_live (Some (message_id_values id)) }
{
    if is_live { Some(id) } else { None }
}

/// When the first check is due.
fn first_check(delay: Option<u64>, clock: u64) -> Option<u64>
    ensures { result ≡ first_check delay clock }
{
    match delay {
        Some(_) => Some(clock.saturating_add(PAUSE)),
        None => None,
    }
}

/// When a check is due behind one at this moment.
fn next_check(clock: u64, due: Option<u64>) -> Option<u64>
    ensures { result ≡ next_check clock due }
{
    match due {
        Some(_) => Some(clock.saturating_add(PAUSE)),
        None => None,
    }
}

/// When what is placed now is to be asked for again.
fn due_at(delay: Option<u64>, clock: u64) -> Option<u64>
    ensures { result ≡ due_at delay clock }
{
    match delay {
        Some(delay) => Some(clock.saturating_add(delay)),
        None => None,
    }
}

/// Where no items are left, their memory is given back.
fn let_items_go(alloc: Global, items: &mut VecDeque<FrameItem>)
    ensures { items.new.items ≡ items.old.items }
{
    if items.is_empty() {
        *items = VecDeque::new(alloc);
    }
}

/// Where no entries are left that are to be copied, their memory is given back.
fn let_letters_go(alloc: Global, letters: &mut VecDeque<Letter>)
    ensures { letters.new.items ≡ letters.old.items }
{
    if letters.is_empty() {
        *letters = VecDeque::new(alloc);
    }
}

/// Where no frames are left, their memory is given back.
fn let_frames_go(alloc: Global, frames: &mut VecDeque<Frame>)
    ensures { frames.new.items ≡ frames.old.items }
{
    if frames.is_empty() {
        *frames = VecDeque::new(alloc);
    }
}

/// Each item of the frame that is begun is placed.
#[tactic(auto, using(crate::proofs::Going::counts_none))]
fn is_placed(rest: &VecDeque<FrameItem>) -> bool
    ensures { result ≡ meaning.no_items rest.now.items }
{
    rest.is_empty()
}

/// Items are placed while fewer than this are unread, and are to be asked for again at this moment.
#[tactic(auto, using(crate::proofs::Placing::placed_more, crate::proofs::Placing::left_more, crate::proofs::Placing::kept_more))]
fn place(
    unread: &mut VecDeque<FrameItem>,
    rest: &mut VecDeque<FrameItem>,
    kept: &mut KeptIds,
    queue: usize,
    due: Option<u64>,
) -> Result<(), NoMemory>
    ensures unread { OnOk result (unread.new.items ≡ unread.old.items ++ take (queue - length unread.old.items) rest.old.items) }
    ensures rest { OnOk result (rest.new.items ≡ drop (queue - length unread.old.items) rest.old.items) }
    ensures kept { OnOk result (kept.new ≡ keep_all due (take (queue - length unread.old.items) rest.old.items) kept.old) }
{
    'items: while unread.len() < queue {
        match rest.pop_front() {
            Some(item) => place_one(unread, kept, due, item)?,
            None => return Ok(()),
        }
    }
    Ok(())
}

/// An item is placed, and is to be asked for again at this moment.
fn place_one(
    unread: &mut VecDeque<FrameItem>,
    kept: &mut KeptIds,
    due: Option<u64>,
    item: FrameItem,
) -> Result<(), NoMemory>
    ensures unread { OnOk result (unread.new.items ≡ unread.old.items ++ item ∷ []) }
    ensures kept { OnOk result (kept.new ≡ keep_item due item kept.old) }
{
    if let Some(due) = due {
        keep(kept, due, &item)?;
    }
    unread.push_back(item)?;
    Ok(())
}

/// The id of an item is kept until this moment. An error has none.
fn keep(kept: &mut KeptIds, due: u64, item: &FrameItem) -> Result<(), NoMemory>
    ensures { OnOk result (kept.new ≡ keep_item (Some due) item.now kept.old) }
{
    match item.get() {
        Item::Message { id, .. } => kept.keep(id, due),
        Item::Failure(_) => Ok(()),
    }
}
