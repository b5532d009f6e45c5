//! What owns memory in the plans of producers. It is boxed, so that what carries it is small. Contracts see it by its content.

ghost use Rattle.std.specs.Prelude.{◌≡◌, [], ◌∷◌, ◌++◌, IfOk, MatchOption, OnOk, length, map};
ghost use Rattle.std.specs.Option.{option_map};
ghost use Rattle.pulsar_frame.specs.Batch.{entry_values};
ghost use Rattle.pulsar_messages.specs.Content.{message_content, producer_message_values, producer_options_values};
ghost use Rattle.pulsar_outgoing.specs.Batch.{batch_of, cut_report, entries_in, entry_of, member_of, reports};
ghost use Rattle.pulsar_messages.specs.Message.{with_version};
ghost use Rattle.pulsar_outgoing.specs.Storage.{is_batching, item_of, limits_of};
ghost use Rattle.pulsar_outgoing.specs.Storage.{ticket_of};

use crate::batch::{
    Fate, Member, Report, count, cut_reports, entry_of, members, message, reports, size_in_i32,
};
use crate::replies::Given;
use crate::storage::{BatchItem, Limits, push_tickets};
use pulsar_addresses::address::BrokerAddress;
use pulsar_addresses::content::{Address, Names, Text};
use pulsar_frame::batch::BatchedMessage;
use pulsar_messages::producer_message::{Message, ProducerMessage};
use pulsar_messages::producer_options::ProducerOptions;
use pulsar_wire::error::{NoMemory, Reason};
use std::alloc::Global;
use std::collections::VecDeque;
use std::marker::Model;

/// The version of a schema.
pub struct Version {
    bytes: Vec<u8>,
}

impl Drop for Version {
    fn drop(self) {
        let Version { bytes: _ } = self;
    }
}

impl Model for Version {
    ghost use Rattle.std.specs.Prelude.{ℕ, List};

    ghost Value = { List ℕ };

    ghost view = { λ v. v.bytes.items };
}

impl Version {
    /// These bytes.
    pub fn new(bytes: Vec<u8>) -> Version
        ensures { result ≡ bytes.items }
    {
        Version { bytes }
    }

    /// The same version once more.
    pub fn copy(&self) -> Result<Version, NoMemory>
        ensures { IfOk result (λ v. v ≡ self.now) }
    {
        let bytes = self.bytes.clone()?;
        Ok(Version { bytes })
    }

    /// The version as its bytes.
    pub fn into_inner(self) -> Vec<u8>
        ensures { result.items ≡ self }
    {
        let Version { bytes } = self;
        bytes
    }
}

/// A message that is to be sent, or several as a batch.
pub struct Outgoing {
    message: Box<ProducerMessage>,
}

impl Drop for Outgoing {
    fn drop(self) {
        let Outgoing { message: _ } = self;
    }
}

impl Model for Outgoing {
    ghost use Rattle.pulsar_messages.specs.Content.{ProducerMessageValues, producer_message_values};

    ghost Value = { ProducerMessageValues };

    ghost view = { λ o. producer_message_values o.message.value };
}

impl Outgoing {
    /// This message.
    pub fn new(alloc: Global, message: ProducerMessage) -> Result<Outgoing, NoMemory>
        ensures { IfOk result (λ o. o ≡ producer_message_values message) }
    {
        let message = Box::new(alloc, message)?;
        Ok(Outgoing { message })
    }

    /// What an application sends.
    pub fn of_message(alloc: Global, message: Message) -> Result<Outgoing, NoMemory>
        ensures { IfOk result (λ o. o ≡ message_content message) }
    {
        Outgoing::new(alloc, message.into())
    }

    /// The message with this schema version, where it has none.
    pub fn with_version(self, version: Option<Version>) -> Outgoing
        ensures { result ≡ with_version version self }
    {
        let Outgoing { mut message } = self;
        if message.schema_version.is_none() {
            message.schema_version = into_bytes(version);
        }
        Outgoing { message }
    }

    /// The same message once more.
    pub fn copy(&self, alloc: Global) -> Result<Outgoing, NoMemory>
        ensures { IfOk result (λ o. o ≡ self.now) }
    {
        Outgoing::new(alloc, self.message.copy()?)
    }

    /// The message without its box.
    pub fn into_inner(self) -> ProducerMessage
        ensures { producer_message_values result ≡ self }
    {
        let Outgoing { message } = self;
        Box::into_inner(message)
    }
}

/// How a producer is made, and how it sends.
pub struct Settings {
    options: Box<ProducerOptions>,
}

impl Drop for Settings {
    fn drop(self) {
        let Settings { options: _ } = self;
    }
}

impl Model for Settings {
    ghost use Rattle.pulsar_messages.specs.Content.{ProducerOptionsValues, producer_options_values};

    ghost Value = { ProducerOptionsValues };

    ghost view = { λ s. producer_options_values s.options.value };
}

impl Settings {
    /// These options.
    pub fn new(alloc: Global, options: ProducerOptions) -> Result<Settings, NoMemory>
        ensures { IfOk result (λ s. s ≡ producer_options_values options) }
    {
        let options = Box::new(alloc, options)?;
        Ok(Settings { options })
    }

    /// The options to be read.
    pub fn options(&self) -> &ProducerOptions
        ensures { producer_options_values result.now ≡ self.now }
    {
        &self.options
    }

    /// A copy.
    pub fn copy(&self, alloc: Global) -> Result<Settings, NoMemory>
        ensures { IfOk result (λ s. s ≡ self.now) }
    {
        Settings::new(alloc, self.options.copy()?)
    }

    /// It sends messages as batches: a batch may have more than one, or where that is not said, how many bytes it has is, or how long it
    /// waits.
    pub fn is_batching(&self) -> bool
        ensures { result ≡ is_batching self.now }
    {
        match self.options.batch_size {
            Some(most) => most > 1,
            None => self.options.batch_byte_size.is_some() || self.options.batch_timeout.is_some(),
        }
    }

    /// How much a batch has.
    pub fn limits(&self) -> Limits
        ensures { result ≡ limits_of self.now }
    {
        Limits {
            max_size: self.options.batch_size,
            max_byte_size: self.options.batch_byte_size,
        }
    }

    /// A batch is sent so many milliseconds after its first message.
    pub fn batch_timeout(&self) -> Option<u64>
        ensures { result ≡ self.now.batch_timeout }
    {
        self.options.batch_timeout
    }
}

/// Numbers of topic producers that are left, in order.
pub struct Numbers {
    all: VecDeque<u64>,
}

impl Drop for Numbers {
    fn drop(self) {
        let Numbers { all: _ } = self;
    }
}

impl Model for Numbers {
    ghost use Rattle.std.specs.Prelude.{ℕ, List};

    ghost Value = { List ℕ };

    ghost view = { λ n. n.all.items };
}

impl Numbers {
    /// None.
    pub fn new(alloc: Global) -> Numbers
        ensures { result ≡ [] }
    {
        Numbers {
            all: VecDeque::new(alloc),
        }
    }

    /// One more behind these.
    pub fn with(self, number: u64) -> Result<Numbers, NoMemory>
        ensures { IfOk result (λ n. n ≡ self ++ number ∷ []) }
    {
        let Numbers { mut all } = self;
        all.push_back(number)?;
        Ok(Numbers { all })
    }

    /// The first, which is left no longer.
    pub fn next(&mut self) -> Option<u64>
        ensures { MatchOption result (self.old ≡ []) (λ n. self.old ≡ n ∷ self.new) }
    {
        self.all.pop_front()
    }
}

/// Names of a topic, each with the broker that serves it, for which no producer is made yet.
pub struct Left {
    names: VecDeque<(String, BrokerAddress)>,
}

impl Drop for Left {
    fn drop(self) {
        let Left { names: _ } = self;
    }
}

impl Model for Left {
    ghost use Rattle.std.specs.Prelude.{List, map};
    ghost use Rattle.pulsar_addresses.specs.Address.{Named, named};

    ghost Value = { List Named };

    ghost view = { λ l. map named l.names.items };
}

impl Left {
    /// These names.
    pub fn new(names: Names) -> Left
        ensures { result ≡ names }
    {
        Left {
            names: VecDeque::from_vec(names.into_inner()),
        }
    }

    /// The first name, which is left no longer.
    pub fn next(&mut self, alloc: Global) -> Result<Option<(Text, Address)>, NoMemory>
        ensures { IfOk result (λ first. MatchOption first (self.old ≡ [])
            (λ f. self.old ≡ record { name = f.0; place = f.1 } ∷ self.new)) }
    {
        match self.names.pop_front() {
            Some((name, address)) => Ok(Some((Text::new(name), Address::new(alloc, address)?))),
            None => Ok(None),
        }
    }
}

/// A topic producer as it is made: its topic, its number, its link, and what its broker says of it.
#[derive(Drop)]
pub struct Built {
    pub topic: Text,
    pub number: u64,
    pub link: u64,
    pub given: Given,
}

/// Topic producers that are made, in order.
pub struct Parts {
    all: VecDeque<Built>,
}

impl Drop for Parts {
    fn drop(self) {
        let Parts { all: _ } = self;
    }
}

impl Model for Parts {
    ghost use Rattle.std.specs.Prelude.{List};
    ghost use Rattle.pulsar_outgoing.specs.declared.content.Built.{Built};

    ghost Value = { List Built };

    ghost view = { λ p. p.all.items };
}

impl Parts {
    /// None.
    pub fn new(alloc: Global) -> Parts
        ensures { result ≡ [] }
    {
        Parts {
            all: VecDeque::new(alloc),
        }
    }

    /// One more behind these.
    pub fn with(self, part: Built) -> Result<Parts, NoMemory>
        ensures { IfOk result (λ p. p ≡ self ++ part ∷ []) }
    {
        let Parts { mut all } = self;
        all.push_back(part)?;
        Ok(Parts { all })
    }

    /// The first, which is taken out.
    pub fn next(&mut self) -> Option<Built>
        ensures { MatchOption result (self.old ≡ []) (λ p. self.old ≡ p ∷ self.new) }
    {
        self.all.pop_front()
    }

    /// All of them to be read.
    pub fn all(&self) -> &VecDeque<Built>
        ensures { result.now.items ≡ self.now }
    {
        &self.all
    }

    /// All of them.
    pub fn into_inner(self) -> VecDeque<Built>
        ensures { result.items ≡ self }
    {
        let Parts { all } = self;
        all
    }
}

fn into_bytes(version: Option<Version>) -> Option<Vec<u8>>
    ensures { option_map (λ v. v.items) result ≡ version }
{
    match version {
        Some(version) => Some(version.into_inner()),
        None => None,
    }
}

/// The items of a batch, in order.
pub struct Batch {
    items: Vec<BatchItem>,
}

impl Drop for Batch {
    fn drop(self) {
        let Batch { items: _ } = self;
    }
}

impl Model for Batch {
    ghost use Rattle.std.specs.Prelude.{List, map};
    ghost use Rattle.pulsar_outgoing.specs.Storage.{Item, item_of};

    ghost Value = { List Item };

    ghost view = { λ b. map item_of b.items.items };
}

impl Batch {
    /// These items.
    pub fn new(items: Vec<BatchItem>) -> Batch
        ensures { result ≡ map item_of items.items }
    {
        Batch { items }
    }

    /// How many messages it has.
    pub fn count(&self) -> usize
        ensures { result ≡ length (entries_in self.now) }
    {
        count(&self.items)
    }

    /// Those that are told what becomes of it.
    pub fn members(&self) -> Result<Members, NoMemory>
        ensures { IfOk result (λ m. m ≡ map member_of self.now) }
    {
        let all = members(*self.items.allocator(), &self.items)?;
        Ok(Members { all })
    }

    /// Its message, or why that can't be written.
    pub fn message(&self, alloc: Global) -> Result<Result<Outgoing, Reason>, NoMemory>
        ensures { IfOk result (λ m. m ≡ batch_of (entries_in self.now)) }
    {
        message(alloc, &self.items)
    }

    /// The tickets of those that wait for it, behind others.
    pub fn push_tickets(&self, tickets: &mut Vec<u64>) -> Result<(), NoMemory>
        ensures { OnOk result (tickets.new.items ≡ tickets.old.items ++ map ticket_of self.now) }
    {
        push_tickets(&self.items, tickets)
    }
}

/// Those that are told what becomes of a batch, in order.
pub struct Members {
    all: Vec<Member>,
}

impl Drop for Members {
    fn drop(self) {
        let Members { all: _ } = self;
    }
}

impl Model for Members {
    ghost use Rattle.std.specs.Prelude.{List};
    ghost use Rattle.pulsar_outgoing.specs.declared.batch.Member.{Member};

    ghost Value = { List Member };

    ghost view = { λ m. m.all.items };
}

impl Members {
    /// What each of them is told of a batch of so many messages.
    pub fn reports(&self, alloc: Global, count: usize, fate: &Fate) -> Result<Reports, NoMemory>
        ensures { IfOk result (λ r. r ≡ reports count fate.now self.now) }
    {
        let all = reports(alloc, &self.all, count, fate)?;
        Ok(Reports { all })
    }

    /// What each of them is told where the client is stopped while the receipt of the batch is waited for.
    pub fn cut(&self, alloc: Global) -> Result<Reports, NoMemory>
        ensures { IfOk result (λ r. r ≡ map cut_report self.now) }
    {
        let all = cut_reports(alloc, &self.all)?;
        Ok(Reports { all })
    }
}

/// What those of a batch are told, in order.
pub struct Reports {
    all: VecDeque<Report>,
}

impl Drop for Reports {
    fn drop(self) {
        let Reports { all: _ } = self;
    }
}

impl Model for Reports {
    ghost use Rattle.std.specs.Prelude.{List};
    ghost use Rattle.std.specs.Coded.{codes};
    ghost use Rattle.pulsar_addresses.specs.contracts.content.Refusal as refusal;
    ghost use Rattle.pulsar_outgoing.specs.declared.batch.Report.{Report};

    ghost Value = { List Report };

    ghost coded = { Prim.hlevel (codes, refusal.the_row.coded) };

    ghost view = { λ r. r.all.items };
}

impl Reports {
    /// The first, which is taken out.
    pub fn next(&mut self) -> Option<Report>
        ensures { MatchOption result (self.old ≡ []) (λ r. self.old ≡ r ∷ self.new) }
    {
        self.all.pop_front()
    }

    /// All of them.
    pub fn into_inner(self) -> VecDeque<Report>
        ensures { result.items ≡ self }
    {
        let Reports { all } = self;
        all
    }
}

/// A message as an entry of a batch.
pub struct Entry {
    message: Box<BatchedMessage>,
}

impl Drop for Entry {
    fn drop(self) {
        let Entry { message: _ } = self;
    }
}

impl Model for Entry {
    ghost use Rattle.pulsar_frame.specs.Batch.{EntryValues, entry_values};

    ghost Value = { EntryValues };

    ghost view = { λ e. entry_values e.message.value };
}

impl Entry {
    /// What an application sends. There is none exactly where an i32 does not hold the size of the payload. What the message has is moved,
    /// and not copied.
    pub fn of_message(alloc: Global, message: Message) -> Result<Option<Entry>, NoMemory>
        ensures { IfOk result (λ e. e ≡ entry_of (message_content message)) }
    {
        match size_in_i32(message.payload.len()) {
            Some(size) => {
                let message = Box::new(alloc, entry_of(alloc, size, message)?)?;
                Ok(Some(Entry { message }))
            }
            None => Ok(None),
        }
    }

    /// The entry without its box.
    pub fn into_inner(self) -> BatchedMessage
        ensures { entry_values result ≡ self }
    {
        let Entry { message } = self;
        Box::into_inner(message)
    }
}
