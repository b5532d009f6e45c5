//! Addresses: what runs for each, and who waits for that.

ghost use Rattle.std.specs.Prelude.{◌≡◌, ◌==◌, ◌++◌, ℕ, List, None, OnOk, IfOk, bytes_eq, map, string_bytes, if◌then◌else◌};
ghost use Rattle.std.specs.Option.{option_map};
ghost use Rattle.pulsar_addresses.specs.Address.{address_key};
ghost use Rattle.pulsar_links.specs.Kept.{addresses_of, base_at, base_of, follows_at, pause_at};
ghost use Rattle.pulsar_links.specs.Links.{Becomes};
ghost use Rattle.pulsar_calls.specs.Notices.{notice};
ghost use Rattle.pulsar_links.specs.LinkRules.{failed, failed_at, failed_over, failed_so, fails_so, served_by, stopped_at};
ghost use Rattle.pulsar_links.specs.Seats.{base_dialed, base_over, base_turned, base_waiting, is_for, is_retryable, may_retry, nobody, pause_put};

use pulsar_addresses::content::Address;
use pulsar_calls::act::{End, Notice, Outcome, Who};
use pulsar_calls::who::is_same;
use pulsar_session::series::{is_followed, is_passing};
use pulsar_wire::error::{IoKind, NoMemory};
use std::alloc::Global;
use std::collections::BTreeMap;

/// What runs for an address: nobody serves it; an attempt to connect runs, this link, behind so many retries of a series that this one
/// started; an attempt is to follow that of this link, which failed; or a ready link serves.
#[derive(Clone, Copy)]
pub enum Series {
    Nobody,
    Runs {
        starter: Who,
        retries: u32,
        link: u64,
    },
    Pauses {
        link: u64,
    },
    Serves {
        link: u64,
    },
}

/// What runs for an address, and who waits for that, in the order of their asking.
pub struct Base {
    pub series: Series,
    pub waiting: Vec<Who>,
}

impl Drop for Base {
    fn drop(self) {
        let Base {
            series: _,
            waiting: _,
        } = self;
    }
}

/// An attempt that is to follow: its address, who started the series, and the retries so far.
#[derive(Drop)]
pub struct Pause {
    pub address: Address,
    pub starter: Who,
    pub retries: u32,
}

/// The addresses for which something runs, by key, and the attempts that are to follow, by the link whose attempt failed. Nothing is
/// kept of an address for which nothing runs.
pub struct Addresses {
    pub alloc: Global,
    pub bases: BTreeMap<String, Base>,
    pub pauses: BTreeMap<u64, Pause>,
}

impl Drop for Addresses {
    fn drop(self) {
        let Addresses {
            alloc: _,
            bases: _,
            pauses: _,
        } = self;
    }
}

impl Addresses {
    /// Nothing runs for any address.
    pub fn new(alloc: Global) -> Addresses
        ensures bases { (key : List ℕ) → base_at result.bases key ≡ nobody }
        ensures pauses { (l : ℕ) → pause_at result.pauses l ≡ None }
    {
        Addresses {
            alloc,
            bases: BTreeMap::new(alloc),
            pauses: BTreeMap::new(alloc),
        }
    }

    /// What runs for an address.
    pub fn series(&self, address: &Address) -> Result<Series, NoMemory>
        ensures { IfOk result (λ s. s ≡ (base_at self.now.bases (address_key address.now)).series) }
    {
        let key = address.key(self.alloc)?;
        match self.bases.get(key.as_str()) {
            Some(base) => Ok(base.series),
            None => Ok(Series::Nobody),
        }
    }

    /// One waits for an address.
    pub fn wait(&mut self, address: &Address, who: Who) -> Result<(), NoMemory>
        ensures bases { OnOk result ((key : List ℕ) → base_at self.new.bases key
            ≡ (if bytes_eq (address_key address.now) key then base_waiting who (base_at self.old.bases key) else base_at self.old.bases key)) }
        ensures pauses { OnOk result (self.new.pauses ≡ self.old.pauses) }
    {
        let key = address.key(self.alloc)?;
        let mut base = take(&mut self.bases, self.alloc, &key);
        base.waiting.push(who)?;
        put(&mut self.bases, key, base)?;
        Ok(())
    }

    /// An attempt begins, this link.
    pub fn dial(
        &mut self,
        address: &Address,
        starter: Who,
        retries: u32,
        link: u64,
    ) -> Result<(), NoMemory>
        ensures bases { OnOk result ((key : List ℕ) → base_at self.new.bases key
            ≡ base_dialed link address.now starter retries key (base_at self.old.bases key)) }
        ensures pauses { OnOk result (self.new.pauses ≡ self.old.pauses) }
    {
        let key = address.key(self.alloc)?;
        let mut base = take(&mut self.bases, self.alloc, &key);
        base.series = Series::Runs {
            starter,
            retries,
            link,
        };
        put(&mut self.bases, key, base)?;
        Ok(())
    }

    /// A link of an address is ready: those who wait are served by it.
    pub fn ready(
        &mut self,
        address: &Address,
        link: u64,
        notices: &mut Vec<Notice>,
    ) -> Result<(), NoMemory>
        ensures notices { OnOk result (notices.new.items ≡ notices.old.items
            ++ served_by link Becomes (base_at self.old.bases (address_key address.now)).waiting) }
        ensures bases { OnOk result ((key : List ℕ) → base_at self.new.bases key
            ≡ (if bytes_eq (address_key address.now) key then base_turned link Becomes None
            (base_at self.old.bases key) else base_at self.old.bases key)) }
        ensures pauses { OnOk result (self.new.pauses ≡ self.old.pauses) }
    {
        let key = address.key(self.alloc)?;
        let base = take(&mut self.bases, self.alloc, &key);
        serve_all(&base.waiting, link, notices)?;
        let base = Base {
            series: Series::Serves { link },
            waiting: Vec::new(self.alloc),
        };
        put(&mut self.bases, key, base)?;
        Ok(())
    }

    /// A link of an address has ended: the retries so far where another attempt is to follow. Else those who wait are told why.
    pub fn end(
        &mut self,
        address: Address,
        link: u64,
        end: &End,
        most: u32,
        notices: &mut Vec<Notice>,
    ) -> Result<Option<u32>, NoMemory>
        ensures again { IfOk result (λ r. r ≡ option_map (λ w. w.1) (may_retry most end.now (base_at self.old.bases (address_key address)).series)) }
        ensures notices { OnOk result (notices.new.items ≡ notices.old.items ++ failed_over end.now (follows_at most end.now address self.old.bases)
            (base_at self.old.bases (address_key address))) }
        ensures bases { OnOk result ((key : List ℕ) → base_at self.new.bases key
            ≡ (if bytes_eq (address_key address) key then base_over link (follows_at most end.now address self.old.bases)
            (base_at self.old.bases key) else base_at self.old.bases key)) }
        ensures pauses { OnOk result ((l : ℕ) → pause_at self.new.pauses l ≡ pause_put (follows_at most end.now address self.old.bases) link l
            (pause_at self.old.pauses l)) }
    {
        let key = address.key(self.alloc)?;
        let mut base = take(&mut self.bases, self.alloc, &key);
        let Some((starter, retries)) = again(base.series, end, most) else {
            fail_all(&base, end, notices)?;
            return Ok(None);
        };
        base.series = Series::Pauses { link };
        put(&mut self.bases, key, base)?;
        self.pauses.insert(
            link,
            Pause {
                address,
                starter,
                retries,
            },
        )?;
        Ok(Some(retries))
    }

    /// Takes out the attempt that is to follow that of a link.
    pub fn take_pause(&mut self, link: u64) -> Option<Pause>
        ensures pause { result ≡ pause_at self.old.pauses link }
        ensures left { (l : ℕ) → pause_at self.new.pauses l ≡ (if l == link then None else pause_at self.old.pauses l) }
        ensures bases { self.new.bases ≡ self.old.bases }
    {
        self.pauses.remove(&link)
    }

    /// With the stop no attempt follows that of a link: those who wait for it are told so.
    pub fn stop(&self, link: u64, notices: &mut Vec<Notice>) -> Result<(), NoMemory>
        ensures { OnOk result (notices.new.items ≡ notices.old.items ++ stopped_at (addresses_of self.now) (pause_at self.now.pauses link)) }
    {
        let Some(pause) = self.pauses.get(&link) else {
            return Ok(());
        };
        let key = pause.address.key(self.alloc)?;
        stop_at(&self.bases, &key, notices)
    }

    /// Nobody waits for the attempt that was to follow that of a link.
    pub fn forget(&mut self, link: u64) -> Result<(), NoMemory>
        ensures bases { OnOk result ((key : List ℕ) → base_at self.new.bases key
            ≡ (if is_for key (pause_at self.old.pauses link) then nobody else base_at self.old.bases key)) }
        ensures pauses { OnOk result (self.new.pauses ≡ self.old.pauses) }
    {
        let Some(pause) = self.pauses.get(&link) else {
            return Ok(());
        };
        let key = pause.address.key(self.alloc)?;
        drop(take(&mut self.bases, self.alloc, &key));
        Ok(())
    }

    /// No attempt is to follow.
    pub fn forget_pauses(&mut self)
        ensures pauses { (l : ℕ) → pause_at self.new.pauses l ≡ None }
        ensures bases { self.new.bases ≡ self.old.bases }
    {
        self.pauses = BTreeMap::new(self.alloc);
    }
}

/// Those who wait for the address of a key are told that the client is stopped.
fn stop_at(
    bases: &BTreeMap<String, Base>,
    key: &str,
    notices: &mut Vec<Notice>,
) -> Result<(), NoMemory>
    ensures { OnOk result (notices.new.items ≡ notices.old.items ++ map (λ who. notice who Outcome.Stopped) (base_at bases.now key.now).waiting) }
{
    match bases.get(key) {
        Some(base) => stop_all(&base.waiting, notices),
        None => Ok(()),
    }
}

/// What runs for the address of a key is put there.
#[tactic(auto, using(std::proofs::lemmas::Map::Text::text_keys))]
fn put(bases: &mut BTreeMap<String, Base>, key: String, base: Base) -> Result<(), NoMemory>
    ensures { OnOk result ((k : List ℕ) → base_at bases.new k ≡ (if bytes_eq (string_bytes key) k then base_of base else base_at bases.old k)) }
{
    drop(bases.insert(key, base)?);
    Ok(())
}

/// Takes out what runs for the address of a key.
#[tactic(auto, using(std::proofs::lemmas::Map::Text::text_keys))]
fn take(bases: &mut BTreeMap<String, Base>, alloc: Global, key: &str) -> Base
    ensures base { base_of result ≡ base_at bases.old key.now }
    ensures left { (k : List ℕ) → base_at bases.new k ≡ (if bytes_eq key.now k then nobody else base_at bases.old k) }
{
    match bases.remove(key) {
        Some(base) => base,
        None => Base {
            series: Series::Nobody,
            waiting: Vec::new(alloc),
        },
    }
}

/// Who started the series, and the retries so far, where another attempt is to follow one that ended so.
fn again(series: Series, end: &End, most: u32) -> Option<(Who, u32)>
    ensures { result ≡ may_retry most end.now series }
{
    match series {
        Series::Runs {
            starter,
            retries,
            link: _,
        } if is_followed(most, retries, is_retryable(end)) => Some((starter, retries)),
        Series::Nobody | Series::Runs { .. } | Series::Pauses { .. } | Series::Serves { .. } =>
            None,
    }
}

/// An attempt that ended so may go well another time.
fn is_retryable(end: &End) -> bool
    ensures { result ≡ is_retryable end.now }
{
    match end {
        End::Unopened(kind) => is_passing(*kind),
        End::Overdue { .. } => true,
        End::Lost | End::Broken(_) | End::Idles | End::Stops => false,
    }
}

/// All who wait are served by this link.
fn serve_all(waiting: &[Who], link: u64, notices: &mut Vec<Notice>) -> Result<(), NoMemory>
    ensures { OnOk result (notices.new.items ≡ notices.old.items ++ map (λ who. notice who (Outcome.GotLink link)) waiting.now) }
{
    for who in waiting {
        notices.push(Notice {
            who: *who,
            outcome: Outcome::GotLink(link),
        })?;
    }
    Ok(())
}

/// All who wait are told that the client is stopped.
fn stop_all(waiting: &[Who], notices: &mut Vec<Notice>) -> Result<(), NoMemory>
    ensures { OnOk result (notices.new.items ≡ notices.old.items ++ map (λ who. notice who Outcome.Stopped) waiting.now) }
{
    for who in waiting {
        notices.push(Notice {
            who: *who,
            outcome: Outcome::Stopped,
        })?;
    }
    Ok(())
}

/// What one who waits is told of the end of an attempt.
fn fails_so(end: &End, is_starter: bool) -> Outcome
    ensures { result ≡ fails_so end.now is_starter }
{
    match end {
        End::Unopened(kind) => failed_so(*kind, is_starter),
        End::Overdue { .. } => failed_so(IoKind::TimedOut, is_starter),
        End::Lost | End::Broken(_) | End::Idles => failed_so(IoKind::Other, is_starter),
        End::Stops => Outcome::Stopped,
    }
}

/// The one that started it is told why it failed.
fn failed_so(kind: IoKind, is_starter: bool) -> Outcome
    ensures { result ≡ failed_so kind is_starter }
{
    if is_starter {
        Outcome::Failed(kind)
    } else {
        Outcome::Canceled
    }
}

/// Those who wait for an attempt that ended are told why.
fn fail_all(base: &Base, end: &End, notices: &mut Vec<Notice>) -> Result<(), NoMemory>
    ensures { OnOk result (notices.new.items ≡ notices.old.items ++ failed_at end.now base.now.series base.now.waiting.items) }
{
    match base.series {
        Series::Runs { starter, .. } => fail_each(&base.waiting, starter, end, notices),
        Series::Nobody | Series::Pauses { .. } | Series::Serves { .. } => Ok(()),
    }
}

fn fail_each(
    waiting: &[Who],
    starter: Who,
    end: &End,
    notices: &mut Vec<Notice>,
) -> Result<(), NoMemory>
    ensures { OnOk result (notices.new.items ≡ notices.old.items ++ map (failed end.now starter) waiting.now) }
{
    for who in waiting {
        notices.push(Notice {
            who: *who,
            outcome: fails_so(end, is_same(*who, starter)),
        })?;
    }
    Ok(())
}
