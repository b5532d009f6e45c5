//! Which connection serves an address.

ghost use Rattle.std.specs.Prelude.{◌≡◌, ◌<◌, ◌-◌, ◌^◌, ℕ, Some, None, IfOk, IfErr, OnOk, IsTrue, string_bytes};
ghost use Rattle.std.specs.BTreeMap.{get};
ghost use Rattle.std.specs.Option.{option_copied, option_copied_mut, option_map};
ghost use Rattle.std.specs.Ordering.{nat_cmp};
ghost use Rattle.pulsar_wire.specs.Failures.{fault};
ghost use Rattle.pulsar_session.specs.Link as session;
ghost use Rattle.pulsar_addresses.specs.Address.{base_in, place};
ghost use Rattle.pulsar_discovery.specs.Manager as meaning;
ghost use Rattle.pulsar_discovery.specs.Manager.{Is, OnGot, known};

use crate::addresses::{Addresses, Phase, set};
use pulsar_addresses::address::BrokerAddress;
use pulsar_addresses::content::Address;
use pulsar_addresses::options::{ConnectionRetryOptions, OperationRetryOptions};
use pulsar_addresses::random::connection_id;
use pulsar_messages::Authentication;
use pulsar_searches::turn::Ways;
use pulsar_session::Connection;
use pulsar_session::series::{delay, is_followed, is_retryable};
use pulsar_session::service::{base_in, copy_auth};
use pulsar_session::states::Stage;
use pulsar_wire::error::{ConnectionError, NoMemory};
use std::alloc::Global;
use std::collections::BTreeMap;
use url::Url;

/// What one who wants a connection gets.
#[derive(Drop)]
pub enum Got {
    /// The connection of this number, which is ready.
    Ready(u64),
    /// An attempt of this number, which is started for it.
    Started(u64),
    /// Attempts run, and their end is to be waited for.
    Waiting,
    Refused(ConnectionError),
}

/// What a connection has become.
#[derive(Clone, Copy, Debug, PartialEq, Eq)]
pub enum Seen {
    /// What it was.
    Same,
    /// It is ready.
    Ready,
    /// Its attempt failed, and the next one is to start after this delay.
    Retry(u64),
    /// Its attempt failed, and no other follows.
    Failed,
    /// It was ready, and has ended.
    Ended,
}

/// How connections are made.
#[derive(Drop)]
pub struct Terms {
    pub base: Address,
    pub auth: Option<Authentication>,
    pub connection: ConnectionRetryOptions,
    pub operation: OperationRetryOptions,
    pub outbound: usize,
    pub seed: u64,
    pub first_number: u64,
}

/// The connections of a client by their addresses. After want of memory nothing is said of it.
#[derive(Drop)]
pub struct ConnectionManager {
    alloc: Global,
    terms: Terms,
    /// How many connections were started.
    links: u64,
    addresses: Addresses,
    /// The connections that have not ended.
    connections: BTreeMap<u64, Connection>,
}

impl ConnectionManager {
    ghost use Rattle.std.specs.Borrow.{sem};
    ghost use Rattle.pulsar_discovery.specs.Lending.{LendsLink};

    /// A manager without a connection, for the service of this URL.
    pub fn new(
        alloc: Global,
        url: &str,
        auth: Option<Authentication>,
        connection: ConnectionRetryOptions,
        operation: OperationRetryOptions,
        outbound: usize,
        seed: u64,
        first_number: u64,
    ) -> Result<ConnectionManager, ConnectionError>
        ensures base { IfOk result (λ m. base_in url.now ≡ Some m.terms.base) }
        ensures known { IfOk result (λ m. Is (known m) (meaning.fresh (record {
          base = m.terms.base;
          auth = auth;
          connection = connection;
          operation = operation;
          outbound = outbound;
          seed = seed;
          first_number = first_number;
        }))) }
        ensures refused { IfErr result (λ e. meaning.IsNoAddress e (base_in url.now)) }
    {
        let Some(base) = base_in(alloc, url)? else {
            return Err(ConnectionError::NotFound);
        };
        let terms = Terms {
            base,
            auth,
            connection,
            operation,
            outbound,
            seed,
            first_number,
        };
        Ok(ConnectionManager {
            alloc,
            terms,
            links: 0,
            addresses: Addresses::new(alloc),
            connections: BTreeMap::new(alloc),
        })
    }

    /// The URL of the service.
    pub fn url(&self) -> &Url
        ensures { result.now ≡ self.now.terms.base.url }
    {
        self.terms.base.url()
    }

    /// The address of the service.
    pub fn get_base_address(&self) -> Result<BrokerAddress, NoMemory>
        ensures { IfOk result (λ a. place a ≡ self.now.terms.base) }
    {
        let address = self.terms.base.copy(self.alloc)?;
        Ok(address.into_inner())
    }

    /// How brokers are looked for by way of the service.
    pub fn ways(&self) -> Result<Ways, NoMemory>
        ensures { IfOk result (λ w. w ≡ meaning.ways_of self.now.terms) }
    {
        Ok(Ways {
            base: self.terms.base.copy(self.alloc)?,
            retry_delay: self.terms.operation.retry_delay,
            max_retries: self.terms.operation.max_retries,
        })
    }

    /// The connection of the service.
    pub fn get_base_connection(&mut self, now: u64) -> Got
        ensures got { OnGot result (meaning.got_values result ≡ meaning.gets self.old.terms.base (known self.old)) }
        ensures known { OnGot result (Is (known self.new) (meaning.after_get self.old.terms.base now (known self.old))) }
    {
        match self.terms.base.copy(self.alloc) {
            Ok(address) => self.get_or_want(address, now),
            Err(_) => Got::Refused(ConnectionError::NoMemory),
        }
    }

    /// The connection of an address: one that is ready, one that starts now, or the end of the attempts that run.
    pub fn get_connection(&mut self, address: &BrokerAddress, now: u64) -> Got
        ensures got { OnGot result (meaning.got_values result ≡ meaning.gets (place address.now) (known self.old)) }
        ensures known { OnGot result (Is (known self.new) (meaning.after_get (place address.now) now (known self.old))) }
    {
        match boxed(self.alloc, address) {
            Ok(address) => self.get_or_want(address, now),
            Err(_) => Got::Refused(ConnectionError::NoMemory),
        }
    }

    /// The same, where want of memory is a refusal.
    fn get_or_want(&mut self, address: Address, now: u64) -> Got
        ensures got { OnGot result (meaning.got_values result ≡ meaning.gets address (known self.old)) }
        ensures known { OnGot result (Is (known self.new) (meaning.after_get address now (known self.old))) }
    {
        match self.get(address, now) {
            Ok(got) => got,
            Err(_) => Got::Refused(ConnectionError::NoMemory),
        }
    }

    fn get(&mut self, address: Address, now: u64) -> Result<Got, NoMemory>
        ensures got { IfOk result (λ g. meaning.got_values g ≡ meaning.gets address (known self.old)) }
        ensures known { OnOk result (Is (known self.new) (meaning.after_get address now (known self.old))) }
    {
        if !address.is_reachable() {
            return Ok(Got::Refused(ConnectionError::NotFound));
        }
        let standing = self.addresses.standing(&address)?;
        self.get_at(address, now, standing)
    }

    /// What one gets whose address has this series.
    fn get_at(
        &mut self,
        address: Address,
        now: u64,
        standing: Option<(u64, Phase)>,
    ) -> Result<Got, NoMemory>
        ensures got { IfOk result (λ g. meaning.got_values g ≡ meaning.got_by standing self.old.links) }
        ensures known { OnOk result (Is (known self.new) (meaning.after_got address now standing (known self.old))) }
    {
        match standing {
            None => self.begin(address, now),
            Some((link, phase)) => match phase {
                Phase::Runs { .. } | Phase::Pauses { .. } => Ok(Got::Waiting),
                Phase::Serves { .. } => {
                    let phase = Phase::Serves { got: now };
                    self.addresses.put(link, address, Some(phase))?;
                    Ok(Got::Ready(link))
                }
            },
        }
    }

    /// The first attempt of a series. Where all numbers of links are spent, that is want of memory.
    fn begin(&mut self, address: Address, now: u64) -> Result<Got, NoMemory>
        ensures got { IfOk result (λ g. meaning.got_values g ≡ meaning.got_by None self.old.links) }
        ensures known { OnOk result (Is (known self.new) (meaning.after_got address now None (known self.old))) }
    {
        if self.links == u64::MAX {
            return Err(NoMemory);
        }
        let link = self.start(address, 0, now)?;
        Ok(Got::Started(link))
    }

    /// One more attempt, behind so many retries.
    fn start(&mut self, address: Address, retries: u32, now: u64) -> Result<u64, NoMemory>
        requires { self.old.links < 2 ^ 64 - 1 }
        ensures link { IfOk result (λ l. l ≡ self.old.links) }
        ensures known { OnOk result (Is (known self.new) (meaning.starts address retries now (known self.old))) }
    {
        let link = self.links;
        let connection = dial(self.alloc, &self.terms, &address, link, now)?;
        self.addresses.begin(link, address, retries)?;
        set(&mut self.connections, link, Some(connection))?;
        self.links += 1;
        Ok(link)
    }

    /// A connection that has not ended. It is told its events by this loan.
    pub fn link(&mut self, link: u64) -> Option<&mut Connection>
        ensures* writes_back { sem 𝓛 (LendsLink self.entry link result) }
        ensures value { option_copied_mut result ≡ (known self.old).connection link }
    {
        self.connections.get_mut(&link)
    }

    /// What a connection has become. It is to be called after each event of the connection, and tells each change once.
    pub fn look(&mut self, link: u64, now: u64) -> Result<Seen, NoMemory>
        ensures seen { IfOk result (λ s. s ≡ meaning.looks link (known self.old)) }
        ensures known { OnOk result (Is (known self.new) (meaning.after_look link now (known self.old))) }
    {
        let seen = self.looks(link);
        self.settle(link, now, seen)?;
        Ok(seen)
    }

    fn looks(&self, link: u64) -> Seen
        ensures { result ≡ meaning.looks link (known self.now) }
    {
        match self.addresses.phase(link) {
            Some(phase) => match self.connections.get(&link) {
                Some(connection) => seen_by(&self.terms, link, phase, connection),
                None => Seen::Same,
            },
            None => Seen::Same,
        }
    }

    /// What became of a connection is kept.
    fn settle(&mut self, link: u64, now: u64, seen: Seen) -> Result<(), NoMemory>
        ensures { OnOk result (Is (known self.new) (meaning.after_seen link now ((known self.old).series.seat link) seen (known self.old))) }
    {
        let Some(seat) = self.addresses.take(link) else {
            return Ok(());
        };
        self.addresses
            .put(link, seat.address, phase_after(now, seat.phase, seen))?;
        clear(&mut self.connections, link, is_over(seen))?;
        Ok(())
    }

    /// The next attempt of the series of a connection is waited for: a retry was told, and no attempt was started since.
    pub fn is_pausing(&self, link: u64) -> bool
        ensures { result ≡ meaning.is_pausing ((known self.now).series.seat link) }
    {
        match self.addresses.phase(link) {
            Some(phase) => is_pause(phase),
            None => false,
        }
    }

    /// The next attempt of the series of a connection whose attempt failed, and its number. There is want of memory where no
    /// number is left.
    pub fn again(&mut self, link: u64, now: u64) -> Result<u64, NoMemory>
        requires { IsTrue (meaning.is_pausing ((known self.old).series.seat link)) }
        ensures link { IfOk result (λ l. l ≡ self.old.links) }
        ensures known { OnOk result (Is (known self.new) (meaning.after_again link now (known self.old))) }
    {
        if self.links == u64::MAX {
            return Err(NoMemory);
        }
        match self.addresses.take(link) {
            Some(seat) => {
                let retries = retries_of(seat.phase).saturating_add(1);
                let next = self.start(seat.address, retries, now)?;
                Ok(next)
            }
            None => Err(NoMemory),
        }
    }

    /// A connection is ready, and was not got for so long that it is to be ended where nothing uses it.
    pub fn idle(&self, link: u64, now: u64) -> bool
        ensures { result ≡ meaning.is_idle link now (known self.now) }
    {
        match self.addresses.phase(link) {
            Some(phase) => match self.connections.get(&link) {
                Some(connection) => is_idle(&self.terms, now, phase, connection),
                None => false,
            },
            None => false,
        }
    }
}

fn boxed(alloc: Global, address: &BrokerAddress) -> Result<Address, NoMemory>
    ensures { IfOk result (λ a. a ≡ place address.now) }
{
    Address::new(alloc, address.copy()?)
}

/// A connection that is started.
fn dial(
    alloc: Global,
    terms: &Terms,
    address: &Address,
    link: u64,
    now: u64,
) -> Result<Connection, NoMemory>
    ensures { IfOk result (λ c. c ≡ session.fresh (meaning.setup terms.now address.now link now)) }
{
    Connection::new(
        alloc,
        connection_id(terms.seed, link),
        address.url().clone()?,
        copy_auth(&terms.auth)?,
        address.behind()?,
        terms.connection.connection_timeout,
        terms.operation.operation_timeout,
        terms.outbound,
        terms.first_number,
        now,
    )
}

/// Nothing is kept of a connection that is over.
fn clear(connections: &mut BTreeMap<u64, Connection>, link: u64, over: bool) -> Result<(), NoMemory>
    ensures { OnOk result ((l : ℕ) → get nat_cmp connections.new l ≡ meaning.left_of link over (λ m. get nat_cmp connections.old m) l) }
{
    if over {
        set(connections, link, None)?;
    }
    Ok(())
}

/// What a connection has become whose series stands in this phase.
fn seen_by(terms: &Terms, link: u64, phase: Phase, connection: &Connection) -> Seen
    ensures { result ≡ meaning.seen_by terms.now link phase connection.now }
{
    match phase {
        Phase::Runs { retries } => match connection.stage() {
            Stage::Dialing | Stage::Handshaking => Seen::Same,
            Stage::Ready => Seen::Ready,
            Stage::Over => seen_failed(terms, link, retries, connection.error()),
        },
        Phase::Pauses { .. } => Seen::Same,
        Phase::Serves { .. } => match connection.stage() {
            Stage::Dialing | Stage::Handshaking | Stage::Ready => Seen::Same,
            Stage::Over => Seen::Ended,
        },
    }
}

/// What follows an attempt that failed so.
fn seen_failed(terms: &Terms, link: u64, retries: u32, error: Option<&ConnectionError>) -> Seen
    ensures { result ≡ meaning.seen_failed terms.now link retries (option_map fault (option_copied error.entry)) }
{
    if is_followed(terms.connection.max_retries, retries, is_retryable(error)) {
        Seen::Retry(delay(&terms.connection, terms.seed, link, retries))
    } else {
        Seen::Failed
    }
}

fn retries_of(phase: Phase) -> u32
    ensures { result ≡ meaning.retries_of phase }
{
    match phase {
        Phase::Runs { retries } | Phase::Pauses { retries } => retries,
        Phase::Serves { .. } => 0,
    }
}

fn is_pause(phase: Phase) -> bool
    ensures { result ≡ meaning.is_pause phase }
{
    match phase {
        Phase::Pauses { .. } => true,
        Phase::Runs { .. } | Phase::Serves { .. } => false,
    }
}

/// Where a series stands then, if it goes on.
fn phase_after(now: u64, phase: Phase, seen: Seen) -> Option<Phase>
    ensures { result ≡ meaning.phase_after now phase seen }
{
    match seen {
        Seen::Same => Some(phase),
        Seen::Ready => Some(Phase::Serves { got: now }),
        Seen::Retry(_) => Some(Phase::Pauses {
            retries: retries_of(phase),
        }),
        Seen::Failed | Seen::Ended => None,
    }
}

/// The connection itself has ended.
fn is_over(seen: Seen) -> bool
    ensures { result ≡ meaning.is_over seen }
{
    match seen {
        Seen::Same | Seen::Ready => false,
        Seen::Retry(_) | Seen::Failed | Seen::Ended => true,
    }
}

fn is_idle(terms: &Terms, now: u64, phase: Phase, connection: &Connection) -> bool
    ensures { result ≡ meaning.is_idle_by terms.now now phase connection.now }
{
    match connection.stage() {
        Stage::Ready => is_unused_since(terms, now, phase),
        Stage::Dialing | Stage::Handshaking | Stage::Over => false,
    }
}

fn is_unused_since(terms: &Terms, now: u64, phase: Phase) -> bool
    ensures { result ≡ meaning.is_unused_since terms.now now phase }
{
    match phase {
        Phase::Serves { got } => got.saturating_add(terms.connection.connection_max_idle) <= now,
        Phase::Runs { .. } | Phase::Pauses { .. } => false,
    }
}
