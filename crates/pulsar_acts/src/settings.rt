//! What the options of a client say of its run.

ghost use Rattle.std.specs.Prelude.{◌≡◌, IfOk};
ghost use Rattle.pulsar_session.specs.Link.{fresh};
ghost use Rattle.pulsar_acts.specs.Tables.{chosen_of};
ghost use Rattle.pulsar_acts.specs.View.{delay_with, setup, ways_of};

use pulsar_addresses::content::Address;
use pulsar_addresses::options::{ConnectionRetryOptions, OperationRetryOptions};
use pulsar_addresses::random::connection_id;
use pulsar_messages::Authentication;
use pulsar_searches::turn::Ways;
use pulsar_session::Connection;
use pulsar_session::series::delay;
use pulsar_session::service::copy_auth;
use pulsar_wire::error::NoMemory;
use std::alloc::Global;

/// What the options of a client say of its run.
pub struct Settings {
    /// The address of the service, where the options have one.
    pub base: Option<Address>,
    pub auth: Option<Authentication>,
    pub connection: ConnectionRetryOptions,
    pub operation: OperationRetryOptions,
    pub outbound: usize,
    pub seed: u64,
    pub first_number: u64,
    /// The time at which the client was made, in milliseconds since 1970.
    pub start: u64,
}

impl Drop for Settings {
    fn drop(self) {
        let Settings {
            base: _,
            auth: _,
            connection: _,
            operation: _,
            outbound: _,
            seed: _,
            first_number: _,
            start: _,
        } = self;
    }
}

impl Settings {
    /// The address of the service, where there is one.
    pub fn base(&self, alloc: Global) -> Result<Option<Address>, NoMemory>
        ensures { IfOk result (λ a. a ≡ self.now.base) }
    {
        match &self.base {
            Some(base) => Ok(Some(base.copy(alloc)?)),
            None => Ok(None),
        }
    }

    /// How the client looks for brokers, where it has an address.
    pub fn ways(&self, alloc: Global) -> Result<Option<Ways>, NoMemory>
        ensures { IfOk result (λ w. w ≡ ways_of (chosen_of self.now)) }
    {
        match &self.base {
            Some(base) => Ok(Some(Ways {
                base: base.copy(alloc)?,
                retry_delay: self.operation.retry_delay,
                max_retries: self.operation.max_retries,
            })),
            None => Ok(None),
        }
    }

    /// The connection of a link to an address, which is dialed now.
    pub fn connection(
        &self,
        alloc: Global,
        link: u64,
        now: u64,
        address: &Address,
    ) -> Result<Connection, NoMemory>
        ensures { IfOk result (λ c. c ≡ fresh (setup (chosen_of self.now) link now address.now)) }
    {
        Connection::new(
            alloc,
            connection_id(self.seed, link),
            address.url().clone()?,
            copy_auth(&self.auth)?,
            address.behind()?,
            self.connection.connection_timeout,
            self.operation.operation_timeout,
            self.outbound,
            self.first_number,
            now,
        )
    }

    /// The delay of the attempt that follows that of a link, behind so many retries.
    pub fn delay(&self, link: u64, retries: u32) -> u64
        ensures { result ≡ delay_with (chosen_of self.now) link retries }
    {
        delay(&self.connection, self.seed, link, retries)
    }
}
