//! What a client is made with.

ghost use Rattle.std.specs.Prelude.{◌≡◌, IfOk};
ghost use Rattle.pulsar_acts.specs.Tables.{chosen_of};
ghost use Rattle.pulsar_client.specs.Client.{chosen};

use pulsar_acts::settings::Settings;
use pulsar_addresses::options::{ConnectionRetryOptions, OperationRetryOptions};
use pulsar_messages::Authentication;
use pulsar_producer::CustomRoutingPolicy;
use pulsar_session::service::{base_in, copy_auth};
use pulsar_wire::error::NoMemory;
use std::alloc::Global;

/// The options of a client.
pub struct ClientOptions {
    /// The address of the service, as `pulsar://HOST:PORT`; without a port it is 6650. With any other URL, and with a text that
    /// is no URL, a Build ends with ConnectionError::NotFound.
    pub url: String,
    /// The credential that each connection shows.
    pub auth: Option<Authentication>,
    pub connection_retry: ConnectionRetryOptions,
    pub operation_retry: OperationRetryOptions,
    /// How many frames of a connection may be queued and not written. With 0 a Build ends with Error::Custom.
    pub outbound_channel_size: usize,
    /// What random numbers are drawn from: the jitter of each retry, the id of each connection, and the index with which a producer of
    /// several partitions begins.
    pub seed: u64,
    /// The time at which the client is made, in milliseconds since 1970.
    pub now: u64,
    /// The number of the first request of each connection, of the first producer, and of the first message of each producer. It is 0
    /// but in tests.
    pub first_number: u64,
    /// By these a producer chooses partitions, where its options say so.
    pub policies: Vec<Box<dyn CustomRoutingPolicy>>,
}

impl Drop for ClientOptions {
    fn drop(self) {
        let ClientOptions {
            url: _,
            auth: _,
            connection_retry: _,
            operation_retry: _,
            outbound_channel_size: _,
            seed: _,
            now: _,
            first_number: _,
            policies: _,
        } = self;
    }
}

impl ClientOptions {
    /// What they say of the run of a client. A URL that is too long to be read counts as want of memory.
    pub(crate) fn settings(&self, alloc: Global) -> Result<Settings, NoMemory>
        ensures { IfOk result (λ s. chosen_of s ≡ chosen self.entry.now) }
    {
        Ok(Settings {
            base: base_in(alloc, &self.url)?,
            auth: copy_auth(&self.auth)?,
            connection: self.connection_retry,
            operation: self.operation_retry,
            outbound: self.outbound_channel_size,
            seed: self.seed,
            first_number: self.first_number,
            start: self.now,
        })
    }
}
