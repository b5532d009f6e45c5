//! How often, and when, what failed is tried again.

ghost use Rattle.std.specs.Prelude.{◌≡◌, Ok};
ghost use Rattle.pulsar_addresses.specs.Backoff as meaning;

use pulsar_wire::error::NoMemory;

/// How connections are attempted and kept. All times are in milliseconds.
#[derive(Clone, Copy, Debug, PartialEq, Eq)]
pub struct ConnectionRetryOptions {
    /// How long the first retry of an attempt waits.
    pub min_backoff: u64,
    /// How long a retry waits at most, without its jitter.
    pub max_backoff: u64,
    /// How many retries follow an attempt that failed.
    pub max_retries: u32,
    /// How long an attempt may take until its connection is ready.
    pub connection_timeout: u64,
    /// How often a ready connection is pinged.
    pub keep_alive: u64,
    /// How long a connection that nothing uses is kept.
    pub connection_max_idle: u64,
}

/// How long requests wait for their replies, and how often they are made again. All times are in milliseconds.
#[derive(Clone, Copy, Debug, PartialEq, Eq)]
pub struct OperationRetryOptions {
    /// How long a request may wait for its reply, from the moment at which its frame is queued.
    pub operation_timeout: u64,
    /// How long a request waits before it is made again.
    pub retry_delay: u64,
    /// How often a request is made again. Where it is absent there is no limit.
    pub max_retries: Option<u32>,
}

impl Default for ConnectionRetryOptions {
    fn default() -> ConnectionRetryOptions
        ensures { result ≡ meaning.default_connection_retry }
    {
        ConnectionRetryOptions {
            min_backoff: 10,
            max_backoff: 30_000,
            max_retries: 12,
            connection_timeout: 10_000,
            keep_alive: 60_000,
            connection_max_idle: 120_000,
        }
    }
}

impl Default for OperationRetryOptions {
    fn default() -> OperationRetryOptions
        ensures { result ≡ meaning.default_operation_retry }
    {
        OperationRetryOptions {
            operation_timeout: 30_000,
            retry_delay: 5_000,
            max_retries: None,
        }
    }
}

impl ConnectionRetryOptions {
    /// Options with the same content. It takes no memory.
    pub fn copy(&self) -> Result<ConnectionRetryOptions, NoMemory>
        ensures { result ≡ Ok self.now }
    {
        Ok(*self)
    }
}

impl OperationRetryOptions {
    /// Options with the same content. It takes no memory.
    pub fn copy(&self) -> Result<OperationRetryOptions, NoMemory>
        ensures { result ≡ Ok self.now }
    {
        Ok(*self)
    }

    /// There may be one more retry after so many.
    pub fn allow_retry(&self, current: u32) -> bool
        ensures { result ≡ meaning.allow_retry self.now.max_retries current }
    {
        allow_retry(self.max_retries, current)
    }
}

/// There may be one more retry after so many, where there may be this many at the most.
pub fn allow_retry(most: Option<u32>, current: u32) -> bool
    ensures { result ≡ meaning.allow_retry most current }
{
    match most {
        None => true,
        Some(most) => current < most,
    }
}

/// The delay before the next attempt after so many retries.
pub fn backoff(options: &ConnectionRetryOptions, retries: u32, jitter: u64) -> u64
    ensures { result ≡ meaning.backoff options.now.min_backoff options.now.max_backoff retries jitter }
{
    let doubled = options.min_backoff.saturating_mul(power(retries));
    let jitter = options.min_backoff.saturating_mul(jitter);
    doubled.min(options.max_backoff).saturating_add(jitter)
}

/// Two to the power of so many retries, in 32 bits.
fn power(retries: u32) -> u64
    ensures { result ≡ meaning.power retries }
{
    if retries < 32 {
        1 << retries
    } else {
        u64::from(u32::MAX)
    }
}
