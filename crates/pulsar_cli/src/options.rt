//! The options of a script's client.

ghost use Rattle.std.specs.Prelude.{◌≡◌, IfOk, map};
ghost use Rattle.std.specs.Option.{option_map};
ghost use Rattle.pulsar_messages.specs.Content.{authentication_values};
ghost use Rattle.pulsar_client.specs.Client.{options as meaning};
ghost use Rattle.pulsar_cli.specs.Choice.{choice_of};
ghost use Rattle.pulsar_grammar.specs.Parsed.{setting_of};
ghost use Rattle.pulsar_cli.specs.Script.{chooses, default_choice};

use pulsar_addresses::options::{ConnectionRetryOptions, OperationRetryOptions};
use pulsar_client::options::ClientOptions;
use pulsar_client::{Authentication, CustomRoutingPolicy};
use pulsar_grammar::setting::Setting;
use pulsar_wire::NoMemory;
use std::alloc::Global;

/// What a script chooses of the options of its client: all but the policies.
#[derive(Drop)]
pub struct Choice {
    pub url: String,
    pub auth: Option<Authentication>,
    pub connection_retry: ConnectionRetryOptions,
    pub operation_retry: OperationRetryOptions,
    pub outbound_channel_size: usize,
    pub seed: u64,
    pub now: u64,
    pub first_number: u64,
}

/// The choice where no option is set.
pub fn defaults(alloc: Global) -> Result<Choice, NoMemory>
    ensures { IfOk result (λ c. choice_of c ≡ default_choice) }
{
    let url = String::from_str(alloc, "pulsar://127.0.0.1:6650")?;
    Ok(Choice {
        url,
        auth: None,
        connection_retry: ConnectionRetryOptions::default(),
        operation_retry: OperationRetryOptions::default(),
        outbound_channel_size: 100,
        seed: 0,
        now: 0,
        first_number: 0,
    })
}

/// An option is chosen.
pub fn choose(choice: &mut Choice, setting: Setting)
    ensures { choice_of choice.new ≡ chooses (setting_of setting) (choice_of choice.old) }
{
    match setting {
        Setting::Url(url) => choice.url = url,
        Setting::Auth(auth) => choice.auth = Some(auth),
        Setting::Outbound(size) => choice.outbound_channel_size = size,
        Setting::Timeout(time) => choice.operation_retry.operation_timeout = time,
        Setting::RetryDelay(time) => choice.operation_retry.retry_delay = time,
        Setting::OpRetries(most) => choice.operation_retry.max_retries = Some(most),
        Setting::Retries(most) => choice.connection_retry.max_retries = most,
        Setting::MinBackoff(time) => choice.connection_retry.min_backoff = time,
        Setting::MaxBackoff(time) => choice.connection_retry.max_backoff = time,
        Setting::ConnectionTimeout(time) => choice.connection_retry.connection_timeout = time,
        Setting::KeepAlive(time) => choice.connection_retry.keep_alive = time,
        Setting::MaxIdle(time) => choice.connection_retry.connection_max_idle = time,
        Setting::Seed(seed) => choice.seed = seed,
        Setting::First(number) => choice.first_number = number,
        Setting::Now(time) => choice.now = time,
    }
}

/// The options of a client that is chosen so, and has these policies.
pub fn options(
    choice: &Choice,
    policies: Vec<Box<dyn CustomRoutingPolicy>>,
) -> Result<ClientOptions, NoMemory>
    ensures { IfOk result (λ o. meaning (λ p. routes p) o
        ≡ record { chosen = choice_of choice.entry.now; policies = map (λ p. routes p) policies.items }) }
{
    let url = choice.url.clone()?;
    let auth = copied(&choice.auth)?;
    Ok(ClientOptions {
        url,
        auth,
        connection_retry: choice.connection_retry,
        operation_retry: choice.operation_retry,
        outbound_channel_size: choice.outbound_channel_size,
        seed: choice.seed,
        now: choice.now,
        first_number: choice.first_number,
        policies,
    })
}

/// The same credential.
fn copied(auth: &Option<Authentication>) -> Result<Option<Authentication>, NoMemory>
    ensures { IfOk result (λ a. option_map authentication_values a ≡ option_map authentication_values auth.now) }
{
    match auth {
        Some(auth) => Ok(Some(auth.copy()?)),
        None => Ok(None),
    }
}
