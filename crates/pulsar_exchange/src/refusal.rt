//! Why a message of the broker fails a request.

ghost use Rattle.std.specs.Prelude.{◌≡◌, [], None, Some, IfOk};
ghost use Rattle.pulsar_wire.specs.Views.{body_values};
ghost use Rattle.pulsar_wire.specs.Failures.{UnexpectedResponse, fault};
ghost use Rattle.pulsar_exchange.specs.Messages.{read_body, written};
ghost use Rattle.pulsar_exchange.specs.Refusals.{refused};

use pulsar_wire::commands::base::Body;
use pulsar_wire::commands::connection::CommandError;
use pulsar_wire::commands::enumerations::server_error;
use pulsar_wire::error::{ConnectionError, NoMemory};
use std::alloc::Global;

/// Why a body fails a request that expects another: it is an error that the broker tells, or it is not what was asked for.
pub fn refused(alloc: Global, body: &Body) -> Result<ConnectionError, NoMemory>
    ensures { IfOk result (λ e. fault e ≡ refused (read_body None [] 0 (Some (body_values body.now))) (Some (written (body_values body.now)))) }
{
    match body {
        Body::Error(error) => told_error(error),
        other => unexpected(alloc, other.name()),
    }
}

/// The error that the broker tells.
#[tactic(auto, unfolding(pulsar_wire::specs::Views::error_values))]
fn told_error(body: &CommandError) -> Result<ConnectionError, NoMemory>
    ensures { IfOk result (λ e. fault e ≡ refused (read_body None [] 0 (Some (body_values (Body.Error body.now))))
        (Some (written (body_values (Body.Error body.now))))) }
{
    let text = body.message.clone()?;
    Ok(ConnectionError::PulsarError(server_error(body.error), Some(text)))
}

/// Another body than the one that is expected, by its name.
pub fn unexpected(alloc: Global, name: &str) -> Result<ConnectionError, NoMemory>
    ensures { IfOk result (λ e. fault e ≡ UnexpectedResponse name.now) }
{
    Ok(ConnectionError::UnexpectedResponse(String::from_str(alloc, name)?))
}
