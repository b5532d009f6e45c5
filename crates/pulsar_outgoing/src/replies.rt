//! What a broker says of a producer that it has made.

ghost use Rattle.std.specs.Prelude.{◌≡◌, IfOk};
ghost use Rattle.pulsar_frame.specs.Reply.{read_body};
ghost use Rattle.pulsar_wire.specs.Views.{body_values};
ghost use Rattle.pulsar_outgoing.specs.Replies as meaning;

use crate::content::Version;
use pulsar_addresses::content::Text;
use pulsar_frame::received::Received;
use pulsar_wire::commands::base::Body;
use pulsar_wire::commands::producer::CommandProducerSuccess;
use pulsar_wire::error::NoMemory;
use std::alloc::Global;

/// What a broker says of a producer that it has made: its name, and the version of its schema.
#[derive(Drop)]
pub struct Given {
    pub name: Text,
    pub version: Option<Version>,
}

impl Given {
    /// The same once more.
    pub fn copy(&self) -> Result<Given, NoMemory>
        ensures { IfOk result (λ g. g ≡ self.now) }
    {
        Ok(Given {
            name: self.name.copy()?,
            version: self.version()?,
        })
    }

    /// The version of its schema.
    pub fn version(&self) -> Result<Option<Version>, NoMemory>
        ensures { IfOk result (λ v. v ≡ self.now.version) }
    {
        match &self.version {
            Some(version) => Ok(Some(version.copy()?)),
            None => Ok(None),
        }
    }
}

/// What the reply to its command says of a producer.
pub fn given_by(alloc: Global, reply: &Received) -> Result<Given, NoMemory>
    ensures { IfOk result (λ g. g ≡ meaning.given reply.now) }
{
    let message = reply.message();
    match &message.command.body {
        Some(body) => given_in(alloc, body),
        None => Ok(nothing_given(alloc)),
    }
}

fn given_in(alloc: Global, body: &Body) -> Result<Given, NoMemory>
    ensures { IfOk result (λ g. g ≡ meaning.given (read_body None (Some (body_values body.now)))) }
{
    match body {
        Body::ProducerSuccess(body) => given_of(body),
        _ => Ok(nothing_given(alloc)),
    }
}

#[tactic(auto, unfolding(pulsar_wire::specs::Views::producer_success_values))]
fn given_of(body: &CommandProducerSuccess) -> Result<Given, NoMemory>
    ensures { IfOk result (λ g. g ≡ meaning.given (read_body None (Some (body_values (Body.ProducerSuccess body.now))))) }
{
    let version = match &body.schema_version {
        Some(version) => Some(Version::new(version.clone()?)),
        None => None,
    };
    Ok(Given {
        name: Text::new(body.producer_name.clone()?),
        version,
    })
}

fn nothing_given(alloc: Global) -> Given
    ensures { result ≡ meaning.nothing }
{
    Given {
        name: Text::new(String::new(alloc)),
        version: None,
    }
}
