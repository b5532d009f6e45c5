//! How a client shows who it is.

ghost use Rattle.std.specs.Prelude.{◌≡◌, IfOk};
ghost use Rattle.pulsar_messages.specs.Content.{authentication_values};

use pulsar_wire::error::NoMemory;

/// How a client shows who it is.
#[derive(Debug, Drop)]
pub struct Authentication {
    /// The method, as `token`.
    pub name: String,
    /// What the method asks for.
    pub auth_data: Vec<u8>,
}

impl Authentication {
    /// The same credential.
    pub fn copy(&self) -> Result<Authentication, NoMemory>
        ensures { IfOk result (λ a. authentication_values a ≡ authentication_values self.now) }
    {
        Ok(Authentication {
            name: self.name.clone()?,
            auth_data: self.auth_data.clone()?,
        })
    }
}
