//! Where the service is, and the credential that its connections show.

ghost use Rattle.std.specs.Prelude.{◌≡◌, IfOk};
ghost use Rattle.std.specs.Option.{option_map};
ghost use Rattle.pulsar_messages.specs.Content.{authentication_values};
ghost use Rattle.pulsar_addresses.specs.Address.{base_in, base_of};

use pulsar_addresses::address::BrokerAddress;
use pulsar_addresses::content::Address;
use pulsar_messages::Authentication;
use pulsar_wire::error::NoMemory;
use std::alloc::Global;
use url::{ParseError, Url};

/// The address of the service in a text. There is none where the text is no URL, or has no host. A text that is too long for a URL
/// is want of memory.
pub fn base_in(alloc: Global, text: &str) -> Result<Option<Address>, NoMemory>
    ensures { IfOk result (λ a. a ≡ base_in text.now) }
{
    match Url::parse(alloc, text) {
        Ok(url) => base_of(alloc, url),
        Err(ParseError::OutOfMemory | ParseError::Overflow) => Err(NoMemory),
        Err(_) => Ok(None),
    }
}

fn base_of(alloc: Global, url: Url) -> Result<Option<Address>, NoMemory>
    ensures { IfOk result (λ a. a ≡ base_of url) }
{
    match BrokerAddress::base(alloc, &url)? {
        Some(address) => Ok(Some(Address::new(alloc, address)?)),
        None => Ok(None),
    }
}

/// A credential once more.
pub fn copy_auth(auth: &Option<Authentication>) -> Result<Option<Authentication>, NoMemory>
    ensures { IfOk result (λ a. option_map authentication_values a ≡ option_map authentication_values auth.now) }
{
    match auth {
        Some(auth) => Ok(Some(auth.copy()?)),
        None => Ok(None),
    }
}
