//! Where a broker is reached.

ghost use Rattle.std.specs.Prelude.{◌≡◌, IfOk, string_bytes};
ghost use Rattle.std.specs.Option.{option_map};
ghost use Rattle.pulsar_addresses.specs.Address.{address_key, base_of, behind, is_reachable, key_of, place, place_in, place_of_url};

use pulsar_wire::error::NoMemory;
use std::alloc::Global;
use url::{ParseError, Url};

/// The port of a broker.
const DEFAULT_PORT: u16 = 6650;

/// Where a broker is reached.
#[derive(Debug, PartialEq, Eq, Hash, Drop)]
pub struct BrokerAddress {
    /// What to connect to.
    pub url: Url,
    /// The broker's host and port.
    pub broker_url: String,
    /// The URL is a proxy's.
    pub proxy: bool,
}

impl BrokerAddress {
    /// An address with the same content.
    pub fn copy(&self) -> Result<BrokerAddress, NoMemory>
        ensures { IfOk result (λ a. place a ≡ place self.now) }
    {
        Ok(BrokerAddress {
            url: self.url.clone()?,
            broker_url: self.broker_url.clone()?,
            proxy: self.proxy,
        })
    }

    /// It can be reached: its scheme is `pulsar`, and it has a host.
    pub fn is_reachable(&self) -> bool
        ensures { result ≡ is_reachable (place self.now) }
    {
        self.url.scheme() == "pulsar" && self.url.host_str().is_some()
    }

    /// What is told to a proxy: the broker behind it.
    pub fn behind(&self) -> Result<Option<String>, NoMemory>
        ensures { IfOk result (λ b. option_map string_bytes b ≡ behind (place self.now)) }
    {
        if self.proxy {
            Ok(Some(self.broker_url.clone()?))
        } else {
            Ok(None)
        }
    }

    /// A text by which it is found among others.
    pub fn key(&self, alloc: Global) -> Result<String, NoMemory>
        ensures { IfOk result (λ k. string_bytes k ≡ address_key (place self.now)) }
    {
        key_of(
            alloc,
            self.url.as_str(),
            self.broker_url.as_str(),
            self.proxy,
        )
    }

    /// The address of the service that a URL names. There is none where the URL has no host.
    pub fn base(alloc: Global, url: &Url) -> Result<Option<BrokerAddress>, NoMemory>
        ensures { IfOk result (λ a. option_map place a ≡ base_of url.now) }
    {
        let Some(host) = url.host_str() else {
            return Ok(None);
        };
        let port = url.port().unwrap_or(DEFAULT_PORT);
        let broker_url = format!(in alloc; "{host}:{port}")?;
        Ok(Some(BrokerAddress {
            url: url.clone()?,
            broker_url,
            proxy: false,
        }))
    }

    /// The address of the broker that a text names, behind a proxy at this base or not. There is none where the text is no
    /// URL, or has no host. A text that is too long for a URL is want of memory.
    pub fn of(
        alloc: Global,
        base: &BrokerAddress,
        proxy: bool,
        text: &str,
    ) -> Result<Option<BrokerAddress>, NoMemory>
        ensures { IfOk result (λ a. option_map place a ≡ place_in (place base.now) proxy text.now) }
    {
        match Url::parse(alloc, text) {
            Ok(url) => of_url(alloc, base, proxy, url),
            Err(ParseError::OutOfMemory | ParseError::Overflow) => Err(NoMemory),
            Err(_) => Ok(None),
        }
    }
}

fn key_of(alloc: Global, url: &str, broker: &str, proxy: bool) -> Result<String, NoMemory>
    ensures { IfOk result (λ k. string_bytes k ≡ key_of url.now broker.now proxy) }
{
    let length = url.len();
    let kind = if proxy { " proxy " } else { " broker " };
    Ok(format!(in alloc; "{length}{kind}{url}{broker}")?)
}

fn of_url(
    alloc: Global,
    base: &BrokerAddress,
    proxy: bool,
    url: Url,
) -> Result<Option<BrokerAddress>, NoMemory>
    ensures { IfOk result (λ a. option_map place a ≡ place_of_url (place base.now) proxy url) }
{
    let Some(host) = url.host_str() else {
        return Ok(None);
    };
    let port = url.port().unwrap_or(DEFAULT_PORT);
    let broker_url = format!(in alloc; "{host}:{port}")?;
    let url = if proxy { base.url.clone()? } else { url };
    Ok(Some(BrokerAddress {
        url,
        broker_url,
        proxy,
    }))
}
