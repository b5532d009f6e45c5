//! What owns memory in plans. It is boxed, so that what carries it is small. Contracts see it by its content.

ghost use Rattle.std.specs.Prelude.{◌≡◌, ◌++◌, [], ◌∷◌, IfOk, map, string_bytes};
ghost use Rattle.std.specs.Option.{option_map};
ghost use Rattle.pulsar_addresses.specs.Address.{address_key, behind, is_reachable, named, place, place_in};
ghost use Rattle.pulsar_addresses.specs.Address.{name_found};
ghost use Rattle.pulsar_addresses.specs.Address.{in_discovery};
ghost use Rattle.pulsar_wire.specs.Failures.{OfConnection, failure, fault};

use crate::address::BrokerAddress;
use pulsar_wire::error::{ConnectionError, Error, NoMemory, ServiceDiscoveryError};
use std::alloc::Global;
use std::marker::Model;
use url::Url;

/// A text.
pub struct Text {
    text: String,
}

impl Drop for Text {
    fn drop(self) {
        let Text { text: _ } = self;
    }
}

impl Model for Text {
    ghost use Rattle.std.specs.Prelude.{ℕ, List, string_bytes};

    ghost Value = { List ℕ };

    ghost view = { λ t. string_bytes t.text };
}

impl Text {
    /// This text.
    pub fn new(text: String) -> Text
        ensures { result ≡ string_bytes text }
    {
        Text { text }
    }

    /// The text to be read.
    pub fn as_str(&self) -> &str
        ensures { result.now ≡ self.now }
    {
        self.text.as_str()
    }

    /// The same text once more.
    pub fn copy(&self) -> Result<Text, NoMemory>
        ensures { IfOk result (λ t. t ≡ self.now) }
    {
        let text = self.text.clone()?;
        Ok(Text { text })
    }

    /// The text as a string.
    pub fn into_inner(self) -> String
        ensures { string_bytes result ≡ self }
    {
        let Text { text } = self;
        text
    }
}

/// Where a broker is reached, in a box.
pub struct Address {
    inner: Box<BrokerAddress>,
}

impl Drop for Address {
    fn drop(self) {
        let Address { inner: _ } = self;
    }
}

impl Model for Address {
    ghost use Rattle.pulsar_addresses.specs.Address.{Place, place};

    ghost Value = { Place };

    ghost view = { λ a. place a.inner.value };
}

impl Address {
    /// This address.
    pub fn new(alloc: Global, address: BrokerAddress) -> Result<Address, NoMemory>
        ensures { IfOk result (λ a. a ≡ place address) }
    {
        let inner = Box::new(alloc, address)?;
        Ok(Address { inner })
    }

    /// The same address once more.
    pub fn copy(&self, alloc: Global) -> Result<Address, NoMemory>
        ensures { IfOk result (λ a. a ≡ self.now) }
    {
        let inner = Box::new(alloc, self.inner.copy()?)?;
        Ok(Address { inner })
    }

    /// The URL is a proxy's.
    pub fn is_proxy(&self) -> bool
        ensures { result ≡ self.now.proxy }
    {
        self.inner.proxy
    }

    /// What to connect to.
    pub fn url(&self) -> &Url
        ensures { result.now ≡ self.now.url }
    {
        &self.inner.url
    }

    /// It can be reached.
    pub fn is_reachable(&self) -> bool
        ensures { result ≡ is_reachable self.now }
    {
        self.inner.is_reachable()
    }

    /// What is told to a proxy: the broker behind it.
    pub fn behind(&self) -> Result<Option<String>, NoMemory>
        ensures { IfOk result (λ b. option_map string_bytes b ≡ behind self.now) }
    {
        self.inner.behind()
    }

    /// A text by which it is found among others.
    pub fn key(&self, alloc: Global) -> Result<String, NoMemory>
        ensures { IfOk result (λ k. string_bytes k ≡ address_key self.now) }
    {
        self.inner.key(alloc)
    }

    /// The address of the broker that a text names, behind a proxy at this one or not.
    pub fn broker(
        &self,
        alloc: Global,
        proxy: bool,
        text: &str,
    ) -> Result<Option<Address>, NoMemory>
        ensures { IfOk result (λ a. a ≡ place_in self.now proxy text.now) }
    {
        match BrokerAddress::of(alloc, &self.inner, proxy, text)? {
            Some(address) => Ok(Some(Address::new(alloc, address)?)),
            None => Ok(None),
        }
    }

    /// The address without its box.
    pub fn into_inner(self) -> BrokerAddress
        ensures { place result ≡ self }
    {
        let Address { inner } = self;
        Box::into_inner(inner)
    }
}

/// Why a connection, or what is asked on it, failed.
pub struct Cause {
    error: Box<ConnectionError>,
}

impl Drop for Cause {
    fn drop(self) {
        let Cause { error: _ } = self;
    }
}

impl Model for Cause {
    ghost use Rattle.pulsar_wire.specs.Failures.{Fault, fault};

    ghost Value = { Fault };

    ghost view = { λ c. fault c.error.value };
}

impl Cause {
    /// This cause.
    pub fn new(alloc: Global, error: ConnectionError) -> Result<Cause, NoMemory>
        ensures { IfOk result (λ c. c ≡ fault error) }
    {
        let error = Box::new(alloc, error)?;
        Ok(Cause { error })
    }

    /// The cause without its box.
    pub fn into_inner(self) -> ConnectionError
        ensures { fault result ≡ self }
    {
        let Cause { error } = self;
        Box::into_inner(error)
    }
}

/// Why a plan failed.
pub struct Refusal {
    error: Box<Error>,
}

impl Drop for Refusal {
    fn drop(self) {
        let Refusal { error: _ } = self;
    }
}

impl Model for Refusal {
    ghost use Rattle.pulsar_wire.specs.Failures.{Failure, failure};
    ghost use Rattle.pulsar_wire.specs.FailureCode.{failure_code};
    ghost use Rattle.std.specs.Coded.{codes};

    ghost Value = { Failure };

    ghost coded = { failure_code (Prim.hlevel codes) };

    ghost view = { λ r. failure r.error.value };
}

impl Refusal {
    /// This error.
    pub fn new(alloc: Global, error: Error) -> Result<Refusal, NoMemory>
        ensures { IfOk result (λ r. r ≡ failure error) }
    {
        let error = Box::new(alloc, error)?;
        Ok(Refusal { error })
    }

    /// An error of a connection as one of a search.
    pub fn in_discovery(alloc: Global, error: ConnectionError) -> Result<Refusal, NoMemory>
        ensures { IfOk result (λ r. r ≡ in_discovery (fault error)) }
    {
        Refusal::new(
            alloc,
            Error::ServiceDiscovery(ServiceDiscoveryError::Connection(error)),
        )
    }

    /// An error of a connection as it is.
    pub fn in_connection(alloc: Global, error: ConnectionError) -> Result<Refusal, NoMemory>
        ensures { IfOk result (λ r. r ≡ OfConnection (fault error)) }
    {
        Refusal::new(alloc, Error::Connection(error))
    }

    /// The error to be read.
    pub fn error(&self) -> &Error
        ensures { failure result.now ≡ self.now }
    {
        &self.error
    }

    /// The error without its box.
    pub fn into_inner(self) -> Error
        ensures { failure result ≡ self }
    {
        let Refusal { error } = self;
        Box::into_inner(error)
    }
}

/// The names of a topic, each with the broker that serves it.
pub struct Names {
    all: Vec<(String, BrokerAddress)>,
}

impl Drop for Names {
    fn drop(self) {
        let Names { all: _ } = self;
    }
}

impl Model for Names {
    ghost use Rattle.std.specs.Prelude.{List, map};
    ghost use Rattle.pulsar_addresses.specs.Address.{Named, named};

    ghost Value = { List Named };

    ghost view = { λ n. map named n.all.items };
}

impl Names {
    /// No name.
    pub fn new(alloc: Global) -> Names
        ensures { result ≡ [] }
    {
        Names {
            all: Vec::new(alloc),
        }
    }

    /// One more name behind these.
    pub fn with(self, name: Text, address: Address) -> Result<Names, NoMemory>
        ensures { IfOk result (λ n. n ≡ name_found self name address) }
    {
        let Names { mut all } = self;
        all.push((name.into_inner(), address.into_inner()))?;
        Ok(Names { all })
    }

    /// The names as a list.
    pub fn into_inner(self) -> Vec<(String, BrokerAddress)>
        ensures { map named result.items ≡ self }
    {
        let Names { all } = self;
        all
    }
}
