//! A producer by what is wanted of it.

ghost use Rattle.std.specs.Prelude.{◌≡◌, Some, IfOk};
ghost use Rattle.pulsar_messages.specs.Content.{producer_options_values};
ghost use Rattle.pulsar_outgoing.specs.Wanted.{no_producer, producer_wanted};

use pulsar_messages::producer_options::ProducerOptions;
use pulsar_wire::encoding::copying::copy_optional;
use pulsar_wire::error::NoMemory;
use std::alloc::Global;

/// A producer that is to be made.
#[derive(Debug, Drop)]
pub struct ProducerBuilder {
    alloc: Global,
    /// What it sends to.
    pub topic: Option<String>,
    /// The broker names it where this is absent.
    pub name: Option<String>,
    pub options: ProducerOptions,
}

impl ProducerBuilder {
    /// Nothing is said of it.
    pub fn new(alloc: Global) -> Self
        ensures { producer_wanted result ≡ no_producer }
    {
        ProducerBuilder {
            alloc,
            topic: None,
            name: None,
            options: ProducerOptions::new(alloc),
        }
    }

    /// It sends to this topic.
    pub fn with_topic(mut self, topic: &str) -> Result<Self, NoMemory>
        ensures { IfOk result (λ b. producer_wanted b ≡ record (producer_wanted self) { topic = Some topic.now }) }
    {
        self.topic = Some(String::from_str(self.alloc, topic)?);
        Ok(self)
    }

    /// It has this name.
    pub fn with_name(mut self, name: &str) -> Result<Self, NoMemory>
        ensures { IfOk result (λ b. producer_wanted b ≡ record (producer_wanted self) { name = Some name.now }) }
    {
        self.name = Some(String::from_str(self.alloc, name)?);
        Ok(self)
    }

    /// It is made, and sends, so.
    pub fn with_options(mut self, options: ProducerOptions) -> Self
        ensures { producer_wanted result
            ≡ record (producer_wanted self) { options = producer_options_values options } }
    {
        self.options = options;
        self
    }

    /// What the call of a producer of its topic is made with.
    pub fn build(self) -> Self
        ensures { result ≡ self }
    {
        self
    }

    /// What the call of a producer of many topics is made with: its own topic is not used.
    pub fn build_multi_topic(self) -> Self
        ensures { result ≡ self }
    {
        self
    }

    /// A builder with the same content.
    pub fn copy(&self) -> Result<ProducerBuilder, NoMemory>
        ensures { IfOk result (λ b. producer_wanted b ≡ producer_wanted self.now) }
    {
        Ok(ProducerBuilder {
            alloc: self.alloc,
            topic: copy_optional(&self.topic)?,
            name: copy_optional(&self.name)?,
            options: self.options.copy()?,
        })
    }
}
