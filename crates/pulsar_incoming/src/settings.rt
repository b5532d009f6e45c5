//! How a consumer is made, in a box.

ghost use Rattle.std.specs.Prelude.{◌≡◌, IfOk};
ghost use Rattle.pulsar_incoming.specs.Content.{config_values};

use crate::config::ConsumerConfig;
use pulsar_wire::error::NoMemory;
use std::alloc::Global;
use std::marker::Model;

/// How a consumer is made. Contracts see it by its content.
pub struct Settings {
    config: Box<ConsumerConfig>,
}

impl Drop for Settings {
    fn drop(self) {
        let Settings { config: _ } = self;
    }
}

impl Model for Settings {
    ghost use Rattle.pulsar_incoming.specs.Content.{ConfigValues, config_values};

    ghost Value = { ConfigValues };

    ghost view = { λ s. config_values s.config.value };
}

impl Settings {
    /// This configuration.
    pub fn new(alloc: Global, config: ConsumerConfig) -> Result<Settings, NoMemory>
        ensures { IfOk result (λ s. s ≡ config_values config) }
    {
        let config = Box::new(alloc, config)?;
        Ok(Settings { config })
    }

    /// The same configuration once more.
    pub fn copy(&self, alloc: Global) -> Result<Settings, NoMemory>
        ensures { IfOk result (λ s. s ≡ self.now) }
    {
        Settings::new(alloc, self.config.copy()?)
    }

    /// The configuration to be read.
    pub fn get(&self) -> &ConsumerConfig
        ensures { config_values result.now ≡ self.now }
    {
        &self.config
    }
}
