//! Properties: a map in the memory of a user, a list in key order in a command.

ghost use Rattle.std.specs.Prelude.{◌≡◌, IfOk, map};
ghost use Rattle.pulsar_wire.specs.Views.{key_value_values};
ghost use Rattle.pulsar_messages.specs.Content.{property};
ghost use Rattle.pulsar_messages.specs.Messages.{properties_values};

use pulsar_wire::commands::metadata::KeyValue;
use pulsar_wire::error::NoMemory;
use std::alloc::Global;
use std::collections::BTreeMap;

/// The properties as a command has them: in key order. Their texts are moved, and not copied.
#[tactic(auto, unfolding(pulsar_wire::specs::Views::key_value_values))]
pub fn into_properties(
    alloc: Global,
    properties: BTreeMap<String, String>,
) -> Result<Vec<KeyValue>, NoMemory>
    ensures { IfOk result (λ pairs. map key_value_values pairs.items
        ≡ properties_values (map property properties.entries)) }
{
    let mut pairs = Vec::new(alloc);
    for (key, value) in properties {
        pairs.push(KeyValue { key, value })?;
    }
    Ok(pairs)
}

/// A copy of the properties in key order.
pub(crate) fn properties_of(
    alloc: Global,
    properties: &BTreeMap<String, String>,
) -> Result<Vec<KeyValue>, NoMemory>
    ensures { IfOk result (λ pairs. map key_value_values pairs.items
        ≡ properties_values (map property properties.now.entries)) }
{
    into_properties(alloc, copy_properties(properties)?)
}

/// The same properties.
#[tactic(auto, using(crate::proofs::Copies::properties_copied))]
pub(crate) fn copy_properties(
    properties: &BTreeMap<String, String>,
) -> Result<BTreeMap<String, String>, NoMemory>
    ensures { IfOk result (λ copy. map property copy.entries ≡ map property properties.now.entries) }
{
    Ok(properties.clone()?)
}
