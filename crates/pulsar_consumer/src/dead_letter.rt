//! What is sent to another topic for a message that was given too often.

ghost use Rattle.std.specs.Prelude.{◌≡◌, codes, map, string_bytes, IfOk, OnOk};
ghost use Rattle.std.specs.Option.{option_map};
ghost use Rattle.pulsar_wire.specs.Views.{key_value_values, message_id_values};
ghost use Rattle.pulsar_frame.specs.Payload.{payload_values};
ghost use Rattle.pulsar_messages.specs.Content.{message_content, property};
ghost use Rattle.pulsar_incoming.specs.Content.{dead_letter_values};
ghost use Rattle.pulsar_consumer.specs.DeadLetters as meaning;

use pulsar_frame::payload::Payload;
use pulsar_incoming::config::DeadLetterPolicy;
use pulsar_messages::Message;
use pulsar_wire::commands::ids::MessageIdData;
use pulsar_wire::commands::metadata::KeyValue;
use pulsar_wire::error::NoMemory;
use std::alloc::Global;
use std::collections::BTreeMap;
use std::mem::replace;

/// The topic from which a copy comes.
const REAL_TOPIC: &str = "REAL_TOPIC";

/// The id of the message in that topic.
const ORIGIN_MESSAGE_ID: &str = "ORIGIN_MESSAGE_ID";

/// A message that was given so often is a dead letter.
pub fn is_dead(policy: &Option<DeadLetterPolicy>, redeliveries: Option<u32>) -> bool
    ensures { result ≡ meaning.is_dead (option_map dead_letter_values policy.now) redeliveries }
{
    match (policy, redeliveries) {
        (Some(policy), Some(count)) => policy.max_redeliver_count <= count as usize,
        _ => false,
    }
}

/// The copy of an entry. Its payload is moved, and not copied.
#[tactic(auto, unfolding(pulsar_wire::specs::Views::message_metadata_values))]
pub fn copy_of(
    alloc: Global,
    topic: &str,
    id: &MessageIdData,
    mut payload: Payload,
) -> Result<Message, NoMemory>
    ensures { IfOk result (λ m. message_content m ≡ meaning.copy_of topic.now (message_id_values id.now, payload_values payload)) }
{
    let given = replace(&mut payload.metadata.properties, Vec::new(alloc));
    let properties = copied_properties(alloc, topic, id, given)?;
    let partition_key = payload.metadata.partition_key.take();
    let ordering_key = payload.metadata.ordering_key.take();
    Ok(Message {
        payload: replace(&mut payload.bytes, Vec::new(alloc)),
        properties,
        partition_key,
        ordering_key,
        replicate_to: Vec::new(alloc),
        event_time: payload.metadata.event_time,
        schema_version: None,
        deliver_at_time: None,
    })
}

/// The properties of a message, and where it comes from.
fn copied_properties(
    alloc: Global,
    topic: &str,
    id: &MessageIdData,
    given: Vec<KeyValue>,
) -> Result<BTreeMap<String, String>, NoMemory>
    ensures { IfOk result (λ ps. map property ps.entries
        ≡ meaning.copied_properties topic.now (message_id_values id.now) (map key_value_values given.items)) }
{
    let mut properties = BTreeMap::new(alloc);
    put_all(&mut properties, given)?;
    put_absent(&mut properties, alloc, REAL_TOPIC, topic)?;
    let origin = origin_text(alloc, id)?;
    put_absent(&mut properties, alloc, ORIGIN_MESSAGE_ID, origin.as_str())?;
    Ok(properties)
}

fn put_all(properties: &mut BTreeMap<String, String>, given: Vec<KeyValue>) -> Result<(), NoMemory>
    ensures { OnOk result (map property properties.new.entries
        ≡ meaning.with_properties (map key_value_values given.items) (map property properties.old.entries)) }
{
    for pair in given {
        put(properties, &pair)?;
    }
    Ok(())
}

fn put(properties: &mut BTreeMap<String, String>, pair: &KeyValue) -> Result<(), NoMemory>
    ensures { OnOk result (map property properties.new.entries
        ≡ meaning.with_property (string_bytes pair.now.key) (string_bytes pair.now.value) (map property properties.old.entries)) }
{
    let key = pair.key.clone()?;
    let value = pair.value.clone()?;
    properties.insert(key, value)?;
    Ok(())
}

#[tactic(auto, using(crate::proofs::Copying::left_as_is))]
fn put_absent(
    properties: &mut BTreeMap<String, String>,
    alloc: Global,
    name: &str,
    value: &str,
) -> Result<(), NoMemory>
    ensures { OnOk result (map property properties.new.entries ≡ meaning.with_absent name.now value.now (map property properties.old.entries)) }
{
    if properties.contains_key(name) {
        return Ok(());
    }
    let name = String::from_str(alloc, name)?;
    properties.insert(name, String::from_str(alloc, value)?)?;
    Ok(())
}

/// The place of an id, as a text.
#[tactic(auto, unfolding(pulsar_wire::specs::Views::message_id_values))]
fn origin_text(alloc: Global, id: &MessageIdData) -> Result<String, NoMemory>
    ensures { IfOk result (λ t. string_bytes t ≡ meaning.origin_text (message_id_values id.now)) }
{
    let ledger = id.ledger_id;
    let entry = id.entry_id;
    let partition = id.partition.unwrap_or(-1);
    match id.batch_index {
        Some(index) => Ok(format!(in alloc; "{ledger}:{entry}:{partition}:{index}")?),
        None => Ok(format!(in alloc; "{ledger}:{entry}:{partition}")?),
    }
}
