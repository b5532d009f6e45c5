//! Values with each of their fields, which the lines name `full`.

use pulsar_session::{ConsumerOptions, Message, ProducerMessage, ProducerOptions};
use pulsar_wire::{EncryptionKeys, InitialPosition, KeyValue, MessageIdData, NoMemory, Schema};
use std::alloc::Global;
use std::collections::BTreeMap;

/// Two properties, which were put in against their order.
fn properties(alloc: Global) -> Result<BTreeMap<String, String>, NoMemory> {
    let mut properties = BTreeMap::new(alloc);
    properties.insert(String::from_str(alloc, "b")?, String::from_str(alloc, "2")?)?;
    properties.insert(String::from_str(alloc, "a")?, String::from_str(alloc, "1")?)?;
    Ok(properties)
}

fn property(alloc: Global, key: &str, value: &str) -> Result<KeyValue, NoMemory> {
    Ok(KeyValue {
        key: String::from_str(alloc, key)?,
        value: String::from_str(alloc, value)?,
    })
}

fn schema(alloc: Global) -> Result<Schema, NoMemory> {
    let mut schema = Schema::new(alloc);
    schema.name.push('s')?;
    schema.schema_data.push(7)?;
    schema.kind = 4;
    schema.properties.push(property(alloc, "p", "q")?)?;
    Ok(schema)
}

pub fn producer_options(alloc: Global) -> Result<ProducerOptions, NoMemory> {
    let mut options = ProducerOptions::new(alloc);
    options.encrypted = Some(true);
    options.metadata = properties(alloc)?;
    options.schema = Some(schema(alloc)?);
    options.access_mode = Some(2);
    Ok(options)
}

fn id(alloc: Global) -> Result<MessageIdData, NoMemory> {
    let mut id = MessageIdData::new(alloc);
    id.ledger_id = 1;
    id.entry_id = 2;
    id.partition = Some(3);
    id.ack_set.push(5)?;
    id.batch_size = Some(6);
    Ok(id)
}

pub fn consumer_options(alloc: Global) -> Result<ConsumerOptions, NoMemory> {
    let mut options = ConsumerOptions::new(alloc);
    options.priority_level = Some(-1);
    options.durable = Some(false);
    options.read_compacted = Some(true);
    options.initial_position = InitialPosition::Earliest;
    options.start_message_id = Some(id(alloc)?);
    options.metadata = properties(alloc)?;
    options.schema = Some(schema(alloc)?);
    Ok(options)
}

/// A message of a batch of two.
pub fn message(alloc: Global) -> Result<ProducerMessage, NoMemory> {
    let mut message = Message::new(alloc);
    fill_texts(alloc, &mut message)?;
    fill_bytes(alloc, &mut message)?;
    let mut message = ProducerMessage::from(message.copy()?);
    fill_further(alloc, &mut message)?;
    Ok(message)
}

fn fill_texts(alloc: Global, message: &mut Message) -> Result<(), NoMemory> {
    message.properties = properties(alloc)?;
    message.partition_key = Some(String::from_str(alloc, "pk")?);
    message.replicate_to.push(String::from_str(alloc, "c")?)?;
    message.replicate_to.push(String::from_str(alloc, "d")?)?;
    Ok(())
}

fn fill_bytes(alloc: Global, message: &mut Message) -> Result<(), NoMemory> {
    message.payload.extend_from_slice(b"abc")?;
    message.ordering_key = Some(b"ok".to_vec(alloc)?);
    message.event_time = Some(40);
    message.schema_version = Some(b"v1".to_vec(alloc)?);
    message.deliver_at_time = Some(-5);
    Ok(())
}

fn fill_further(alloc: Global, message: &mut ProducerMessage) -> Result<(), NoMemory> {
    message.compression = Some(1);
    message.uncompressed_size = Some(20);
    message.num_messages_in_batch = Some(2);
    message.encryption_keys.push(key(alloc)?)?;
    message.encryption_algo = Some(String::from_str(alloc, "al")?);
    message.encryption_param = Some(b"pa".to_vec(alloc)?);
    Ok(())
}

fn key(alloc: Global) -> Result<EncryptionKeys, NoMemory> {
    let mut key = EncryptionKeys::new(alloc);
    key.key.push('k')?;
    key.value.push(b'v')?;
    key.metadata.push(property(alloc, "x", "y")?)?;
    Ok(key)
}
