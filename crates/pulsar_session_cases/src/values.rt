//! What words stand for.

use crate::stop::Stop;
use crate::words::Words;
use pulsar_session::{Authentication, Connection, ProducerMessage};
use pulsar_wire::{ConnectionError, IoKind, MessageIdData, Mode, NoMemory, SubType};
use std::alloc::Global;
use url::Url;
use uuid::Uuid;

/// A connection that is made with what the words say: the id, the address, the credential, the broker behind the proxy, the
/// two timeouts, the outbound size, the first number and the moment.
pub fn connection(alloc: Global, words: &mut Words<'_>) -> Result<Box<Connection>, Stop> {
    let id = id(words.word())?;
    let url = words.word();
    let auth = optional_credential(alloc, words.optional())?;
    let proxy = optional_text(alloc, words.optional())?;
    let url = address(alloc, url)?;
    Ok(boxed(
        alloc,
        Connection::new(
            alloc,
            id,
            url,
            auth,
            proxy,
            words.number(),
            words.number(),
            words.number() as usize,
            words.number(),
            words.number(),
        ),
    )?)
}

fn boxed(alloc: Global, made: Result<Connection, NoMemory>) -> Result<Box<Connection>, NoMemory> {
    match made {
        Ok(link) => Ok(Box::new(alloc, link)?),
        Err(NoMemory) => Err(NoMemory),
    }
}

fn id(word: &str) -> Result<Uuid, Stop> {
    match Uuid::parse_str(word) {
        Ok(id) => Ok(id),
        Err(_) => Err(Stop::NoForm),
    }
}

fn address(alloc: Global, word: &str) -> Result<Url, Stop> {
    match Url::parse(alloc, word) {
        Ok(url) => Ok(url),
        Err(_) => Err(Stop::NoForm),
    }
}

fn optional_text(alloc: Global, word: Option<&str>) -> Result<Option<String>, NoMemory> {
    match word {
        Some(word) => Ok(Some(String::from_str(alloc, word)?)),
        None => Ok(None),
    }
}

/// A credential, or that there is none.
pub fn optional_credential(
    alloc: Global,
    word: Option<&str>,
) -> Result<Option<Authentication>, NoMemory> {
    match word {
        Some(word) => Ok(Some(credential(alloc, word)?)),
        None => Ok(None),
    }
}

/// A credential: its name and its text, with a colon between.
pub fn credential(alloc: Global, word: &str) -> Result<Authentication, NoMemory> {
    let (name, text) = word.split_once(':').unwrap_or((word, ""));
    Ok(Authentication {
        name: String::from_str(alloc, name)?,
        auth_data: text.as_bytes().to_vec(alloc)?,
    })
}

pub fn mode(words: &mut Words<'_>) -> Mode {
    match words.word() {
        "NonPersistent" => Mode::NonPersistent,
        "All" => Mode::All,
        _ => words.refuse(Mode::Persistent),
    }
}

pub fn sub_type(words: &mut Words<'_>) -> SubType {
    match words.word() {
        "Shared" => SubType::Shared,
        _ => words.refuse(SubType::Exclusive),
    }
}

/// Why a connection is closed.
pub fn cause(words: &mut Words<'_>) -> ConnectionError {
    match words.word() {
        "Io(TimedOut)" => ConnectionError::Io(IoKind::TimedOut),
        "Io(Other)" => ConnectionError::Io(IoKind::Other),
        _ => {
            words.refuse(());
            ConnectionError::Disconnected
        }
    }
}

/// The id of this ledger and this entry.
pub fn message_id(alloc: Global, ledger: u64, entry: u64) -> MessageIdData {
    let mut id = MessageIdData::new(alloc);
    id.ledger_id = ledger;
    id.entry_id = entry;
    id
}

/// This id alone.
pub fn ids(alloc: Global, ledger: u64, entry: u64) -> Result<Vec<MessageIdData>, NoMemory> {
    let mut ids = Vec::new(alloc);
    ids.push(message_id(alloc, ledger, entry))?;
    Ok(ids)
}

/// A message whose payload is this text.
pub fn message(alloc: Global, payload: &str) -> Result<ProducerMessage, NoMemory> {
    let payload = payload.as_bytes().to_vec(alloc)?;
    let mut message = ProducerMessage::new(alloc);
    message.payload = payload;
    Ok(message)
}
