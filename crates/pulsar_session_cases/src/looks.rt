//! What is seen of a connection.

use crate::events;
use crate::stop::Stop;
use crate::texts::{digits, told};
use crate::words::Words;
use pulsar_session::Connection;
use pulsar_session::states::Stage;
use std::alloc::Global;

/// The answer to a call of a connection.
pub fn answer(
    alloc: Global,
    link: &mut Connection,
    call: &str,
    words: &mut Words<'_>,
) -> Result<String, Stop> {
    match call {
        "due" => told(alloc, &link.due(words.number())),
        "due_at" => told(alloc, &link.due_at()),
        "overdue" => told(alloc, &link.overdue(words.number(), words.number())),
        "is_idle" => told(alloc, &link.is_idle()),
        "is_valid" => told(alloc, &link.is_valid()),
        "queued" => told(alloc, &link.queued()),
        "standing" => told(alloc, &link.standing()),
        _ => text(alloc, link, call, words),
    }
}

fn text(
    alloc: Global,
    link: &mut Connection,
    call: &str,
    words: &mut Words<'_>,
) -> Result<String, Stop> {
    match call {
        "id" => Ok(link.id().to_string(alloc)?),
        "url" => Ok(String::from_str(alloc, link.url().as_str())?),
        "error" => told(alloc, &link.error()),
        "stage" => Ok(String::from_str(alloc, name_of(link.stage()))?),
        "waiting" => told(alloc, &link.waiting()?),
        "frame" => match link.frame(words.number()) {
            Some(frame) => digits(alloc, frame),
            None => Ok(String::from_str(alloc, "None")?),
        },
        _ => events::answer(alloc, link, call, words),
    }
}

fn name_of(stage: Stage) -> &'static str {
    match stage {
        Stage::Dialing => "Dialing",
        Stage::Handshaking => "Handshaking",
        Stage::Ready => "Ready",
        Stage::Over => "Over",
    }
}
