//! Copies of what fields hold.

ghost use Rattle.std.specs.Prelude.{◌≡◌, map, IfOk};
ghost use Rattle.std.specs.Option.{option_map};

use crate::encoding::message::Message;
use crate::encoding::plain::Plain;
use std::alloc::AllocError;

/// A copy of a value that may be absent.
pub fn copy_optional<P: Plain>(value: &Option<P>) -> Result<Option<P>, AllocError>
    ensures { IfOk result (λ copy. option_map P.content_of copy ≡ option_map P.content_of value.now) }
{
    match value {
        Some(value) => Ok(Some(value.copy()?)),
        None => Ok(None),
    }
}

/// A copy of any number of values.
pub fn copy_values<P: Plain>(values: &Vec<P>) -> Result<Vec<P>, AllocError>
    ensures { IfOk result (λ copies. map P.content_of copies.items ≡ map P.content_of values.now.items) }
{
    let mut copies = Vec::with_capacity(*values.allocator(), values.len())?;
    for value in values {
        copies.push(value.copy()?)?;
    }
    Ok(copies)
}

/// A copy of a message that may be absent.
pub fn copy_message<M: Message>(message: &Option<M>) -> Result<Option<M>, AllocError>
    ensures { IfOk result (λ copy. option_map M.values copy ≡ option_map M.values message.now) }
{
    match message {
        Some(message) => Ok(Some(message.duplicate()?)),
        None => Ok(None),
    }
}

/// A copy of any number of messages.
pub fn copy_messages<M: Message>(messages: &Vec<M>) -> Result<Vec<M>, AllocError>
    ensures { IfOk result (λ copies. map M.values copies.items ≡ map M.values messages.now.items) }
{
    let mut copies = Vec::with_capacity(*messages.allocator(), messages.len())?;
    for message in messages {
        copies.push(message.duplicate()?)?;
    }
    Ok(copies)
}
