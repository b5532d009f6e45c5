//! Lines that are sent, and what is printed of them.

use std::alloc::{AllocError, Global};

/// Line i is so many letters.
fn size(i: u64) -> u64 {
    i.wrapping_mul(7919) % 1001
}

fn push_line(text: &mut String, i: u64) -> Result<(), AllocError> {
    for j in 0..size(i) {
        let letter = (i.wrapping_add(j) % 26) as u8;
        text.push(char::from(b'a'.wrapping_add(letter)))?;
    }
    Ok(())
}

/// So many lines of 0 to 1,000 letters.
pub fn lines(alloc: Global, count: u64) -> Result<String, AllocError> {
    let mut text = String::new(alloc);
    for i in 0..count {
        push_line(&mut text, i)?;
        text.push('\n')?;
    }
    Ok(text)
}

/// What `consume` prints of them: a line of no letters is a `%`.
pub fn consumed(alloc: Global, count: u64) -> Result<String, AllocError> {
    let mut text = String::new(alloc);
    for i in 0..count {
        if size(i) == 0 {
            text.push('%')?;
        }
        push_line(&mut text, i)?;
        text.push('\n')?;
    }
    text.push_str(&format!(in alloc; "done {count}\n")?)?;
    Ok(text)
}

/// What `produce` prints of so many lines, the first messages of a topic.
pub fn produced(alloc: Global, count: u64) -> Result<String, AllocError> {
    let mut text = String::new(alloc);
    for i in 0..count {
        text.push_str(&format!(in alloc; "sent 0:{i}\n")?)?;
    }
    text.push_str(&format!(in alloc; "done {count}\n")?)?;
    Ok(text)
}
