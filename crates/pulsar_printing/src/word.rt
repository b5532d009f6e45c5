//! Printed words and bytes.

ghost use Rattle.std.specs.Prelude.{◌≡◌, ◌∷◌, ◌<◌, ◌++◌, OnOk, string_bytes};
ghost use Rattle.pulsar_printing.specs.WordText.{hex, is_printed, printed, upper_digit, word};

use std::alloc::AllocError;

/// Letters, digits and `-._/:` are printed as they are.
fn is_printed(b: u8) -> bool
    ensures { result ≡ is_printed b }
{
    matches!(b, b'0'..=b'9' | b'A'..=b'Z' | b'a'..=b'z' | b'-' | b'.' | b'_' | b'/' | b':')
}

fn upper_digit(n: u8) -> u8
    requires { n < 16 }
    ensures value { result ≡ upper_digit n }
    ensures ascii { result < 128 }
{
    if n < 10 { b'0' + n } else { b'A' + (n - 10) }
}

/// A byte of a word.
fn push_byte(out: &mut String, b: u8) -> Result<(), AllocError>
    ensures { OnOk result (string_bytes out.new ≡ string_bytes out.old ++ printed b) }
{
    if is_printed(b) {
        return out.push(char::from(b));
    }
    out.push('%')?;
    out.push(char::from(upper_digit(b / 16)))?;
    out.push(char::from(upper_digit(b % 16)))
}

/// A word. The empty one is `%`.
pub fn push_word(out: &mut String, bytes: &[u8]) -> Result<(), AllocError>
    ensures { OnOk result (string_bytes out.new ≡ string_bytes out.old ++ word bytes.now) }
{
    if bytes.is_empty() {
        return out.push('%');
    }
    for b in bytes {
        push_byte(out, *b)?;
    }
    Ok(())
}

/// Bytes in hex. None are `%`.
pub fn push_hex(out: &mut String, bytes: &[u8]) -> Result<(), AllocError>
    ensures { OnOk result (string_bytes out.new ≡ string_bytes out.old ++ hex bytes.now) }
{
    if bytes.is_empty() {
        return out.push('%');
    }
    let text = hex::encode(*out.allocator(), bytes)?;
    out.push_str(&text)
}
