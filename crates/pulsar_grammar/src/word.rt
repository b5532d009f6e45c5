//! The words of a script: numbers, words with escapes, and hex.

ghost use Rattle.std.specs.Prelude.{◌≡◌, ◌==◌, ◌<◌, ◌∷◌, ◌++◌, [], ℕ, List, None, IfOk, IfSome, MatchOption, length, map, position, string_bytes};
ghost use Rattle.std.specs.Option.{option_map};
ghost use Rattle.std.specs.Str.{bytes_eq};
ghost use Rattle.hex.specs.Hex.{hex_digit_value};
ghost use Rattle.pulsar_grammar.specs.Words.{digits_from, escaped, hex, in_range, is_plain, number, optional, small_number, text, unescaped, with_byte, word_bytes, words};
ghost use Rattle.pulsar_grammar.specs.Parsed.{IsWithinLine, more_digits};

use hex::FromHexError;
use pulsar_wire::NoMemory;
use std::alloc::{AllocError, Global};

/// The words of a line, with one blank between.
pub fn words<'a>(alloc: Global, line: &'a [u8]) -> Result<Vec<&'a [u8]>, AllocError>
    ensures { IfOk result (λ ws. map (λ w. w.now) ws.items ≡ words line.now) }
{
    line.split(|b| *b == b' ').collect(alloc)
}

/// The bytes in front of the first line feed, and those behind it.
pub fn cut_line(bytes: &[u8]) -> Option<(&[u8], &[u8])>
    ensures { MatchOption result (IsWithinLine bytes.now) (λ p. IsWithinLine p.0.now
        × (bytes.now ≡ p.0.now ++ 10 ∷ p.1.now) × (length p.1.now < length bytes.now)) }
{
    let at = find(bytes, b'\n')?;
    Some((&bytes[..at], &bytes[at + 1..]))
}

/// The place of the first such byte.
pub fn find(bytes: &[u8], byte: u8) -> Option<usize>
    ensures { result ≡ position (λ b. b == byte) bytes.now }
{
    bytes.iter().position(|b| *b == byte)
}

/// The word is this text.
pub fn is(word: &[u8], text: &str) -> bool
    ensures { result ≡ bytes_eq word.now text.now }
{
    word == text.as_bytes()
}

/// A number: one or more decimal digits, in the range of 64 bits.
pub fn number(word: &[u8]) -> Option<u64>
    ensures { result ≡ number word.now }
{
    if word.is_empty() {
        return None;
    }
    let mut value: u64 = 0;
    let mut rest = word;
    while let Some((digit, after)) = rest.split_first() {
        value = with_digit(value, *digit)?;
        rest = after;
    }
    Some(value)
}

/// One more digit, where it is one and the number stays in range.
fn with_digit(value: u64, digit: u8) -> Option<u64>
    ensures { (ds : List ℕ) → in_range (digits_from value (digit ∷ ds)) ≡ more_digits result ds }
{
    if !digit.is_ascii_digit() {
        return None;
    }
    value.checked_mul(10)?.checked_add(u64::from(digit - b'0'))
}

/// A number of 32 bits.
pub fn small_number(word: &[u8]) -> Option<u32>
    ensures { result ≡ small_number word.now }
{
    u32::try_from(number(word)?).ok()
}

/// A number, or `~` for none.
pub fn optional_number(word: &[u8]) -> Option<Option<u64>>
    ensures { result ≡ optional number word.now }
{
    if is(word, "~") {
        return Some(None);
    }
    Some(Some(number(word)?))
}

/// A text, which is UTF-8.
pub fn text(alloc: Global, word: &[u8]) -> Result<Option<String>, NoMemory>
    ensures { IfOk result (λ t. option_map string_bytes t ≡ text word.now) }
{
    let Some(bytes) = word_bytes(alloc, word)? else {
        return Ok(None);
    };
    match str::from_utf8(&bytes) {
        Ok(text) => Ok(Some(String::from_str(alloc, text)?)),
        Err(_) => Ok(None),
    }
}

/// A text, or `~` for none.
pub fn optional_text(alloc: Global, word: &[u8]) -> Result<Option<Option<String>>, NoMemory>
    ensures { IfOk result (λ t. option_map (option_map string_bytes) t ≡ optional text word.now) }
{
    if is(word, "~") {
        return Ok(Some(None));
    }
    match text(alloc, word)? {
        Some(text) => Ok(Some(Some(text))),
        None => Ok(None),
    }
}

/// Bytes, or `~` for none.
pub fn optional_bytes(alloc: Global, word: &[u8]) -> Result<Option<Option<Vec<u8>>>, NoMemory>
    ensures { IfOk result (λ bytes. option_map (option_map (λ v. v.items)) bytes ≡ optional word_bytes word.now) }
{
    if is(word, "~") {
        return Ok(Some(None));
    }
    match word_bytes(alloc, word)? {
        Some(bytes) => Ok(Some(Some(bytes))),
        None => Ok(None),
    }
}

/// The bytes that a word stands for.
pub fn word_bytes(alloc: Global, word: &[u8]) -> Result<Option<Vec<u8>>, NoMemory>
    ensures { IfOk result (λ bytes. option_map (λ v. v.items) bytes ≡ word_bytes word.now) }
{
    if word.is_empty() {
        return Ok(None);
    }
    if is_empty_word(word) {
        return Ok(Some(Vec::new(alloc)));
    }
    unescaped(alloc, word)
}

/// `%` alone is the empty word.
fn is_empty_word(word: &[u8]) -> bool
    ensures { result ≡ bytes_eq word.now (37 ∷ []) }
{
    matches!(word, [b'%'])
}

fn unescaped(alloc: Global, word: &[u8]) -> Result<Option<Vec<u8>>, NoMemory>
    ensures { IfOk result (λ bytes. option_map (λ v. v.items) bytes ≡ unescaped word.now) }
{
    let mut bytes = Vec::new(alloc);
    let mut rest = word;
    while let Some((b, after)) = rest.split_first() {
        if *b == b'%' {
            let Some((byte, after)) = escaped(after) else {
                return Ok(None);
            };
            bytes.push(byte)?;
            rest = after;
        } else if is_plain(*b) {
            bytes.push(*b)?;
            rest = after;
        } else {
            return Ok(None);
        }
    }
    Ok(Some(bytes))
}

/// The byte of two hex digits, and what follows them.
fn escaped(bytes: &[u8]) -> Option<(u8, &[u8])>
    ensures { MatchOption result (escaped bytes.now ≡ None) (λ p.
        (escaped bytes.now ≡ with_byte p.0 (unescaped p.1.now)) × (length p.1.now < length bytes.now)) }
{
    let (high, rest) = bytes.split_first()?;
    let (low, rest) = rest.split_first()?;
    let high = hex_digit(*high)?;
    let low = hex_digit(*low)?;
    Some((16 * high + low, rest))
}

fn hex_digit(digit: u8) -> Option<u8>
    ensures value { result ≡ hex_digit_value digit }
    ensures small { IfSome result (λ n. n < 16) }
{
    match digit {
        b'0'..=b'9' => Some(digit - b'0'),
        b'a'..=b'f' => Some(digit - b'a' + 10),
        b'A'..=b'F' => Some(digit - b'A' + 10),
        _ => None,
    }
}

/// The byte stands for itself.
fn is_plain(b: u8) -> bool
    ensures { result ≡ is_plain b }
{
    33 <= b && b <= 126
}

/// Bytes as two hex digits each, of either case; there is one byte at least.
pub fn hex_bytes(alloc: Global, word: &[u8]) -> Result<Option<Vec<u8>>, NoMemory>
    ensures { IfOk result (λ bytes. option_map (λ v. v.items) bytes ≡ hex word.now) }
{
    if word.is_empty() {
        return Ok(None);
    }
    match hex::decode(alloc, word) {
        Ok(bytes) => Ok(Some(bytes)),
        Err(FromHexError::OutOfMemory) => Err(NoMemory),
        Err(_) => Ok(None),
    }
}
