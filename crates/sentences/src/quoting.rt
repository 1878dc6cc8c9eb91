//! What a sentence shows of a text, which may be any bytes of any length: in quotes, with escapes, and cut where it is long.
ghost use Rattle.std.specs.Prelude.{◌≡◌, ◌≤◌, ◌+◌, ◌∷◌, IfOk, chars, length, map, string_bytes};
ghost use Rattle.std.specs.List.{list_all};
ghost use Rattle.std.specs.Str.{is_utf8};
ghost use Rattle.sentences.specs.Quoting.{cut, escaped, escaped_byte, escaped_hidden, is_hidden, is_within, is_word, is_word_byte, label, quoted};

use std::alloc::Global;
use values::NoMemory;

/// How many bytes a sentence shows of a text: a column's name has as many at most.
pub(crate) const ROOM: usize = 64;

/// How many it shows of each name and each cell of a key, of which there may be four.
pub(crate) const KEY_ROOM: usize = 24;

/// The text in quotes, of at most so many bytes beside them; an ellipsis behind the quotes says that it was cut.
pub(crate) fn quoted(alloc: Global, room: usize, bytes: &[u8]) -> Result<String, NoMemory>
    ensures text { IfOk result (λ text. string_bytes text ≡ quoted room bytes.now) }
    ensures short { IfOk result (λ text. length (string_bytes text) ≤ room + 5) }
{
    match str::from_utf8(bytes) {
        Ok(text) => quoted_text(alloc, room, text),
        Err(_) => quoted_bytes(alloc, room, bytes),
    }
}

/// Whether the bytes are a text.
pub(crate) fn is_text(bytes: &[u8]) -> bool
    ensures { result ≡ is_utf8 bytes.now }
{
    match str::from_utf8(bytes) {
        Ok(_) => true,
        Err(_) => false,
    }
}

/// The text as it stands where it is a short word, and otherwise in quotes.
pub(crate) fn label(alloc: Global, room: usize, bytes: &[u8]) -> Result<String, NoMemory>
    ensures { IfOk result (λ text. string_bytes text ≡ label room bytes.now) }
{
    if !is_word(room, bytes) {
        return quoted(alloc, room, bytes);
    }
    match str::from_utf8(bytes) {
        Ok(text) => Ok(String::from_str(alloc, text)?),
        Err(_) => quoted_bytes(alloc, room, bytes),
    }
}

/// Whether the text is a word of at most so many bytes.
fn is_word(room: usize, bytes: &[u8]) -> bool
    ensures { result ≡ is_word room bytes.now }
{
    if bytes.is_empty() {
        return false;
    }
    if bytes.len() > room {
        return false;
    }
    has_word_bytes(bytes)
}

fn has_word_bytes(bytes: &[u8]) -> bool
    ensures { result ≡ list_all is_word_byte bytes.now }
{
    bytes.iter().all(|byte| is_word_byte(*byte))
}

fn is_word_byte(byte: u8) -> bool
    ensures { result ≡ is_word_byte byte }
{
    byte.is_ascii_alphanumeric() || byte == b'_' || byte == b'-' || byte == b'+'
}

/// The same of a text.
fn quoted_text(alloc: Global, room: usize, text: &str) -> Result<String, NoMemory>
    ensures { IfOk result (λ shown. string_bytes shown ≡ 34 ∷ cut room (map escaped (chars text.now))) }
{
    let mut shown = String::from_str(alloc, "\"")?;
    let mut left = room;
    for c in text.chars() {
        let piece = escaped(alloc, c)?;
        if left < piece.len() {
            shown.push_str("\"...")?;
            return Ok(shown);
        }
        shown.push_str(piece.as_str())?;
        left -= piece.len();
    }
    shown.push_str("\"")?;
    Ok(shown)
}

/// The same of bytes that are no text.
fn quoted_bytes(alloc: Global, room: usize, bytes: &[u8]) -> Result<String, NoMemory>
    ensures { IfOk result (λ shown. string_bytes shown ≡ 34 ∷ cut room (map escaped_byte bytes.now)) }
{
    let mut shown = String::from_str(alloc, "\"")?;
    let mut left = room;
    for byte in bytes {
        let piece = escaped_byte(alloc, *byte)?;
        if left < piece.len() {
            shown.push_str("\"...")?;
            return Ok(shown);
        }
        shown.push_str(piece.as_str())?;
        left -= piece.len();
    }
    shown.push_str("\"")?;
    Ok(shown)
}

/// A byte of what is no text: one above ASCII by its number.
fn escaped_byte(alloc: Global, byte: u8) -> Result<String, NoMemory>
    ensures { IfOk result (λ text. string_bytes text ≡ escaped_byte byte) }
{
    if byte.is_ascii() {
        escaped(alloc, char::from(byte))
    } else {
        Ok(format!(in alloc; "\\x{:x}", byte)?)
    }
}

/// A character as it stands, or as an escape.
fn escaped(alloc: Global, c: char) -> Result<String, NoMemory>
    ensures { IfOk result (λ text. string_bytes text ≡ escaped c) }
{
    match c {
        '"' => Ok(String::from_str(alloc, "\\\"")?),
        '\\' => Ok(String::from_str(alloc, "\\\\")?),
        '\n' => Ok(String::from_str(alloc, "\\n")?),
        '\r' => Ok(String::from_str(alloc, "\\r")?),
        '\t' => Ok(String::from_str(alloc, "\\t")?),
        _ => escaped_hidden(alloc, c),
    }
}

/// The same, but for those that have an escape of their own.
fn escaped_hidden(alloc: Global, c: char) -> Result<String, NoMemory>
    ensures { IfOk result (λ text. string_bytes text ≡ escaped_hidden c) }
{
    if is_hidden(c) {
        return Ok(format!(in alloc; "\\u{{{:x}}}", c as u32)?);
    }
    let mut text = String::new(alloc);
    text.push(c)?;
    Ok(text)
}

/// Whether a character isn't seen, or turns the direction of those that follow: a control, or a mark of Unicode's that has no width.
fn is_hidden(c: char) -> bool
    ensures { result ≡ is_hidden c }
{
    let number = c as u32;
    number < 0x20
        || is_within(number, 0x7f, 0x9f)
        || number == 0xad
        || is_within(number, 0x200b, 0x200f)
        || is_within(number, 0x2028, 0x202e)
        || is_within(number, 0x2060, 0x206f)
        || number == 0xfeff
        || is_within(number, 0xe_0000, 0xe_007f)
}

fn is_within(number: u32, first: u32, last: u32) -> bool
    ensures { result ≡ is_within number first last }
{
    first <= number && number <= last
}
