//! Numbers and names at the front of bytes, each with the bytes after it.
ghost use Rattle.std.specs.Prelude.{◌≡◌, ◌≤◌, ◌<◌, ◌*◌, ◌+◌, ◌-◌, IfSome, SomeIff, length, option_map};
ghost use Rattle.manifest.specs.Reading.{after_word, byte_at, digit_at, digits_at, flag_at, line_end, long_at, name_at, number_at, number_from, seen, short_at, word_at};

use crate::names::MAX_NAME;

/// What ends a line.
const LINE_FEED: u8 = b'\n';

/// The bytes after a word that is in front.
pub(crate) fn after_word<'a>(bytes: &'a [u8], word: &[u8]) -> Option<&'a [u8]>
    ensures { option_map (λ rest. rest.now) result ≡ after_word word.now bytes.now }
{
    bytes.strip_prefix(word)
}

/// A decimal number without a zero before it, at most so great, and what ends it.
#[tactic(auto, unfolding(crate::specs::Reading::number_at))]
pub(crate) fn number_at(bytes: &[u8], most: u64, end: u8) -> Option<(u64, &[u8])>
    ensures read { seen (λ n. n) result ≡ number_at most end bytes.now }
    ensures small { IfSome result (λ found. found.0 ≤ most) }
{
    let (number, rest) = digits_at(bytes, most)?;
    let rest = after_word(rest, &[end])?;
    Some((number, rest))
}

/// The number that is in front. A byte that is no digit follows.
#[tactic(auto, unfolding(crate::specs::Reading::digits_at))]
fn digits_at(bytes: &[u8], most: u64) -> Option<(u64, &[u8])>
    ensures read { seen (λ n. n) result ≡ digits_at most bytes.now }
    ensures small { IfSome result (λ found. found.0 ≤ most) }
{
    match bytes {
        [] => None,
        [b'0', rest @ ..] => Some((0, rest)),
        [first, ..] if first.is_ascii_digit() => number_from(bytes, most),
        [_, ..] => None,
    }
}

/// The number that the digits in front write.
fn number_from(bytes: &[u8], most: u64) -> Option<(u64, &[u8])>
    ensures read { seen (λ n. n) result ≡ number_from most 0 bytes.now }
    ensures small { IfSome result (λ found. found.0 ≤ most) }
{
    let mut number = 0u64;
    let mut rest = bytes;
    while !rest.is_empty() {
        if !rest[0].is_ascii_digit() {
            return Some((number, rest));
        }
        let Some(next) = with_digit(number, rest[0], most) else {
            return None;
        };
        number = next;
        let (_, after) = rest.split_at(1);
        rest = after;
    }
    None
}

/// The number with a digit more, where it is at most so great.
fn with_digit(number: u64, digit: u8, most: u64) -> Option<u64>
    requires { (48 ≤ digit) × (digit ≤ 57) }
    ensures { SomeIff result (number * 10 + (digit - 48) ≤ most) (number * 10 + (digit - 48)) }
{
    let tens = number.checked_mul(10)?;
    let next = tens.checked_add(u64::from(digit - b'0'))?;
    if next <= most { Some(next) } else { None }
}

/// Whether, and a space.
#[tactic(auto, unfolding(crate::specs::Reading::flag_at))]
pub(crate) fn flag_at(bytes: &[u8]) -> Option<(bool, &[u8])>
    ensures { seen (λ b. b) result ≡ flag_at bytes.now }
{
    let (number, rest) = number_at(bytes, 1, b' ')?;
    Some((number == 1, rest))
}

/// A hexadecimal digit, which is no capital.
#[tactic(auto, unfolding(crate::specs::Reading::digit_at))]
fn digit_at(bytes: &[u8]) -> Option<(u8, &[u8])>
    ensures read { seen (λ n. n) result ≡ digit_at bytes.now }
    ensures small { IfSome result (λ found. found.0 < 16) }
{
    match bytes {
        [digit @ b'0'..=b'9', rest @ ..] => Some((*digit - b'0', rest)),
        [digit @ b'a'..=b'f', rest @ ..] => Some((*digit - 87, rest)),
        _ => None,
    }
}

/// Two of them.
#[tactic(auto, unfolding(crate::specs::Reading::byte_at))]
fn byte_at(bytes: &[u8]) -> Option<(u8, &[u8])>
    ensures { seen (λ n. n) result ≡ byte_at bytes.now }
{
    let (high, rest) = digit_at(bytes)?;
    let (low, rest) = digit_at(rest)?;
    Some((high * 16 + low, rest))
}

/// Four of them.
#[tactic(auto, unfolding(crate::specs::Reading::short_at))]
fn short_at(bytes: &[u8]) -> Option<(u16, &[u8])>
    ensures { seen (λ n. n) result ≡ short_at bytes.now }
{
    let (high, rest) = byte_at(bytes)?;
    let (low, rest) = byte_at(rest)?;
    Some((u16::from(high) * 256 + u16::from(low), rest))
}

/// Eight of them.
#[tactic(auto, unfolding(crate::specs::Reading::word_at))]
pub(crate) fn word_at(bytes: &[u8]) -> Option<(u32, &[u8])>
    ensures { seen (λ n. n) result ≡ word_at bytes.now }
{
    let (high, rest) = short_at(bytes)?;
    let (low, rest) = short_at(rest)?;
    Some((u32::from(high) * 65_536 + u32::from(low), rest))
}

/// Sixteen of them.
#[tactic(auto, unfolding(crate::specs::Reading::long_at))]
pub(crate) fn long_at(bytes: &[u8]) -> Option<(u64, &[u8])>
    ensures { seen (λ n. n) result ≡ long_at bytes.now }
{
    let (high, rest) = word_at(bytes)?;
    let (low, rest) = word_at(rest)?;
    Some((u64::from(high) * 4_294_967_296 + u64::from(low), rest))
}

/// A name, up to the end of its line.
#[tactic(auto, unfolding(crate::specs::Reading::name_at))]
pub(crate) fn name_at(bytes: &[u8]) -> Option<(&[u8], &[u8])>
    ensures { seen (λ name. name.now) result ≡ name_at bytes.now }
{
    let end = line_end(bytes)?;
    if 1 <= end && end <= MAX_NAME {
        Some((&bytes[..end], &bytes[end + 1..]))
    } else {
        None
    }
}

/// How many bytes are before the end of the line, where no zero is among them.
fn line_end(bytes: &[u8]) -> Option<usize>
    ensures read { result ≡ line_end bytes.now }
    ensures within { IfSome result (λ end. end < length bytes.now) }
{
    let mut at = 0;
    while at < bytes.len() {
        if bytes[at] == LINE_FEED {
            return Some(at);
        }
        if bytes[at] == 0 {
            return None;
        }
        at += 1;
    }
    None
}
