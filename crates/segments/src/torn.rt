//! What is torn off a journal's end.
ghost use Rattle.std.specs.Prelude.{◌≡◌, ◌≤◌, ◌+◌, true, false, drop, length};
ghost use Rattle.std.specs.Option.{is_some};
ghost use Rattle.journal.specs.Reading.{frame_at, head_at, long_at};
ghost use Rattle.segments.specs.Torn.{HasFrameBehind, has_frame, is_near};

use crate::version::word_at;
use journal::crc_from;

/// How many bytes stand before a frame's payload.
const HEAD_BYTES: usize = 28;

/// How many of them their own check is of.
const CHECKED_BYTES: usize = 24;

/// Whether a whole frame of a commit after the newest one that is taken begins behind the first of these bytes, which are torn off the
/// journal of a seed. Takes no memory. It reads two numbers at each place, and tests the checks where these may be a frame's.
pub fn has_frame_behind(seed: u32, newest: u64, torn: &[u8]) -> bool
    ensures some { result ≡ true → HasFrameBehind seed newest torn.now }
    ensures none { result ≡ false → HasFrameBehind seed newest torn.now → ⊥ }
{
    let mut at = 1;
    while at < torn.len() {
        let (_, rest) = torn.split_at(at);
        if has_frame(seed, newest, rest) {
            return true;
        }
        at += 1;
    }
    false
}

/// Whether such a frame is at the front of bytes.
fn has_frame(seed: u32, newest: u64, bytes: &[u8]) -> bool
    ensures { result ≡ has_frame seed newest bytes.now }
{
    if bytes.len() < HEAD_BYTES {
        return false;
    }
    is_near(newest, bytes) && is_whole(seed, bytes)
}

/// Whether the numbers in front may be those of such a frame.
fn is_near(newest: u64, bytes: &[u8]) -> bool
    requires { 28 ≤ length bytes.now }
    ensures { result ≡ is_near newest (length bytes.now) (head_at bytes.now).number (head_at bytes.now).synced }
{
    let number = long_at(bytes, 0);
    if number <= newest || long_at(bytes, 8) >= number {
        return false;
    }
    let ahead = number - newest;
    let len = bytes.len() as u64;
    ahead <= len || ahead - len <= newest
}

/// Whether a whole frame is at the front of bytes.
#[tactic(auto, unfolding(journal::specs::Reading::is_head, journal::specs::Reading::body_at, journal::specs::Reading::frame_at))]
fn is_whole(seed: u32, bytes: &[u8]) -> bool
    requires { 28 ≤ length bytes.now }
    ensures { result ≡ is_some (frame_at seed bytes.now) }
{
    let (checked, _) = bytes.split_at(CHECKED_BYTES);
    if crc_from(seed, checked) != word_at(bytes, CHECKED_BYTES) {
        return false;
    }
    let size = word_at(bytes, 16) as usize;
    let (_, body) = bytes.split_at(HEAD_BYTES);
    if body.len() < size {
        return false;
    }
    let (payload, _) = body.split_at(size);
    crc_from(seed, payload) == word_at(bytes, 20)
}

/// The number that the eight bytes from this place on spell.
fn long_at(bytes: &[u8], at: usize) -> u64
    requires { at + 8 ≤ length bytes.now }
    ensures { result ≡ long_at bytes.now at }
{
    u64::from_be_bytes([
        bytes[at],
        bytes[at + 1],
        bytes[at + 2],
        bytes[at + 3],
        bytes[at + 4],
        bytes[at + 5],
        bytes[at + 6],
        bytes[at + 7],
    ])
}
