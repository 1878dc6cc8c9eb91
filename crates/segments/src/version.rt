//! Journals of later versions.
ghost use Rattle.std.specs.Prelude.{◌≡◌, ◌+◌, ◌≤◌, length};
ghost use Rattle.journal.specs.Reading.{word_at};
ghost use Rattle.segments.specs.Version.{is_later_header};

use journal::crc_from;

/// How many bytes a header has.
const HEADER_BYTES: usize = 36;

/// How many of them its check is of.
const FRONT_BYTES: usize = 32;

/// `NMJ1`, as a number whose highest byte is the first.
const MAGIC: u32 = 0x4e4d_4a31;

/// The one version of the format.
const VERSION: u32 = 1;

/// What the register is before a header's first byte.
const ALL_ONES: u32 = 0xffff_ffff;

/// Whether the bytes begin with a journal's header of a later version, whose check is right: they aren't damaged, though this version
/// doesn't read them. Takes no memory.
pub fn is_later_header(bytes: &[u8]) -> bool
    ensures { result ≡ is_later_header bytes.now }
{
    if bytes.len() < HEADER_BYTES {
        return false;
    }
    let (front, _) = bytes.split_at(FRONT_BYTES);
    word_at(bytes, 0) == MAGIC
        && word_at(bytes, 4) > VERSION
        && word_at(bytes, FRONT_BYTES) == crc_from(ALL_ONES, front)
}

/// The number that the four bytes from this place on spell.
pub(crate) fn word_at(bytes: &[u8], at: usize) -> u32
    requires { at + 4 ≤ length bytes.now }
    ensures { result ≡ word_at bytes.now at }
{
    u32::from_be_bytes([bytes[at], bytes[at + 1], bytes[at + 2], bytes[at + 3]])
}
