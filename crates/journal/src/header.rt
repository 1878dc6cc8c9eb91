//! The header of a journal: whose it is, after which commit it begins, and the salt of its checks.
ghost use Rattle.std.specs.Prelude.{◌≡◌, ◌≢◌, ◌+◌, ◌≤◌, ◌++◌, length, OnErr, OnOk};
ghost use Rattle.journal.specs.Check.{crc};
ghost use Rattle.journal.specs.Header.{all_ones, front_bytes, header_bytes, header_in, header_now, header_with, seed_of};
ghost use Rattle.journal.specs.Reading.{long_at, word_at};

use crate::check::crc_from;
use crate::fault::HeaderFault;
use crate::room::put_behind;
use std::marker::Model;
use values::NoMemory;

/// How many bytes a header has.
const HEADER_BYTES: usize = 36;

/// How many of them its check is of.
const FRONT_BYTES: usize = 32;

/// `NMJ1`, as a number whose highest byte is the first.
const MAGIC: u32 = 0x4e4d_4a31;

/// The one version of the format.
const VERSION: u32 = 1;

/// What the register is before a header's first byte.
const ALL_ONES: u32 = 0xffff_ffff;

/// The least number that no commit has: the numbers of all and sums of two of them fit 64 bits.
pub const NUMBER_LIMIT: u64 = 1 << 63;

/// The header of a journal. Its seed isn't 0, so that zeros are no frames of it.
#[derive(Drop)]
pub struct Header {
    salt: u64,
    store: u64,
    base: u64,
}

impl Model for Header {
    ghost use Rattle.journal.specs.Header.{HeaderFields, IsHeader};

    ghost Value = { HeaderFields };

    ghost view = { λ h. record { salt = h.salt; store = h.store; base = h.base } };

    ghost invariant = { λ h. IsHeader (record { salt = h.salt; store = h.store; base = h.base }) };
}

impl Header {
    /// The header of a journal with this salt, of the store with this name, whose first frame comes after the commit `base`. There is
    /// none where the seed of the salt is 0, so that another salt is to be drawn, or the base is 2^63 or more.
    #[tactic(auto, unfolding(crate::specs::Header::header_with))]
    pub fn new(salt: u64, store: u64, base: u64) -> Option<Header>
        ensures { result ≡ header_with salt store base }
    {
        if seed_of(salt) == 0 {
            return None;
        }
        if base >= NUMBER_LIMIT {
            return None;
        }
        Some(Header { salt, store, base })
    }

    /// The salt of its checks.
    pub fn salt(&self) -> u64
        ensures { result ≡ self.now.salt }
    {
        self.salt
    }

    /// The name of the store that it is of.
    pub fn store(&self) -> u64
        ensures { result ≡ self.now.store }
    {
        self.store
    }

    /// The number of the commit before its first frame.
    pub fn base(&self) -> u64
        ensures { result ≡ self.now.base }
    {
        self.base
    }

    /// The seed of its frames.
    pub fn seed(&self) -> u32
        ensures seed { result ≡ seed_of self.now.salt }
        ensures some { result ≢ 0 }
    {
        seed_of(self.salt)
    }
}

/// The seed of the frames of a journal with this salt.
#[tactic(auto, unfolding(crate::specs::Header::seed_of))]
pub fn seed_of(salt: u64) -> u32
    ensures { result ≡ seed_of salt }
{
    crc_from(ALL_ONES, &salt.to_be_bytes())
}

/// Appends a header.
///
/// # Errors
///
/// `NoMemory` where a growth is refused: the bytes are as they were.
pub fn write_header(header: &Header, out: &mut Vec<u8>) -> Result<(), NoMemory>
    ensures ok { OnOk result (out.new.items ≡ out.old.items ++ header_bytes header.now) }
    ensures err { OnErr result (out.new.items ≡ out.old.items) }
{
    Ok(out.extend_from_slice(&spelt_header(header))?)
}

/// The bytes of a header. Takes no memory.
pub fn spelt_header(header: &Header) -> [u8; HEADER_BYTES]
    ensures { result ≡ header_bytes header.now }
{
    let mut bytes = [0; HEADER_BYTES];
    let end = put_behind(&mut bytes, 0, &MAGIC.to_be_bytes());
    let end = put_behind(&mut bytes, end, &VERSION.to_be_bytes());
    let end = put_behind(&mut bytes, end, &header.salt().to_be_bytes());
    let end = put_behind(&mut bytes, end, &header.store().to_be_bytes());
    let end = put_behind(&mut bytes, end, &header.base().to_be_bytes());
    put_behind(&mut bytes, end, &check_of(header).to_be_bytes());
    bytes
}

/// The check of a header.
fn check_of(header: &Header) -> u32
    ensures { result ≡ crc all_ones (front_bytes header.now) }
{
    let register = crc_from(ALL_ONES, &MAGIC.to_be_bytes());
    let register = crc_from(register, &VERSION.to_be_bytes());
    let register = crc_from(register, &header.salt().to_be_bytes());
    let register = crc_from(register, &header.store().to_be_bytes());
    crc_from(register, &header.base().to_be_bytes())
}

/// The header at the front of the bytes, and the bytes after it. Takes no memory.
///
/// # Errors
///
/// The first that holds, in the order of the variants of `HeaderFault`.
#[tactic(auto, unfolding(crate::specs::Header::header_in, crate::specs::Header::header_with))]
pub fn read_header(bytes: &[u8]) -> Result<(Header, &[u8]), HeaderFault>
    ensures { header_now result ≡ header_in bytes.now }
{
    if bytes.is_empty() {
        return Err(HeaderFault::Empty);
    }
    if bytes.len() < HEADER_BYTES {
        return Err(HeaderFault::CutHeader);
    }
    if word_at(bytes, 0) != MAGIC {
        return Err(HeaderFault::NoJournal);
    }
    if word_at(bytes, 4) != VERSION {
        return Err(HeaderFault::UnknownVersion);
    }
    let (front, _) = bytes.split_at(FRONT_BYTES);
    if word_at(bytes, FRONT_BYTES) != crc_from(ALL_ONES, front) {
        return Err(HeaderFault::BadHeader);
    }
    let salt = long_at(bytes, 8);
    if seed_of(salt) == 0 {
        return Err(HeaderFault::BadSeed);
    }
    let Some(header) = Header::new(salt, long_at(bytes, 16), long_at(bytes, 24)) else {
        return Err(HeaderFault::BadBase);
    };
    let (_, rest) = bytes.split_at(HEADER_BYTES);
    Ok((header, rest))
}

/// The number that the four bytes from this place on spell.
fn word_at(bytes: &[u8], at: usize) -> u32
    requires { at + 4 ≤ length bytes.now }
    ensures { result ≡ word_at bytes.now at }
{
    u32::from_be_bytes([bytes[at], bytes[at + 1], bytes[at + 2], bytes[at + 3]])
}

/// The number that the eight bytes from this place on spell.
fn long_at(bytes: &[u8], at: usize) -> u64
    requires { at + 8 ≤ length bytes.now }
    ensures { result ≡ long_at bytes.now at }
{
    u64::from_be_bytes([
        bytes[at],
        bytes[at + 1],
        bytes[at + 2],
        bytes[at + 3],
        bytes[at + 4],
        bytes[at + 5],
        bytes[at + 6],
        bytes[at + 7],
    ])
}
