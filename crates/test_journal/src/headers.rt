//! Headers, written and read again, cut, damaged, and of no journal.
use journal::{Header, HeaderFault, read_header, write_header};
use std::test::Fail;

/// The header of a journal of the store `fedcba9876543210` behind the commit 6, with the salt `0123456789abcdef`. Its check was worked
/// out bit by bit.
const HEADER: [u8; 36] = [
    0x4e, 0x4d, 0x4a, 0x31, 0, 0, 0, 1, 0x01, 0x23, 0x45, 0x67, 0x89, 0xab, 0xcd, 0xef, 0xfe, 0xdc,
    0xba, 0x98, 0x76, 0x54, 0x32, 0x10, 0, 0, 0, 0, 0, 0, 0, 6, 0x77, 0xa1, 0x12, 0xd2,
];

/// The salt of that header.
const SALT: u64 = 0x0123_4567_89ab_cdef;

/// The store of that header.
const STORE: u64 = 0xfedc_ba98_7654_3210;

/// The seed of that salt, worked out bit by bit.
const SEED: u32 = 0xd08d_f0df;

/// A salt whose seed is 0.
const NO_SALT: u64 = 0x38b4_98b7;

/// Another header, of such a salt, whose check is right.
const NO_SEED: [u8; 36] = [
    0x4e, 0x4d, 0x4a, 0x31, 0, 0, 0, 1, 0, 0, 0, 0, 0x38, 0xb4, 0x98, 0xb7, 0, 0, 0, 0, 0, 0, 0, 1,
    0, 0, 0, 0, 0, 0, 0, 6, 0x08, 0x47, 0x50, 0x23,
];

/// Another, behind the commit 2^63, whose check is right.
const NO_BASE: [u8; 36] = [
    0x4e, 0x4d, 0x4a, 0x31, 0, 0, 0, 1, 0x01, 0x23, 0x45, 0x67, 0x89, 0xab, 0xcd, 0xef, 0, 0, 0, 0,
    0, 0, 0, 1, 0x80, 0, 0, 0, 0, 0, 0, 0, 0x8e, 0x76, 0xf7, 0x9b,
];

/// Why bytes are no header, where they are none.
fn fault_of(bytes: &[u8]) -> Option<HeaderFault> {
    match read_header(bytes) {
        Ok(_) => None,
        Err(fault) => Some(fault),
    }
}

#[test]
fn a_header_has_these_bytes(rt: HostRuntime) -> Result<(), Fail> {
    let mut out = Vec::new(rt.alloc());
    out.push(b'x')?;
    let Some(header) = Header::new(SALT, STORE, 6) else {
        return Err(Fail::new("no header of that salt"));
    };
    write_header(&header, &mut out)?;
    assert!(&rt; out.len() == 37 && out[0] == b'x');
    assert!(&rt; out.get(1..) == Some(HEADER.as_slice()));
    Ok(())
}

#[test]
fn a_header_is_read_with_the_bytes_behind_it(rt: HostRuntime) -> Result<(), Fail> {
    let mut bytes = Vec::new(rt.alloc());
    bytes.extend_from_slice(&HEADER)?;
    bytes.extend_from_slice(b"rest")?;
    let Ok((header, rest)) = read_header(bytes.as_slice()) else {
        return Err(Fail::new("no header at the front"));
    };
    assert!(&rt; header.salt() == SALT && header.store() == STORE);
    assert!(&rt; header.base() == 6 && header.seed() == SEED);
    assert!(&rt; rest == b"rest".as_slice());
    Ok(())
}

#[test]
fn a_salt_of_no_seed_and_a_number_of_no_commit_make_no_header(rt: HostRuntime) -> Result<(), Fail> {
    assert!(&rt; Header::new(NO_SALT, 1, 6).is_none());
    assert!(&rt; Header::new(SALT, 1, 1 << 63).is_none());
    assert!(&rt; Header::new(SALT, 1, (1 << 63) - 1).is_some());
    assert!(&rt; fault_of(NO_SEED.as_slice()) == Some(HeaderFault::BadSeed));
    assert!(&rt; fault_of(NO_BASE.as_slice()) == Some(HeaderFault::BadBase));
    Ok(())
}

#[test]
fn a_header_that_is_cut_is_told(rt: HostRuntime) -> Result<(), Fail> {
    assert!(&rt; fault_of(&[]) == Some(HeaderFault::Empty));
    for size in 1..HEADER.len() {
        assert!(&rt; HEADER.get(..size).and_then(fault_of) == Some(HeaderFault::CutHeader));
    }
    assert!(&rt; fault_of(HEADER.as_slice()).is_none());
    Ok(())
}

/// The fault of a header of which the byte at this place is another.
fn fault_at(at: usize) -> HeaderFault {
    if at < 4 {
        HeaderFault::NoJournal
    } else if at < 8 {
        HeaderFault::UnknownVersion
    } else {
        HeaderFault::BadHeader
    }
}

#[test]
fn each_bit_of_a_header_that_turns_over_is_found(rt: HostRuntime) -> Result<(), Fail> {
    for at in 0..HEADER.len() {
        for bit in 0..8_u32 {
            let mut bytes = HEADER;
            if let Some(byte) = bytes.get_mut(at) {
                *byte ^= 1_u8.wrapping_shl(bit);
            }
            assert!(&rt; fault_of(bytes.as_slice()) == Some(fault_at(at)));
        }
    }
    Ok(())
}
