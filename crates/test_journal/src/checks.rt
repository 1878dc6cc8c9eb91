//! The check, by values that others have published.
use journal::crc_from;
use std::test::Fail;

/// CRC-32C as others define it: from all ones, and turned over at the end.
fn crc_32c(bytes: &[u8]) -> u32 {
    crc_from(0xffff_ffff, bytes) ^ 0xffff_ffff
}

/// RFC 3720, section B.4, and the value of the nine digits that all lists of CRCs have.
#[test]
fn the_check_is_that_of_others(rt: HostRuntime) -> Result<(), Fail> {
    assert!(&rt; crc_32c(b"123456789") == 0xe306_9283);
    assert!(&rt; crc_32c(&[0_u8; 32]) == 0x8a91_36aa);
    assert!(&rt; crc_32c(&[0xff_u8; 32]) == 0x62a8_ab43);
    Ok(())
}

#[test]
fn a_check_goes_on_where_another_ended(rt: HostRuntime) -> Result<(), Fail> {
    assert!(&rt; crc_from(crc_from(7, b"1234"), b"56789") == crc_from(7, b"123456789"));
    assert!(&rt; crc_from(7, b"") == 7);
    Ok(())
}
