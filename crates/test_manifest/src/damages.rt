//! A manifest that is cut, or of which a bit is another one.
use crate::worked::ITEMS;
use manifest::{ManifestFault, read_manifest};
use std::alloc::Global;
use std::test::Fail;

/// Whether the bytes are refused as damaged.
pub(crate) fn is_damaged(alloc: Global, bytes: &[u8]) -> bool {
    matches!(read_manifest(alloc, bytes), Err(ManifestFault::Damaged))
}

#[test]
fn a_manifest_that_is_cut_anywhere_is_damaged(rt: HostRuntime) -> Result<(), Fail> {
    for cut in 0..ITEMS.len() {
        let (front, _) = ITEMS.split_at(cut);
        assert!(&rt; is_damaged(rt.alloc(), front));
    }
    Ok(())
}

#[test]
fn a_changed_bit_is_found(rt: HostRuntime) -> Result<(), Fail> {
    let alloc = rt.alloc();
    for at in 0..ITEMS.len() {
        for bit in 0..8_u32 {
            let mut bytes = Vec::from_slice(alloc, ITEMS)?;
            if let Some(byte) = bytes.get_mut(at) {
                *byte ^= 1_u8 << bit;
            }
            assert!(&rt; is_damaged(alloc, bytes.as_slice()));
        }
    }
    Ok(())
}

#[test]
fn bytes_after_the_last_line_are_damage(rt: HostRuntime) -> Result<(), Fail> {
    let alloc = rt.alloc();
    let mut bytes = Vec::from_slice(alloc, ITEMS)?;
    bytes.push(b'\n')?;
    assert!(&rt; is_damaged(alloc, bytes.as_slice()));
    Ok(())
}
