//! Journals in which a bit turned over: what is recovered is the table before the damaged commit, or a named fault.
use crate::assertions::assert_at;
use crate::cuts::left_with;
use crate::stores::{Recovery, Slots};
use crate::texts::{image_after, whole_in};
use images::ImagesFault;
use journal::HeaderFault;
use pdtcli::Refusal;
use replay::RecoverFault;
use std::alloc::Global;
use std::process::Abort;
use std::test::Fail;
use values::NoMemory;

/// How many bytes a journal's header has.
const HEADER: usize = 36;

/// The bytes, with one bit of a byte turned over.
fn turned(alloc: Global, bytes: &[u8], at: usize, bit: u32) -> Result<Vec<u8>, NoMemory> {
    let mut turned = Vec::with_capacity(alloc, bytes.len())?;
    turned.extend_from_slice(bytes)?;
    if let Some(byte) = turned.get_mut(at) {
        *byte ^= 1_u8.wrapping_shl(bit);
    }
    Ok(turned)
}

/// The fault of a header in which a byte is another one.
fn header_fault(at: usize) -> HeaderFault {
    match at {
        0..4 => HeaderFault::NoJournal,
        4..8 => HeaderFault::UnknownVersion,
        _ => HeaderFault::BadHeader,
    }
}

/// Whether that is what is due of the commits' journal with a damaged byte, over the image of a commit.
fn is_damaged(found: &Recovery, image: usize, at: usize) -> bool {
    if at < HEADER {
        return found.is_refused(Refusal::JournalHeader(header_fault(at)));
    }
    let before = whole_in(at);
    let damaged = (before as u64).wrapping_add(1);
    // A frame tells that the one before it was safe, and none stands behind the fourth.
    if before < 3 {
        return found.is_refused(Refusal::Commits(RecoverFault::Rot(damaged)));
    }
    if before < image {
        return found.is_refused(Refusal::Commits(RecoverFault::Gap(damaged)));
    }
    found.is_table(image_after(before))
}

/// That each bit of the journal that turns over is told, or ends the journal.
fn judge_commits(rt: &impl Abort, alloc: Global, slots: &Slots, image: usize) -> Result<(), Fail> {
    for at in 0..slots.commits().len() {
        for bit in 0..8 {
            let damaged = turned(alloc, slots.commits(), at, bit)?;
            let found = slots.recovered_with(alloc, slots.marks(), damaged.as_slice())?;
            assert_at(rt, is_damaged(&found, image, at), image as u64, at);
        }
    }
    Ok(())
}

#[test]
fn each_bit_of_a_journal_that_turns_over_is_told_or_ends_the_journal(
    rt: HostRuntime,
) -> Result<(), Fail> {
    for image in 0..5_usize {
        let places = 1_u32.wrapping_shl(image as u32);
        let slots = left_with(rt.alloc(), places)?;
        judge_commits(&rt, rt.alloc(), &slots, image)?;
    }
    Ok(())
}

/// Whether that is what is due of two marks with a damaged byte, the second of which is that of the stored image.
fn is_marked_wrong(found: &Recovery, at: usize) -> bool {
    if at < HEADER {
        return found.is_refused(Refusal::ImagesHeader(header_fault(at)));
    }
    if at < 76 {
        return found.is_refused(Refusal::Images(ImagesFault::Rot(1)));
    }
    found.is_refused(Refusal::Images(ImagesFault::Unmarked(2)))
}

#[test]
fn each_bit_of_the_marks_that_turns_over_is_told(rt: HostRuntime) -> Result<(), Fail> {
    let alloc = rt.alloc();
    let slots = left_with(alloc, 4)?;
    for at in 0..slots.marks().len() {
        for bit in 0..8 {
            let damaged = turned(alloc, slots.marks(), at, bit)?;
            let found = slots.recovered_with(alloc, damaged.as_slice(), slots.commits())?;
            assert_at(&rt, is_marked_wrong(&found, at), 4, at);
        }
    }
    Ok(())
}
