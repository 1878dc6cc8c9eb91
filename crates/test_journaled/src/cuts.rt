//! Files that are cut at any byte: what is recovered of them is the table after as many commits as are whole.
use crate::assertions::{assert_at, assert_holds};
use crate::stores::{NO_FAILURE, Recovery, Slots, recovered_of, run_script};
use crate::texts::{IMAGES, image_after, script_with, whole_in};
use devices::ReadFault;
use images::ImagesFault;
use journal::HeaderFault;
use pdtcli::Refusal;
use replay::RecoverFault;
use std::alloc::Global;
use std::process::Abort;
use std::test::Fail;

/// How many bytes a journal's header has.
const HEADER: usize = 36;

/// What a run of the four commits leaves, with checkpoints at these places.
pub(crate) fn left_with(alloc: Global, places: u32) -> Result<Slots, Fail> {
    let slots = Slots::new(alloc)?;
    let script = script_with(alloc, places)?;
    let mut out = Vec::new(alloc);
    run_script(
        alloc,
        script.as_str().as_bytes(),
        &slots,
        NO_FAILURE,
        &mut out,
    )?;
    Ok(slots)
}

/// How many commits had made the last image that is stored with checkpoints at these places.
fn stored_at(places: u32) -> usize {
    for place in 0..5_usize {
        let behind = 4_usize.wrapping_sub(place);
        if places.wrapping_shr(behind as u32) % 2 == 1 {
            return behind;
        }
    }
    0
}

/// Whether that is what is due of a header of so many bytes.
fn cut_header(count: usize) -> HeaderFault {
    if count == 0 {
        HeaderFault::Empty
    } else {
        HeaderFault::CutHeader
    }
}

/// Whether that is what is due of the first so many bytes of the commits' journal, over the image of a commit.
fn is_cut(found: &Recovery, image: usize, cut: usize) -> bool {
    if cut < HEADER {
        return found.is_refused(Refusal::JournalHeader(cut_header(cut)));
    }
    let whole = whole_in(cut);
    if whole < image {
        let missing = (whole as u64).wrapping_add(1);
        return found.is_refused(Refusal::Commits(RecoverFault::Gap(missing)));
    }
    found.is_table(image_after(whole))
}

/// That each beginning of the journal is recovered so.
fn judge_cuts(rt: &impl Abort, alloc: Global, places: u32) -> Result<(), Fail> {
    let slots = left_with(alloc, places)?;
    let image = stored_at(places);
    assert_holds(
        rt,
        slots.stored(alloc)?.is_table(image_after(image)),
        "the stored image",
    );
    assert_holds(rt, slots.commits().len() == 322, "the journal's length");
    for cut in 0..=slots.commits().len() {
        let kept = slots.commits().get(..cut).unwrap_or(&[]);
        let found = slots.recovered_with(alloc, slots.marks(), kept)?;
        assert_at(rt, is_cut(&found, image, cut), u64::from(places), cut);
    }
    Ok(())
}

#[test]
fn a_journal_that_is_cut_anywhere_gives_its_whole_commits_over_any_images(
    rt: HostRuntime,
) -> Result<(), Fail> {
    for places in 0..32 {
        judge_cuts(&rt, rt.alloc(), places)?;
    }
    Ok(())
}

/// Whether that is what is due of the first so many bytes of two marks, the second of which is that of the stored image.
fn is_unmarked(found: &Recovery, cut: usize) -> bool {
    if cut < HEADER {
        return found.is_refused(Refusal::ImagesHeader(cut_header(cut)));
    }
    if cut < 116 {
        return found.is_refused(Refusal::Images(ImagesFault::Unmarked(2)));
    }
    found.is_table(IMAGES[4])
}

#[test]
fn marks_that_are_cut_anywhere_say_nothing_of_an_image_that_they_lack(
    rt: HostRuntime,
) -> Result<(), Fail> {
    let alloc = rt.alloc();
    let slots = left_with(alloc, 4)?;
    assert_holds(&rt, slots.marks().len() == 116, "the length of the marks");
    for cut in 0..=slots.marks().len() {
        let kept = slots.marks().get(..cut).unwrap_or(&[]);
        let found = slots.recovered_with(alloc, kept, slots.commits())?;
        assert_at(&rt, is_unmarked(&found, cut), 4, cut);
    }
    Ok(())
}

/// The places in each column behind the first image, and the lengths of the columns with the second one and a clean end.
const COLUMNS: [(usize, usize); 3] = [(44, 86), (35, 77), (44, 86)];

/// That the four commits are recovered with one column cut there, over the second image or over the first; or that there is none.
fn judge_column(
    rt: &impl Abort,
    alloc: Global,
    slots: &Slots,
    column: usize,
    cut: usize,
    first: usize,
) -> Result<(), Fail> {
    let mut columns = slots.columns(alloc)?;
    if let Some(bytes) = columns.get_mut(column) {
        *bytes = bytes.get(..cut).unwrap_or(&[]);
    }
    let found = recovered_of(alloc, columns.as_slice(), slots.marks(), slots.commits())?;
    let is_due = if cut < first {
        found.is_refused(Refusal::Columns(ReadFault::NoImage))
    } else {
        found.is_table(IMAGES[4])
    };
    assert_at(rt, is_due, column as u64, cut);
    Ok(())
}

#[test]
fn a_column_that_is_cut_anywhere_gives_all_commits_over_an_image_that_is_whole(
    rt: HostRuntime,
) -> Result<(), Fail> {
    let alloc = rt.alloc();
    let slots = left_with(alloc, 4)?;
    for (column, (first, size)) in COLUMNS.iter().enumerate() {
        let columns = slots.columns(alloc)?;
        let found = columns.get(column).map(|bytes| bytes.len());
        assert_holds(&rt, found == Some(*size), "the length of a column");
        for cut in 0..=*size {
            judge_column(&rt, alloc, &slots, column, cut, *first)?;
        }
    }
    Ok(())
}
