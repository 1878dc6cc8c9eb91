//! Files of a store that are refused: with which fault, and which of several is told.
use crate::assertions::{assert_at, assert_holds};
use crate::cuts::left_with;
use crate::stores::{
    COMMITS_SALT, IMAGES_SALT, NO_FAILURE, STORE, Setting, Slots, header_of, recovered_of,
    run_setting,
};
use crate::texts::{ENDS, IMAGES};
use codec::PayloadFault;
use devices::ReadFault;
use images::ImagesFault;
use journal::{Frame, HeaderFault, crc_from, write_frame};
use pdtcli::Refusal;
use replay::RecoverFault;
use std::alloc::Global;
use std::process::Abort;
use std::test::Fail;
use values::NoMemory;

/// The bytes of two files, one behind the other.
fn joined(alloc: Global, front: &[u8], back: &[u8]) -> Result<Vec<u8>, NoMemory> {
    let mut bytes = Vec::new(alloc);
    bytes.extend_from_slice(front)?;
    bytes.extend_from_slice(back)?;
    Ok(bytes)
}

/// The frames of the commits' journal from that of a number on.
fn frames_from(slots: &Slots, number: usize) -> &[u8] {
    let begin = match ENDS.get(number.wrapping_sub(1)) {
        Some(begin) => *begin,
        None => 0,
    };
    slots.commits().get(begin..).unwrap_or(&[])
}

/// The bytes of files that are refused.
#[derive(Clone, Copy)]
struct Files<'a> {
    slots: &'a Slots,
    /// A header of marks alone, and one of the commits of another store, and one of a journal that begins later.
    bare: &'a [u8],
    other: &'a [u8],
    late: &'a [u8],
}

/// That these bytes are refused so.
fn judge_refused(
    rt: &impl Abort,
    alloc: Global,
    columns: &[&[u8]],
    (images, commits): (&[u8], &[u8]),
    refusal: Refusal,
) -> Result<(), Fail> {
    let found = recovered_of(alloc, columns, images, commits)?;
    assert_holds(rt, found.is_refused(refusal), "the first fault");
    Ok(())
}

/// That of files without any column the first fault of the journals is told, and then that of the columns.
fn judge_journals(rt: &impl Abort, alloc: Global, files: Files<'_>) -> Result<(), Fail> {
    let cut = files.slots.commits().get(..35).unwrap_or(&[]);
    let empty: &[u8] = &[];
    let none = ReadFault::WrongCount;
    for (images, commits, refusal) in [
        (empty, cut, Refusal::ImagesHeader(HeaderFault::Empty)),
        (
            files.bare,
            cut,
            Refusal::JournalHeader(HeaderFault::CutHeader),
        ),
        (files.bare, files.other, Refusal::OtherStore),
        (files.bare, files.late, Refusal::Columns(none)),
    ] {
        judge_refused(rt, alloc, &[], (images, commits), refusal)?;
    }
    Ok(())
}

/// That of files with an image the fault of the marks is told, and then that of the commits.
fn judge_frames(rt: &impl Abort, alloc: Global, files: Files<'_>) -> Result<(), Fail> {
    let columns = files.slots.columns(alloc)?;
    for (images, refusal) in [
        (files.bare, Refusal::Images(ImagesFault::Unmarked(1))),
        (files.slots.marks(), Refusal::Commits(RecoverFault::Gap(1))),
    ] {
        judge_refused(rt, alloc, columns.as_slice(), (images, files.late), refusal)?;
    }
    Ok(())
}

#[test]
fn the_first_refused_file_is_told(rt: HostRuntime) -> Result<(), Fail> {
    let alloc = rt.alloc();
    let bare = header_of(alloc, IMAGES_SALT, STORE, 0)?;
    let other = header_of(alloc, COMMITS_SALT, STORE ^ 1, 0)?;
    let late = header_of(alloc, COMMITS_SALT, STORE, 2)?;
    let slots = left_with(alloc, 0)?;
    let files = Files {
        slots: &slots,
        bare: bare.as_slice(),
        other: other.as_slice(),
        late: late.as_slice(),
    };
    judge_journals(&rt, alloc, files)?;
    judge_frames(&rt, alloc, files)
}

#[test]
fn journals_of_two_stores_are_refused(rt: HostRuntime) -> Result<(), Fail> {
    let alloc = rt.alloc();
    let slots = left_with(alloc, 0)?;
    for bit in 0..64 {
        let store = STORE ^ 1_u64.wrapping_shl(bit);
        let header = header_of(alloc, COMMITS_SALT, store, 0)?;
        let commits = joined(alloc, header.as_slice(), frames_from(&slots, 1))?;
        let found = slots.recovered_with(alloc, slots.marks(), commits.as_slice())?;
        assert_at(
            &rt,
            found.is_refused(Refusal::OtherStore),
            u64::from(bit),
            0,
        );
    }
    Ok(())
}

#[test]
fn columns_without_an_image_are_refused(rt: HostRuntime) -> Result<(), Fail> {
    let alloc = rt.alloc();
    let slots = left_with(alloc, 0)?;
    let none = Refusal::Columns(ReadFault::NoImage);
    let headers: [&[u8]; 3] = [
        &[0x48, 2, 1, 0x45],
        &[0x48, 2, 2, 0x45],
        &[0x48, 2, 1, 0x45],
    ];
    for columns in [headers, [&[], &[], &[]]] {
        let found = recovered_of(alloc, &columns, slots.marks(), slots.commits())?;
        assert!(&rt; found.is_refused(none));
    }
    Ok(())
}

/// A journal of a base, behind whose header the frames of the commits from a number on are; the places of the checkpoints; and the
/// commit that is told as missing, where one is.
struct Based {
    base: u64,
    from: usize,
    places: u32,
    missing: Option<u64>,
}

static BASED: [Based; 7] = [
    Based {
        base: 2,
        from: 3,
        places: 0,
        missing: Some(1),
    },
    Based {
        base: 2,
        from: 3,
        places: 2,
        missing: Some(2),
    },
    Based {
        base: 2,
        from: 3,
        places: 4,
        missing: None,
    },
    Based {
        base: 2,
        from: 3,
        places: 8,
        missing: None,
    },
    Based {
        base: 2,
        from: 4,
        places: 4,
        missing: Some(3),
    },
    Based {
        base: 0,
        from: 2,
        places: 16,
        missing: Some(1),
    },
    Based {
        base: 5,
        from: 5,
        places: 16,
        missing: Some(5),
    },
];

/// That such a journal is told, or recovered as the image after the four commits.
fn judge_based(rt: &impl Abort, alloc: Global, based: &Based, at: usize) -> Result<(), Fail> {
    let slots = left_with(alloc, based.places)?;
    let header = header_of(alloc, COMMITS_SALT, STORE, based.base)?;
    let commits = joined(alloc, header.as_slice(), frames_from(&slots, based.from))?;
    let found = slots.recovered_with(alloc, slots.marks(), commits.as_slice())?;
    let is_due = match based.missing {
        Some(number) => found.is_refused(Refusal::Commits(RecoverFault::Gap(number))),
        None => found.is_table(IMAGES[4]),
    };
    assert_at(rt, is_due, based.base, at);
    Ok(())
}

#[test]
fn a_commit_that_is_missing_is_a_gap(rt: HostRuntime) -> Result<(), Fail> {
    for (at, based) in BASED.iter().enumerate() {
        judge_based(&rt, rt.alloc(), based, at)?;
    }
    Ok(())
}

/// Tables over which the commits aren't made again, and the first that isn't: the insert of 25 at the third place, where there are too
/// few rows, a row of that key, or a smaller one behind it; the delete of 20 at the second place, where another row is; and the delete
/// of 30, where no row is.
static OTHERS: [(&[u8], u64); 5] = [
    (b"id:int:key,name:text,qty:int\n25,Eve,5\n", 1),
    (
        b"id:int:key,name:text,qty:int\n10,Ann,1\n20,Bob,2\n25,Eve,5\n",
        1,
    ),
    (
        b"id:int:key,name:text,qty:int\n10,Ann,1\n20,Bob,2\n22,Joe,0\n30,Cid,3\n",
        1,
    ),
    (
        b"id:int:key,name:text,qty:int\n10,Ann,1\n21,Bob,2\n30,Cid,3\n",
        2,
    ),
    (b"id:int:key,name:text,qty:int\n10,Ann,1\n20,Bob,2\n", 3),
];

/// That the journal is told as a misfit over a table.
fn judge_misfit(
    rt: &impl Abort,
    alloc: Global,
    table: &[u8],
    commits: &[u8],
    number: u64,
) -> Result<(), Fail> {
    let slots = Slots::new(alloc)?;
    let setting = Setting {
        table,
        script: b"a,len\n",
        slots: &slots,
        failures: NO_FAILURE,
        first: 1,
    };
    let mut out = Vec::new(alloc);
    run_setting(alloc, setting, &mut out)?;
    let found = slots.recovered_with(alloc, slots.marks(), commits)?;
    let told = Refusal::Commits(RecoverFault::Misfit(number));
    assert_at(rt, found.is_refused(told), number, 0);
    Ok(())
}

#[test]
fn the_journal_of_another_table_is_a_misfit(rt: HostRuntime) -> Result<(), Fail> {
    let slots = left_with(rt.alloc(), 0)?;
    for (table, number) in &OTHERS {
        judge_misfit(&rt, rt.alloc(), *table, slots.commits(), *number)?;
    }
    Ok(())
}

/// The seed of the frames of the images' journal.
fn marks_seed() -> u32 {
    crc_from(0xffff_ffff, &IMAGES_SALT.to_be_bytes())
}

/// The images' journal of a frame of this number with this payload.
fn one_mark(alloc: Global, number: u64, payload: &'static [u8; 12]) -> Result<Vec<u8>, Fail> {
    let mut bytes = header_of(alloc, IMAGES_SALT, STORE, 0)?;
    let frame = Frame {
        number,
        synced: 0,
        payload: payload.as_slice(),
    };
    write_frame(marks_seed(), &frame, &mut bytes)?;
    Ok(bytes)
}

#[test]
fn marks_that_do_not_tell_the_image_are_refused(rt: HostRuntime) -> Result<(), Fail> {
    let alloc = rt.alloc();
    let slots = left_with(alloc, 0)?;
    for (number, payload, fault) in [
        (1, b"\0\0\0\x02\0\0\0\0\0\0\0\0", ImagesFault::Unmarked(1)),
        (2, b"\0\0\0\x01\0\0\0\0\0\0\0\0", ImagesFault::Gap(1)),
    ] {
        let marks = one_mark(alloc, number, payload)?;
        let found = slots.recovered_with(alloc, marks.as_slice(), slots.commits())?;
        assert_at(&rt, found.is_refused(Refusal::Images(fault)), number, 0);
    }
    Ok(())
}

/// A mark that tells another number than the image's own.
#[test]
fn a_mark_of_a_later_commit_than_the_journal_has_is_a_gap(rt: HostRuntime) -> Result<(), Fail> {
    let alloc = rt.alloc();
    let slots = left_with(alloc, 0)?;
    let marks = one_mark(alloc, 1, b"\0\0\0\x01\0\0\0\0\0\0\0\x06")?;
    let found = slots.recovered_with(alloc, marks.as_slice(), slots.commits())?;
    assert_holds(
        &rt,
        found.is_refused(Refusal::Commits(RecoverFault::Gap(5))),
        "six",
    );
    Ok(())
}

/// Each journal in the place of the other. The payload of a commit is no mark; a mark as a payload has a part of the table 1 and no
/// entries, and then four bytes, which are too few for a part.
#[test]
fn journals_in_each_others_places_are_refused(rt: HostRuntime) -> Result<(), Fail> {
    let alloc = rt.alloc();
    let slots = left_with(alloc, 0)?;
    let (marks, commits) = (slots.marks(), slots.commits());
    let found = slots.recovered_with(alloc, commits, marks)?;
    assert!(&rt; found.is_refused(Refusal::Images(ImagesFault::BadMark(1))));
    let found = slots.recovered_with(alloc, marks, marks)?;
    let told = RecoverFault::BadPayload(1, PayloadFault::Short(8));
    assert!(&rt; found.is_refused(Refusal::Commits(told)));
    Ok(())
}
