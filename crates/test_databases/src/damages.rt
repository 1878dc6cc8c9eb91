//! The worked database, of which a file is damaged, another one's, or not there.
use crate::recoveries::{ITEMS_COLUMNS, is_refused, items_with, ones_with};
use crate::worked::{FIVE, IDS, ITEMS_HEADER, MANIFEST, NAMES, QTYS, SIX};
use journal::crc_from;
use pdtcli::Refusal;
use replay::RecoverFault;
use std::alloc::{AllocError, Global};
use std::test::Fail;
use tables::{TableBytes, recover_table};

/// Both files of the journal.
static JOURNAL: [&[u8]; 2] = [&FIVE, &SIX];

/// The bytes, of which one is another.
fn changed(alloc: Global, bytes: &[u8], at: usize) -> Result<Vec<u8>, AllocError> {
    let mut changed = Vec::from_slice(alloc, bytes)?;
    if let Some(byte) = changed.get_mut(at) {
        *byte ^= 1;
    }
    Ok(changed)
}

#[test]
fn a_manifest_that_is_changed_anywhere_is_damaged(rt: HostRuntime) -> Result<(), Fail> {
    let alloc = rt.alloc();
    let journal: [&[u8]; 2] = [&FIVE, &SIX];
    for at in 0..MANIFEST.len() {
        let text = changed(alloc, MANIFEST, at)?;
        let mut out = Vec::new(alloc);
        let files = items_with(&journal);
        let answer = recover_table(alloc, text.as_slice(), Some("items"), files, &mut out);
        assert!(&rt; answer == Err(Refusal::DamagedManifest), "at {at}");
    }
    Ok(())
}

#[test]
fn a_header_that_is_changed_anywhere_is_damaged(rt: HostRuntime) -> Result<(), Fail> {
    let alloc = rt.alloc();
    let journal: [&[u8]; 2] = [&FIVE, &SIX];
    for at in 0..ITEMS_HEADER.len() {
        let header = changed(alloc, ITEMS_HEADER, at)?;
        let files = TableBytes {
            header: header.as_slice(),
            columns: &ITEMS_COLUMNS,
            journal: &journal,
        };
        assert!(&rt;
            is_refused(alloc, Some("items"), files, Refusal::DamagedHeader),
            "at {at}"
        );
    }
    Ok(())
}

#[test]
fn a_column_that_is_changed_anywhere_is_damaged(rt: HostRuntime) -> Result<(), Fail> {
    let alloc = rt.alloc();
    for at in 0..NAMES.len() {
        let names = changed(alloc, &NAMES, at)?;
        let mut columns: Vec<&[u8]> = Vec::new(alloc);
        columns.push(&IDS)?;
        columns.push(names.as_slice())?;
        columns.push(&QTYS)?;
        let files = TableBytes {
            header: ITEMS_HEADER,
            columns: columns.as_slice(),
            journal: &JOURNAL,
        };
        assert!(&rt;
            is_refused(alloc, Some("items"), files, Refusal::DamagedColumn(1)),
            "at {at}"
        );
    }
    Ok(())
}

#[test]
fn columns_in_another_order_or_number_are_damaged(rt: HostRuntime) -> Result<(), Fail> {
    let alloc = rt.alloc();
    let journal: [&[u8]; 2] = [&FIVE, &SIX];
    let cases: [(&[&[u8]], usize); 3] = [
        (&[&QTYS, &NAMES, &IDS], 0),
        (&[&IDS, &NAMES], 2),
        (&[&IDS, &NAMES, &QTYS, &QTYS], 3),
    ];
    for (columns, first) in cases {
        let files = TableBytes {
            header: ITEMS_HEADER,
            columns,
            journal: &journal,
        };
        let refusal = Refusal::DamagedColumn(first);
        assert!(&rt;
            is_refused(alloc, Some("items"), files, refusal),
            "at {first}"
        );
    }
    Ok(())
}

#[test]
fn a_damaged_commit_before_another_file_is_told(rt: HostRuntime) -> Result<(), Fail> {
    let alloc = rt.alloc();
    let rot = Refusal::Commits(RecoverFault::Rot(7));
    // 36 bytes of header, and then the frame of the commit 7.
    for at in 36..FIVE.len() {
        let five = changed(alloc, &FIVE, at)?;
        let journal: [&[u8]; 2] = [five.as_slice(), &SIX];
        assert!(&rt;
            is_refused(alloc, Some("items"), items_with(&journal), rot),
            "at {at}"
        );
    }
    Ok(())
}

#[test]
fn a_file_that_is_cut_before_another_one_is_told(rt: HostRuntime) -> Result<(), Fail> {
    let alloc = rt.alloc();
    let rot = Refusal::Commits(RecoverFault::Rot(7));
    for cut in 37..FIVE.len() {
        let (front, _) = FIVE.split_at(cut);
        let journal: [&[u8]; 2] = [front, &SIX];
        assert!(&rt;
            is_refused(alloc, Some("items"), items_with(&journal), rot),
            "cut at {cut}"
        );
    }
    // Without a byte of its frame the next one is of another number.
    let (header, _) = FIVE.split_at(36);
    let journal: [&[u8]; 2] = [header, &SIX];
    let gap = Refusal::Commits(RecoverFault::Gap(7));
    assert!(&rt; is_refused(alloc, Some("items"), items_with(&journal), gap));
    Ok(())
}

#[test]
fn a_file_of_another_database_is_told(rt: HostRuntime) -> Result<(), Fail> {
    let alloc = rt.alloc();
    // Another store's name, with the check that is its own.
    let mut six = changed(alloc, &SIX, 23)?;
    let Some(front) = six.as_slice().get(..32) else {
        return Err(Fail::new("the header has 36 bytes"));
    };
    let check = crc_from(0xffff_ffff, front);
    for (at, byte) in check.to_be_bytes().iter().enumerate() {
        if let Some(place) = six.get_mut(32 + at) {
            *place = *byte;
        }
    }
    let journal: [&[u8]; 2] = [&FIVE, six.as_slice()];
    assert!(&rt;
        is_refused(
            alloc,
            Some("ones"),
            ones_with(&journal),
            Refusal::OtherStore
        )
    );
    Ok(())
}

#[test]
fn a_salt_without_a_seed_is_told(rt: HostRuntime) -> Result<(), Fail> {
    let alloc = rt.alloc();
    // The seed of this salt is 0.
    let body = "narthexmace 1\ndatabase fedcba9876543210 0000000038b498b7\nat 0 1\nnext 2 2\n\
table 1 0 1 64 1000 0 0 t\n0 ffffffff\n";
    let check = crc_from(0xffff_ffff, body.as_bytes());
    let text = format!(in alloc; "{body}end {check:08x}\n")?;
    let files = TableBytes {
        header: &[],
        columns: &[],
        journal: &[&[]],
    };
    let mut out = Vec::new(alloc);
    let answer = recover_table(alloc, text.as_bytes(), None, files, &mut out);
    assert!(&rt; answer == Err(Refusal::BadManifest));
    Ok(())
}
