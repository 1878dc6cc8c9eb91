//! The worked database, recovered as a program prints it.
use crate::worked::{
    FIVE, IDS, ITEMS, ITEMS_AT_FIRST, ITEMS_HEADER, MANIFEST, NAMES, ONES, ONES_AFTER,
    ONES_AT_FIRST, ONES_HEADER, QTYS, SIX,
};
use pdtcli::Refusal;
use std::alloc::Global;
use std::test::Fail;
use tables::{TableBytes, recover_table};

/// The columns of `items`.
pub(crate) const ITEMS_COLUMNS: [&[u8]; 3] = [&IDS, &NAMES, &QTYS];

/// Whether what is recovered of a table is this text.
pub(crate) fn is_shown(
    alloc: Global,
    name: Option<&str>,
    files: TableBytes<'_>,
    text: &[u8],
) -> bool {
    let mut out = Vec::new(alloc);
    let answer = recover_table(alloc, MANIFEST, name, files, &mut out);
    answer == Ok(0) && out.as_slice() == text
}

/// Whether a table is refused so, and nothing is written.
pub(crate) fn is_refused(
    alloc: Global,
    name: Option<&str>,
    files: TableBytes<'_>,
    refusal: Refusal,
) -> bool {
    let mut out = Vec::new(alloc);
    let answer = recover_table(alloc, MANIFEST, name, files, &mut out);
    answer == Err(refusal) && out.is_empty()
}

/// The files of `items`, with these files of the journal.
pub(crate) fn items_with<'a>(journal: &'a [&'a [u8]]) -> TableBytes<'a> {
    TableBytes {
        header: ITEMS_HEADER,
        columns: &ITEMS_COLUMNS,
        journal,
    }
}

/// Those of `ones`.
pub(crate) fn ones_with<'a>(journal: &'a [&'a [u8]]) -> TableBytes<'a> {
    TableBytes {
        header: ONES_HEADER,
        columns: &[&ONES],
        journal,
    }
}

#[test]
fn each_table_is_recovered_with_its_commits(rt: HostRuntime) -> Result<(), Fail> {
    let alloc = rt.alloc();
    let journal: [&[u8]; 2] = [&FIVE, &SIX];
    assert!(&rt; is_shown(alloc, Some("items"), items_with(&journal), ITEMS));
    assert!(&rt; is_shown(alloc, Some("ones"), ones_with(&journal), ONES_AFTER));
    Ok(())
}

#[test]
fn a_journal_may_end_before_its_last_file(rt: HostRuntime) -> Result<(), Fail> {
    let alloc = rt.alloc();
    let journal: [&[u8]; 2] = [&FIVE, &[]];
    assert!(&rt; is_shown(alloc, Some("items"), items_with(&journal), ITEMS));
    assert!(&rt; is_shown(alloc, Some("ones"), ones_with(&journal), ONES_AT_FIRST));
    Ok(())
}

#[test]
fn a_commit_that_is_cut_is_none(rt: HostRuntime) -> Result<(), Fail> {
    let alloc = rt.alloc();
    // 36 bytes of header, and then a frame.
    for cut in 36..SIX.len() {
        let (front, _) = SIX.split_at(cut);
        let journal: [&[u8]; 2] = [&FIVE, front];
        assert!(&rt; is_shown(alloc, Some("ones"), ones_with(&journal), ONES_AT_FIRST));
    }
    for cut in 36..FIVE.len() {
        let (front, _) = FIVE.split_at(cut);
        let journal: [&[u8]; 1] = [front];
        assert!(&rt; is_shown(alloc, Some("items"), items_with(&journal), ITEMS_AT_FIRST));
    }
    Ok(())
}

#[test]
fn a_table_is_named_where_there_are_two(rt: HostRuntime) -> Result<(), Fail> {
    let alloc = rt.alloc();
    let journal: [&[u8]; 2] = [&FIVE, &SIX];
    assert!(&rt; is_refused(alloc, None, items_with(&journal), Refusal::NotNamed));
    assert!(&rt; is_refused(alloc, Some("item"), items_with(&journal), Refusal::NoTable));
    assert!(&rt;
        is_refused(
            alloc,
            Some("items2"),
            items_with(&journal),
            Refusal::NoTable
        )
    );
    assert!(&rt; is_refused(alloc, Some(""), items_with(&journal), Refusal::NoTable));
    Ok(())
}
