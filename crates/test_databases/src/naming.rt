//! The files that a table wants, by the names in the folder of its database.
use crate::worked::MANIFEST;
use pdtcli::Refusal;
use std::test::Fail;
use tables::{WantedFiles, wanted_files};

/// Those of `items`, whose journal has two files.
const ITEMS_FILES: WantedFiles = WantedFiles {
    table: 7,
    folder: 3,
    width: 3,
    first: 5,
    last: 6,
};

#[test]
fn the_files_of_a_table_are_told(rt: HostRuntime) -> Result<(), Fail> {
    let alloc = rt.alloc();
    let names = [
        "manifest",
        "journal-6",
        "image-7-3",
        "lock",
        "journal-5",
        "image-9-4",
    ];
    assert!(&rt; wanted_files(alloc, MANIFEST, Some("items"), &names) == Ok(ITEMS_FILES));
    let ones = WantedFiles {
        table: 9,
        folder: 4,
        width: 1,
        ..ITEMS_FILES
    };
    assert!(&rt; wanted_files(alloc, MANIFEST, Some("ones"), &names) == Ok(ones));
    assert!(&rt; wanted_files(alloc, MANIFEST, None, &names) == Err(Refusal::NotNamed));
    assert!(&rt; wanted_files(alloc, MANIFEST, Some("none"), &names) == Err(Refusal::NoTable));
    assert!(&rt; wanted_files(alloc, b"", None, &names) == Err(Refusal::DamagedManifest));
    Ok(())
}

#[test]
fn names_of_another_spelling_are_no_files(rt: HostRuntime) -> Result<(), Fail> {
    let names = [
        "journal-5",
        "journal-6",
        "journal-07",
        "journal-+7",
        "journal-7-1",
        "journal-",
        "journal-new",
        "journal-7 ",
        "Journal-7",
        "xjournal-7",
        "journal-18446744073709551616",
        "journal-4",
        "journal--7",
        "journal-7.pdt",
        "",
    ];
    assert!(&rt; wanted_files(rt.alloc(), MANIFEST, Some("items"), &names) == Ok(ITEMS_FILES));
    Ok(())
}

#[test]
fn a_file_that_is_missing_is_told(rt: HostRuntime) -> Result<(), Fail> {
    let alloc = rt.alloc();
    let cases: [(&[&str], u64); 6] = [
        (&[], 5),
        (&["journal-4"], 5),
        (&["journal-6"], 5),
        (&["journal-5", "journal-7"], 6),
        (&["journal-9", "journal-6", "journal-5"], 7),
        (&["journal-18446744073709551615", "journal-5"], 6),
    ];
    for (names, missing) in cases {
        let answer = wanted_files(alloc, MANIFEST, Some("items"), names);
        assert!(&rt;
            answer == Err(Refusal::MissingJournal(missing)),
            "{missing}"
        );
    }
    Ok(())
}
