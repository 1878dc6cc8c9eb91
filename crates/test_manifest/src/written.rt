//! Manifests, names of files and declared columns, written and read back, and what isn't written.
use crate::damages::is_damaged;
use crate::worked::ITEMS;
use journal::crc_from;
use manifest::{
    FileMark, FileName, Manifest, ManifestFault, ManifestHead, TableEntry, TableLine, WriteFault,
    is_later_manifest, put_file_name, read_file_name, read_manifest, read_types, write_manifest,
    write_types,
};
use std::alloc::{AllocError, Global};
use std::test::Fail;

/// A table with a name and so many marks.
fn table<'a>(
    alloc: Global,
    name: &'a [u8],
    width: u64,
    marks: usize,
) -> Result<TableEntry<'a>, AllocError> {
    let mark = FileMark {
        size: u64::MAX,
        check: 0x0a0b_0c0d,
    };
    let line = TableLine {
        number: u32::MAX,
        commit: u64::MAX,
        folder: 0,
        recent: 65_536,
        limit: 10,
        by_row: marks % 2 == 1,
        width,
        name,
    };
    let mut columns = Vec::new(alloc);
    for _ in 0..marks {
        let Ok(()) = columns.push(mark) else {
            return Err(AllocError);
        };
    }
    Ok(TableEntry {
        line,
        header: mark,
        columns,
    })
}

/// Whether a manifest of one table is written and read back, or refused as unlawful.
fn is_written(alloc: Global, name: &[u8], width: u64, marks: usize) -> Result<bool, Fail> {
    let head = ManifestHead {
        store: 1,
        salt: u64::MAX,
        commit: 9,
        first_file: 100,
        next_table: u32::MAX,
        next_folder: 20,
    };
    let mut tables = Vec::new(alloc);
    tables.push(table(alloc, name, width, marks)?)?;
    let bytes = match write_manifest(alloc, &Manifest { head, tables }) {
        Ok(bytes) => bytes,
        Err(WriteFault::Unlawful) => return Ok(false),
        Err(WriteFault::NoMemory) => return Err(Fail::from(AllocError)),
    };
    let read = read_manifest(alloc, bytes.as_slice())?;
    let again = write_manifest(alloc, &read)?;
    Ok(again.as_slice() == bytes.as_slice() && read.head == head && read.tables.len() == 1)
}

#[test]
fn a_manifest_is_written_as_it_is_read(rt: HostRuntime) -> Result<(), Fail> {
    let alloc = rt.alloc();
    let read = read_manifest(alloc, ITEMS)?;
    let written = write_manifest(alloc, &read)?;
    assert!(&rt; written.as_slice() == ITEMS);
    let longest = [b'x'; 64];
    assert!(&rt; is_written(alloc, b"t", 0, 0)?);
    assert!(&rt; is_written(alloc, longest.as_slice(), 32, 32)?);
    assert!(&rt; is_written(alloc, "a b\u{e9}".as_bytes(), 1, 1)?);
    let too_long = [b'x'; 65];
    assert!(&rt; !is_written(alloc, b"", 1, 1)?);
    assert!(&rt; !is_written(alloc, too_long.as_slice(), 1, 1)?);
    assert!(&rt; !is_written(alloc, b"a\nb", 1, 1)?);
    assert!(&rt; !is_written(alloc, b"a\0b", 1, 1)?);
    assert!(&rt; !is_written(alloc, b"t", 33, 33)?);
    assert!(&rt; !is_written(alloc, b"t", 2, 1)?);
    assert!(&rt; !is_written(alloc, b"t", 1, 2)?);
    Ok(())
}

/// Text with the last line that is its own, or that of other bytes.
fn ended(alloc: Global, text: &str, differs: u32) -> Result<String, AllocError> {
    let check = crc_from(0xffff_ffff, text.as_bytes()) ^ differs;
    format!(in alloc; "{text}end {check:08x}\n")
}

#[test]
fn a_later_version_is_no_damage(rt: HostRuntime) -> Result<(), Fail> {
    let alloc = rt.alloc();
    let later = [
        "narthexmace 2\n",
        "narthexmace 4294967295\nmore\n",
        "narthexmace 10\nend \0",
    ];
    for text in &later {
        let bytes = ended(alloc, text, 0)?;
        assert!(&rt; is_later_manifest(bytes.as_bytes()));
        assert!(&rt; is_damaged(alloc, bytes.as_bytes()));
        let damaged = ended(alloc, text, 1)?;
        assert!(&rt; !is_later_manifest(damaged.as_bytes()));
    }
    let others = [
        "narthexmace 1\n",
        "narthexmace 0\n",
        "narthexmace 02\n",
        "narthexmace 4294967296\n",
        "narthexmace 2",
        "narthexmace 2 \n",
        "narthexmace \n",
        "narthexmac 2\n",
        "",
    ];
    for text in &others {
        let bytes = ended(alloc, text, 0)?;
        assert!(&rt; !is_later_manifest(bytes.as_bytes()));
    }
    assert!(&rt; !is_later_manifest(ITEMS) && !is_later_manifest(b"narthexmace 2\n"));
    Ok(())
}

/// Whether a file has this name, and the name is read as the file.
fn is_named(file: FileName, name: &[u8]) -> bool {
    let mut room = [b'?'; 64];
    match put_file_name(file, &mut room) {
        Some(len) => {
            let (front, _) = room.split_at(len);
            front == name && read_file_name(name) == Some(file)
        }
        None => false,
    }
}

#[test]
fn a_file_has_one_name(rt: HostRuntime) -> Result<(), Fail> {
    assert!(&rt; is_named(FileName::Journal(0), b"journal-0\0"));
    assert!(&rt;
        is_named(
            FileName::Journal(u64::MAX),
            b"journal-18446744073709551615\0"
        )
    );
    assert!(&rt; is_named(FileName::Image(7, 120), b"image-7-120\0"));
    assert!(&rt;
        is_named(
            FileName::Image(u32::MAX, u64::MAX),
            b"image-4294967295-18446744073709551615\0"
        )
    );
    assert!(&rt; is_named(FileName::Types(10), b"types-10\0"));
    assert!(&rt; is_named(FileName::Torn(12), b"torn-12\0"));
    assert!(&rt; is_named(FileName::Column(0), b"column-0.pdt\0"));
    assert!(&rt; is_named(FileName::Column(63), b"column-63.pdt\0"));
    assert!(&rt; is_named(FileName::Header, b"header.csv\0"));
    let mut small = [0_u8; 9];
    assert!(&rt; put_file_name(FileName::Journal(0), &mut small).is_none());
    let mut enough = [0_u8; 10];
    assert!(&rt; put_file_name(FileName::Journal(0), &mut enough) == Some(10));
    let others = [
        "journal-",
        "journal-01",
        "journal-+1",
        "journal-1 ",
        "journal-18446744073709551616",
        "journal-new",
        "journal-1-0",
        "Journal-1",
        "image-1",
        "image-1-",
        "image-4294967296-1",
        "image-1-2-3",
        "types-",
        "types-4294967296",
        "types-new",
        "types-1-1",
        "torn-",
        "torn-1.pdt",
        "column-1",
        "column-1.csv",
        "column-01.pdt",
        "column-4294967296.pdt",
        "header.csv.gz",
        "manifest",
        "",
    ];
    let alloc = rt.alloc();
    for other in &others {
        let name = format!(in alloc; "{other}\0")?;
        assert!(&rt; read_file_name(name.as_bytes()).is_none());
    }
    assert!(&rt; read_file_name(b"journal-1").is_none());
    assert!(&rt; read_file_name(b"journal-1\0\0").is_none());
    Ok(())
}

/// Whether bytes are refused as the declared columns of three.
fn is_no_text(alloc: Global, bytes: &[u8]) -> bool {
    matches!(read_types(alloc, 3, bytes), Err(ManifestFault::Damaged))
}

#[test]
fn declared_columns_are_written_as_they_are_read(rt: HostRuntime) -> Result<(), Fail> {
    let alloc = rt.alloc();
    let formats: [&[u8]; 3] = [b"tdD", b"", b"?d:15,2"];
    let written = write_types(alloc, formats.as_slice())?;
    let text = ended(alloc, "0 tdD\n2 ?d:15,2\n", 0)?;
    assert!(&rt; written.as_slice() == text.as_bytes());
    let read = read_types(alloc, 3, written.as_slice())?;
    assert!(&rt; read.as_slice() == formats.as_slice());
    for at in 0..written.len() {
        let mut bytes = Vec::from_slice(alloc, written.as_slice())?;
        if let Some(byte) = bytes.get_mut(at) {
            *byte ^= 1;
        }
        assert!(&rt; is_no_text(alloc, bytes.as_slice()));
    }
    let others = [
        "01 tdD\n",
        "1 \n",
        "1  tdD\n\n",
        "1 a\n1 b\n",
        "1 a\n0 b\n",
        "3 a\n",
        "1 a",
        "1\ta\n",
        "1 a\0\n",
        "-1 a\n",
        "\n",
    ];
    for other in &others {
        let text = ended(alloc, other, 0)?;
        assert!(&rt; is_no_text(alloc, text.as_bytes()));
    }
    let too_long = [b'd'; 64];
    let bad: [&[u8]; 3] = [too_long.as_slice(), b"a\n", b"\0"];
    for format in &bad {
        let one = [*format];
        assert!(&rt;
            matches!(
                write_types(alloc, one.as_slice()),
                Err(WriteFault::Unlawful)
            )
        );
    }
    Ok(())
}
