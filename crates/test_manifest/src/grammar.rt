//! Manifests whose check is right, and what else they say.
use crate::damages::is_damaged;
use journal::crc_from;
use manifest::read_manifest;
use std::alloc::{AllocError, Global};
use std::test::Fail;

/// The three lines before the tables.
const HEAD: &str = "narthexmace 1\ndatabase 00000000000000aa 00000000000000bb\nat 0 1\nnext 2 2\n";

/// The lines of a table with a column.
const TABLE: &str = "table 1 0 1 64 100 1 1 t\n9 00000001\n29 ffffffff\n";

/// Lines, with the last one that is theirs.
fn ended(alloc: Global, head: &str, rest: &str) -> Result<String, AllocError> {
    let body = format!(in alloc; "{head}{rest}")?;
    let check = crc_from(0xffff_ffff, body.as_bytes());
    format!(in alloc; "{body}end {check:08x}\n")
}

/// Whether the lines are read as so many tables.
fn has_tables(alloc: Global, head: &str, rest: &str, count: usize) -> Result<bool, AllocError> {
    let text = ended(alloc, head, rest)?;
    Ok(match read_manifest(alloc, text.as_bytes()) {
        Ok(read) => read.tables.len() == count,
        Err(_) => false,
    })
}

/// Whether the lines are refused.
fn is_refused(alloc: Global, head: &str, rest: &str) -> Result<bool, AllocError> {
    let text = ended(alloc, head, rest)?;
    Ok(is_damaged(alloc, text.as_bytes()))
}

#[test]
fn the_greatest_numbers_are_read(rt: HostRuntime) -> Result<(), Fail> {
    let alloc = rt.alloc();
    let head = "narthexmace 1\ndatabase ffffffffffffffff ffffffffffffffff\n\
at 18446744073709551615 18446744073709551615\nnext 4294967295 18446744073709551615\n";
    assert!(&rt; has_tables(alloc, head, "", 0)?);
    let table =
        "table 4294967295 18446744073709551615 0 18446744073709551615 18446744073709551615 0 0 a b\n0 00000000\n";
    assert!(&rt; has_tables(alloc, head, table, 1)?);
    let two = format!(in alloc; "{TABLE}{table}")?;
    assert!(&rt; has_tables(alloc, HEAD, two.as_str(), 2)?);
    Ok(())
}

#[test]
fn each_number_has_one_spelling(rt: HostRuntime) -> Result<(), Fail> {
    let alloc = rt.alloc();
    assert!(&rt; has_tables(alloc, HEAD, TABLE, 1)?);
    let others = [
        "table 01 0 1 64 100 1 1 t\n9 00000001\n29 ffffffff\n",
        "table +1 0 1 64 100 1 1 t\n9 00000001\n29 ffffffff\n",
        "table 1 -0 1 64 100 1 1 t\n9 00000001\n29 ffffffff\n",
        "table 1 00 1 64 100 1 1 t\n9 00000001\n29 ffffffff\n",
        "table 1  0 1 64 100 1 1 t\n9 00000001\n29 ffffffff\n",
        "table 1 0 1 64 100 1 1 t\n9 00000001\n29 FFFFFFFF\n",
        "table 1 0 1 64 100 1 1 t\n9 1\n29 ffffffff\n",
        "table 1 0 1 64 100 1 1 t\n9 000000001\n29 ffffffff\n",
        "table 1 0 1 64 100 1 1 t\n9 0x000001\n29 ffffffff\n",
        "table 1 0 1 64 100 1 1 t\n09 00000001\n29 ffffffff\n",
    ];
    for other in &others {
        assert!(&rt; is_refused(alloc, HEAD, other)?);
    }
    Ok(())
}

#[test]
fn each_number_has_its_bound(rt: HostRuntime) -> Result<(), Fail> {
    let alloc = rt.alloc();
    let others = [
        "table 4294967296 0 1 64 100 1 0 t\n9 00000001\n",
        "table 1 18446744073709551616 1 64 100 1 0 t\n9 00000001\n",
        "table 1 0 99999999999999999999999 64 100 1 0 t\n9 00000001\n",
        "table 1 0 1 64 100 2 0 t\n9 00000001\n",
        "table 1 0 1 64 100 1 33 t\n9 00000001\n",
    ];
    for other in &others {
        assert!(&rt; is_refused(alloc, HEAD, other)?);
    }
    Ok(())
}

#[test]
fn a_table_has_the_lines_that_it_says(rt: HostRuntime) -> Result<(), Fail> {
    let alloc = rt.alloc();
    let others = [
        "table 1 0 1 64 100 1 1 t\n9 00000001\n",
        "table 1 0 1 64 100 1 0 t\n9 00000001\n29 ffffffff\n",
        "table 1 0 1 64 100 1 1 \n9 00000001\n29 ffffffff\n",
        "table 1 0 1 64 100 1 1 t\n9 00000001\n29 ffffffff",
        "table 1 0 1 64 100 1 1 t\r\n9 00000001\r\n29 ffffffff\r\n",
        "table 1 0 1 64 100 1 1 a\0b\n9 00000001\n29 ffffffff\n",
        "\n",
    ];
    for other in &others {
        assert!(&rt; is_refused(alloc, HEAD, other)?);
    }
    Ok(())
}

#[test]
fn a_name_has_64_bytes_at_most(rt: HostRuntime) -> Result<(), Fail> {
    let alloc = rt.alloc();
    let longest = "nnnnnnnnnnnnnnnnnnnnnnnnnnnnnnnnnnnnnnnnnnnnnnnnnnnnnnnnnnnnnnnn";
    let table = format!(in alloc; "table 1 0 1 64 100 1 0 {longest}\n9 00000001\n")?;
    assert!(&rt; has_tables(alloc, HEAD, table.as_str(), 1)?);
    let table = format!(in alloc; "table 1 0 1 64 100 1 0 {longest}n\n9 00000001\n")?;
    assert!(&rt; is_refused(alloc, HEAD, table.as_str())?);
    Ok(())
}

#[test]
fn another_head_is_none(rt: HostRuntime) -> Result<(), Fail> {
    let alloc = rt.alloc();
    let others = [
        "narthexmace 2\ndatabase 00000000000000aa 00000000000000bb\nat 0 1\nnext 2 2\n",
        "narthexmace 1\ndatabase 00000000000000AA 00000000000000bb\nat 0 1\nnext 2 2\n",
        "narthexmace 1\ndatabase aa bb\nat 0 1\nnext 2 2\n",
        "narthexmace 1\ndatabase 00000000000000aa 00000000000000bb\nat 0 1\nnext 4294967296 2\n",
        "narthexmace 1\ndatabase 00000000000000aa 00000000000000bb\nat 00 1\nnext 2 2\n",
        "narthexmace 1\ndatabase 00000000000000aa 00000000000000bb\nnext 2 2\n",
        "",
    ];
    for other in &others {
        assert!(&rt; is_refused(alloc, other, TABLE)?);
    }
    Ok(())
}
