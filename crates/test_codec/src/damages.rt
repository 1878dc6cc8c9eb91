//! The worked payload, cut at each byte, and each of its bytes changed.
use crate::payloads::WORKED;
use codec::{PayloadFault, read_part};
use delta::{Change, Entry};
use std::alloc::Global;
use std::process::Abort;
use std::test::Fail;
use test_fixtures::item_columns;
use values::{NoMemory, Schema, Value};

/// Where an entry, a column or a cell of the worked payload begins.
const BEGINS: [usize; 9] = [8, 13, 14, 22, 27, 35, 40, 48, 53];

/// Where one of its entries ends, or the first begins.
const ENDS: [usize; 4] = [8, 22, 35, 61];

/// The last begin up to this offset.
fn begin_before(at: usize) -> usize {
    let mut found = 0;
    for begin in BEGINS {
        if begin <= at {
            found = begin;
        }
    }
    found
}

/// How many of its entries end at this offset, where one does.
fn whole_at(at: usize) -> Option<usize> {
    for (count, end) in ENDS.iter().enumerate() {
        if *end == at {
            return Some(count);
        }
    }
    None
}

/// That a part that was cut there, and says so, has as many entries as are whole, or ends inside what begins last.
fn assert_cut(rt: &impl Abort, alloc: Global, schema: &Schema, cut: &[u8]) {
    match (read_part(alloc, schema, 7, cut), whole_at(cut.len())) {
        (Ok(entries), Some(count)) => assert!(rt; entries.len() == count),
        (Err(PayloadFault::Short(at)), None) => assert!(rt; at == begin_before(cut.len())),
        _ => assert!(rt; false, "at {}", cut.len()),
    }
}

#[test]
fn a_part_that_is_cut_anywhere_is_short_there(rt: HostRuntime) -> Result<(), Fail> {
    let alloc = rt.alloc();
    let schema = item_columns(alloc)?;
    let mut payload = WORKED;
    for size in 0_u8..=53 {
        payload[7] = size;
        let cut = 8 + usize::from(size);
        assert_cut(&rt, alloc, &schema, &payload[..cut]);
    }
    Ok(())
}

#[test]
fn a_payload_that_is_cut_anywhere_is_short(rt: HostRuntime) -> Result<(), Fail> {
    let alloc = rt.alloc();
    let schema = item_columns(alloc)?;
    for cut in 1..WORKED.len() {
        for table in [3, 7, 9] {
            let is_short = matches!(
                read_part(alloc, &schema, table, &WORKED[..cut]),
                Err(PayloadFault::Short(0))
            );
            assert!(&rt; is_short, "at {cut}");
        }
    }
    Ok(())
}

/// Appends the cell, as a person spells it.
fn spell_cell(value: &Value, out: &mut Vec<u8>) -> Result<(), NoMemory> {
    match value {
        Value::Int(number) => out.extend_from_slice(&number.to_be_bytes())?,
        Value::Text(text) => {
            out.extend_from_slice(&text.as_str().len().to_be_bytes()[6..])?;
            out.extend_from_slice(text.as_str().as_bytes())?;
        }
        Value::Bool(truth) => out.push(if *truth { 0x80 } else { 0 })?,
    }
    Ok(())
}

/// Appends the entry, as a person spells it.
fn spell(entry: &Entry, out: &mut Vec<u8>) -> Result<(), NoMemory> {
    out.extend_from_slice(&entry.sid.to_be_bytes()[4..])?;
    match &entry.change {
        Change::Ins(row) => {
            out.push(1)?;
            for cell in row.cells() {
                spell_cell(cell, out)?;
            }
        }
        Change::Del(key) => {
            out.push(2)?;
            for cell in key.cells() {
                spell_cell(cell, out)?;
            }
        }
        Change::Mod(col, value) => {
            out.push(3)?;
            out.extend_from_slice(&col.to_be_bytes()[7..])?;
            spell_cell(value, out)?;
        }
    }
    Ok(())
}

/// Whether the entries are spelt by just these bytes.
fn are_spelt(alloc: Global, entries: &[Entry], bytes: &[u8]) -> Result<bool, NoMemory> {
    let mut out = Vec::new(alloc);
    for entry in entries {
        spell(entry, &mut out)?;
    }
    Ok(out.as_slice() == bytes)
}

/// Whether the payload has a fault with a name, or says entries that it spells.
fn is_read(alloc: Global, schema: &Schema, payload: &[u8; 61]) -> Result<bool, NoMemory> {
    match read_part(alloc, schema, 7, payload.as_slice()) {
        Ok(entries) => {
            if payload[3] == 7 {
                are_spelt(alloc, entries.as_slice(), &payload[8..])
            } else {
                Ok(entries.is_empty())
            }
        }
        Err(PayloadFault::NoMemory) => Err(NoMemory),
        Err(_) => Ok(true),
    }
}

#[test]
fn a_changed_byte_has_a_fault_or_is_spelt_so(rt: HostRuntime) -> Result<(), Fail> {
    let alloc = rt.alloc();
    let schema = item_columns(alloc)?;
    let mut payload = WORKED;
    for at in 3..WORKED.len() {
        let byte = payload[at];
        for change in 1..=255_u8 {
            payload[at] = byte ^ change;
            assert!(&rt; is_read(alloc, &schema, &payload)?, "at {at}");
        }
        payload[at] = byte;
    }
    Ok(())
}
