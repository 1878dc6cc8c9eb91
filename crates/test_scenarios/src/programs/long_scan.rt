//! A scan of more rows than are made text at once: each is shown in its order, once, and the lines after it follow.
use super::USUAL;
use crate::programs::memory::run_texts;
use std::alloc::Global;
use std::test::Fail;
use values::NoMemory;

/// More than two texts of records.
const ROWS: u64 = 2_500;

/// The header and the rows, each with its position as its key and its value.
fn push_image(text: &mut String) -> Result<(), NoMemory> {
    text.push_str("at:int:key,twice:int\n")?;
    for at in 0..ROWS {
        write!(text, "{at},{}\n", at.wrapping_mul(2))?;
    }
    Ok(())
}

/// The lines of a scan from one position up to another.
fn push_scan(text: &mut String, from: u64, to: u64) -> Result<(), NoMemory> {
    for at in from..to {
        write!(text, "a,scan,Row,{at},{}\n", at.wrapping_mul(2))?;
    }
    write!(text, "a,scan,End,{}\n", to.wrapping_sub(from))?;
    Ok(())
}

/// What is written of a scan of all rows, one of three, and one of none.
fn wanted(alloc: Global) -> Result<String, NoMemory> {
    let mut text = String::new(alloc);
    text.push_str("a,begin,Begun\n")?;
    push_scan(&mut text, 0, ROWS)?;
    push_scan(&mut text, 1_000, 1_003)?;
    push_scan(&mut text, ROWS, ROWS)?;
    text.push_str("a,abort,Aborted\n\n")?;
    push_image(&mut text)?;
    Ok(text)
}

#[test]
fn a_long_scan_shows_each_row_once(rt: HostRuntime) -> Result<(), Fail> {
    let alloc = rt.alloc();
    let mut table = String::new(alloc);
    push_image(&mut table)?;
    let script = b"a,begin\na,scan,0,9999\na,scan,1000,1003\na,scan,2500,2500\na,abort\n";
    let mut out = Vec::new(alloc);
    let status = run_texts(
        alloc,
        Ok(table.as_str().as_bytes()),
        Ok(script.as_slice()),
        USUAL,
        &mut out,
    )?;
    assert!(&rt; status == 0);
    assert!(&rt; out.as_slice() == wanted(alloc)?.as_str().as_bytes());
    Ok(())
}
