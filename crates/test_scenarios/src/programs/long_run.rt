//! A run over a table of ten thousand rows by a script of ten thousand calls.
use super::USUAL;
use crate::programs::memory::run_texts;
use std::alloc::Global;
use std::test::Fail;

const COUNT: u64 = 10_000;

/// A table of so many rows, with the even keys from 0.
fn long_table(alloc: Global) -> Result<String, Fail> {
    let mut text = String::from_str(alloc, "id:int:key,qty:int\n")?;
    for i in 0..COUNT {
        text.push_str(format!(in alloc; "{},1\n", i * 2)?.as_str())?;
    }
    Ok(text)
}

/// A begin, an insert of so many odd keys but two, and a commit.
fn long_script(alloc: Global) -> Result<String, Fail> {
    let mut text = String::from_str(alloc, "a,begin\n")?;
    for i in 0..COUNT - 2 {
        text.push_str(format!(in alloc; "a,insert,{},2\n", i * 2 + 1)?.as_str())?;
    }
    text.push_str("a,commit\n")?;
    Ok(text)
}

#[test]
fn ten_thousand_calls_over_ten_thousand_rows(rt: HostRuntime) -> Result<(), Fail> {
    let table = long_table(rt.alloc())?;
    let script = long_script(rt.alloc())?;
    let mut out = Vec::new(rt.alloc());
    let status = run_texts(
        rt.alloc(),
        Ok(table.as_str().as_bytes()),
        Ok(script.as_str().as_bytes()),
        USUAL,
        &mut out,
    )?;
    assert!(&rt; status == 0);
    let lines = out.iter().filter(|byte| **byte == b'\n').count();
    // A line for each call, the empty line, the header, and a row for each key.
    assert!(&rt; lines == 10_000 + 1 + 1 + 19_998);
    // The odd keys go up to 19,995.
    assert!(&rt;
        out.as_slice()
            .ends_with(b"\n19994,1\n19995,2\n19996,1\n19998,1\n")
    );
    Ok(())
}
