//! A run at the edge of the recent commits that a manager may keep.
use super::BASE_TEXT;
use crate::programs::memory::run_texts;
use model::ConflictRule;
use pdtcli::OpenOptions;
use std::alloc::Global;
use std::test::Fail;
use values::limits::{MAX_RECENT_COMMITS, MAX_ROWS};

/// What the last calls are answered, and the table that is left.
const LAST: &[u8] =
    b"\na,set,Done\na,commit,Committed,65537\nc,commit,TooOld,65537\n\nid:int:key,name:text,qty:int\n10,Ann,1\n20,Bob,2\n30,Cid,9\n";

/// Two transactions begin, so many empty ones commit, and then both commit, the second after one commit too many.
fn long_script(alloc: Global, recent: usize) -> Result<String, Fail> {
    let mut text = String::from_str(alloc, "a,begin\nc,begin\n")?;
    for _ in 0..recent {
        text.push_str("b,begin\nb,commit\n")?;
    }
    text.push_str("a,set,30,qty,9\na,commit\nc,commit\n")?;
    Ok(text)
}

#[test]
fn so_many_commits_may_come_between_a_begin_and_its_commit(rt: HostRuntime) -> Result<(), Fail> {
    let script = long_script(rt.alloc(), MAX_RECENT_COMMITS)?;
    let options = OpenOptions {
        recent: MAX_RECENT_COMMITS,
        limit: MAX_ROWS,
        conflicts: ConflictRule::ByColumn,
    };
    let mut out = Vec::new(rt.alloc());
    let status = run_texts(
        rt.alloc(),
        Ok(BASE_TEXT),
        Ok(script.as_str().as_bytes()),
        options,
        &mut out,
    )?;
    assert!(&rt; status == 0);
    assert!(&rt; out.as_slice().ends_with(LAST));
    Ok(())
}
