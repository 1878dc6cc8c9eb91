//! A run in which one growth is refused, which shows under `rt try --test --fail-alloc N`: what met it says so, the run goes on or is
//! refused, and what is recovered is the table that the run has shown.
use crate::stores::{NO_FAILURE, Slots, run_script};
use crate::texts::{image_after, script_with};
use pdtcli::{OpenFault, Refusal, ScriptFault, StoreFault, TableFault};
use std::alloc::Global;
use std::test::Fail;

/// What is replied with a checkpoint behind the second commit, where nothing is refused.
const LINES: &str =
    "a,begin,Begun\na,insert,Done\nb,begin,Begun\nb,set,Done\na,commit,Committed,1\na,begin,Begun\nb,delete,Done\nb,commit,Committed,2\na,checkpoint,Done,2\nb,begin,Begun\na,insert,Done\na,set,Done\na,delete,Done\na,commit,Committed,3\na,begin,Begun\nb,get,Row,25,\"Dee, Jr\",4\nb,insert,Done\nb,commit,Committed,4\nb,commit,NotOpen\nb,begin,Begun\na,len,Rows,3\na,abort,Aborted\n";

/// The output as a text.
fn text_of(out: &[u8]) -> &str {
    match std::str::from_utf8(out) {
        Ok(text) => text,
        Err(_) => "",
    }
}

/// Whether what the files have is recovered as this table. A recovery that is refused memory is made again.
fn is_recovered(alloc: Global, slots: &Slots, image: &str) -> Result<bool, Fail> {
    let found = slots.recovered(alloc)?;
    if found.has_no_memory() {
        return Ok(slots.recovered(alloc)?.is_table(image));
    }
    Ok(found.is_table(image))
}

/// Whether the output is whole, or tells what was refused; and its image is recovered.
fn is_told(alloc: Global, slots: &Slots, status: u8, out: &str) -> Result<bool, Fail> {
    let Some((lines, image)) = out.split_once("\n\n") else {
        return Ok(false);
    };
    let is_whole = status == 0
        && LINES.strip_suffix("\n") == Some(lines)
        && image == image_after(4);
    let is_refused = status == 1
        && (lines.contains(",NoMemory") || lines.contains("Failed") || lines.contains(",Unsure"));
    Ok((is_whole || is_refused) && is_recovered(alloc, slots, image)?)
}

/// Whether the output that was broken off has a commit's replies up to the last that is recovered, or the one before.
fn is_broken_off(alloc: Global, slots: &Slots, out: &str) -> Result<bool, Fail> {
    let committed = out.matches(",Committed,").count();
    Ok(
        is_recovered(alloc, slots, image_after(committed))?
            || is_recovered(alloc, slots, image_after(committed.wrapping_add(1)))?,
    )
}

/// Whether a run is refused so before its first call, where a growth is refused.
fn is_want_of_memory(refusal: Refusal) -> bool {
    matches!(
        refusal,
        Refusal::Table(TableFault::NoMemory)
            | Refusal::Script(ScriptFault::NoMemory)
            | Refusal::Open(OpenFault::NoMemory)
            | Refusal::Store(StoreFault::NoMemory)
            | Refusal::Store(StoreFault::DeviceFailed(_))
            | Refusal::JournalFailed
            | Refusal::Run(_)
    )
}

#[test]
fn what_a_run_shows_is_recovered_where_a_growth_is_refused(rt: HostRuntime) -> Result<(), Fail> {
    let alloc = rt.alloc();
    let slots = Slots::new(alloc)?;
    let script = script_with(alloc, 4)?;
    let mut out = Vec::new(alloc);
    let answer = run_script(
        alloc,
        script.as_str().as_bytes(),
        &slots,
        NO_FAILURE,
        &mut out,
    );
    let text = text_of(out.as_slice());
    let is_due = match answer {
        Ok(status) => is_told(alloc, &slots, status, text)?,
        Err(Refusal::Output(_)) => is_broken_off(alloc, &slots, text)?,
        Err(refusal) => is_want_of_memory(refusal) && text.is_empty(),
    };
    assert!(&rt; is_due);
    Ok(())
}
