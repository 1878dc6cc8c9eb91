//! The device of the images' marks fails at a checkpoint, or before the first call.
use crate::assertions::assert_at;
use crate::stores::{Failures, NO_FAILURE, Slots, run_script};
use crate::texts::{IMAGES, is_written};
use devices::ReadFault;
use logging::Failure;
use pdtcli::Refusal;
use std::alloc::Global;
use std::process::Abort;
use std::test::Fail;

/// How many bytes the frame of a mark has.
const MARKED: usize = 40;

/// Two commits, each with a checkpoint behind it.
const SCRIPT: &[u8] =
    b"a,begin\na,insert,25,\"Dee, Jr\",4\na,commit\na,checkpoint\nb,begin\nb,delete,20\nb,commit\nb,checkpoint\n";

/// What is replied where the second mark fails.
const LINES: &str =
    "a,begin,Begun\na,insert,Done\na,commit,Committed,1\na,checkpoint,JournalFailed\nb,begin,Begun\nb,delete,Done\nb,commit,Committed,2\nb,checkpoint,JournalFailed\n";

/// What is replied where the third one fails.
const LATER: &str =
    "a,begin,Begun\na,insert,Done\na,commit,Committed,1\na,checkpoint,Done,2\nb,begin,Begun\nb,delete,Done\nb,commit,Committed,2\nb,checkpoint,JournalFailed\n";

/// The image after both commits.
const BOTH: &str = "id:int:key,name:text,qty:int\n10,Ann,1\n25,\"Dee, Jr\",4\n30,Cid,3\n";

/// What a run leaves where the marks' journal fails so, and what it answers and writes.
fn failed(alloc: Global, failure: Failure) -> Result<(Slots, Result<u8, Refusal>, Vec<u8>), Fail> {
    let slots = Slots::new(alloc)?;
    let failures = Failures {
        images: failure,
        ..NO_FAILURE
    };
    let mut out = Vec::new(alloc);
    let answer = run_script(alloc, SCRIPT, &slots, failures, &mut out);
    Ok((slots, answer, out))
}

/// Whether the columns have this image, and the commits are recovered over it, with all marks that were left and with the safe ones.
fn is_left(alloc: Global, slots: &Slots, stored: &str) -> Result<bool, Fail> {
    let (marks, commits) = (slots.safe_marks(), slots.commits());
    Ok(
        slots.stored(alloc)?.is_table(stored)
            && slots.recovered(alloc)?.is_table(BOTH)
            && slots.recovered_with(alloc, marks, commits)?.is_table(BOTH),
    )
}

/// That a checkpoint isn't stored whose mark fails so, and the commits go on.
fn judge(
    rt: &impl Abort,
    alloc: Global,
    failure: Failure,
    (lines, stored): (&str, &str),
    at: usize,
) -> Result<(), Fail> {
    let (slots, answer, out) = failed(alloc, failure)?;
    assert_at(
        rt,
        answer == Ok(1) && is_written(out.as_slice(), lines, BOTH),
        0,
        at,
    );
    assert_at(rt, is_left(alloc, &slots, stored)?, 1, at);
    Ok(())
}

#[test]
fn an_image_that_is_not_marked_is_not_stored_and_commits_go_on(
    rt: HostRuntime,
) -> Result<(), Fail> {
    for takes in 0..=MARKED {
        let failure = Failure::Append { turn: 2, takes };
        judge(&rt, rt.alloc(), failure, (LINES, IMAGES[0]), takes)?;
    }
    judge(
        &rt,
        rt.alloc(),
        Failure::Sync { turn: 2 },
        (LINES, IMAGES[0]),
        MARKED,
    )
}

#[test]
fn a_later_image_that_is_not_marked_leaves_the_one_before(rt: HostRuntime) -> Result<(), Fail> {
    for takes in 0..=MARKED {
        let failure = Failure::Append { turn: 3, takes };
        judge(&rt, rt.alloc(), failure, (LATER, IMAGES[1]), takes)?;
    }
    judge(
        &rt,
        rt.alloc(),
        Failure::Sync { turn: 3 },
        (LATER, IMAGES[1]),
        MARKED,
    )
}

/// That a run is refused whose first mark fails so, and that it has written nothing and stored no image.
fn judge_first(rt: &impl Abort, alloc: Global, failure: Failure, at: usize) -> Result<(), Fail> {
    let (slots, answer, out) = failed(alloc, failure)?;
    assert_at(
        rt,
        answer == Err(Refusal::JournalFailed) && out.is_empty(),
        0,
        at,
    );
    assert_at(rt, slots.commits().len() == 36, 1, at);
    let none = Refusal::Columns(ReadFault::NoImage);
    assert_at(rt, slots.stored(alloc)?.is_refused(none), 2, at);
    assert_at(rt, slots.recovered(alloc)?.is_refused(none), 3, at);
    Ok(())
}

#[test]
fn a_run_is_refused_whose_first_image_is_not_marked(rt: HostRuntime) -> Result<(), Fail> {
    for takes in 0..=MARKED {
        judge_first(&rt, rt.alloc(), Failure::Append { turn: 1, takes }, takes)?;
    }
    judge_first(&rt, rt.alloc(), Failure::Sync { turn: 1 }, MARKED)
}
