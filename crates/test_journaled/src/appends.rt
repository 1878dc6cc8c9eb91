//! The device of the journal fails over a commit: at each append with each number of bytes taken, and at each sync.
use crate::assertions::assert_at;
use crate::stores::{Failures, NO_FAILURE, Slots, run_script};
use crate::texts::{IMAGES, LINES, image_after, is_written, script_with};
use logging::Failure;
use std::alloc::Global;
use std::process::Abort;
use std::test::Fail;

/// A commit that the device fails over.
struct Case {
    /// Which of the four it is.
    number: u64,
    /// How many commits were answered before it.
    answered: usize,
    /// Where its frame stands in the journal.
    begin: usize,
    end: usize,
    /// What is replied.
    lines: &'static str,
}

static CASES: [Case; 4] = [
    Case {
        number: 1,
        answered: 0,
        begin: 36,
        end: 102,
        lines: "a,begin,Begun\na,insert,Done\nb,begin,Begun\nb,set,Done\na,commit,Unsure\na,begin,AlreadyOpen\nb,delete,Done\nb,commit,JournalFailed\nb,begin,AlreadyOpen\na,insert,Done\na,set,Done\na,delete,Done\na,commit,JournalFailed\na,begin,AlreadyOpen\nb,get,Missing\nb,insert,Done\nb,commit,JournalFailed\nb,commit,JournalFailed\nb,begin,AlreadyOpen\na,len,Rows,4\na,abort,Aborted\n",
    },
    Case {
        number: 2,
        answered: 1,
        begin: 102,
        end: 167,
        lines: "a,begin,Begun\na,insert,Done\nb,begin,Begun\nb,set,Done\na,commit,Committed,1\na,begin,Begun\nb,delete,Done\nb,commit,Unsure\nb,begin,AlreadyOpen\na,insert,Done\na,set,Done\na,delete,Done\na,commit,JournalFailed\na,begin,AlreadyOpen\nb,get,Missing\nb,insert,Done\nb,commit,JournalFailed\nb,commit,JournalFailed\nb,begin,AlreadyOpen\na,len,Rows,4\na,abort,Aborted\n",
    },
    Case {
        number: 3,
        answered: 2,
        begin: 167,
        end: 253,
        lines: "a,begin,Begun\na,insert,Done\nb,begin,Begun\nb,set,Done\na,commit,Committed,1\na,begin,Begun\nb,delete,Done\nb,commit,Committed,2\nb,begin,Begun\na,insert,Done\na,set,Done\na,delete,Done\na,commit,Unsure\na,begin,AlreadyOpen\nb,get,Row,25,\"Dee, Jr\",4\nb,insert,Done\nb,commit,JournalFailed\nb,commit,JournalFailed\nb,begin,AlreadyOpen\na,len,Rows,4\na,abort,Aborted\n",
    },
    Case {
        number: 4,
        answered: 3,
        begin: 253,
        end: 322,
        lines: "a,begin,Begun\na,insert,Done\nb,begin,Begun\nb,set,Done\na,commit,Committed,1\na,begin,Begun\nb,delete,Done\nb,commit,Committed,2\nb,begin,Begun\na,insert,Done\na,set,Done\na,delete,Done\na,commit,Committed,3\na,begin,Begun\nb,get,Row,25,\"Dee, Jr\",4\nb,insert,Done\nb,commit,Unsure\nb,commit,JournalFailed\nb,begin,AlreadyOpen\na,len,Rows,3\na,abort,Aborted\n",
    },
];

/// What a run leaves where the commits' journal fails so, and whether it was answered so, with status 1 and the image of the commits that
/// were answered.
fn failed(alloc: Global, case: &Case, failure: Failure) -> Result<(Slots, bool), Fail> {
    let slots = Slots::new(alloc)?;
    let script = script_with(alloc, 0)?;
    let failures = Failures {
        commits: failure,
        ..NO_FAILURE
    };
    let mut out = Vec::new(alloc);
    let status = run_script(
        alloc,
        script.as_str().as_bytes(),
        &slots,
        failures,
        &mut out,
    )?;
    let answered = image_after(case.answered);
    Ok((
        slots,
        status == 1 && is_written(out.as_slice(), case.lines, answered),
    ))
}

/// Whether the journal has so many bytes, of which the frames of the answered commits are safe; and all of them are recovered as this
/// image, and the safe ones as that of the answered commits.
fn is_left(
    alloc: Global,
    case: &Case,
    slots: &Slots,
    count: usize,
    image: &str,
) -> Result<bool, Fail> {
    let (marks, safe) = (slots.marks(), slots.safe_commits());
    Ok(
        slots.commits().len() == count
            && safe.len() == case.begin
            && slots.recovered(alloc)?.is_table(image)
            && slots
                .recovered_with(alloc, marks, safe)?
                .is_table(image_after(case.answered)),
    )
}

/// That a run is answered so whose append of this commit takes so many bytes, and that it leaves the commit where it took them all.
fn judge_append(rt: &impl Abort, alloc: Global, case: &Case, takes: usize) -> Result<(), Fail> {
    let failure = Failure::Append {
        turn: case.number,
        takes,
    };
    let (slots, answered) = failed(alloc, case, failure)?;
    assert_at(rt, answered, case.number, takes);
    let count = case.begin.wrapping_add(takes);
    let image = if count == case.end {
        image_after(case.answered.wrapping_add(1))
    } else {
        image_after(case.answered)
    };
    assert_at(
        rt,
        is_left(alloc, case, &slots, count, image)?,
        case.number,
        takes,
    );
    Ok(())
}

#[test]
fn a_commit_whose_append_is_cut_at_any_byte_is_unsure_and_recovered_whole_or_not_at_all(
    rt: HostRuntime,
) -> Result<(), Fail> {
    for case in &CASES {
        for takes in 0..=case.end.wrapping_sub(case.begin) {
            judge_append(&rt, rt.alloc(), case, takes)?;
        }
    }
    Ok(())
}

#[test]
fn a_commit_whose_sync_fails_is_unsure_and_may_be_recovered(rt: HostRuntime) -> Result<(), Fail> {
    let alloc = rt.alloc();
    for case in &CASES {
        let (slots, answered) = failed(alloc, case, Failure::Sync { turn: case.number })?;
        assert_at(&rt, answered, case.number, 0);
        let image = image_after(case.answered.wrapping_add(1));
        assert_at(
            &rt,
            is_left(alloc, case, &slots, case.end, image)?,
            case.number,
            1,
        );
    }
    Ok(())
}

/// A commit that is unsure, and a checkpoint behind it, which the images' own journal still takes.
const STORED: &[u8] = b"a,begin\na,insert,25,\"Dee, Jr\",4\na,commit\nb,checkpoint\n";

/// What is replied.
const STORED_LINES: &str = "a,begin,Begun\na,insert,Done\na,commit,Unsure\nb,checkpoint,Done,2\n";

/// That an image without the unsure commit is stored then, and this one recovered over it.
fn judge_stored(
    rt: &impl Abort,
    alloc: Global,
    failure: Failure,
    image: &str,
    at: usize,
) -> Result<(), Fail> {
    let slots = Slots::new(alloc)?;
    let failures = Failures {
        commits: failure,
        ..NO_FAILURE
    };
    let mut out = Vec::new(alloc);
    let status = run_script(alloc, STORED, &slots, failures, &mut out)?;
    let answered = status == 1 && is_written(out.as_slice(), STORED_LINES, IMAGES[0]);
    assert_at(rt, answered && slots.safe_marks().len() == 116, 0, at);
    assert_at(rt, slots.stored(alloc)?.is_table(IMAGES[0]), 1, at);
    assert_at(rt, slots.recovered(alloc)?.is_table(image), 2, at);
    Ok(())
}

#[test]
fn a_checkpoint_behind_an_unsure_commit_leaves_it_to_the_journal(
    rt: HostRuntime,
) -> Result<(), Fail> {
    for takes in 0..66 {
        let failure = Failure::Append { turn: 1, takes };
        judge_stored(&rt, rt.alloc(), failure, IMAGES[0], takes)?;
    }
    let whole = Failure::Append { turn: 1, takes: 66 };
    judge_stored(&rt, rt.alloc(), whole, IMAGES[1], 66)?;
    judge_stored(&rt, rt.alloc(), Failure::Sync { turn: 1 }, IMAGES[1], 67)
}

#[test]
fn four_commits_are_answered_and_recovered(rt: HostRuntime) -> Result<(), Fail> {
    let alloc = rt.alloc();
    let slots = Slots::new(alloc)?;
    let script = script_with(alloc, 0)?;
    let mut out = Vec::new(alloc);
    let status = run_script(
        alloc,
        script.as_str().as_bytes(),
        &slots,
        NO_FAILURE,
        &mut out,
    )?;
    assert!(&rt; status == 0);
    assert!(&rt; is_written(out.as_slice(), LINES, IMAGES[4]));
    assert!(&rt; slots.safe_commits().len() == 322 && slots.commits().len() == 322);
    assert!(&rt; slots.recovered(alloc)?.is_table(IMAGES[4]));
    assert!(&rt; slots.stored(alloc)?.is_table(IMAGES[0]));
    Ok(())
}
