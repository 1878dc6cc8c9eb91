//! A device of a column fails at a checkpoint, or as the table is stored first.
use crate::assertions::assert_at;
use crate::stores::{ColumnFailure, Failures, NO_FAILURE, Setting, Slots, run_script, run_setting};
use crate::texts::{IMAGES, TABLE, is_written};
use devices::{ReadFault, StoreFault};
use pdtcli::Refusal;
use std::alloc::Global;
use std::process::Abort;
use std::test::Fail;

/// Two commits, each with a checkpoint behind it.
const SCRIPT: &[u8] =
    b"a,begin\na,insert,25,\"Dee, Jr\",4\na,commit\na,checkpoint\nb,begin\nb,delete,20\nb,commit\nb,checkpoint\n";

/// What is replied where the device of each column fails at the first checkpoint.
const LINES: [&str; 3] = [
    "a,begin,Begun\na,insert,Done\na,commit,Committed,1\na,checkpoint,DeviceFailed,0\nb,begin,Begun\nb,delete,Done\nb,commit,Committed,2\nb,checkpoint,StoreFailed\n",
    "a,begin,Begun\na,insert,Done\na,commit,Committed,1\na,checkpoint,DeviceFailed,1\nb,begin,Begun\nb,delete,Done\nb,commit,Committed,2\nb,checkpoint,StoreFailed\n",
    "a,begin,Begun\na,insert,Done\na,commit,Committed,1\na,checkpoint,DeviceFailed,2\nb,begin,Begun\nb,delete,Done\nb,commit,Committed,2\nb,checkpoint,StoreFailed\n",
];

/// The image after both commits.
const BOTH: &str = "id:int:key,name:text,qty:int\n10,Ann,1\n25,\"Dee, Jr\",4\n30,Cid,3\n";

/// How many bytes each column's device is handed at the first checkpoint: a block of four values has 17 bytes, and 8 for each number, or
/// 2 for each text and its bytes.
const SECOND: [usize; 3] = [49, 41, 49];

/// How many bytes each is handed as the table of three rows is stored.
const FIRST: [usize; 3] = [41, 32, 41];

/// What a run leaves where a column's device fails so, and what it answers and writes.
fn failed(
    alloc: Global,
    failure: ColumnFailure,
) -> Result<(Slots, Result<u8, Refusal>, Vec<u8>), Fail> {
    let slots = Slots::new(alloc)?;
    let failures = Failures {
        column: Some(failure),
        ..NO_FAILURE
    };
    let mut out = Vec::new(alloc);
    let answer = run_script(alloc, SCRIPT, &slots, failures, &mut out);
    Ok((slots, answer, out))
}

/// That a checkpoint whose device fails so is told, and that the commits are recovered, over this image.
fn judge(
    rt: &impl Abort,
    alloc: Global,
    failure: ColumnFailure,
    lines: &str,
    stored: &str,
) -> Result<(), Fail> {
    let (slots, answer, out) = failed(alloc, failure)?;
    let case = failure.device as u64;
    let at = failure.takes;
    assert_at(
        rt,
        answer == Ok(1) && is_written(out.as_slice(), lines, BOTH),
        case,
        at,
    );
    assert_at(rt, slots.marks().len() == 116, case, at);
    assert_at(rt, slots.stored(alloc)?.is_table(stored), case, at);
    assert_at(rt, slots.recovered(alloc)?.is_table(BOTH), case, at);
    Ok(())
}

#[test]
fn the_commits_after_an_image_that_a_device_did_not_take_are_recovered(
    rt: HostRuntime,
) -> Result<(), Fail> {
    for (device, (lines, size)) in LINES.iter().zip(&SECOND).enumerate() {
        for takes in 0..=*size {
            let failure = ColumnFailure {
                device,
                turn: 3,
                takes,
            };
            // Where the last device took all of its piece, the second image is whole in every column.
            let stored = if device == 2 && takes == *size {
                IMAGES[1]
            } else {
                IMAGES[0]
            };
            judge(&rt, rt.alloc(), failure, lines, stored)?;
        }
    }
    Ok(())
}

/// That a run is refused where a device does not take the table so, and has written nothing.
fn judge_first(
    rt: &impl Abort,
    alloc: Global,
    failure: ColumnFailure,
    whole: bool,
) -> Result<(), Fail> {
    let (slots, answer, out) = failed(alloc, failure)?;
    let case = failure.device as u64;
    let at = failure.takes;
    let told = Err(Refusal::Store(StoreFault::DeviceFailed(failure.device)));
    assert_at(rt, answer == told && out.is_empty(), case, at);
    let found = slots.recovered(alloc)?;
    let none = Refusal::Columns(ReadFault::NoImage);
    let is_left = if whole {
        found.is_table(IMAGES[0])
    } else {
        found.is_refused(none)
    };
    assert_at(rt, is_left, case, at);
    Ok(())
}

#[test]
fn a_run_is_refused_whose_table_a_device_does_not_take(rt: HostRuntime) -> Result<(), Fail> {
    for (device, size) in FIRST.iter().enumerate() {
        for takes in 0..=*size {
            let failure = ColumnFailure {
                device,
                turn: 2,
                takes,
            };
            judge_first(&rt, rt.alloc(), failure, device == 2 && takes == *size)?;
        }
    }
    Ok(())
}

/// The generation of the table's image, what is replied, and how many bytes the marks have then.
static LAST_GENERATIONS: [(u32, &str, usize); 2] = [
    (
        u32::MAX,
        "a,checkpoint,GenerationsSpent\na,begin,Begun\na,delete,Done\na,commit,Committed,1\na,checkpoint,GenerationsSpent\n",
        76,
    ),
    (
        4_294_967_294,
        "a,checkpoint,Done,4294967295\na,begin,Begun\na,delete,Done\na,commit,Committed,1\na,checkpoint,GenerationsSpent\n",
        116,
    ),
];

/// That a run from this generation on is answered so, and recovered, with so many bytes of marks.
fn judge_last(
    rt: &impl Abort,
    alloc: Global,
    (first, lines, size): (u32, &str, usize),
) -> Result<(), Fail> {
    let slots = Slots::new(alloc)?;
    let setting = Setting {
        table: TABLE,
        script: b"a,checkpoint\na,begin\na,delete,20\na,commit\na,checkpoint\n",
        slots: &slots,
        failures: NO_FAILURE,
        first,
    };
    let image = "id:int:key,name:text,qty:int\n10,Ann,1\n30,Cid,3\n";
    let mut out = Vec::new(alloc);
    let status = run_setting(alloc, setting, &mut out)?;
    let is_due = status == 1 && is_written(out.as_slice(), lines, image);
    assert_at(rt, is_due, 0, size);
    assert_at(rt, slots.marks().len() == size, 1, size);
    assert_at(rt, slots.recovered(alloc)?.is_table(image), 2, size);
    Ok(())
}

#[test]
fn an_image_past_the_last_generation_is_not_marked_and_commits_go_on(
    rt: HostRuntime,
) -> Result<(), Fail> {
    for last in &LAST_GENERATIONS {
        judge_last(&rt, rt.alloc(), *last)?;
    }
    Ok(())
}
