//! Images and journals of which nothing is recovered, each with its fault.
ghost use Rattle.std.specs.Prelude.{◌<◌, ◌^◌};

use crate::assertions::assert_holds;
use crate::histories::{History, commit_named};
use crate::journals::{TABLE, empty_frame, frames_behind};
use crate::recoveries::{LIMITS, image_at, is_recovered};
use codec::PayloadFault;
use replay::{FrameBytes, Image, Limits, RecoverFault, recover};
use stable::StableTable;
use std::alloc::Global;
use std::test::Fail;
use test_fixtures::{BASE, Item, ItemWrite, item_table, schema};
use values::{ColumnType, NoMemory};

/// The writes of five commits over the base table, each of one.
static WRITES: [ItemWrite; 5] = [
    ItemWrite::Delete(20),
    ItemWrite::Insert(25, "Dee", 4),
    ItemWrite::Set(10, 9),
    ItemWrite::Insert(35, "Eve", 5),
    ItemWrite::Set(25, 6),
];

/// Those five commits.
fn five(alloc: Global) -> Result<History, Fail> {
    let mut history = History::new(alloc)?;
    for write in &WRITES {
        commit_named(&mut history, *write)?;
    }
    Ok(history)
}

/// The frames of the commits after one number, up to another.
fn frames_of(history: &History, after: u64, upto: u64) -> &[u8] {
    let (from, to) = (history.journal.end_of(after), history.journal.end_of(upto));
    history.journal.bytes().get(from..to).unwrap_or(&[])
}

/// The fault of a recovery over the image of a number.
fn fault_over(
    history: &History,
    number: u64,
    limits: Limits,
    frames: FrameBytes<'_>,
) -> Result<Option<RecoverFault>, Fail>
    requires { frames.base < 2 ^ 63 }
{
    let image = image_at(history.alloc, &history.slow, number)?;
    Ok(recover(history.alloc, image, limits, TABLE, frames).err())
}

/// The fault of a recovery over these rows, as the table of a number.
fn fault_of_rows(
    history: &History,
    rows: &[Item],
    number: u64,
) -> Result<Option<RecoverFault>, Fail> {
    let image = Image {
        table: item_table(history.alloc, rows)?,
        number,
    };
    let frames = frames_behind(0, history.journal.bytes());
    Ok(recover(history.alloc, image, LIMITS, TABLE, frames).err())
}

#[test]
fn a_journal_of_another_table_is_a_misfit(rt: HostRuntime) -> Result<(), Fail> {
    let history = five(rt.alloc())?;
    let others = [(1, "one", 1), (2, "two", 2), (3, "three", 3)];
    let fault = fault_of_rows(&history, others.as_slice(), 0)?;
    assert_holds(&rt, fault == Some(RecoverFault::Misfit(1)), "other rows");
    let fault = fault_of_rows(&history, BASE.as_slice(), 1)?;
    assert_holds(
        &rt,
        fault == Some(RecoverFault::Misfit(2)),
        "an older image",
    );
    Ok(())
}

/// The fault of a recovery over no rows of these types of columns, the first of which is the key.
fn fault_of_types(history: &History, types: [ColumnType; 3]) -> Result<Option<RecoverFault>, Fail> {
    let alloc = history.alloc;
    let [id, name, quantity] = types;
    let columns = schema(alloc, &[("id", id), ("name", name), ("qty", quantity)], 1)?;
    let image = Image {
        table: StableTable::build(alloc, columns, Vec::new(alloc))?,
        number: 0,
    };
    let frames = frames_behind(0, history.journal.bytes());
    Ok(recover(alloc, image, LIMITS, TABLE, frames).err())
}

// The first commit deletes the key 20: the part's eight bytes, a place of four, a kind, and the number in eight. As a text these
// eight are one of no characters, a place, and at the offset 19 a kind that is 0. As a truth they are one byte, a place, and a kind.
#[test]
fn a_journal_of_other_types_is_no_payload(rt: HostRuntime) -> Result<(), Fail> {
    let history = five(rt.alloc())?;
    let text = fault_of_types(
        &history,
        [ColumnType::Text, ColumnType::Text, ColumnType::Int],
    )?;
    let bad_text = RecoverFault::BadPayload(1, PayloadFault::BadKind(19));
    assert_holds(&rt, text == Some(bad_text), "a text");
    let truth = fault_of_types(
        &history,
        [ColumnType::Bool, ColumnType::Text, ColumnType::Int],
    )?;
    let bad_truth = RecoverFault::BadPayload(1, PayloadFault::BadKind(18));
    assert_holds(&rt, truth == Some(bad_truth), "a truth");
    Ok(())
}

#[test]
fn a_payload_that_is_none_is_told_with_its_commit(rt: HostRuntime) -> Result<(), Fail> {
    let mut history = five(rt.alloc())?;
    history.journal.push(b"abc")?;
    let frames = frames_behind(0, history.journal.bytes());
    let fault = fault_over(&history, 0, LIMITS, frames)?;
    let bad = RecoverFault::BadPayload(6, PayloadFault::Short(0));
    assert_holds(&rt, fault == Some(bad), "three bytes");
    Ok(())
}

/// The five commits but for one.
fn without(alloc: Global, history: &History, number: u64) -> Result<Vec<u8>, NoMemory> {
    let mut bytes = Vec::new(alloc);
    bytes.extend_from_slice(frames_of(history, 0, number.wrapping_sub(1)))?;
    bytes.extend_from_slice(frames_of(history, number, 5))?;
    Ok(bytes)
}

#[test]
fn a_commit_that_is_left_out_is_a_gap(rt: HostRuntime) -> Result<(), Fail> {
    let history = five(rt.alloc())?;
    for number in 1..5 {
        let bytes = without(rt.alloc(), &history, number)?;
        let fault = fault_over(&history, 0, LIMITS, frames_behind(0, bytes.as_slice()))?;
        assert_holds(
            &rt,
            fault == Some(RecoverFault::Gap(number)),
            "a frame left out",
        );
    }
    Ok(())
}

#[test]
fn a_journal_that_misses_its_image_is_a_gap(rt: HostRuntime) -> Result<(), Fail> {
    let history = five(rt.alloc())?;
    let begins_after = fault_over(
        &history,
        1,
        LIMITS,
        frames_behind(2, frames_of(&history, 2, 5)),
    )?;
    assert_holds(
        &rt,
        begins_after == Some(RecoverFault::Gap(2)),
        "it begins after the image",
    );
    let ends_before = fault_over(
        &history,
        5,
        LIMITS,
        frames_behind(0, frames_of(&history, 0, 3)),
    )?;
    assert_holds(
        &rt,
        ends_before == Some(RecoverFault::Gap(4)),
        "it ends before the image",
    );
    Ok(())
}

/// Whether the commits after a number are made again over its image.
fn is_made_from(history: &History, number: u64) -> Result<bool, Fail> {
    let bytes = frames_of(history, number, 5);
    let image = image_at(history.alloc, &history.slow, number)?;
    let found = recover(
        history.alloc,
        image,
        LIMITS,
        TABLE,
        frames_behind(number.min(5), bytes),
    );
    Ok(is_recovered(history.alloc, &found, &history.slow, 5, bytes.len())?)
}

#[test]
fn a_journal_behind_its_image_is_made_again_and_no_bytes_are_the_image(
    rt: HostRuntime,
) -> Result<(), Fail> {
    let history = five(rt.alloc())?;
    for number in 0..=5 {
        assert_holds(
            &rt,
            is_made_from(&history, number)?,
            "the commits since then",
        );
    }
    Ok(())
}

/// So many rows as a limit.
fn at_most(rows: u64) -> Limits {
    Limits {
        row_limit: rows,
        ..LIMITS
    }
}

// The tables have 3, 2, 3, 3, 4 and 4 rows.
#[test]
fn more_rows_than_the_limit_are_too_many(rt: HostRuntime) -> Result<(), Fail> {
    let history = five(rt.alloc())?;
    let frames = frames_behind(0, history.journal.bytes());
    let image = fault_over(&history, 0, at_most(2), frames)?;
    assert_holds(&rt, image == Some(RecoverFault::TooManyRows), "the image");
    let commit = fault_over(&history, 0, at_most(3), frames)?;
    assert_holds(&rt, commit == Some(RecoverFault::TooManyRows), "a commit");
    assert_holds(
        &rt,
        fault_over(&history, 0, at_most(4), frames)?.is_none(),
        "four rows",
    );
    let none = fault_over(&history, 0, at_most(0), frames)?;
    assert_holds(&rt, none == Some(RecoverFault::BadLimit), "no rows");
    Ok(())
}

/// The fault of a recovery over the base table as that of a number, with these frames behind it.
fn fault_behind(alloc: Global, number: u64, frames: &[u8]) -> Result<Option<RecoverFault>, Fail>
    requires { number < 2 ^ 63 }
{
    let image = Image {
        table: item_table(alloc, BASE.as_slice())?,
        number,
    };
    let frames = frames_behind(number, frames);
    Ok(recover(alloc, image, LIMITS, TABLE, frames).err())
}

#[test]
fn a_number_above_2_to_the_62_is_spent(rt: HostRuntime) -> Result<(), Fail> {
    let alloc = rt.alloc();
    let spent = Some(RecoverFault::NumbersSpent);
    let last = fault_behind(alloc, 1 << 62, &[])?;
    assert_holds(&rt, last.is_none(), "an image of 2^62");
    let image = fault_behind(alloc, (1 << 62) + 1, &[])?;
    assert_holds(&rt, image == spent, "an image of one more");
    let frame = empty_frame(alloc, 1 << 62)?;
    let last = fault_behind(alloc, (1 << 62) - 1, frame.as_slice())?;
    assert_holds(&rt, last.is_none(), "a commit of 2^62");
    let frame = empty_frame(alloc, (1 << 62) + 1)?;
    let commit = fault_behind(alloc, 1 << 62, frame.as_slice())?;
    assert_holds(&rt, commit == spent, "a commit of one more");
    Ok(())
}
