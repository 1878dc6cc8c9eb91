//! Two tables whose commits are in the same frames: each is recovered of its own parts, and of frames that were read once as of their
//! bytes.
ghost use Rattle.std.specs.Prelude.{◌≡◌};

use crate::assertions::assert_at;
use crate::histories::begun;
use crate::journals::{Journal, commit_part, frames_behind};
use crate::recoveries::{LIMITS, has_rows};
use manager::Manager;
use replay::{Image, ReadFrames, Recovered, recover, recover_read};
use std::alloc::Global;
use std::process::Abort;
use std::test::Fail;
use test_fixtures::{Draws, Item, item_table};
use values::{NoMemory, Row};

/// The number of one table in the payloads, and its first rows.
const LOW: (u32, &[Item]) = (3, &[(10, "Ann", 1), (20, "Bob", 2)]);

/// The same of the other.
const HIGH: (u32, &[Item]) = (300, &[(5, "Eve", 7)]);

/// How many frames are written.
const COUNT: u64 = 60;

/// A manager of these rows.
fn opened(alloc: Global, rows: &[Item]) -> Result<Manager, Fail> {
    Ok(Manager::open(
        alloc,
        item_table(alloc, rows)?,
        LIMITS.recent,
        LIMITS.row_limit,
        LIMITS.conflicts,
    )?)
}

/// Commits a drawn transaction, and adds its part.
fn add_part(
    alloc: Global,
    manager: &mut Manager,
    table: u32,
    draws: &mut Draws,
    payload: &mut Vec<u8>,
) -> Result<(), Fail> {
    let txn = begun(alloc, manager, draws)?;
    commit_part(manager, txn, table, payload)?;
    Ok(())
}

/// Two managers, and the journal of both.
#[derive(Drop)]
struct Pair {
    low: Manager,
    high: Manager,
    journal: Journal,
}

impl Pair {
    fn new(alloc: Global) -> Result<Pair, Fail> {
        Ok(Pair {
            low: opened(alloc, LOW.1)?,
            high: opened(alloc, HIGH.1)?,
            journal: Journal::new(alloc)?,
        })
    }

    /// Logs drawn commits in one frame: of one table, of the other, of both or of none.
    fn log(&mut self, alloc: Global, draws: &mut Draws) -> Result<(), Fail> {
        let mut payload = Vec::new(alloc);
        let kind = draws.below(4);
        if kind % 2 == 1 {
            add_part(alloc, &mut self.low, LOW.0, draws, &mut payload)?;
        }
        if kind / 2 == 1 {
            add_part(alloc, &mut self.high, HIGH.0, draws, &mut payload)?;
        }
        self.journal.push(payload.as_slice())
    }

    /// Logs so many frames.
    fn log_all(&mut self, alloc: Global, draws: &mut Draws) -> Result<(), Fail> {
        for _ in 0..COUNT {
            self.log(alloc, draws)?;
        }
        Ok(())
    }
}

/// Whether the rows of the manager are those that are recovered of its part of the payloads.
fn is_recovered(
    alloc: Global,
    manager: &Manager,
    (table, rows): (u32, &[Item]),
    bytes: &[u8],
) -> Result<bool, Fail> {
    let image = Image {
        table: item_table(alloc, rows)?,
        number: 0,
    };
    let found = recover(alloc, image, LIMITS, table, frames_behind(0, bytes))?;
    let rows = rows_of(alloc, manager)?;
    Ok(
        found.manager.version().number() == COUNT
            && has_rows(alloc, &found.manager, rows.as_slice())?,
    )
}

/// The image of these rows, as that of a number.
fn image_of(alloc: Global, rows: &[Item], number: u64) -> Result<Image, Fail> {
    Ok(Image {
        table: item_table(alloc, rows)?,
        number,
    })
}

/// Whether two managers have the same rows, numbers and whole bytes.
fn are_same(alloc: Global, one: &Recovered, other: &Recovered) -> Result<bool, Fail> {
    let rows = rows_of(alloc, &one.manager)?;
    Ok(
        one.whole == other.whole
            && one.manager.version().number() == other.manager.version().number()
            && one.manager.made() == other.manager.made()
            && one.manager.floor() == other.manager.floor()
            && has_rows(alloc, &other.manager, rows.as_slice())?,
    )
}

/// Whether a table over the image of a number is recovered, or refused, of frames that were read as it is of their bytes.
fn is_alike(
    alloc: Global,
    of: (u32, &[Item]),
    number: u64,
    frames: &ReadFrames,
    bytes: &[u8],
) -> Result<bool, Fail>
    requires { bytes.now ≡ frames.now.bytes }
{
    let (table, rows) = of;
    let image = image_of(alloc, rows, number)?;
    let one = recover(alloc, image, LIMITS, table, frames_behind(0, bytes));
    let image = image_of(alloc, rows, number)?;
    let other = recover_read(alloc, image, LIMITS, table, frames, bytes);
    match (one, other) {
        (Ok(one), Ok(other)) => are_same(alloc, &one, &other),
        (Err(one), Err(other)) => Ok(one == other),
        _ => Ok(false),
    }
}

/// That each table is recovered alike over the image of each number, a table that no frame has a part of among them.
fn judge_read(rt: &impl Abort, alloc: Global, bytes: &[u8]) -> Result<(), Fail> {
    let frames = ReadFrames::read(alloc, frames_behind(0, bytes))?;
    for number in 0..COUNT.wrapping_mul(2) {
        assert_at(rt, is_alike(alloc, LOW, number, &frames, bytes)?, number);
        assert_at(rt, is_alike(alloc, HIGH, number, &frames, bytes)?, number);
        assert_at(
            rt,
            is_alike(alloc, (7, LOW.1), number, &frames, bytes)?,
            number,
        );
    }
    Ok(())
}

/// That both tables are recovered.
fn judge(rt: &impl Abort, alloc: Global, pair: &Pair) -> Result<(), Fail> {
    let bytes = pair.journal.bytes();
    assert_at(rt, is_recovered(alloc, &pair.low, LOW, bytes)?, 3);
    assert_at(rt, is_recovered(alloc, &pair.high, HIGH, bytes)?, 300);
    Ok(())
}

/// The rows of a manager, copied.
fn rows_of(alloc: Global, manager: &Manager) -> Result<Vec<Row>, NoMemory> {
    let newest = manager.newest();
    let mut rows = Vec::new(alloc);
    for view in newest.scan(0, newest.len()) {
        rows.push(view.copy(alloc)?)?;
    }
    Ok(rows)
}

#[test]
fn each_table_is_recovered_of_its_own_parts(rt: HostRuntime) -> Result<(), Fail> {
    let alloc = rt.alloc();
    let mut pair = Pair::new(alloc)?;
    pair.log_all(alloc, &mut Draws::new(21))?;
    judge(&rt, alloc, &pair)
}

#[test]
fn frames_that_are_read_once_recover_each_table_as_their_bytes_do(
    rt: HostRuntime,
) -> Result<(), Fail> {
    let alloc = rt.alloc();
    let mut pair = Pair::new(alloc)?;
    let mut draws = Draws::new(22);
    pair.log_all(alloc, &mut draws)?;
    judge_read(&rt, alloc, pair.journal.bytes())?;

    // A payload that can't be read as parts, and frames behind it.
    pair.journal.push(&[0, 0, 0, 3, 0, 0, 0, 9])?;
    pair.log_all(alloc, &mut draws)?;
    judge_read(&rt, alloc, pair.journal.bytes())?;

    // A frame that is torn.
    let bytes = pair.journal.bytes();
    judge_read(&rt, alloc, &bytes[..bytes.len().saturating_sub(5)])
}
