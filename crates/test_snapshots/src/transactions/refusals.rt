//! Each kind of write, where a growth is refused in it: nothing changes, and the same write succeeds when it is made
//! again.
//!
//! One growth of a run is refused under `rt try --test --fail-alloc N`, for N from 1 on. Where it is one of a write, the
//! test ends well; where it is one of what the test makes for itself, the test ends with that error. What a transaction
//! shows is compared cell by cell and takes no memory.
ghost use Rattle.txn.specs.Marks.{GoesOn};

use super::{answer, opened};
use crate::assertions::assert_holds;
use delta::ChangeRef;
use model::Write;
use std::alloc::Global;
use std::process::Abort;
use std::test::Fail;
use test_fixtures::{Item, base_table, item, key};
use txn::{RowView, Txn, WriteFault, WriteReply};
use values::{Key, NoMemory, Text, Value, ValueRef};

/// A change of a tree as a test names it.
#[derive(Clone, Copy)]
enum Kind {
    Inserts(Item),
    Deletes(i64),
    Modifies(usize, ValueRef<'static>),
}

/// What a transaction shows.
#[derive(Clone, Copy)]
struct Shown {
    entries: &'static [(u64, Kind)],
    rows: &'static [Item],
}

const ANN: Item = (10, "Ann", 1);

const BOB: Item = (20, "Bob", 2);

const BEN: Item = (20, "Ben", 2);

const CID: Item = (30, "Cid", 3);

const DEE: Item = (25, "Dee", 4);

const DOT: Item = (25, "Dot", 4);

const NEW_NAME: ValueRef<'static> = ValueRef::Text("Ben");

/// The replies of the writes here, in turn.
static REPLIES: [WriteReply; 8] = [
    WriteReply::Done,
    WriteReply::Duplicate,
    WriteReply::Done,
    WriteReply::Done,
    WriteReply::Done,
    WriteReply::Done,
    WriteReply::Done,
    WriteReply::Missing,
];

/// The first row deleted.
const FIRST: (u64, Kind) = (0, Kind::Deletes(10));

/// The second row with another name.
const RENAMED: (u64, Kind) = (1, Kind::Modifies(1, NEW_NAME));

/// A row put in before the third, and that row with another name.
const INSERTED: (u64, Kind) = (2, Kind::Inserts(DEE));

const CHANGED: (u64, Kind) = (2, Kind::Inserts(DOT));

/// The third row deleted.
const LAST: (u64, Kind) = (2, Kind::Deletes(30));

/// What is shown before the first of these writes, and after each.
static STATES: [Shown; 9] = [
    Shown {
        entries: &[],
        rows: &[ANN, BOB, CID],
    },
    Shown {
        entries: &[INSERTED],
        rows: &[ANN, BOB, DEE, CID],
    },
    Shown {
        entries: &[INSERTED],
        rows: &[ANN, BOB, DEE, CID],
    },
    Shown {
        entries: &[FIRST, INSERTED],
        rows: &[BOB, DEE, CID],
    },
    Shown {
        entries: &[FIRST, RENAMED, INSERTED],
        rows: &[BEN, DEE, CID],
    },
    Shown {
        entries: &[FIRST, RENAMED, CHANGED],
        rows: &[BEN, DOT, CID],
    },
    Shown {
        entries: &[FIRST, RENAMED, CHANGED, LAST],
        rows: &[BEN, DOT],
    },
    Shown {
        entries: &[FIRST, RENAMED, LAST],
        rows: &[BEN],
    },
    Shown {
        entries: &[FIRST, RENAMED, LAST],
        rows: &[BEN],
    },
];

/// The keys that a test asks for: those of all rows that are ever there, and one that never is.
static IDS: [i64; 5] = [10, 20, 25, 30, 99];

fn is_row(view: &RowView<'_>, row: Item) -> bool {
    view.width() == 3
        && view.value(0) == ValueRef::Int(row.0)
        && view.value(1) == ValueRef::Text(row.1)
        && view.value(2) == ValueRef::Int(row.2)
}

fn are_cells(cells: &[Value], row: Item) -> bool {
    cells.len() == 3
        && cells[0].as_ref() == ValueRef::Int(row.0)
        && cells[1].as_ref() == ValueRef::Text(row.1)
        && cells[2].as_ref() == ValueRef::Int(row.2)
}

fn is_change(change: ChangeRef<'_>, kind: Kind) -> bool {
    match (change, kind) {
        (ChangeRef::Ins(row), Kind::Inserts(named)) => are_cells(row.cells(), named),
        (ChangeRef::Del(key), Kind::Deletes(id)) => {
            key.cells().len() == 1 && key.cells()[0].as_ref() == ValueRef::Int(id)
        }
        (ChangeRef::Mod(col, value), Kind::Modifies(other, wanted)) => {
            col == other && value == wanted
        }
        _ => false,
    }
}

/// Whether these are the entries of its tree.
fn has_entries(txn: &Txn, entries: &[(u64, Kind)]) -> bool {
    txn.tree().len() == entries.len()
        && txn.tree().iter().zip(entries.iter()).all(|(entry, (sid, kind))| entry.sid() == *sid
            && is_change(entry.change(), *kind))
}

/// Whether so many writes are recorded, each with its reply.
fn has_replies(txn: &Txn, count: usize) -> bool {
    txn.writes().len() == count
        && txn
            .writes()
            .iter()
            .zip(REPLIES.iter())
            .all(|(write, reply)| write.1 == *reply)
}

/// Whether a scan of all and each row by its place give these rows.
fn has_rows(txn: &Txn, rows: &[Item]) -> bool {
    let mut place = 0_usize;
    for view in txn.scan(0, u64::MAX) {
        match rows.get(place) {
            Some(row) if is_row(&view, *row) => place = place.wrapping_add(1),
            _ => return false,
        }
    }
    place == rows.len() && txn.len() == place as u64
}

/// Whether the row of the key is that of the number among these rows, or isn't there in both.
fn has_row(txn: &Txn, key: &Key, id: i64, rows: &[Item]) -> bool {
    match (txn.get(key), rows.iter().find(|row| row.0 == id)) {
        (Some(view), Some(row)) => is_row(&view, *row),
        (None, None) => true,
        _ => false,
    }
}

/// Whether the row of each key is as its number has it among these rows.
fn have_rows(txn: &Txn, keys: &[Key], rows: &[Item]) -> bool {
    keys.iter()
        .zip(IDS.iter())
        .all(|(key, id)| has_row(txn, key, *id, rows))
}

/// Whether the transaction shows what is due after so many writes, and nothing else.
fn is_shown(txn: &Txn, keys: &[Key], count: usize) -> bool {
    match STATES.get(count) {
        Some(want) => {
            has_replies(txn, count)
                && has_entries(txn, want.entries)
                && has_rows(txn, want.rows)
                && have_rows(txn, keys, want.rows)
        }
        None => false,
    }
}

/// Makes a write, and where a growth is refused makes it again: nothing has changed then. So many were made before it.
fn make(rt: &impl Abort, txn: &mut Txn, keys: &[Key], count: usize, twice: (Write, Write))
    ensures { GoesOn txn.old txn.new }
{
    let (write, again) = twice;
    let reply = match answer(txn, write) {
        Err(WriteFault::NoMemory) => {
            assert_holds(rt, is_shown(txn, keys, count), "a write that is refused");
            answer(txn, again)
        }
        answered => answered,
    };
    let is_due = matches!((reply, REPLIES.get(count)), (Ok(found), Some(due)) if found == *due);
    assert_holds(rt, is_due, "the reply to a write");
    let is_after = is_shown(txn, keys, count.wrapping_add(1));
    assert_holds(rt, is_after, "after a write");
}

fn inserted(alloc: Global, row: Item) -> Result<Write, NoMemory> {
    Ok(Write::Insert(item(alloc, row.0, row.1, row.2)?))
}

fn deleted(alloc: Global, id: i64) -> Result<Write, NoMemory> {
    Ok(Write::Delete(key(alloc, id)?))
}

/// Another name for the row of a key.
fn renamed(alloc: Global, id: i64, name: &str) -> Result<Write, NoMemory> {
    let name = Text::new(String::from_str(alloc, name)?);
    Ok(Write::Set(key(alloc, id)?, 1, Value::Text(name)))
}

/// The writes here: an insert, one of a key that is there, deletes and sets of rows of the version and of the
/// transaction's own, and last a delete of a key that is gone.
fn planned(alloc: Global, number: usize) -> Result<Write, NoMemory> {
    match number {
        0 => inserted(alloc, DEE),
        1 => inserted(alloc, BEN),
        2 => deleted(alloc, 10),
        3 => renamed(alloc, 20, "Ben"),
        4 => renamed(alloc, 25, "Dot"),
        5 => deleted(alloc, 30),
        _ => deleted(alloc, 25),
    }
}

/// Each of those writes from a number on, twice.
fn planned_twice(alloc: Global, from: usize) -> Result<Vec<(Write, Write)>, NoMemory> {
    let mut writes = Vec::new(alloc);
    for number in from..REPLIES.len() {
        writes.push((planned(alloc, number)?, planned(alloc, number)?))?;
    }
    Ok(writes)
}

/// The keys that are asked for.
fn all_keys(alloc: Global) -> Result<Vec<Key>, NoMemory> {
    let mut keys = Vec::new(alloc);
    for id in &IDS {
        keys.push(key(alloc, *id)?)?;
    }
    Ok(keys)
}

/// Makes the writes in turn, and looks at what is shown before and after each. So many were made before.
fn make_all(
    rt: &impl Abort,
    txn: &mut Txn,
    keys: &[Key],
    before: usize,
    writes: Vec<(Write, Write)>,
)
    ensures { GoesOn txn.old txn.new }
{
    let mut count = before;
    for made in writes {
        make(rt, txn, keys, count, made);
        count = count.wrapping_add(1);
    }
}

#[test]
fn a_refused_growth_changes_nothing_and_the_write_succeeds_again(
    rt: HostRuntime,
) -> Result<(), Fail> {
    let alloc = rt.alloc();
    let keys = all_keys(alloc)?;
    let writes = planned_twice(alloc, 0)?;
    let mut txn = opened(&rt, alloc, base_table(alloc)?)?;
    make_all(&rt, &mut txn, keys.as_slice(), 0, writes);
    let parts = txn.into_parts();
    assert!(&rt; parts.writes.len() == 8);
    assert!(&rt; parts.tree.len() == 3);
    Ok(())
}

/// How many writes are made before the mark.
const MARKED: usize = 2;

/// Marks the transaction, makes the writes that are left, goes back, makes them once more, and goes back again. No call about
/// the mark may want memory.
fn back_and_again(
    rt: &impl Abort,
    txn: &mut Txn,
    keys: &[Key],
    (rest, again): (Vec<(Write, Write)>, Vec<(Write, Write)>),
) {
    let (Ok(mark), Ok(copied)) = (txn.mark(), txn.mark()) else {
        return assert_holds(rt, false, "a mark that is refused");
    };
    make_all(rt, txn, keys, MARKED, rest);
    txn.back_to(mark);
    assert_holds(rt, is_shown(txn, keys, MARKED), "back at the mark");
    make_all(rt, txn, keys, MARKED, again);
    txn.back_to(copied);
    assert_holds(rt, is_shown(txn, keys, MARKED), "back at the mark again");
}

#[test]
fn going_back_takes_no_memory_and_undoes_what_followed(rt: HostRuntime) -> Result<(), Fail> {
    let alloc = rt.alloc();
    let keys = all_keys(alloc)?;
    let first = vec![in alloc;
        (planned(alloc, 0)?, planned(alloc, 0)?),
        (planned(alloc, 1)?, planned(alloc, 1)?),
    ]?;
    let plans = (planned_twice(alloc, MARKED)?, planned_twice(alloc, MARKED)?);
    let mut txn = opened(&rt, alloc, base_table(alloc)?)?;
    make_all(&rt, &mut txn, keys.as_slice(), 0, first);
    back_and_again(&rt, &mut txn, keys.as_slice(), plans);
    let parts = txn.into_parts();
    assert!(&rt; parts.writes.len() == MARKED);
    assert!(&rt; parts.tree.len() == 1);
    Ok(())
}
