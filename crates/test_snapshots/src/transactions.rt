//! One transaction's writes over a small table, and the tree that they leave.
//!
//! That a refused growth is answered shows under `rt try --test --fail-alloc N`, for N from 1 on: a case then ends with
//! NoMemory in the place of its answer.
ghost use Rattle.std.specs.Prelude.{◌≡◌};
ghost use Rattle.txn.specs.Marks.{GoesOn};

mod marks;
mod random_writes;
mod refusals;
mod stacks;

use crate::assertions::assert_text;
use model::Write;
use stable::StableTable;
use std::alloc::Global;
use std::process::Abort;
use std::sync::Arc;
use std::test::Fail;
use test_fixtures::{
    BASE, Item, ItemWrite, base_table, entries_text, item, item_table, key, writes_of,
};
use txn::{Parts, RowView, Stretch, Txn, Version, WriteFault, WriteReply};
use values::{Key, NoMemory, Row, ShapeFault, Value, ValueRef};

/// How many rows are the most in these tests.
const ROOM: u64 = 4;

/// The reply to a write.
pub(crate) fn answer(txn: &mut Txn, write: Write) -> Result<WriteReply, WriteFault>
    ensures schema { txn.new.schema ≡ txn.old.schema }
    ensures table { txn.new.table ≡ txn.old.table }
    ensures goes_on { GoesOn txn.old txn.new }
{
    match write {
        Write::Insert(row) => txn.insert(row),
        Write::Delete(key) => txn.delete(&key),
        Write::Set(key, col, value) => txn.set(&key, col, value),
    }
}

/// A transaction of client 3 over the table after seven commits, where four rows are the most.
fn opened(rt: &impl Abort, alloc: Global, table: StableTable) -> Result<Txn, Fail> {
    let version = Version::new(alloc, Arc::new(alloc, table)?, 7)?;
    assert!(rt; version.len() <= ROOM);
    Ok(Txn::open(alloc, version, 3, ROOM)?)
}

/// The number of a row that is read, or less than none.
fn number_of(found: Option<RowView<'_>>) -> i64 {
    match found {
        Some(view) => match view.width() {
            0 => -1,
            _ => match view.value(0) {
                ValueRef::Int(id) => id,
                _ => -1,
            },
        },
        None => -1,
    }
}

/// What a write is answered.
type Answer = Result<WriteReply, WriteFault>;

/// That the writes are answered so, in turn.
fn assert_answers(rt: &impl Abort, txn: &mut Txn, writes: Vec<Write>, answers: &[Answer]) {
    assert!(rt; writes.len() == answers.len());
    for (write, due) in writes.into_iter().zip(answers) {
        assert!(rt; answer(txn, write) == *due);
    }
}

/// That a transaction over these rows answers the writes so, leaves these entries, and records so many writes.
fn assert_left(
    rt: &impl Abort,
    alloc: Global,
    rows: &[Item],
    (writes, answers): (Vec<Write>, &[Answer]),
    (entries, recorded): (&str, usize),
) -> Result<(), Fail> {
    let mut txn = opened(rt, alloc, item_table(alloc, rows)?)?;
    assert_answers(rt, &mut txn, writes, answers);
    let left = entries_text(alloc, txn.tree().iter());
    let count = txn.writes().len();
    txn.abort();
    assert_text(rt, left?.as_str(), entries, "the entries left");
    assert!(rt; count == recorded);
    Ok(())
}

/// That named writes over the base table are answered so, and leave these entries. Each of them is recorded.
fn assert_over_base(
    rt: &impl Abort,
    alloc: Global,
    named: &[ItemWrite],
    answers: &[Answer],
    entries: &str,
) -> Result<(), Fail> {
    let writes = writes_of(alloc, named)?;
    assert_left(rt, alloc, &BASE, (writes, answers), (entries, named.len()))
}

#[test]
fn the_first_row_of_an_empty_table_stands_at_place_0(rt: HostRuntime) -> Result<(), Fail> {
    let writes = writes_of(rt.alloc(), &[ItemWrite::Insert(5, "Eve", 0)])?;
    assert_left(
        &rt,
        rt.alloc(),
        &[],
        (writes, &[Ok(WriteReply::Done)]),
        ("0+5,Eve,0", 1),
    )
}

#[test]
fn refused_writes_leave_no_entry(rt: HostRuntime) -> Result<(), Fail> {
    static ANSWERS: [Answer; 3] = [
        Ok(WriteReply::Duplicate),
        Ok(WriteReply::Missing),
        Err(WriteFault::Shape(ShapeFault::KeyColumn)),
    ];
    let named = [ItemWrite::Insert(20, "Bob", 2), ItemWrite::Delete(25)];
    let mut writes = writes_of(rt.alloc(), &named)?;
    writes.push(Write::Set(key(rt.alloc(), 20)?, 0, Value::Int(21)))?;
    assert_left(&rt, rt.alloc(), &BASE, (writes, &ANSWERS), ("", 2))
}

#[test]
fn a_replaced_row_is_an_insert_and_a_delete(rt: HostRuntime) -> Result<(), Fail> {
    static ANSWERS: [Answer; 2] = [Ok(WriteReply::Done), Ok(WriteReply::Done)];
    let named = [ItemWrite::Delete(20), ItemWrite::Insert(20, "Bea", 9)];
    assert_over_base(&rt, rt.alloc(), &named, &ANSWERS, "1+20,Bea,9 1-20")
}

#[test]
fn a_cell_set_to_what_it_is_leaves_a_modify(rt: HostRuntime) -> Result<(), Fail> {
    let named = [ItemWrite::Set(20, 2)];
    assert_over_base(&rt, rt.alloc(), &named, &[Ok(WriteReply::Done)], "1:2=2")
}

#[test]
fn an_insert_changed_and_deleted_leaves_no_entry(rt: HostRuntime) -> Result<(), Fail> {
    static ANSWERS: [Answer; 3] = [
        Ok(WriteReply::Done),
        Ok(WriteReply::Done),
        Ok(WriteReply::Done),
    ];
    static NAMED: [ItemWrite; 3] = [
        ItemWrite::Insert(25, "Dee", 4),
        ItemWrite::Set(25, 5),
        ItemWrite::Delete(25),
    ];
    assert_over_base(&rt, rt.alloc(), &NAMED[..2], &ANSWERS[..2], "2+25,Dee,5")?;
    assert_over_base(&rt, rt.alloc(), &NAMED, &ANSWERS, "")
}

#[test]
fn a_shape_is_refused_before_the_table_is_looked_at(rt: HostRuntime) -> Result<(), Fail> {
    static ANSWERS: [Answer; 3] = [
        Err(WriteFault::Shape(ShapeFault::KeyColumn)),
        Err(WriteFault::Shape(ShapeFault::WrongCount)),
        Err(WriteFault::Shape(ShapeFault::WrongCount)),
    ];
    let alloc = rt.alloc();
    let mut writes = Vec::new(alloc);
    writes.push(Write::Set(key(alloc, 20)?, 0, Value::Int(21)))?;
    writes.push(Write::Delete(Key::new(Vec::new(alloc))))?;
    writes.push(Write::Insert(Row::new(Vec::new(alloc))))?;
    assert_left(&rt, alloc, &BASE, (writes, &ANSWERS), ("", 0))
}

#[test]
fn a_key_that_is_there_comes_before_the_row_limit(rt: HostRuntime) -> Result<(), Fail> {
    static ANSWERS: [Answer; 4] = [
        Ok(WriteReply::Duplicate),
        Ok(WriteReply::Done),
        Ok(WriteReply::Full),
        Ok(WriteReply::Duplicate),
    ];
    static NAMED: [ItemWrite; 4] = [
        ItemWrite::Insert(20, "Bob", 2),
        ItemWrite::Insert(40, "Flo", 4),
        ItemWrite::Insert(41, "Gus", 4),
        ItemWrite::Insert(40, "Flo", 4),
    ];
    assert_over_base(&rt, rt.alloc(), &NAMED, &ANSWERS, "3+40,Flo,4")
}

/// That a write is a delete of the row with this number, and was answered so.
fn assert_delete(
    rt: &impl Abort,
    (write, reply): &(Write, WriteReply),
    key: &Key,
    due: WriteReply,
) {
    assert!(rt; matches!(write, Write::Delete(found) if *found == *key));
    assert!(rt; *reply == due);
}

/// That the parts are those of two deletes, of which the first is done.
fn assert_parts(rt: &impl Abort, parts: &Parts, deleted: &Key, absent: &Key) {
    assert!(rt; parts.client == 3);
    assert!(rt; parts.begin == 7);
    assert!(rt; parts.tree.len() == 1);
    assert!(rt; parts.tree.entries_at(2).next().is_some());
    assert!(rt; parts.tree.total() == -1);
    assert!(rt; parts.writes.len() == 2);
    assert_delete(rt, &parts.writes[0], deleted, WriteReply::Done);
    assert_delete(rt, &parts.writes[1], absent, WriteReply::Missing);
}

#[test]
fn the_parts_are_the_client_the_begin_the_tree_and_the_writes(rt: HostRuntime) -> Result<(), Fail> {
    let deleted = key(rt.alloc(), 30)?;
    let absent = key(rt.alloc(), 35)?;
    let mut txn = opened(&rt, rt.alloc(), base_table(rt.alloc())?)?;
    let replies = (txn.delete(&deleted), txn.delete(&absent));
    let told = (txn.client(), txn.begin(), txn.schema().width());
    let parts = txn.into_parts();
    assert!(&rt; replies == (Ok(WriteReply::Done), Ok(WriteReply::Missing)));
    assert!(&rt; told == (3, 7, 3));
    assert_parts(&rt, &parts, &deleted, &absent);
    Ok(())
}

#[test]
fn a_version_and_its_copy_are_one_table_and_number(rt: HostRuntime) -> Result<(), Fail> {
    let table = Arc::new(rt.alloc(), base_table(rt.alloc())?)?;
    let version = Version::new(rt.alloc(), table, 7)?;
    let copied = version.copy()?;
    assert!(&rt; version.len() == 3);
    assert!(&rt; copied.len() == 3);
    assert!(&rt; copied.number() == 7);
    assert!(&rt; copied.schema().width() == 3);
    Ok(())
}

/// A transaction that has deleted 10, put 25 in and given 20 another quantity.
fn changed(rt: &impl Abort, alloc: Global) -> Result<Txn, Fail> {
    static ANSWERS: [Answer; 3] = [
        Ok(WriteReply::Done),
        Ok(WriteReply::Done),
        Ok(WriteReply::Done),
    ];
    static NAMED: [ItemWrite; 3] = [
        ItemWrite::Delete(10),
        ItemWrite::Insert(25, "Dee", 4),
        ItemWrite::Set(20, 7),
    ];
    let writes = writes_of(alloc, &NAMED)?;
    let mut txn = opened(rt, alloc, base_table(alloc)?)?;
    assert_answers(rt, &mut txn, writes, &ANSWERS);
    Ok(txn)
}

/// That the keys 10, 20 and 25 have these rows and ranks.
fn assert_by_key(rt: &impl Abort, alloc: Global, txn: &Txn) -> Result<(), NoMemory> {
    static KEYS: [(i64, i64, (u64, bool)); 3] = [
        (10, -1, (0, false)),
        (20, 20, (0, true)),
        (25, 25, (1, true)),
    ];
    for (id, row, rank) in &KEYS {
        let key = key(alloc, *id)?;
        assert!(rt; number_of(txn.get(&key)) == *row);
        assert!(rt; txn.rank(&key) == *rank);
    }
    Ok(())
}

/// That each place has its row, and a range its rows.
fn assert_by_place(rt: &impl Abort, txn: &Txn) {
    assert!(rt; txn.len() == 3);
    for (rid, row) in &[(0, 20), (2, 30), (3, -1)] {
        assert!(rt; number_of(txn.row_at(*rid)) == *row);
    }
    let mut scan = txn.scan(1, 9);
    for row in &[25, 30, -1] {
        assert!(rt; number_of(scan.next()) == *row);
    }
    assert!(rt; number_of(txn.scan(3, 1).next()) == -1);
}

#[test]
fn reads_are_of_the_table_with_its_own_writes(rt: HostRuntime) -> Result<(), Fail> {
    let txn = changed(&rt, rt.alloc())?;
    assert_by_place(&rt, &txn);
    let by_key = assert_by_key(&rt, rt.alloc(), &txn);
    txn.abort();
    by_key?;
    Ok(())
}

/// The stretches of all rows: a row by its number, stable rows by their first place and their count.
fn stretch_shape(alloc: Global, txn: &Txn) -> Result<String, NoMemory> {
    let mut text = String::new(alloc);
    for stretch in txn.stretches(0, u64::MAX) {
        let part = match stretch {
            Stretch::Stable(rows) => format!(in alloc; "Stable {}+{};", rows.sid, rows.len)?,
            Stretch::Row(view) => format!(in alloc; "Row {};", number_of(Some(view)))?,
        };
        text.push_str(part.as_str())?;
    }
    Ok(text)
}

/// That a row of a table is this one.
fn assert_row(
    rt: &impl Abort,
    alloc: Global,
    table: &StableTable,
    sid: u64,
    (id, name, quantity): Item,
) -> Result<(), NoMemory> {
    assert!(rt; sid < table.len());
    let found = table.row(alloc, sid)?;
    let want = item(alloc, id, name, quantity)?;
    assert!(rt; found.cells() == want.cells());
    Ok(())
}

#[test]
fn its_rows_stand_in_stretches_and_make_a_table(rt: HostRuntime) -> Result<(), Fail> {
    static ROWS: [(u64, Item); 3] = [
        (0, (20, "Bob", 7)),
        (1, (25, "Dee", 4)),
        (2, (30, "Cid", 3)),
    ];
    let alloc = rt.alloc();
    let txn = changed(&rt, alloc)?;
    let stretches = stretch_shape(alloc, &txn);
    let table = txn.to_table(alloc);
    txn.abort();
    assert_text(
        &rt,
        stretches?.as_str(),
        "Row 20;Row 25;Stable 2+1;",
        "the stretches",
    );
    let table = table?;
    assert!(&rt; table.len() == 3);
    for (sid, row) in &ROWS {
        assert_row(&rt, alloc, &table, *sid, *row)?;
    }
    Ok(())
}

#[test]
fn rows_between_two_places_make_a_table(rt: HostRuntime) -> Result<(), Fail> {
    let alloc = rt.alloc();
    let txn = changed(&rt, alloc)?;
    let between = txn.table_between(alloc, 1, 2);
    let past = txn.table_between(alloc, 2, 9);
    txn.abort();
    let (between, past) = (between?, past?);
    assert!(&rt; between.len() == 1);
    assert_row(&rt, alloc, &between, 0, (25, "Dee", 4))?;
    assert!(&rt; past.len() == 1);
    assert_row(&rt, alloc, &past, 0, (30, "Cid", 3))?;
    Ok(())
}
