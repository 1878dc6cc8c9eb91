//! A transaction of many inserts that commits after many small commits. How far its entries move past those is kept for each
//! 256 of them: sizes on both sides of that number, and others before the first, at each seam and behind the last.
ghost use Rattle.std.specs.Prelude.{IfOk};
ghost use Rattle.txn.specs.Txn.{Transaction};
ghost use Rattle.manager.specs.Managed.{Managed, IsOwn};

use super::refusals::another;
use super::{decided, wrote};
use model::{CommitReply, ConflictRule, WriteReply};
use pdtcli::{Manager, Txn};
use stable::StableTable;
use std::alloc::Global;
use std::test::Fail;
use test_fixtures::{ItemWrite, item, item_columns};
use txn::RowView;
use values::limits::MAX_ROWS;
use values::{NoMemory, ValueRef};

/// How many inserts are late.
static SIZES: [u16; 6] = [255, 256, 257, 512, 513, 700];

/// Before which of the late inserts the others insert, one a commit.
static PLACES: [u16; 14] = [
    300, 0, 255, 256, 257, 1, 511, 512, 513, 254, 699, 700, 510, 128,
];

/// So many rows, whose numbers are ten apart, and so many late inserts from a number on, ten apart too.
#[derive(Clone, Copy)]
struct Case {
    rows: u16,
    first: u16,
    count: u16,
}

impl Case {
    /// An insert behind each row.
    fn spread(count: u16) -> Case {
        Case {
            rows: count,
            first: 5,
            count,
        }
    }

    /// All inserts behind the last row, at one SID.
    fn at_one_place(count: u16) -> Case {
        Case {
            rows: 3,
            first: 1_005,
            count,
        }
    }

    /// The number of a late insert.
    fn late(self, place: u16) -> i64 {
        i64::from(self.first) + i64::from(place) * 10
    }

    /// The number that another commit inserts before it.
    fn other(self, place: u16) -> i64 {
        i64::from(self.first) + i64::from(place) * 10 - 2
    }

    /// The first row, one in the middle and the last are deleted.
    fn is_deleted(self, row: u16) -> bool {
        row == 0 || row == self.rows / 2 || row == self.rows.saturating_sub(1)
    }
}

/// A manager of the case's rows.
fn opened(alloc: Global, case: Case) -> Result<Manager, Fail> {
    let mut rows = Vec::new(alloc);
    for row in 0..case.rows {
        rows.push(item(alloc, i64::from(row) * 10, "row", 0)?)?;
    }
    let table = StableTable::build(alloc, item_columns(alloc)?, rows)?;
    Ok(Manager::open(alloc, table, 64, MAX_ROWS, ConflictRule::ByColumn)?)
}

/// Makes the late inserts.
fn insert_all(alloc: Global, txn: &mut Txn, case: Case) -> Result<(), NoMemory>
    ensures own { (m : Managed) → IsOwn m txn.old → IsOwn m txn.new }
{
    for place in 0..case.count {
        let insert = ItemWrite::Insert(case.late(place), "late", 2);
        if wrote(alloc, txn, insert) != Ok(WriteReply::Done) {
            return Err(NoMemory);
        }
    }
    Ok(())
}

/// Commits the inserts of others.
fn insert_others(alloc: Global, manager: &mut Manager, case: Case) -> Result<(), NoMemory>
    ensures kept { (txn : Transaction) → IsOwn manager.old txn → IsOwn manager.new txn }
{
    for index in 0..PLACES.len() {
        let place = PLACES[index];
        if place <= case.count {
            let insert = ItemWrite::Insert(case.other(place), "other", 1);
            another(alloc, manager, Some(insert))?;
        }
    }
    Ok(())
}

/// Commits the deletes of others.
fn delete_others(alloc: Global, manager: &mut Manager, case: Case) -> Result<(), NoMemory>
    ensures kept { (txn : Transaction) → IsOwn manager.old txn → IsOwn manager.new txn }
{
    for row in 0..case.rows {
        if case.is_deleted(row) {
            another(alloc, manager, Some(ItemWrite::Delete(i64::from(row) * 10)))?;
        }
    }
    Ok(())
}

/// All of it, in this order.
fn overtake(alloc: Global, manager: &mut Manager, txn: &mut Txn, case: Case) -> Result<(), NoMemory>
    ensures own { IsOwn manager.old txn.old → IsOwn manager.new txn.new }
{
    insert_all(alloc, txn, case)?;
    insert_others(alloc, manager, case)?;
    delete_others(alloc, manager, case)
}

/// The manager when the late transaction has committed, and the reply.
fn committed(alloc: Global, case: Case) -> Result<(Manager, Option<CommitReply>), Fail> {
    let mut manager = opened(alloc, case)?;
    let mut txn = manager.begin(0)?;
    match overtake(alloc, &mut manager, &mut txn, case) {
        Ok(()) => {
            let reply = decided(&mut manager, txn);
            Ok((manager, reply))
        }
        Err(fault) => {
            txn.abort();
            Err(fault.into())
        }
    }
}

/// The numbers of the rows that are there then.
fn due(alloc: Global, case: Case) -> Result<Vec<i64>, NoMemory> {
    let mut numbers = Vec::new(alloc);
    for row in 0..case.rows {
        if !case.is_deleted(row) {
            numbers.push(i64::from(row) * 10)?;
        }
    }
    for place in 0..case.count {
        numbers.push(case.late(place))?;
    }
    for place in PLACES.iter() {
        if *place <= case.count {
            numbers.push(case.other(*place))?;
        }
    }
    numbers.sort()?;
    Ok(numbers)
}

fn is_numbered(view: &RowView<'_>, number: i64) -> bool {
    view.width() == 3 && view.value(0) == ValueRef::Int(number)
}

/// Whether the rows of the newest table have these numbers.
fn has_numbers(manager: &Manager, numbers: &[i64]) -> bool {
    let newest = manager.newest();
    let mut place = 0_usize;
    for view in newest.scan(0, newest.len()) {
        match numbers.get(place) {
            Some(number) if is_numbered(&view, *number) => place = place.wrapping_add(1),
            _ => return false,
        }
    }
    place == numbers.len()
}

/// Whether the late transaction commits, and all rows are there then.
fn passes(alloc: Global, case: Case) -> Result<bool, Fail> {
    let (manager, reply) = committed(alloc, case)?;
    let numbers = due(alloc, case)?;
    Ok(
        matches!(reply, Some(CommitReply::Committed(_)))
            && has_numbers(&manager, numbers.as_slice()),
    )
}

#[test]
fn a_late_commit_moves_past_others_at_each_seam(rt: HostRuntime) -> Result<(), Fail> {
    let alloc = rt.alloc();
    for count in SIZES.iter() {
        assert!(&rt; passes(alloc, Case::spread(*count))?, "spread, {count}");
        assert!(&rt;
            passes(alloc, Case::at_one_place(*count))?,
            "at one place, {count}"
        );
    }
    Ok(())
}

/// The reply to a late commit of so many inserts, one of which has a number that another commit inserted.
fn met(alloc: Global, case: Case, place: u16) -> Result<Option<CommitReply>, Fail> {
    let mut manager = opened(alloc, case)?;
    let mut txn = manager.begin(0)?;
    let first = ItemWrite::Insert(case.other(0), "other", 1);
    let same = ItemWrite::Insert(case.late(place), "other", 1);
    match meet(alloc, &mut manager, &mut txn, case, (first, same)) {
        Ok(()) => Ok(decided(&mut manager, txn)),
        Err(fault) => {
            txn.abort();
            Err(fault.into())
        }
    }
}

/// The late inserts, and two commits of others.
fn meet(
    alloc: Global,
    manager: &mut Manager,
    txn: &mut Txn,
    case: Case,
    others: (ItemWrite, ItemWrite),
) -> Result<(), NoMemory>
    ensures own { IsOwn manager.old txn.old → IsOwn manager.new txn.new }
{
    insert_all(alloc, txn, case)?;
    another(alloc, manager, Some(others.0))?;
    another(alloc, manager, Some(others.1))
}

#[test]
fn a_late_commit_conflicts_on_both_sides_of_a_seam(rt: HostRuntime) -> Result<(), Fail> {
    let alloc = rt.alloc();
    for place in [0_u16, 255, 256, 299] {
        let reply = met(alloc, Case::spread(300), place)?;
        assert!(&rt; reply == Some(CommitReply::Conflict(2)), "{place}");
    }
    Ok(())
}
