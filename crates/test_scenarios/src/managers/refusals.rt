//! Each call of a manager that takes memory, where a growth is refused in it: nothing changes, and the same call succeeds
//! when it is made again.
//!
//! One growth of a run is refused under `rt try --test --fail-alloc N`, for N from 1 on. Where it is one of such a call,
//! the test ends well; where it is one of what the test makes for itself, the test ends with that error. What a manager
//! shows is compared cell by cell and takes no memory.
ghost use Rattle.std.specs.Prelude.{IfOk};
ghost use Rattle.txn.specs.Txn.{Transaction};
ghost use Rattle.manager.specs.Managed.{IsOwn};

use super::{Rows, begun_with, decided, has_rows, one_write, opened, wrote};
use model::{CommitReply, WriteReply};
use pdtcli::{Manager, Txn, WriteFault};
use std::alloc::Global;
use std::process::Abort;
use std::test::Fail;
use test_fixtures::ItemWrite;
use values::NoMemory;
use values::limits::MAX_ROWS;

/// What a manager shows: the rows of its newest table, and how many commits and records made them.
#[derive(Clone, Copy)]
pub(super) struct Shown {
    pub(super) rows: Rows,
    pub(super) number: u64,
    pub(super) records: usize,
}

/// A transaction of one write that began before the commits of others.
#[derive(Clone, Copy)]
struct Case {
    /// Whether the Write-PDT is folded after the begin.
    folded: bool,
    /// What two others write after that, one after the other.
    others: (Option<ItemWrite>, Option<ItemWrite>),
    own: ItemWrite,
    before: Shown,
    due: CommitReply,
    after: Shown,
}

pub(super) const BASE: Rows = &[(10, 1), (20, 2), (30, 3)];

/// The first commit of all.
static FIRST: Case = Case {
    folded: false,
    others: (None, None),
    own: ItemWrite::Insert(25, "Dee", 4),
    before: Shown {
        rows: BASE,
        number: 0,
        records: 0,
    },
    due: CommitReply::Committed(1),
    after: Shown {
        rows: &[(10, 1), (20, 2), (25, 4), (30, 3)],
        number: 1,
        records: 1,
    },
};

/// The others insert and delete the key that it inserts.
static UNDONE: Case = Case {
    folded: false,
    others: (
        Some(ItemWrite::Insert(25, "Dee", 4)),
        Some(ItemWrite::Delete(25)),
    ),
    own: ItemWrite::Insert(25, "Eve", 5),
    before: Shown {
        rows: BASE,
        number: 2,
        records: 2,
    },
    due: CommitReply::Conflict(2),
    after: Shown {
        rows: BASE,
        number: 2,
        records: 3,
    },
};

/// Another one inserts a row before its own, after a fold.
static SHIFTED: Case = Case {
    folded: true,
    others: (Some(ItemWrite::Insert(5, "Eve", 0)), None),
    own: ItemWrite::Set(30, 9),
    before: Shown {
        rows: &[(5, 0), (10, 1), (20, 2), (30, 3)],
        number: 1,
        records: 1,
    },
    due: CommitReply::Committed(2),
    after: Shown {
        rows: &[(5, 0), (10, 1), (20, 2), (30, 9)],
        number: 2,
        records: 2,
    },
};

/// Whether the manager shows this and nothing else.
pub(super) fn is_shown(manager: &Manager, want: &Shown) -> bool {
    has_rows(manager, want.rows)
        && manager.version().number() == want.number
        && manager.history().len() == want.records as u64
        && manager.made() == want.records as u64
}

/// One write of another transaction commits, where there is one.
pub(super) fn another(
    alloc: Global,
    manager: &mut Manager,
    named: Option<ItemWrite>,
) -> Result<(), NoMemory>
    ensures kept { (other : Transaction) → IsOwn manager.old other → IsOwn manager.new other }
{
    if let Some(named) = named {
        if one_write(alloc, manager, named).is_none() {
            return Err(NoMemory);
        }
    }
    Ok(())
}

/// What the others do after the begin.
fn do_others(alloc: Global, manager: &mut Manager, case: &Case) -> Result<(), NoMemory>
    ensures kept { (other : Transaction) → IsOwn manager.old other → IsOwn manager.new other }
{
    if case.folded {
        manager.fold()?;
    }
    another(alloc, manager, case.others.0)?;
    another(alloc, manager, case.others.1)
}

/// A manager and a transaction of it, as they are before its commit.
fn made(alloc: Global, case: &Case) -> Result<(Manager, Txn), Fail>
    ensures own { IfOk result (λ both. IsOwn both.0 both.1) }
{
    let mut manager = opened(alloc, 64, MAX_ROWS)?;
    let txn = begun_with(alloc, &manager, case.own)?;
    match do_others(alloc, &mut manager, case) {
        Ok(()) => Ok((manager, txn)),
        Err(fault) => {
            txn.abort();
            Err(fault.into())
        }
    }
}

/// The reply to a commit. Where a growth of it is refused, nothing has changed, and it is made again.
fn committed(
    rt: &impl Abort,
    manager: &mut Manager,
    txn: Txn,
    before: &Shown,
) -> Option<CommitReply>
    requires own { IsOwn manager.old txn }
{
    match manager.commit(txn) {
        Ok(reply) => Some(reply),
        Err((txn, NoMemory)) => {
            let same = is_shown(manager, before) && txn.writes().len() == 1;
            let reply = decided(manager, txn);
            assert!(rt; same, "a refused commit");
            reply
        }
    }
}

#[test]
fn a_commit_succeeds_when_it_is_made_again(rt: HostRuntime) -> Result<(), Fail> {
    for case in [&FIRST, &UNDONE, &SHIFTED] {
        let (mut manager, txn) = made(rt.alloc(), case)?;
        let reply = committed(&rt, &mut manager, txn, &case.before);
        assert!(&rt; reply == Some(case.due));
        assert!(&rt; is_shown(&manager, &case.after));
    }
    Ok(())
}

/// The number and the rows of another transaction. Where a growth of its begin is refused, nothing has changed, and it
/// begins again.
fn begun(rt: &impl Abort, manager: &Manager, before: &Shown) -> Option<(u64, u64)> {
    let txn = match manager.begin(7) {
        Ok(txn) => txn,
        Err(NoMemory) => {
            assert!(rt; is_shown(manager, before), "a refused begin");
            match manager.begin(7) {
                Ok(txn) => txn,
                Err(NoMemory) => return None,
            }
        }
    };
    let found = (txn.begin(), txn.len());
    txn.abort();
    Some(found)
}

#[test]
fn a_begin_succeeds_when_it_is_made_again(rt: HostRuntime) -> Result<(), Fail> {
    for case in [&FIRST, &UNDONE, &SHIFTED] {
        let (manager, txn) = made(rt.alloc(), case)?;
        txn.abort();
        let found = begun(&rt, &manager, &case.before);
        assert!(&rt; found == Some((case.before.number, case.before.rows.len() as u64)));
    }
    Ok(())
}

/// The reply to one more write. Where a growth of it is refused, nothing has changed, and it is made again.
fn rewrote(
    rt: &impl Abort,
    alloc: Global,
    manager: &Manager,
    txn: &mut Txn,
    before: &Shown,
) -> Result<WriteReply, WriteFault> {
    let rows = txn.len();
    match wrote(alloc, txn, ItemWrite::Set(10, 8)) {
        Err(WriteFault::NoMemory) => {
            assert!(rt;
                is_shown(manager, before) && txn.writes().len() == 1 && txn.len() == rows,
                "a refused write"
            );
            wrote(alloc, txn, ItemWrite::Set(10, 8))
        }
        answered => answered,
    }
}

#[test]
fn a_write_succeeds_when_it_is_made_again(rt: HostRuntime) -> Result<(), Fail> {
    for case in [&FIRST, &UNDONE, &SHIFTED] {
        let (manager, mut txn) = made(rt.alloc(), case)?;
        let reply = rewrote(&rt, rt.alloc(), &manager, &mut txn, &case.before);
        let writes = txn.writes().len();
        txn.abort();
        assert!(&rt; reply == Ok(WriteReply::Done));
        assert!(&rt; writes == 2);
    }
    Ok(())
}

/// A manager whose Read-PDT has an insert that its Write-PDT sets.
pub(super) fn folded_once(alloc: Global) -> Result<Manager, Fail> {
    let mut manager = opened(alloc, 64, MAX_ROWS)?;
    another(alloc, &mut manager, Some(ItemWrite::Insert(25, "Dee", 4)))?;
    manager.fold()?;
    another(alloc, &mut manager, Some(ItemWrite::Set(25, 5)))?;
    Ok(manager)
}

/// Folds. Where a growth is refused, nothing has changed, and the fold is made again.
fn refolded(rt: &impl Abort, manager: &mut Manager, before: &Shown) -> Result<(), NoMemory> {
    match manager.fold() {
        Ok(()) => Ok(()),
        Err(NoMemory) => {
            assert!(rt; is_shown(manager, before), "a refused fold");
            manager.fold()
        }
    }
}

#[test]
fn a_fold_succeeds_when_it_is_made_again(rt: HostRuntime) -> Result<(), Fail> {
    let before = Shown {
        rows: &[(10, 1), (20, 2), (25, 5), (30, 3)],
        number: 2,
        records: 2,
    };
    let mut manager = folded_once(rt.alloc())?;
    let folded = refolded(&rt, &mut manager, &before);
    assert!(&rt; folded == Ok(()));
    assert!(&rt; is_shown(&manager, &before));
    Ok(())
}
