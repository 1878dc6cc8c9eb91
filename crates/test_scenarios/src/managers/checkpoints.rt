//! A manager's checkpoints: what they leave of an open transaction, and, where a growth is refused, of the manager.
//!
//! One growth of a run is refused under `rt try --test --fail-alloc N`, for N from 1 on. A device in memory that finds none
//! for its piece has failed: `DeviceFailed` answers that, and `StoreFailed` what comes after it.
ghost use Rattle.txn.specs.Txn.{Transaction};
ghost use Rattle.manager.specs.Managed.{IsOwn};

use super::cuts::has_layers;
use super::refusals::{BASE, Shown, folded_once, is_shown};
use super::{begun_with, decided, has_rows, one_write, opened};
use devices::{ColumnDevice, Store, have_failed};
use manager::CheckpointFault;
use model::CommitReply;
use pdtcli::Manager;
use std::alloc::Global;
use std::process::Abort;
use std::test::Fail;
use test_fixtures::{ItemWrite, Slot, device_over, empty_slots};
use values::limits::MAX_ROWS;

/// What a checkpoint answers, and, where it is refused, the same checkpoint once more.
type Answers = (
    Result<u32, CheckpointFault>,
    Option<Result<u32, CheckpointFault>>,
);

/// The answers of a store whose devices leave their bytes in the slots. A refused checkpoint leaves the manager as it was.
fn answers(
    rt: &impl Abort,
    alloc: Global,
    manager: &mut Manager,
    slots: &[Slot],
    before: &Shown,
) -> Result<Answers, Fail>
    ensures { (txn : Transaction) → IsOwn manager.old txn → IsOwn manager.new txn }
{
    let mut devices: Vec<Box<dyn ColumnDevice + Send>> = Vec::new(alloc);
    for (device, slot) in slots.iter().enumerate() {
        devices.push(Box::new(alloc, device_over(alloc, slot, device, None)?)?)?;
    }
    if have_failed(devices.as_slice()) {
        return Err(Fail::new("a device that has failed"));
    }
    let mut store = Store::new(alloc, devices, manager.version().schema(), 1)?;
    let first = manager.checkpoint(&mut store);
    assert!(rt; is_shown(manager, before), "the manager after a checkpoint");
    let again = match first {
        Ok(_) => None,
        Err(_) => Some(manager.checkpoint(&mut store)),
    };
    Ok((first, again))
}

/// Whether a checkpoint was taken, at once or after memory was refused, or a device failed and nothing came after it.
fn are_due(answers: &Answers) -> bool {
    match answers {
        (Ok(1), None) => true,
        (Err(CheckpointFault::NoMemory), Some(Ok(1))) => true,
        (Err(CheckpointFault::DeviceFailed(_)), Some(Err(CheckpointFault::StoreFailed))) => true,
        _ => false,
    }
}

/// Whether a checkpoint was taken.
fn is_taken(answers: &Answers) -> bool {
    matches!(answers, (Ok(_), None) | (Err(_), Some(Ok(_))))
}

/// A manager of three layers that have entries, and what it shows.
static LAYERED: Shown = Shown {
    rows: &[(10, 1), (20, 2), (25, 5), (30, 3)],
    number: 2,
    records: 2,
};

#[test]
fn a_checkpoint_leaves_the_manager(rt: HostRuntime) -> Result<(), Fail> {
    let alloc = rt.alloc();
    let mut manager = folded_once(alloc)?;
    let slots = empty_slots(alloc, 3)?;
    let found = answers(&rt, alloc, &mut manager, slots.as_slice(), &LAYERED)?;
    assert!(&rt; are_due(&found));
    assert!(&rt; is_shown(&manager, &LAYERED));
    assert!(&rt; has_layers(alloc, &manager, "", 4)? == is_taken(&found));
    Ok(())
}

static BASE_SHOWN: Shown = Shown {
    rows: BASE,
    number: 0,
    records: 0,
};

/// The answers of a store to a checkpoint behind a fold, and the replies to a commit after it, and to one that began before.
fn folded_and_stored(
    rt: &impl Abort,
    alloc: Global,
    manager: &mut Manager,
    slots: &[Slot],
) -> Result<(Answers, [Option<CommitReply>; 2]), Fail> {
    let a = begun_with(alloc, manager, ItemWrite::Set(30, 9))?;
    let folded = manager.fold();
    let stored = answers(rt, alloc, manager, slots, &BASE_SHOWN);
    let first = one_write(alloc, manager, ItemWrite::Insert(5, "Eve", 0));
    let second = decided(manager, a);
    assert!(rt; folded == Ok(()));
    Ok((stored?, [first, second]))
}

#[test]
fn a_fold_and_a_checkpoint_spare_an_open_transaction(rt: HostRuntime) -> Result<(), Fail> {
    let alloc = rt.alloc();
    let slots = empty_slots(alloc, 3)?;
    let mut manager = opened(alloc, 64, MAX_ROWS)?;
    let (stored, replies) = folded_and_stored(&rt, alloc, &mut manager, slots.as_slice())?;
    assert!(&rt; are_due(&stored));
    assert!(&rt; replies[0] == Some(CommitReply::Committed(1)));
    assert!(&rt; replies[1] == Some(CommitReply::Committed(2)));
    assert!(&rt; has_rows(&manager, &[(5, 0), (10, 1), (20, 2), (30, 9)]));
    Ok(())
}
