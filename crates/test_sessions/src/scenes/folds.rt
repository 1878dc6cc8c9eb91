//! Folds and checkpoints beside open transactions.

use super::{Left, NONE, PLAIN, Scene, play};
use crate::acts::Act::{Begin, Checkpoint, Commit, Entries, Fold, NoCheckpoint, Scan, Write};
use manager::CheckpointFault::GenerationsSpent;
use model::CommitReply::Committed;
use model::WriteReply::Done;
use std::test::Fail;
use test_fixtures::ItemWrite::{Delete, Insert, Set};
use test_fixtures::{BASE, Item};

#[test]
fn fold_and_checkpoint_spare_an_open_transaction(rt: HostRuntime) -> Result<(), Fail> {
    static SCENE: Scene = Scene {
        steps: &[
            (0, Begin),
            (0, Fold),
            (0, Checkpoint(1)),
            (1, Begin),
            (1, Write(Insert(5, "Eve", 0), Done)),
            (1, Commit(Committed(1))),
            (0, Write(Set(30, 9), Done)),
            (0, Entries("2:2=9")),
            (0, Commit(Committed(2))),
        ],
        left: Left {
            counts: &[1, 1],
            records: &[(1, 0, &[Done], Committed(1)), (0, 0, &[Done], Committed(2))],
            rows: &[
                (5, "Eve", 0),
                (10, "Ann", 1),
                (20, "Bob", 2),
                (30, "Cid", 9),
            ],
            ..NONE
        },
        stored: Some((1, &BASE)),
        ..PLAIN
    };
    play(&rt, rt.alloc(), &SCENE)
}

#[test]
fn a_store_takes_no_image_past_its_last_generation(rt: HostRuntime) -> Result<(), Fail> {
    static SCENE: Scene = Scene {
        first: u32::MAX,
        steps: &[
            (0, Checkpoint(u32::MAX)),
            (1, NoCheckpoint(GenerationsSpent)),
            (0, NoCheckpoint(GenerationsSpent)),
        ],
        stored: Some((u32::MAX, &BASE)),
        ..PLAIN
    };
    play(&rt, rt.alloc(), &SCENE)
}

/// The base table without its second row, and with one more.
const CHANGED: [Item; 3] = [(10, "Ann", 1), (25, "Dee", 4), (30, "Cid", 3)];

#[test]
fn the_table_stays_when_its_layers_are_folded_and_stored(rt: HostRuntime) -> Result<(), Fail> {
    static SCENE: Scene = Scene {
        steps: &[
            (0, Begin),
            (0, Write(Insert(25, "Dee", 4), Done)),
            (0, Write(Delete(20), Done)),
            (0, Commit(Committed(1))),
            (0, Begin),
            (0, Fold),
            (1, Begin),
            (1, Scan(0, 9, &CHANGED)),
            (1, Checkpoint(1)),
            (0, Scan(0, 9, &CHANGED)),
            (0, Write(Set(25, 5), Done)),
            (0, Commit(Committed(2))),
            (1, Scan(0, 9, &CHANGED)),
            (1, Checkpoint(2)),
        ],
        left: Left {
            counts: &[2, 0],
            records: &[
                (0, 0, &[Done, Done], Committed(1)),
                (0, 1, &[Done], Committed(2)),
            ],
            rows: &[(10, "Ann", 1), (25, "Dee", 5), (30, "Cid", 3)],
            ..NONE
        },
        stored: Some((2, &[(10, "Ann", 1), (25, "Dee", 5), (30, "Cid", 3)])),
        ..PLAIN
    };
    play(&rt, rt.alloc(), &SCENE)
}

/// What one commit leaves, which inserts a row and deletes another.
const CHANGED_LEFT: Left = Left {
    counts: &[1, 0],
    records: &[(0, 0, &[Done, Done], Committed(1))],
    rows: &CHANGED,
    ..NONE
};

#[test]
fn a_commit_leaves_its_entries_in_the_write_pdt(rt: HostRuntime) -> Result<(), Fail> {
    static SCENE: Scene = Scene {
        steps: &[
            (0, Begin),
            (0, Write(Insert(25, "Dee", 4), Done)),
            (0, Write(Delete(20), Done)),
            (0, Commit(Committed(1))),
        ],
        left: Left {
            layers: Some((3, "", "1-20 2+25,Dee,4")),
            ..CHANGED_LEFT
        },
        ..PLAIN
    };
    play(&rt, rt.alloc(), &SCENE)
}

#[test]
fn a_fold_moves_the_entries_into_the_read_pdt(rt: HostRuntime) -> Result<(), Fail> {
    static SCENE: Scene = Scene {
        steps: &[
            (0, Begin),
            (0, Write(Insert(25, "Dee", 4), Done)),
            (0, Write(Delete(20), Done)),
            (0, Commit(Committed(1))),
            (1, Fold),
        ],
        left: Left {
            layers: Some((3, "1-20 2+25,Dee,4", "")),
            ..CHANGED_LEFT
        },
        ..PLAIN
    };
    play(&rt, rt.alloc(), &SCENE)
}

#[test]
fn a_checkpoint_leaves_the_rows_in_the_stable_table_alone(rt: HostRuntime) -> Result<(), Fail> {
    static SCENE: Scene = Scene {
        steps: &[
            (0, Begin),
            (0, Write(Insert(25, "Dee", 4), Done)),
            (0, Write(Delete(20), Done)),
            (0, Commit(Committed(1))),
            (1, Checkpoint(1)),
            (1, Begin),
            (1, Scan(0, 9, &CHANGED)),
        ],
        left: Left {
            layers: Some((3, "", "")),
            ..CHANGED_LEFT
        },
        stored: Some((1, &CHANGED)),
        ..PLAIN
    };
    play(&rt, rt.alloc(), &SCENE)
}
