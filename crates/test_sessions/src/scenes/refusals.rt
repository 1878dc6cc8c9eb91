//! Calls of sessions where a growth is refused in them: nothing changes, and the same call succeeds when it is made again.
//!
//! One growth of a run is refused under `rt try --test --fail-alloc N`, for N from 1 on. Every scene makes a call that
//! met it again. Here is a last commit after which, where it met it, the session goes on in one of two ways. Where the
//! growth is one of what the test makes for itself, or a device's, the test ends with that error.

use super::{Last, Left, NONE, PLAIN, Scene, play};
use crate::acts::Act::{
    Abort, Begin, Checkpoint, Commit, Cut, Fold, Get, NoRead, Scan, Told, Write,
};
use model::CommitReply::{Committed, Conflict};
use model::WriteReply::Done;
use std::test::Fail;
use test_fixtures::ItemWrite::{Delete, Insert, Name, Set};
use test_fixtures::{BASE, Item};

/// What is left where the last one commits.
const UNDONE_LEFT: Left = Left {
    counts: &[1, 1, 1],
    records: &[
        (1, 0, &[Done], Committed(1)),
        (2, 1, &[Done], Committed(2)),
        (0, 0, &[Done], Conflict(2)),
    ],
    ..NONE
};

/// Two others insert and delete the key that the first one, which began before them, inserts.
const UNDONE: Scene = Scene {
    clients: 3,
    steps: &[
        (0, Begin),
        (1, Begin),
        (1, Write(Insert(25, "Dee", 4), Done)),
        (1, Commit(Committed(1))),
        (2, Begin),
        (2, Write(Delete(25), Done)),
        (2, Commit(Committed(2))),
        (0, Write(Insert(25, "Eve", 5), Done)),
    ],
    left: UNDONE_LEFT,
    ..PLAIN
};

/// The base table after an insert before all rows, and a set of the last one.
const SHIFTED_ROWS: [Item; 4] = [
    (5, "Eve", 0),
    (10, "Ann", 1),
    (20, "Bob", 2),
    (30, "Cid", 9),
];

/// What is left where the last one commits.
const SHIFTED_LEFT: Left = Left {
    counts: &[1, 1],
    records: &[(1, 0, &[Done], Committed(1)), (0, 0, &[Done], Committed(2))],
    rows: &SHIFTED_ROWS,
    ..NONE
};

/// After a fold and a checkpoint another one inserts a row before the one that the first one, which began before, sets.
const SHIFTED: Scene = Scene {
    steps: &[
        (0, Begin),
        (0, Fold),
        (0, Checkpoint(1)),
        (1, Begin),
        (1, Write(Insert(5, "Eve", 0), Done)),
        (1, Commit(Committed(1))),
        (0, Write(Set(30, 9), Done)),
    ],
    left: SHIFTED_LEFT,
    stored: Some((1, &BASE)),
    ..PLAIN
};

#[test]
fn a_session_goes_on_after_a_refused_commit(rt: HostRuntime) -> Result<(), Fail> {
    static SCENES: [Scene; 2] = [
        Scene {
            last: Some(Last {
                client: 0,
                reply: Conflict(2),
                instead: &[
                    (0, Get(25, Some((25, "Eve", 5)))),
                    (0, Write(Set(25, 6), Done)),
                    (0, Commit(Conflict(2))),
                ],
                left: Left {
                    records: &[
                        (1, 0, &[Done], Committed(1)),
                        (2, 1, &[Done], Committed(2)),
                        (0, 0, &[Done, Done], Conflict(2)),
                    ],
                    ..UNDONE_LEFT
                },
            }),
            ..UNDONE
        },
        Scene {
            last: Some(Last {
                client: 0,
                reply: Committed(2),
                instead: &[
                    (0, Get(30, Some((30, "Cid", 9)))),
                    (0, Write(Name(20, "Bea"), Done)),
                    (0, Commit(Committed(2))),
                ],
                left: Left {
                    records: &[
                        (1, 0, &[Done], Committed(1)),
                        (0, 0, &[Done, Done], Committed(2)),
                    ],
                    rows: &[
                        (5, "Eve", 0),
                        (10, "Ann", 1),
                        (20, "Bea", 2),
                        (30, "Cid", 9),
                    ],
                    ..SHIFTED_LEFT
                },
            }),
            ..SHIFTED
        },
    ];
    for scene in &SCENES {
        play(&rt, rt.alloc(), scene)?;
    }
    Ok(())
}

#[test]
fn a_session_aborts_after_a_refused_commit(rt: HostRuntime) -> Result<(), Fail> {
    static SCENES: [Scene; 2] = [
        Scene {
            last: Some(Last {
                client: 0,
                reply: Conflict(2),
                instead: &[(0, Abort), (0, NoRead), (0, Begin), (0, Scan(0, 9, &BASE))],
                left: Left {
                    counts: &[0, 1, 1],
                    records: &[(1, 0, &[Done], Committed(1)), (2, 1, &[Done], Committed(2))],
                    ..UNDONE_LEFT
                },
            }),
            ..UNDONE
        },
        Scene {
            last: Some(Last {
                client: 0,
                reply: Committed(2),
                instead: &[
                    (0, Abort),
                    (0, NoRead),
                    (0, Begin),
                    (0, Scan(3, 9, &[(30, "Cid", 3)])),
                    (0, Commit(Committed(2))),
                ],
                left: Left {
                    records: &[(1, 0, &[Done], Committed(1)), (0, 1, &[], Committed(2))],
                    rows: &[
                        (5, "Eve", 0),
                        (10, "Ann", 1),
                        (20, "Bob", 2),
                        (30, "Cid", 3),
                    ],
                    ..SHIFTED_LEFT
                },
            }),
            ..SHIFTED
        },
    ];
    for scene in &SCENES {
        play(&rt, rt.alloc(), scene)?;
    }
    Ok(())
}

#[test]
fn every_call_succeeds_when_it_is_made_again(rt: HostRuntime) -> Result<(), Fail> {
    static SCENE: Scene = Scene {
        steps: &[
            (1, Begin),
            (1, Write(Insert(25, "Dee", 4), Done)),
            (1, Commit(Committed(1))),
            (0, Told(1)),
            (0, Begin),
            (1, Fold),
            (1, Begin),
            (1, Write(Set(25, 5), Done)),
            (1, Write(Delete(10), Done)),
            (1, Commit(Committed(2))),
            (1, Checkpoint(1)),
            (1, Begin),
            (
                1,
                Scan(0, 9, &[(20, "Bob", 2), (25, "Dee", 5), (30, "Cid", 3)]),
            ),
            (0, Write(Name(30, "Cyd"), Done)),
            (0, Commit(Committed(3))),
            (0, Cut(3, 0)),
        ],
        left: Left {
            counts: &[1, 2],
            base: 3,
            rows: &[(20, "Bob", 2), (25, "Dee", 5), (30, "Cyd", 3)],
            ..NONE
        },
        stored: Some((1, &[(20, "Bob", 2), (25, "Dee", 5), (30, "Cid", 3)])),
        ..PLAIN
    };
    play(&rt, rt.alloc(), &SCENE)
}
