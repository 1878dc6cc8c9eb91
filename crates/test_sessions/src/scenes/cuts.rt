//! A history that is cut while transactions are open.

use super::{Left, NONE, PLAIN, Scene, play};
use crate::acts::Act::{Begin, Commit, Cut, Get, Write};
use model::CommitReply::{Committed, Conflict, TooOld};
use model::WriteReply::Done;
use std::test::Fail;
use test_fixtures::ItemWrite::{Insert, Set};

#[test]
fn numbers_go_on_after_a_cut(rt: HostRuntime) -> Result<(), Fail> {
    static SCENE: Scene = Scene {
        clients: 4,
        steps: &[
            (0, Begin),
            (1, Begin),
            (1, Write(Insert(25, "Dee", 4), Done)),
            (1, Commit(Committed(1))),
            (2, Begin),
            (2, Cut(1, 0)),
            (2, Write(Set(30, 9), Done)),
            (2, Commit(Committed(2))),
            (0, Write(Set(10, 9), Done)),
            (0, Commit(TooOld(2))),
            (3, Begin),
            (3, Get(25, Some((25, "Dee", 4)))),
            (3, Commit(Committed(3))),
            (3, Cut(3, 1)),
            (3, Cut(0, 3)),
        ],
        left: Left {
            counts: &[1, 1, 1, 1],
            base: 3,
            rows: &[
                (10, "Ann", 1),
                (20, "Bob", 2),
                (25, "Dee", 4),
                (30, "Cid", 9),
            ],
            ..NONE
        },
        ..PLAIN
    };
    play(&rt, rt.alloc(), &SCENE)
}

#[test]
fn commits_since_a_cut_are_decided_and_kept(rt: HostRuntime) -> Result<(), Fail> {
    static SCENE: Scene = Scene {
        clients: 3,
        steps: &[
            (0, Begin),
            (0, Write(Set(10, 7), Done)),
            (0, Commit(Committed(1))),
            (1, Begin),
            (2, Begin),
            (0, Cut(1, 0)),
            (1, Write(Set(10, 8), Done)),
            (1, Commit(Committed(2))),
            (2, Write(Set(10, 9), Done)),
            (2, Commit(Conflict(2))),
        ],
        left: Left {
            counts: &[1, 1, 1],
            base: 1,
            records: &[(1, 1, &[Done], Committed(2)), (2, 1, &[Done], Conflict(2))],
            rows: &[(10, "Ann", 8), (20, "Bob", 2), (30, "Cid", 3)],
            ..NONE
        },
        ..PLAIN
    };
    play(&rt, rt.alloc(), &SCENE)
}
