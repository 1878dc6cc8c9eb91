//! What one session is told, and another takes in.

use super::{Left, NONE, PLAIN, Scene, play};
use crate::acts::Act::{Begin, Commit, Get, NoTell, Told, Write};
use model::CommitReply::{Committed, Conflict};
use model::WriteReply::Done;
use std::test::Fail;
use test_fixtures::ItemWrite::{Insert, Set};

#[test]
fn a_told_session_sees_the_commit(rt: HostRuntime) -> Result<(), Fail> {
    static SCENE: Scene = Scene {
        steps: &[
            (1, NoTell),
            (1, Begin),
            (1, Write(Insert(25, "Dee", 4), Done)),
            (1, Commit(Committed(1))),
            (0, Told(1)),
            (1, NoTell),
            (0, Begin),
            (0, Get(25, Some((25, "Dee", 4)))),
        ],
        left: Left {
            counts: &[0, 1],
            records: &[(1, 0, &[Done], Committed(1))],
            rows: &[
                (10, "Ann", 1),
                (20, "Bob", 2),
                (25, "Dee", 4),
                (30, "Cid", 3),
            ],
            ..NONE
        },
        ..PLAIN
    };
    play(&rt, rt.alloc(), &SCENE)
}

#[test]
fn each_reply_is_told_once(rt: HostRuntime) -> Result<(), Fail> {
    static SCENE: Scene = Scene {
        steps: &[
            (0, Begin),
            (1, Begin),
            (0, Write(Set(10, 7), Done)),
            (1, Write(Set(10, 8), Done)),
            (0, Commit(Committed(1))),
            (1, Commit(Conflict(1))),
            (0, Told(1)),
            (1, NoTell),
            (1, Told(0)),
            (0, NoTell),
            (0, Begin),
            (0, Commit(Committed(2))),
            (1, Told(0)),
        ],
        left: Left {
            counts: &[2, 1],
            records: &[
                (0, 0, &[Done], Committed(1)),
                (1, 0, &[Done], Conflict(1)),
                (0, 1, &[], Committed(2)),
            ],
            rows: &[(10, "Ann", 7), (20, "Bob", 2), (30, "Cid", 3)],
            ..NONE
        },
        ..PLAIN
    };
    play(&rt, rt.alloc(), &SCENE)
}
