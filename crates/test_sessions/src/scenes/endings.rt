//! Sessions that outlive the others, and such as are dropped.

use super::{Left, NONE, PLAIN, Scene, play};
use crate::acts::Act::{
    Abort, Begin, Commit, Cut, Get, Leave, NoAbort, NoBegin, NoRead, NoTell, NoWrite, Scan, Write,
};
use model::CommitReply::{Committed, Conflict};
use model::WriteReply::Done;
use shared::{BeginFault, SessionFault};
use std::test::Fail;
use test_fixtures::BASE;
use test_fixtures::ItemWrite::{Delete, Insert, Set};

#[test]
fn no_session_begins_after_the_end(rt: HostRuntime) -> Result<(), Fail> {
    static SCENE: Scene = Scene {
        steps: &[
            (0, Begin),
            (0, Write(Delete(20), Done)),
            (0, Commit(Committed(1))),
        ],
        left: Left {
            counts: &[1],
            records: &[(0, 0, &[Done], Committed(1))],
            rows: &[(10, "Ann", 1), (30, "Cid", 3)],
            ..NONE
        },
        after: &[
            NoBegin(BeginFault::Ended),
            NoBegin(BeginFault::Ended),
            NoRead,
            NoWrite(Set(10, 7), SessionFault::NotOpen),
            NoAbort,
            NoTell,
        ],
        ..PLAIN
    };
    play(&rt, rt.alloc(), &SCENE)
}

#[test]
fn an_open_transaction_is_read_after_the_end(rt: HostRuntime) -> Result<(), Fail> {
    static SCENE: Scene = Scene {
        steps: &[
            (1, Begin),
            (0, Begin),
            (0, Write(Delete(20), Done)),
            (0, Commit(Committed(1))),
            (0, Begin),
        ],
        left: Left {
            counts: &[1],
            records: &[(0, 0, &[Done], Committed(1))],
            rows: &[(10, "Ann", 1), (30, "Cid", 3)],
            ..NONE
        },
        after: &[
            NoBegin(BeginFault::AlreadyOpen),
            Scan(0, 9, &BASE),
            Write(Insert(25, "Dee", 4), Done),
            Get(25, Some((25, "Dee", 4))),
            Abort,
            NoBegin(BeginFault::Ended),
        ],
        ..PLAIN
    };
    play(&rt, rt.alloc(), &SCENE)
}

#[test]
fn a_dropped_session_aborts_and_its_count_is_lost(rt: HostRuntime) -> Result<(), Fail> {
    static SCENE: Scene = Scene {
        steps: &[
            (1, Begin),
            (1, Write(Set(10, 7), Done)),
            (1, Commit(Committed(1))),
            (1, Begin),
            (1, Write(Delete(20), Done)),
            (0, Begin),
            (1, Leave),
            (0, Write(Delete(20), Done)),
            (0, Commit(Committed(2))),
        ],
        left: Left {
            counts: &[1],
            lost: 1,
            records: &[(1, 0, &[Done], Committed(1)), (0, 1, &[Done], Committed(2))],
            rows: &[(10, "Ann", 7), (30, "Cid", 3)],
            ..NONE
        },
        ..PLAIN
    };
    play(&rt, rt.alloc(), &SCENE)
}

#[test]
fn replies_are_counted_by_session(rt: HostRuntime) -> Result<(), Fail> {
    static SCENE: Scene = Scene {
        clients: 3,
        steps: &[
            (0, Begin),
            (0, Write(Set(10, 7), Done)),
            (1, Begin),
            (1, Write(Set(10, 8), Done)),
            (0, Commit(Committed(1))),
            (1, Commit(Conflict(1))),
            (0, Cut(2, 0)),
            (0, Begin),
            (0, Abort),
            (0, Begin),
            (0, Commit(Committed(2))),
            (1, Begin),
            (1, Write(Set(10, 8), Done)),
        ],
        left: Left {
            counts: &[2, 1, 0],
            base: 1,
            records: &[(0, 1, &[], Committed(2))],
            rows: &[(10, "Ann", 7), (20, "Bob", 2), (30, "Cid", 3)],
            ..NONE
        },
        ..PLAIN
    };
    play(&rt, rt.alloc(), &SCENE)
}
