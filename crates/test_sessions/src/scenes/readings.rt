//! What a session reads of its transaction, and what it is refused.

use super::{Left, NONE, PLAIN, Scene, play};
use crate::acts::Act::{
    Abort, At, Begin, Commit, Get, Len, NoAbort, NoBegin, NoCommit, NoRead, NoWrite, Rank, Scan,
    Write,
};
use model::CommitReply::Committed;
use model::WriteReply::{Done, Duplicate, Missing};
use shared::{BeginFault, CommitFault, SessionFault};
use std::test::Fail;
use test_fixtures::ItemWrite::{Delete, Insert, Name, Set};
use test_fixtures::{BASE, Item};

#[test]
fn reads_and_refusals_of_one_session(rt: HostRuntime) -> Result<(), Fail> {
    static SCENE: Scene = Scene {
        clients: 1,
        steps: &[
            (0, NoRead),
            (0, Begin),
            (0, NoBegin(BeginFault::AlreadyOpen)),
            (0, Rank(25, 2, false)),
            (0, At(3, None)),
            (0, Scan(1, 9, &[(20, "Bob", 2), (30, "Cid", 3)])),
            (0, Abort),
            (0, NoRead),
        ],
        left: Left {
            counts: &[0],
            ..NONE
        },
        ..PLAIN
    };
    play(&rt, rt.alloc(), &SCENE)
}

#[test]
fn a_session_with_no_transaction_changes_nothing(rt: HostRuntime) -> Result<(), Fail> {
    static SCENE: Scene = Scene {
        clients: 1,
        steps: &[
            (0, NoWrite(Insert(25, "Dee", 4), SessionFault::NotOpen)),
            (0, NoWrite(Delete(20), SessionFault::NotOpen)),
            (0, NoWrite(Set(20, 7), SessionFault::NotOpen)),
            (0, NoCommit(CommitFault::NotOpen)),
            (0, NoAbort),
            (0, Begin),
            (0, Commit(Committed(1))),
            (0, NoCommit(CommitFault::NotOpen)),
        ],
        left: Left {
            counts: &[1],
            records: &[(0, 0, &[], Committed(1))],
            ..NONE
        },
        ..PLAIN
    };
    play(&rt, rt.alloc(), &SCENE)
}

/// The base table as its own writes change it.
const CHANGED: [Item; 3] = [(20, "Bea", 2), (25, "Dee", 5), (30, "Cid", 3)];

#[test]
fn a_session_reads_its_own_writes_and_no_others(rt: HostRuntime) -> Result<(), Fail> {
    static SCENE: Scene = Scene {
        steps: &[
            (0, Begin),
            (1, Begin),
            (0, Write(Insert(25, "Dee", 4), Done)),
            (0, Write(Insert(20, "Eve", 5), Duplicate)),
            (0, Write(Delete(10), Done)),
            (0, Write(Delete(10), Missing)),
            (0, Write(Name(20, "Bea"), Done)),
            (0, Write(Set(25, 5), Done)),
            (0, Get(25, Some((25, "Dee", 5)))),
            (0, Get(10, None)),
            (0, At(0, Some((20, "Bea", 2)))),
            (0, At(3, None)),
            (0, Rank(25, 1, true)),
            (0, Len(3)),
            (0, Scan(0, 9, &CHANGED)),
            (0, Scan(2, 1, &[])),
            (1, Get(25, None)),
            (1, Len(3)),
            (1, Scan(0, 3, &BASE)),
            (0, Commit(Committed(1))),
            (1, Scan(0, 3, &BASE)),
            (1, Abort),
            (1, Begin),
            (1, Scan(0, 3, &CHANGED)),
        ],
        left: Left {
            counts: &[1, 0],
            records: &[(
                0,
                0,
                &[Done, Duplicate, Done, Missing, Done, Done],
                Committed(1),
            )],
            rows: &CHANGED,
            ..NONE
        },
        ..PLAIN
    };
    play(&rt, rt.alloc(), &SCENE)
}

#[test]
fn an_aborted_transaction_leaves_no_record(rt: HostRuntime) -> Result<(), Fail> {
    static SCENE: Scene = Scene {
        clients: 1,
        steps: &[
            (0, Begin),
            (0, Write(Delete(20), Done)),
            (0, Abort),
            (0, Begin),
            (0, Scan(0, 9, &BASE)),
            (0, Write(Delete(30), Done)),
        ],
        left: Left {
            counts: &[0],
            ..NONE
        },
        ..PLAIN
    };
    play(&rt, rt.alloc(), &SCENE)
}
