//! Transactions of several clients that begin together: which of their commits are granted.

use super::{Left, NONE, PLAIN, Scene, play};
use crate::acts::Act::{Begin, Commit, Entries, Get, Write};
use model::CommitReply::{Committed, Conflict, Full, TooOld};
use model::WriteReply;
use model::WriteReply::Done;
use std::test::Fail;
use test_fixtures::ItemWrite::{Delete, Insert, Name, Set};

#[test]
fn a_replaced_row_conflicts_with_a_modify(rt: HostRuntime) -> Result<(), Fail> {
    static SCENE: Scene = Scene {
        steps: &[
            (0, Begin),
            (1, Begin),
            (0, Write(Delete(20), Done)),
            (0, Write(Insert(20, "Bea", 9), Done)),
            (0, Entries("1+20,Bea,9 1-20")),
            (1, Write(Set(20, 7), Done)),
            (0, Commit(Committed(1))),
            (1, Commit(Conflict(1))),
        ],
        left: Left {
            counts: &[1, 1],
            records: &[
                (0, 0, &[Done, Done], Committed(1)),
                (1, 0, &[Done], Conflict(1)),
            ],
            rows: &[(10, "Ann", 1), (20, "Bea", 9), (30, "Cid", 3)],
            ..NONE
        },
        ..PLAIN
    };
    play(&rt, rt.alloc(), &SCENE)
}

#[test]
fn modifies_of_two_columns_both_commit(rt: HostRuntime) -> Result<(), Fail> {
    static SCENE: Scene = Scene {
        steps: &[
            (0, Begin),
            (1, Begin),
            (0, Write(Name(20, "Bea"), Done)),
            (1, Write(Set(20, 7), Done)),
            (0, Commit(Committed(1))),
            (1, Commit(Committed(2))),
        ],
        left: Left {
            counts: &[1, 1],
            records: &[(0, 0, &[Done], Committed(1)), (1, 0, &[Done], Committed(2))],
            rows: &[(10, "Ann", 1), (20, "Bea", 7), (30, "Cid", 3)],
            ..NONE
        },
        ..PLAIN
    };
    play(&rt, rt.alloc(), &SCENE)
}

#[test]
fn same_value_modifies_conflict(rt: HostRuntime) -> Result<(), Fail> {
    static SCENE: Scene = Scene {
        steps: &[
            (0, Begin),
            (1, Begin),
            (0, Write(Set(20, 2), Done)),
            (1, Write(Set(20, 2), Done)),
            (0, Commit(Committed(1))),
            (1, Commit(Conflict(1))),
        ],
        left: Left {
            counts: &[1, 1],
            records: &[(0, 0, &[Done], Committed(1)), (1, 0, &[Done], Conflict(1))],
            ..NONE
        },
        ..PLAIN
    };
    play(&rt, rt.alloc(), &SCENE)
}

#[test]
fn only_inserts_of_one_key_conflict(rt: HostRuntime) -> Result<(), Fail> {
    static SCENE: Scene = Scene {
        clients: 3,
        steps: &[
            (0, Begin),
            (1, Begin),
            (2, Begin),
            (0, Write(Insert(25, "Dee", 4), Done)),
            (1, Write(Insert(25, "Eve", 5), Done)),
            (2, Write(Insert(26, "Flo", 6), Done)),
            (0, Commit(Committed(1))),
            (1, Commit(Conflict(1))),
            (2, Commit(Committed(2))),
        ],
        left: Left {
            counts: &[1, 1, 1],
            records: &[
                (0, 0, &[Done], Committed(1)),
                (1, 0, &[Done], Conflict(1)),
                (2, 0, &[Done], Committed(2)),
            ],
            rows: &[
                (10, "Ann", 1),
                (20, "Bob", 2),
                (25, "Dee", 4),
                (26, "Flo", 6),
                (30, "Cid", 3),
            ],
            ..NONE
        },
        ..PLAIN
    };
    play(&rt, rt.alloc(), &SCENE)
}

#[test]
fn a_commit_undone_by_another_still_conflicts(rt: HostRuntime) -> Result<(), Fail> {
    static SCENE: Scene = Scene {
        clients: 3,
        steps: &[
            (0, Begin),
            (1, Begin),
            (1, Write(Insert(25, "Dee", 4), Done)),
            (1, Commit(Committed(1))),
            (2, Begin),
            (2, Write(Delete(25), Done)),
            (2, Commit(Committed(2))),
            (0, Write(Insert(25, "Eve", 5), Done)),
            (0, Commit(Conflict(2))),
        ],
        left: Left {
            counts: &[1, 1, 1],
            records: &[
                (1, 0, &[Done], Committed(1)),
                (2, 1, &[Done], Committed(2)),
                (0, 0, &[Done], Conflict(2)),
            ],
            ..NONE
        },
        ..PLAIN
    };
    play(&rt, rt.alloc(), &SCENE)
}

#[test]
fn write_skew_commits(rt: HostRuntime) -> Result<(), Fail> {
    static SCENE: Scene = Scene {
        steps: &[
            (0, Begin),
            (1, Begin),
            (0, Get(10, Some((10, "Ann", 1)))),
            (0, Write(Set(20, 0), Done)),
            (1, Get(20, Some((20, "Bob", 2)))),
            (1, Write(Set(10, 0), Done)),
            (0, Commit(Committed(1))),
            (1, Commit(Committed(2))),
        ],
        left: Left {
            counts: &[1, 1],
            records: &[(0, 0, &[Done], Committed(1)), (1, 0, &[Done], Committed(2))],
            rows: &[(10, "Ann", 0), (20, "Bob", 0), (30, "Cid", 3)],
            ..NONE
        },
        ..PLAIN
    };
    play(&rt, rt.alloc(), &SCENE)
}

#[test]
fn an_old_begin_is_decided_or_too_old(rt: HostRuntime) -> Result<(), Fail> {
    static SCENE: Scene = Scene {
        recent: 2,
        clients: 3,
        steps: &[
            (0, Begin),
            (2, Begin),
            (1, Begin),
            (1, Commit(Committed(1))),
            (1, Begin),
            (1, Commit(Committed(2))),
            (0, Write(Set(30, 9), Done)),
            (0, Commit(Committed(3))),
            (2, Commit(TooOld(3))),
        ],
        left: Left {
            counts: &[1, 2, 1],
            records: &[
                (1, 0, &[], Committed(1)),
                (1, 1, &[], Committed(2)),
                (0, 0, &[Done], Committed(3)),
                (2, 0, &[], TooOld(3)),
            ],
            rows: &[(10, "Ann", 1), (20, "Bob", 2), (30, "Cid", 9)],
            ..NONE
        },
        ..PLAIN
    };
    play(&rt, rt.alloc(), &SCENE)
}

#[test]
fn the_row_limit_holds_in_and_across_transactions(rt: HostRuntime) -> Result<(), Fail> {
    static SCENE: Scene = Scene {
        limit: 4,
        steps: &[
            (0, Begin),
            (1, Begin),
            (0, Write(Insert(40, "Dee", 4), Done)),
            (0, Write(Insert(41, "Eve", 5), WriteReply::Full)),
            (1, Write(Insert(50, "Flo", 6), Done)),
            (0, Commit(Committed(1))),
            (1, Commit(Full(1))),
        ],
        left: Left {
            counts: &[1, 1],
            records: &[
                (0, 0, &[Done, WriteReply::Full], Committed(1)),
                (1, 0, &[Done], Full(1)),
            ],
            rows: &[
                (10, "Ann", 1),
                (20, "Bob", 2),
                (30, "Cid", 3),
                (40, "Dee", 4),
            ],
            ..NONE
        },
        ..PLAIN
    };
    play(&rt, rt.alloc(), &SCENE)
}
