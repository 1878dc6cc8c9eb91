//! What a run hands on: its clients, its lines, its manager and how many commits were decided.
use crate::managers::has_rows;
use crate::programs::memory::left_of;
use manager::Manager;
use model::{CommitReply, Record, Write, WriteReply};
use pdtcli::{Reply, ReplyLine};
use std::test::Fail;

/// Whether a write was answered so.
fn is_written(line: &ReplyLine, want: WriteReply) -> bool {
    match &line.reply {
        Reply::Wrote(found) => *found == want,
        _ => false,
    }
}

/// Whether a commit was answered so.
fn is_decided(line: &ReplyLine, want: CommitReply) -> bool {
    match &line.reply {
        Reply::Decided(found) => *found == want,
        _ => false,
    }
}

/// Whether these are the replies to a begin, three refused writes and a commit.
fn are_refused(lines: &[ReplyLine]) -> bool {
    match lines {
        [begun, inserted, deleted, set, committed] => {
            matches!(begun.reply, Reply::Begun)
                && is_written(inserted, WriteReply::Duplicate)
                && is_written(deleted, WriteReply::Missing)
                && matches!(set.reply, Reply::KeyColumn)
                && is_decided(committed, CommitReply::Committed(1))
        }
        _ => false,
    }
}

/// Whether the record has the two writes that the table answered.
fn has_both(record: &Record) -> bool {
    record.client() == 0
        && record.begin() == 0
        && record.reply() == CommitReply::Committed(1)
        && matches!(
            record.writes(),
            [
                (Write::Insert(_), WriteReply::Duplicate),
                (Write::Delete(_), WriteReply::Missing)
            ]
        )
}

/// Whether each record that a manager keeps holds both.
fn do_all_have_both(manager: &Manager) -> bool {
    match manager.history().records() {
        Some(records) => records.iter().all(|record| has_both(record)),
        None => false,
    }
}

#[test]
fn the_record_of_two_refused_writes_holds_both(rt: HostRuntime) -> Result<(), Fail> {
    let script = b"a,begin\na,insert,20,Bob,2\na,delete,25\na,set,20,id,21\na,commit\n";
    let left = left_of(rt.alloc(), script.as_slice())?;
    assert!(&rt; are_refused(left.lines()));
    assert!(&rt; left.manager().history().len() == 1);
    assert!(&rt; do_all_have_both(left.manager()));
    Ok(())
}

#[test]
fn commits_that_are_decided_are_counted(rt: HostRuntime) -> Result<(), Fail> {
    let script =
        b"a,commit\na,begin\na,commit\na,begin\na,delete,20\na,commit\na,begin\na,abort\na,begin\na,delete,10\n";
    let left = left_of(rt.alloc(), script.as_slice())?;
    assert!(&rt; left.clients().iter().all(|name| name.as_str() == "a"));
    assert!(&rt; left.lines().len() == 10);
    assert!(&rt; left.counts() == [2_u64].as_slice());
    assert!(&rt; left.manager().history().len() == 2);
    assert!(&rt; has_rows(left.manager(), &[(10, 1), (30, 3)]));
    Ok(())
}

#[test]
fn records_that_cuts_hand_out_are_counted(rt: HostRuntime) -> Result<(), Fail> {
    let script =
        b"a,begin\na,commit\na,cut\na,begin\na,delete,20\na,commit\na,begin\na,commit\na,cut\na,begin\na,commit\n";
    let left = left_of(rt.alloc(), script.as_slice())?;
    assert!(&rt; left.handed() == 3);
    assert!(&rt; left.counts() == [4_u64].as_slice());
    let manager = left.manager();
    assert!(&rt; (manager.base(), manager.made()) == (3, 4));
    assert!(&rt; manager.history().len() == 1);
    assert!(&rt; manager.version().number() == 4);
    Ok(())
}
