//! Batches of a group commit, over a device whose second sync fails.
ghost use Rattle.std.specs.Prelude.{◌≡◌, ◌≤◌, length};

use crate::devices::{SEED, empty_slot};
use group_commit::{GroupLog, HistoryPrefix, JournalId, WriteFault};
use logging::{Appender, FailingJournal, Failure, JournalDevice, MemJournal};
use std::marker::Brand;
use std::sync::Wait;
use std::test::Fail;
use watermark::NewWatermark;

/// The number of the commit before the journal.
const BASE: u64 = 7;

/// A history with no commit.
#[derive(Drop)]
struct NoCommits {}

impl HistoryPrefix for NoCommits {
    ghost use Rattle.std.specs.Prelude.{[]};

    ghost payloads = { λ _. [] };

    fn again(&self) -> NoCommits {
        NoCommits {}
    }

    fn has_same_commits(&self, _other: &NoCommits) -> bool {
        true
    }
}

/// What three batches with no commit are answered, and what a reader loads before and after the first of them is acknowledged.
#[derive(Drop)]
struct Answers {
    writes: [Result<(), WriteFault>; 3],
    before: u64,
    after: u64,
}

/// Writes the three batches.
fn answers_over<J: JournalId, D: JournalDevice, R: Wait>(
    rt: &R,
    journal: Appender<D>,
    fresh: NewWatermark,
) -> Answers
    requires name { fresh.cell.table.shared.table_id ≡ J.watermark }
    requires journal { (journal.device.appended ≡ J.front) × (length J.front ≤ journal.device.safe) × (journal.seed ≡ J.seed) }
    requires base { J.base ≡ 7 }
{
    let (watermark, writer) = fresh.named::<J>();
    let mut log: GroupLog<NoCommits, D, J> = GroupLog::new(journal, NoCommits {}, BASE, writer);
    let mut reader = log.reader(&watermark);
    let before = reader.load(rt, &watermark);
    let first = log.write(&NoCommits {}, NoCommits {}, BASE, &[]);
    log.advance(rt, &watermark);
    let after = reader.load(rt, &watermark);
    let second = log.write(&NoCommits {}, NoCommits {}, BASE, &[]);
    let third = log.write(&NoCommits {}, NoCommits {}, BASE, &[]);
    Answers {
        writes: [first, second, third],
        before,
        after,
    }
}

#[test]
fn a_reader_loads_what_is_acknowledged_and_a_failure_ends_the_log(
    rt: HostRuntime,
) -> Result<(), Fail> {
    let alloc = rt.alloc();
    let slot = empty_slot(alloc)?;
    let memory = MemJournal::new(Vec::new(alloc), slot.clone()?);
    let device = FailingJournal::new(memory, Failure::Sync { turn: 2 });
    let journal = Appender::new(alloc, device, SEED);
    let fresh = NewWatermark::new(alloc)?;
    let answers = answers_over::<Brand, FailingJournal, _>(&rt, journal, fresh);
    assert!(&rt; answers.before == 0 && answers.after == BASE);
    assert!(&rt; answers.writes == [Ok(()), Err(WriteFault::Unsure), Err(WriteFault::Failed)]);
    Ok(())
}
