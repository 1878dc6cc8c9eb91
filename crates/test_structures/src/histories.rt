//! The slow program: which histories it takes for legal, its tables and its effects. Each of its calls is a definition's value by
//! its contract, so that one case of each shows that it succeeds; the definitions themselves are compared with a person's answers
//! in `model`'s worked facts and, through the program, in examples/cases.
use crate::assertions::assert_holds;
use CommitReply::{Committed, Conflict, TooOld};
use ConflictRule::ByColumn;
use WriteReply::{Done, Duplicate, Missing};
use model::{CommitReply, ConflictRule, Record, Write, WriteReply};
use oracle::{Effects, OrderedTable, Start, is_legal, table_after};
use std::alloc::Global;
use std::process::Abort;
use std::test::Fail;
use test_fixtures::{BASE, ItemWrite, item, items, key, writes_of};
use values::{Key, NoMemory};

const AMPLE: u64 = 2_147_483_647;

const RECENT: usize = 64;

/// The base table, by key.
fn base(alloc: Global) -> Result<OrderedTable, NoMemory> {
    OrderedTable::from_rows(alloc, 1, items(alloc, BASE.as_slice())?)
}

/// Whether a history of one record is legal from the start, over these older tables.
fn is_legal_alone(
    alloc: Global,
    start: &Start,
    older: &[OrderedTable],
    entry: Record,
) -> Result<bool, NoMemory> {
    let mut history = Vec::new(alloc);
    history.push(entry)?;
    is_legal(alloc, 1, start, older, history.as_slice())
}

#[test]
fn a_history_after_a_cut_counts_from_its_base(rt: HostRuntime) -> Result<(), Fail> {
    static CASES: [(&str, u64, CommitReply, bool); 6] = [
        ("at the base", 5, Committed(6), true),
        ("numbers from nothing", 5, Committed(1), false),
        ("a begin from nothing", 0, Committed(6), false),
        ("too old under the base", 0, TooOld(5), true),
        (
            "too old under a table that isn't there",
            4,
            TooOld(5),
            false,
        ),
        ("a begin that was not there", 6, Committed(6), false),
    ];
    let alloc = rt.alloc();
    let start = Start::new(base(alloc)?, 5, AMPLE, RECENT, ByColumn);
    let mut older = Vec::new(alloc);
    older.push(OrderedTable::new(alloc))?;
    for (label, begin, commit, legal) in &CASES {
        let entry = Record::new(0, *begin, Vec::new(alloc), *commit);
        let answer = is_legal_alone(alloc, &start, older.as_slice(), entry)?;
        assert_holds(&rt, answer == *legal, *label);
    }
    Ok(())
}

/// The record of one delete of Bob, with these answers.
fn answered_delete(
    alloc: Global,
    begin: u64,
    reply: WriteReply,
    commit: CommitReply,
) -> Result<Record, NoMemory> {
    let mut writes = Vec::new(alloc);
    writes.push((Write::Delete(key(alloc, 20)?), reply))?;
    Ok(Record::new(7, begin, writes, commit))
}

/// Whether it says so.
fn is_made(entry: &Record, begin: u64, commit: CommitReply) -> bool {
    entry.client() == 7
        && entry.begin() == begin
        && entry.writes().len() == 1
        && entry.reply() == commit
}

#[test]
fn a_history_with_another_answer_is_not_legal(rt: HostRuntime) -> Result<(), Fail> {
    static CASES: [(&str, u64, WriteReply, CommitReply, bool); 5] = [
        ("as it was", 0, Done, Committed(1), true),
        (
            "another reply to the write",
            0,
            Missing,
            Committed(1),
            false,
        ),
        ("another reply to the commit", 0, Done, Conflict(0), false),
        ("another number", 0, Done, Committed(2), false),
        ("a begin that was not there", 1, Done, Committed(1), false),
    ];
    let start = Start::new(base(rt.alloc())?, 0, AMPLE, RECENT, ByColumn);
    for (label, begin, reply, commit, legal) in &CASES {
        let entry = answered_delete(rt.alloc(), *begin, *reply, *commit)?;
        let made = is_made(&entry, *begin, *commit);
        let answer = is_legal_alone(rt.alloc(), &start, &[], entry)?;
        assert_holds(&rt, made && answer == *legal, *label);
    }
    Ok(())
}

/// What the writes do to the table.
fn effects_of(
    alloc: Global,
    table: &OrderedTable,
    named: &[ItemWrite],
) -> Result<Effects, NoMemory> {
    let writes = writes_of(alloc, named)?;
    let mut effects = Effects::new(alloc);
    let _replies = table.write_all(1, AMPLE, &mut effects, writes.as_slice())?;
    Ok(effects)
}

/// Whether this is the base table, which has no row of key 25.
fn is_base(table: &OrderedTable, bound: &Key) -> bool {
    table.len() == 3 && table.rank(bound) == 2 && table.row_at(bound).is_none()
}

#[test]
fn a_table_is_read(rt: HostRuntime) -> Result<(), Fail> {
    let bound = key(rt.alloc(), 25)?;
    let table = base(rt.alloc())?.copy()?;
    assert!(rt; is_base(&table, &bound));
    Ok(())
}

/// Whether the effects fit the table and not the one after them, and conflict with themselves.
fn fit_once(table: &OrderedTable, effects: &Effects) -> Result<bool, NoMemory> {
    let after = table.with(effects)?;
    let copy = effects.copy()?;
    Ok(table.all_fit(effects) && !after.all_fit(effects) && effects.conflicts(ByColumn, &copy))
}

/// What another insert of key 25 is answered.
fn reply_again(
    alloc: Global,
    table: &OrderedTable,
    effects: &Effects,
) -> Result<WriteReply, NoMemory> {
    let again = Write::Insert(item(alloc, 25, "Eve", 5)?);
    table.reply_to(1, AMPLE, effects, &again)
}

/// Whether the effects have one on key 25, and none once that is taken out.
fn gives_out(alloc: Global, effects: &mut Effects) -> Result<bool, NoMemory> {
    let bound = key(alloc, 25)?;
    let there = effects.get(&bound).is_some();
    effects.store(bound, None)?;
    Ok(there && effects.len() == 0)
}

static INSERT: [ItemWrite; 1] = [ItemWrite::Insert(25, "Dee", 4)];

/// Whether those effects fit once, what another insert is answered over them, and whether they give their one out.
fn reads_of(
    alloc: Global,
    table: &OrderedTable,
    effects: &mut Effects,
) -> Result<(bool, WriteReply, bool), NoMemory> {
    let fits = fit_once(table, effects)?;
    let reply = reply_again(alloc, table, effects)?;
    Ok((fits, reply, gives_out(alloc, effects)?))
}

#[test]
fn effects_are_read(rt: HostRuntime) -> Result<(), Fail> {
    let table = base(rt.alloc())?;
    let mut effects = effects_of(rt.alloc(), &table, &INSERT)?;
    let found = reads_of(rt.alloc(), &table, &mut effects)?;
    assert!(rt; found == (true, Duplicate, true));
    Ok(())
}

/// How many rows the table has after all commits, and how many at the two numbers of a history of one.
fn lengths(start: &Start, commits: &[Effects]) -> Result<[usize; 3], NoMemory> {
    let all = start.table().with_all(commits)?.len();
    let before = table_after(start, commits, 5)?.len();
    let after = table_after(start, commits, 6)?.len();
    Ok([all, before, after])
}

#[test]
fn a_table_stands_after_its_commits(rt: HostRuntime) -> Result<(), Fail> {
    let mut commits = Vec::new(rt.alloc());
    commits.push(effects_of(rt.alloc(), &base(rt.alloc())?, &INSERT)?)?;
    let start = Start::new(base(rt.alloc())?, 5, AMPLE, RECENT, ByColumn);
    let found = lengths(&start, commits.as_slice())?;
    assert!(rt; found == [4, 3, 4]);
    Ok(())
}

/// A client's writes, all of them done, from where it began, and the reply to its commit.
type Step = (u32, u64, &'static [ItemWrite], CommitReply);

/// What is before a cut, and after it: an insert; a set that began at the cut, one that began before it, and no write.
static BEFORE: [Step; 1] = [(1, 0, &[ItemWrite::Insert(25, "Dee", 4)], Committed(1))];

static AFTER: [Step; 3] = [
    (2, 1, &[ItemWrite::Set(30, 9)], Committed(2)),
    (0, 0, &[ItemWrite::Set(10, 9)], TooOld(2)),
    (1, 2, &[], Committed(3)),
];

/// The record of a step.
fn record_of(alloc: Global, (client, begin, named, reply): Step) -> Result<Record, NoMemory> {
    let mut writes = Vec::new(alloc);
    for write in writes_of(alloc, named)? {
        writes.push((write, Done))?;
    }
    Ok(Record::new(client, begin, writes, reply))
}

/// The history of the steps.
fn history_of(alloc: Global, steps: &[Step]) -> Result<Vec<Record>, NoMemory> {
    let mut history = Vec::new(alloc);
    for step in steps {
        history.push(record_of(alloc, *step)?)?;
    }
    Ok(history)
}

/// Whether the history before the cut is legal.
fn is_legal_before(alloc: Global) -> Result<bool, NoMemory> {
    let history = history_of(alloc, &BEFORE)?;
    let start = Start::new(base(alloc)?, 0, AMPLE, RECENT, ByColumn);
    is_legal(alloc, 1, &start, &[], history.as_slice())
}

/// Whether the history after the cut is legal where these are the older tables.
fn is_legal_after(alloc: Global, older: &[OrderedTable]) -> Result<bool, NoMemory> {
    let history = history_of(alloc, &AFTER)?;
    let table = base(alloc)?;
    let cut = table.with(&effects_of(alloc, &table, &INSERT)?)?;
    let start = Start::new(cut, 1, AMPLE, RECENT, ByColumn);
    is_legal(alloc, 1, &start, older, history.as_slice())
}

/// The same where this is the one older table.
fn is_legal_over(alloc: Global, table: OrderedTable) -> Result<bool, NoMemory> {
    let mut older = Vec::new(alloc);
    older.push(table)?;
    is_legal_after(alloc, older.as_slice())
}

/// The same over no table, over the base table, at which the second record began and which the cut took away, and over another
/// table.
fn are_legal_after(alloc: Global) -> Result<[bool; 3], NoMemory> {
    let none = is_legal_after(alloc, &[])?;
    let its = is_legal_over(alloc, base(alloc)?)?;
    let another = is_legal_over(alloc, OrderedTable::new(alloc))?;
    Ok([none, its, another])
}

#[test]
fn numbers_go_on_after_a_cut(rt: HostRuntime) -> Result<(), Fail> {
    let before = is_legal_before(rt.alloc())?;
    assert_holds(&rt, before, "before the cut");
    let [none, its, another] = are_legal_after(rt.alloc())?;
    assert_holds(&rt, !none, "over no table");
    assert_holds(&rt, its, "over its table");
    assert_holds(&rt, !another, "over another table");
    Ok(())
}
