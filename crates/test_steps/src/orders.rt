//! Which step is due next, in a life that a person wrote down.
use crate::bytes::{bytes_of, frame_of};
use journal::{Ending, Header, NUMBER_LIMIT, read_frames, read_header};
use journal_steps::{AddFault, Goal, Lane, Step, Steps, seal};
use std::alloc::Global;
use std::test::Fail;

/// What happens.
#[derive(Clone, Copy)]
enum Happening {
    Add,
    Withdraw,
    Toward(Goal),
    Want,
    Next(Lane),
    Done(Lane),
    Failed(Lane),
}

/// A moment of a life: what happens, the step that is due then with the number of its file, and the newest commits that are written and
/// durable.
#[derive(Clone, Copy)]
struct Moment(Happening, &'static str, u64, u64, u64);

/// A journal behind commit 6, in its file 1.
static LIFE: [Moment; 38] = [
    // A file without a commit is followed by none.
    Moment(Happening::Want, "", 0, 6, 6),
    Moment(Happening::Next(Lane::Next), "none", 0, 6, 6),
    Moment(Happening::Add, "", 0, 6, 6),
    Moment(Happening::Next(Lane::Append), "append", 1, 6, 6),
    // What waits may be withdrawn, what a batch has not.
    Moment(Happening::Add, "", 0, 6, 6),
    Moment(Happening::Withdraw, "", 0, 6, 6),
    Moment(Happening::Withdraw, "", 0, 6, 6),
    Moment(Happening::Toward(Goal::Written), "none", 0, 6, 6),
    // While the first append is under way, no commit is written that a sync could make durable.
    Moment(Happening::Next(Lane::Sync), "none", 0, 6, 6),
    Moment(Happening::Next(Lane::Append), "none", 0, 6, 6),
    Moment(Happening::Done(Lane::Append), "", 0, 7, 6),
    // What is written is synced before more is, where a commit is to be durable.
    Moment(Happening::Add, "", 0, 7, 6),
    Moment(Happening::Toward(Goal::Written), "append", 0, 7, 6),
    Moment(Happening::Toward(Goal::Durable), "sync", 0, 7, 6),
    Moment(Happening::Withdraw, "", 0, 7, 6),
    // A commit that is written beside a sync isn't durable with it.
    Moment(Happening::Next(Lane::Sync), "sync", 1, 7, 6),
    Moment(Happening::Add, "", 0, 7, 6),
    Moment(Happening::Next(Lane::Append), "append", 1, 7, 6),
    Moment(Happening::Done(Lane::Append), "", 0, 8, 6),
    Moment(Happening::Want, "", 0, 8, 6),
    // A file that couldn't be made is wanted again.
    Moment(Happening::Next(Lane::Next), "create", 2, 8, 6),
    Moment(Happening::Failed(Lane::Next), "", 0, 8, 6),
    Moment(Happening::Want, "", 0, 8, 6),
    Moment(Happening::Next(Lane::Next), "create", 2, 8, 6),
    Moment(Happening::Done(Lane::Sync), "", 0, 8, 7),
    Moment(Happening::Done(Lane::Next), "", 0, 8, 7),
    Moment(Happening::Next(Lane::Next), "names", 0, 8, 7),
    Moment(Happening::Done(Lane::Next), "", 0, 8, 7),
    // The next file waits until each commit is durable, and a commit waits for it.
    Moment(Happening::Add, "", 0, 8, 7),
    Moment(Happening::Next(Lane::Append), "none", 0, 8, 7),
    Moment(Happening::Toward(Goal::Written), "sync", 0, 8, 7),
    Moment(Happening::Toward(Goal::Durable), "sync", 0, 8, 7),
    Moment(Happening::Next(Lane::Sync), "sync", 1, 8, 7),
    Moment(Happening::Done(Lane::Sync), "", 0, 8, 8),
    Moment(Happening::Toward(Goal::Durable), "append", 0, 8, 8),
    Moment(Happening::Next(Lane::Append), "append", 2, 8, 8),
    // After a failure nothing is due.
    Moment(Happening::Failed(Lane::Append), "", 0, 8, 8),
    Moment(Happening::Next(Lane::Sync), "none", 0, 8, 8),
];

/// A step as a word, and the number of its file.
fn word_of(step: &Option<Step>) -> (&'static str, u64) {
    match step {
        None => ("none", 0),
        Some(Step::Append(batch)) => ("append", batch.file()),
        Some(Step::Sync(seq)) => ("sync", *seq),
        Some(Step::Create(seq)) => ("create", *seq),
        Some(Step::SyncNames) => ("names", 0),
    }
}

/// A journal behind a commit, in its file 1.
fn journal_behind(alloc: Global, newest: u64) -> Option<Steps> {
    let header = Header::new(7, 8, newest)?;
    Steps::new(alloc, &header, newest, 1, 1)
}

/// The step that is due toward a goal, as a word.
fn due_toward(steps: &Steps, goal: Goal) -> &'static str {
    let lane = steps.lane_toward(goal);
    match (steps.is_due(lane), lane) {
        (false, _) => "none",
        (true, Lane::Append) => "append",
        (true, Lane::Sync) => "sync",
        (true, Lane::Next) => "next",
    }
}

/// What happens at a moment, and the step that is due then.
fn happen(
    alloc: Global,
    steps: &mut Steps,
    happening: Happening,
) -> Result<(&'static str, u64), Fail> {
    match happening {
        Happening::Add => {
            steps.add(frame_of(alloc, b"abc")?)?;
        }
        Happening::Withdraw => steps.withdraw(),
        Happening::Toward(goal) => return Ok((due_toward(steps, goal), 0)),
        Happening::Want => steps.want_next(),
        Happening::Next(lane) => return Ok(word_of(&steps.next(alloc, lane))),
        Happening::Done(lane) => steps.done(lane),
        Happening::Failed(lane) => steps.failed(lane),
    }
    Ok(("", 0))
}

/// Whether each moment of the life is as it was written down.
fn goes_as_written(alloc: Global, steps: &mut Steps) -> Result<bool, Fail> {
    for moment in LIFE.iter() {
        let word = happen(alloc, steps, moment.0)?;
        let is_same = word == (moment.1, moment.2)
            && steps.written() == moment.3
            && steps.durable() == moment.4;
        if !is_same {
            return Ok(false);
        }
    }
    Ok(true)
}

/// Whether the first append of a file has its header and a frame.
fn has_header(alloc: Global) -> Result<bool, Fail> {
    let Some(mut steps) = journal_behind(alloc, 6) else {
        return Ok(false);
    };
    steps.add(frame_of(alloc, b"abc")?)?;
    let Some(Step::Append(batch)) = steps.next(alloc, Lane::Append) else {
        return Ok(false);
    };
    let bytes = bytes_of(alloc, &seal(batch))?;
    let Ok((header, rest)) = read_header(bytes.as_slice()) else {
        return Ok(false);
    };
    let reading = read_frames(alloc, header.seed(), 7, rest)?;
    Ok(header.base() == 6 && reading.frames.len() == 1 && reading.ending == Ending::End)
}

/// Whether a commit has no number behind 2^63 - 1.
fn is_full_at_the_end(alloc: Global) -> Result<bool, Fail> {
    let Some(mut steps) = journal_behind(alloc, NUMBER_LIMIT - 2) else {
        return Ok(false);
    };
    let last = steps.add(frame_of(alloc, b"")?) == Ok(NUMBER_LIMIT - 1);
    Ok(last && steps.add(frame_of(alloc, b"")?) == Err(AddFault::Full))
}

#[test]
fn steps_are_due_in_their_order(rt: HostRuntime) -> Result<(), Fail> {
    let alloc = rt.alloc();
    if let Some(mut steps) = journal_behind(alloc, 6) {
        assert!(&rt; goes_as_written(alloc, &mut steps)?);
        assert!(&rt; steps.is_broken());
        assert!(&rt; steps.remove_oldest() == Some(1) && steps.remove_oldest() == None);
    } else {
        assert!(&rt; false, "no journal");
    }
    assert!(&rt; has_header(alloc)?);
    assert!(&rt; is_full_at_the_end(alloc)?);
    Ok(())
}
