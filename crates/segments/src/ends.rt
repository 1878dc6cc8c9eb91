//! Where a journal in files ends, and whether frames go on there.
ghost use Rattle.std.specs.Prelude.{◌≡◌, ◌<◌, ◌≤◌, ◌⊎◌, ◌+◌, ◌-◌, true, false, IfErr, IfOk, IfSome, IsNone, length, take, drop};
ghost use Rattle.segments.specs.Ends.{GoesOn, IsLast, IsMissed, base_before, begin_in_time, due_after, frames_len, is_anew};

use crate::fault::EndFault;
use crate::segment::Segment;

/// Where a journal in files ends.
#[derive(Clone, Copy)]
pub struct JournalEnd {
    /// The place of the last file that has frames, or of the first one, where none has.
    pub place: usize,
    /// How many bytes of its frames are whole. They stay.
    pub kept: u64,
    /// How many bytes are behind those. They are torn.
    pub torn: u64,
    /// Whether the file has to be written anew, with the bytes that stay, before anything is written behind them.
    pub is_anew: bool,
}

/// Where the files of a journal end of which the first `whole` bytes of frames are whole frames, up to that of the commit `newest`. The
/// manifest notes that the commit `noted` and those before it were durable.
///
/// # Errors
///
/// `Damaged` with the commit after the newest one, where a durable one is gone whose place other bytes have, where a file begins after the
/// newest commit, or where frames are behind the first that isn't whole in another file; `Missing` where a durable commit is gone and no
/// bytes are in its place, or there is no file.
pub fn find_end(
    files: &[Segment],
    newest: u64,
    whole: u64,
    noted: u64,
) -> Result<JournalEnd, EndFault>
    ensures ok { IfOk result (λ end. GoesOn files.now newest whole noted end) }
    ensures err { IfErr result (λ fault. IsMissed files.now newest whole noted fault) }
{
    if newest < noted {
        return Err(lost(files, newest, whole));
    }
    if !begin_in_time(files, newest) {
        return Err(EndFault::Damaged(due_after(newest)));
    }
    let Some(place) = last_with_frames(files) else {
        return Err(EndFault::Missing(due_after(newest)));
    };
    let Some(left) = left_behind(&files[..place], whole) else {
        return Err(EndFault::Damaged(due_after(newest)));
    };
    let file = files[place];
    let kept = left.min(file.len);
    let torn = file.len - kept;
    Ok(JournalEnd {
        place,
        kept,
        torn,
        is_anew: is_anew(file, torn == 0 && newest == noted),
    })
}

/// Why a durable commit is gone.
fn lost(files: &[Segment], newest: u64, whole: u64) -> EndFault
    ensures { IsMissed files.now newest whole (newest + 1) result }
{
    match left_behind(files, whole) {
        Some(_) => EndFault::Missing(due_after(newest)),
        None => EndFault::Damaged(due_after(newest)),
    }
}

/// The number of the commit before the first frame.
pub fn base_before(commit: u64, files: &[Segment]) -> u64
    ensures { result ≡ base_before commit files.now }
{
    match files {
        [first, ..] if first.front > 0 => first.base,
        _ => commit,
    }
}

/// The commit after the newest one.
fn due_after(newest: u64) -> u64
    ensures { result ≡ due_after newest }
{
    match newest.checked_add(1) {
        Some(due) => due,
        None => newest,
    }
}

/// Whether no file begins after the newest commit.
fn begin_in_time(files: &[Segment], newest: u64) -> bool
    ensures { result ≡ begin_in_time newest files.now }
{
    for file in files {
        if file.front > 0 && file.base > newest {
            return false;
        }
    }
    true
}

/// The place of the last file that has frames, or of the first one, where none has.
fn last_with_frames(files: &[Segment]) -> Option<usize>
    ensures some { IfSome result (IsLast files.now) }
    ensures none { IsNone result → length files.now ≡ 0 }
{
    let mut place = files.len();
    while place > 0 {
        place -= 1;
        if place == 0 || files[place].len > 0 {
            return Some(place);
        }
    }
    None
}

/// How many of so many bytes are left behind those of all files.
fn left_behind(files: &[Segment], bytes: u64) -> Option<u64>
    ensures some { IfSome result (λ left. left + frames_len files.now ≡ bytes) }
    ensures none { IsNone result → bytes < frames_len files.now }
{
    let mut left = bytes;
    for file in files {
        left = left.checked_sub(file.len)?;
    }
    Some(left)
}

/// Whether a file has to be written anew.
fn is_anew(file: Segment, is_durable: bool) -> bool
    ensures { result ≡ is_anew file is_durable }
{
    !is_durable && (file.front > 0 || file.len > 0)
}
