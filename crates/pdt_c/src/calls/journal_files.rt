//! The files of a journal, as an opening takes them: each by its bytes, and all by what was read of their frames.
ghost use Rattle.std.specs.Prelude.{◌≡◌, ◌⊎◌};
ghost use Rattle.segments.specs.Ends.{GoesOn, IsMissed, base_before};
ghost use Rattle.segments.specs.Segment.{segment_of};
ghost use Rattle.segments.specs.declared.ends.JournalEnd.{JournalEnd};
ghost use Rattle.segments.specs.declared.fault.EndFault.TheVariants as end_fault;
ghost use Rattle.pdt_c.specs.JournalFiles.{IsToldFile, end_record};
ghost use Rattle.pdt_c.specs.declared.codes.TheConstants.{DONE, GAP, ROT};

use crate::codes::{DONE, GAP, MISFIT, NEWER_FORMAT, ROT};
use segments::{EndFault, JournalEnd, Segment, SegmentFault, base_before, find_end, read_segment};

/// Where the files of a journal end, or the commit that is missing.
#[repr(C)]
#[derive(Clone, Copy)]
pub struct EndRecord {
    /// The place of the last file that has frames, or of the first one, where none has.
    pub place: u64,
    /// How many bytes of its frames are whole. They stay.
    pub kept: u64,
    /// How many bytes are behind those.
    pub torn: u64,
    /// The commit after the newest one, where it is damaged or missing; or 0.
    pub missing: u64,
    /// Whether the file has to be written anew before anything is written behind its frames.
    pub is_anew: bool,
}

/// Says what the file of a number is, where the one that is due is the next after those before it: `GAP` where another one is due,
/// `MISFIT` where it is another database's, and `NEWER_FORMAT` where its header is of a later version. Takes no memory.
#[unsafe(no_mangle)]
pub extern "C" fn pdtr_journal_file(
    due: u64,
    number: u64,
    salt: u64,
    store: u64,
    bytes: &[u8],
    file: &mut Segment,
) -> u32
    ensures { IsToldFile (segment_of due number salt store bytes.now) result file.old file.new }
{
    match read_segment(due, number, salt, store, bytes) {
        Ok(found) => {
            *file = found;
            DONE
        }
        Err(SegmentFault::NotInTurn) => GAP,
        Err(SegmentFault::OtherStore) => MISFIT,
        Err(SegmentFault::LaterVersion) => NEWER_FORMAT,
    }
}

/// The number of the commit before the first frame of files: where the first one has no header, that of a commit that was safe.
#[unsafe(no_mangle)]
pub extern "C" fn pdtr_journal_base(commit: u64, files: &[Segment]) -> u64
    ensures { result ≡ base_before commit files.now }
{
    base_before(commit, files)
}

/// Says where the files of a journal end, of which so many bytes of frames are whole, up to the frame of the newest commit, where the
/// manifest notes a commit as durable: `ROT` where a commit is damaged, and `GAP` where one is missing. Takes no memory.
#[unsafe(no_mangle)]
pub extern "C" fn pdtr_journal_end(
    files: &[Segment],
    newest: u64,
    whole: u64,
    noted: u64,
    end: &mut EndRecord,
) -> u32
    // Frames go on only where the files stand behind one another and no durable commit is gone.
    ensures done { result ≡ DONE → (e : JournalEnd) × GoesOn files.now newest whole noted e × (end.new ≡ end_record e) }
    ensures damaged { result ≡ ROT → IsMissed files.now newest whole noted (end_fault.Damaged end.new.missing) }
    ensures missing { result ≡ GAP → IsMissed files.now newest whole noted (end_fault.Missing end.new.missing) }
    ensures only { (result ≡ DONE) ⊎ ((result ≡ ROT) ⊎ (result ≡ GAP)) }
{
    match find_end(files, newest, whole, noted) {
        Ok(found) => {
            *end = end_record(found);
            DONE
        }
        Err(EndFault::Damaged(commit)) => {
            *end = missing_record(commit);
            ROT
        }
        Err(EndFault::Missing(commit)) => {
            *end = missing_record(commit);
            GAP
        }
    }
}

fn end_record(end: JournalEnd) -> EndRecord
    ensures { result ≡ end_record end }
{
    EndRecord {
        place: end.place as u64,
        kept: end.kept,
        torn: end.torn,
        missing: 0,
        is_anew: end.is_anew,
    }
}

fn missing_record(commit: u64) -> EndRecord
    ensures { result.missing ≡ commit }
{
    EndRecord {
        place: 0,
        kept: 0,
        torn: 0,
        missing: commit,
        is_anew: false,
    }
}
