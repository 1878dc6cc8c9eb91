//! Files, tested by the marks that a manifest has of them.
ghost use Rattle.std.specs.Prelude.{◌≡◌, map};
ghost use Rattle.segments.specs.Marks.{first_damaged, has_mark};

use journal::crc_from;
use manifest::FileMark;

/// What the register is before a check's first byte.
const ALL_ONES: u32 = 0xffff_ffff;

/// Whether the bytes are as many as the mark says, and have its check.
pub fn has_mark(mark: &FileMark, bytes: &[u8]) -> bool
    ensures { result ≡ has_mark mark.now bytes.now }
{
    bytes.len() as u64 == mark.size && crc_from(ALL_ONES, bytes) == mark.check
}

/// The first file that hasn't its mark, or has none, or isn't there. Each is looked at once.
pub fn first_damaged(marks: &[FileMark], files: &[&[u8]]) -> Option<usize>
    ensures { result ≡ first_damaged 0 marks.now (map (λ f. f.now) files.now) }
{
    let mut at = 0;
    while at < marks.len() && at < files.len() {
        if !has_mark(&marks[at], files[at]) {
            return Some(at);
        }
        at += 1;
    }
    if at < marks.len() || at < files.len() {
        return Some(at);
    }
    None
}
