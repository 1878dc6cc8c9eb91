//! The lines of a manifest.
ghost use Rattle.std.specs.Prelude.{◌≡◌, map};
ghost use Rattle.manifest.specs.Manifest.{line_now};
ghost use Rattle.manifest.specs.Reading.{head_at, line_at, mark_at, seen};

use crate::entries::{FileMark, ManifestHead, TableLine};
use crate::fields::{after_word, flag_at, long_at, name_at, number_at, word_at};

/// The greatest number of a table.
const MAX_TABLE: u64 = u32::MAX as u64;

/// How many columns a table has at most.
const MAX_WIDTH: u64 = 32;

/// The head, of three lines.
#[tactic(auto, unfolding(crate::specs::Reading::head_at))]
pub(crate) fn head_at(bytes: &[u8]) -> Option<(ManifestHead, &[u8])>
    ensures { seen (λ h. h) result ≡ head_at bytes.now }
{
    let rest = after_word(bytes, b"narthexmace 1\ndatabase ")?;
    let (store, rest) = long_at(rest)?;
    let rest = after_word(rest, b" ")?;
    let (salt, rest) = long_at(rest)?;
    let rest = after_word(rest, b"\n")?;
    let rest = after_word(rest, b"at ")?;
    let (commit, rest) = number_at(rest, u64::MAX, b' ')?;
    let (first_file, rest) = number_at(rest, u64::MAX, b'\n')?;
    let rest = after_word(rest, b"next ")?;
    let (next_table, rest) = number_at(rest, MAX_TABLE, b' ')?;
    let (next_folder, rest) = number_at(rest, u64::MAX, b'\n')?;
    let head = ManifestHead {
        store,
        salt,
        commit,
        first_file,
        next_table: next_table as u32,
        next_folder,
    };
    Some((head, rest))
}

/// The line of a table.
#[tactic(auto, unfolding(crate::specs::Reading::line_at))]
pub(crate) fn line_at(bytes: &[u8]) -> Option<(TableLine<'_>, &[u8])>
    ensures { seen line_now result ≡ line_at bytes.now }
{
    let rest = after_word(bytes, b"table ")?;
    let (number, rest) = number_at(rest, MAX_TABLE, b' ')?;
    let (commit, rest) = number_at(rest, u64::MAX, b' ')?;
    let (folder, rest) = number_at(rest, u64::MAX, b' ')?;
    let (recent, rest) = number_at(rest, u64::MAX, b' ')?;
    let (limit, rest) = number_at(rest, u64::MAX, b' ')?;
    let (by_row, rest) = flag_at(rest)?;
    let (width, rest) = number_at(rest, MAX_WIDTH, b' ')?;
    let (name, rest) = name_at(rest)?;
    let line = TableLine {
        number: number as u32,
        commit,
        folder,
        recent,
        limit,
        by_row,
        width,
        name,
    };
    Some((line, rest))
}

/// The mark of a file.
#[tactic(auto, unfolding(crate::specs::Reading::mark_at))]
pub(crate) fn mark_at(bytes: &[u8]) -> Option<(FileMark, &[u8])>
    ensures { seen (λ mark. mark) result ≡ mark_at bytes.now }
{
    let (size, rest) = number_at(bytes, u64::MAX, b' ')?;
    let (check, rest) = word_at(rest)?;
    let rest = after_word(rest, b"\n")?;
    Some((FileMark { size, check }, rest))
}
