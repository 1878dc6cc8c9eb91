//! What a test looks at, each in a function of its own, so that a test stays short: its proof costs more than in proportion
//! to its length.
use delta::{ChangeRef, SharedEntry};
use model::{Change, Entry};
use std::process::Abort;

/// That the text is the one wanted.
pub(crate) fn assert_text(rt: &impl Abort, found: &str, want: &str, at: &str) {
    assert_eq!(rt; found, want, "{at}");
}

/// That the text is the one wanted, at a place.
pub(crate) fn assert_text_at(rt: &impl Abort, found: &str, want: &str, place: u64) {
    assert_eq!(rt; found, want, "at {place}");
}

/// That it holds.
pub(crate) fn assert_holds(rt: &impl Abort, holds: bool, at: &str) {
    assert!(rt; holds, "{at}");
}

/// Whether two entries are the same.
pub(crate) fn is_same(one: &SharedEntry, other: &Entry) -> bool {
    one.sid() == other.sid
        && match (one.change(), &other.change) {
            (ChangeRef::Ins(row), Change::Ins(found)) => row.cells() == found.cells(),
            (ChangeRef::Del(key), Change::Del(found)) => key == found,
            (ChangeRef::Mod(col, value), Change::Mod(at, found)) => col == *at
                && value == found.as_ref(),
            _ => false,
        }
}
