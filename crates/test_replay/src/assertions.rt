//! What a test looks at, each in a function of its own, so that a test stays short: its proof costs more than in proportion
//! to its length.
use std::process::Abort;

/// That it holds.
pub(crate) fn assert_holds(rt: &impl Abort, holds: bool, at: &str) {
    assert!(rt; holds, "{at}");
}

/// That it holds of this number.
pub(crate) fn assert_at(rt: &impl Abort, holds: bool, number: u64) {
    assert!(rt; holds, "at {number}");
}
