//! What a test looks at, each in a function of its own, so that a test stays short: its proof costs more than in proportion
//! to its length.
use std::process::Abort;

/// That it holds.
pub(crate) fn assert_holds(rt: &impl Abort, holds: bool, at: &str) {
    assert!(rt; holds, "{at}");
}

/// That it holds of these numbers.
pub(crate) fn assert_at(rt: &impl Abort, holds: bool, case: u64, at: usize) {
    assert!(rt; holds, "case {case} at {at}");
}
