//! The tests of logging: commits that are logged one by one and together, to devices that fail at each append with each number of
//! bytes taken, and at each sync, and to a file. What is left is read again. So are marks of images. Batches of a group commit are
//! acknowledged, until the device fails.
//!
//! *What it stands on.* `logging`, `group_commit` and its watermark, `images`, `journal` for what the bytes say, and `values` for want of
//! memory.
#![tactic(auto)]

#[cfg(test)]
mod batches;
#[cfg(test)]
mod devices;
#[cfg(test)]
mod failures;
#[cfg(test)]
mod files;
#[cfg(test)]
mod marks;
#[cfg(test)]
mod whole;
