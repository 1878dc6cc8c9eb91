//! The tests of a journal's steps: the order in which they are due, and drawn events over a disk in memory, with crashes whose files are
//! read again.
//!
//! *What it stands on.* `journal_steps`, and `journal` for what the bytes say.
#![tactic(auto)]

#[cfg(test)]
mod bytes;
#[cfg(test)]
mod draws;
#[cfg(test)]
mod lives;
#[cfg(test)]
mod medium;
#[cfg(test)]
mod orders;
