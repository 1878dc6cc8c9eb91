//! The tests of runs over a store with a journal, and of what is recovered of it: journals and columns that fail at any byte, files that
//! are cut, damaged, taken from another store or not there, writers that refuse, and want of memory.
//!
//! *What it stands on.* `journaled`; `logging` and `devices` for what fails, `journal` and `images` for faults and for files that are
//! made by hand, and `pdtcli` for texts and refusals.
#![tactic(auto)]

#[cfg(test)]
mod appends;
#[cfg(test)]
mod assertions;
#[cfg(test)]
mod bad_files;
#[cfg(test)]
mod checkpoints;
#[cfg(test)]
mod cuts;
#[cfg(test)]
mod damages;
#[cfg(test)]
mod marks;
#[cfg(test)]
mod regrown;
#[cfg(test)]
mod stores;
#[cfg(test)]
mod texts;
#[cfg(test)]
mod writers;
