//! The tests of recovery: drawn histories that are logged and made again, journals that are cut at each byte, damaged in each bit,
//! of another table or with a commit left out, journals that go on behind a recovery, and payloads of several tables.
//!
//! *What it stands on.* `replay`; `manager`, `codec` and `journal`, by which a history is logged; `oracle` for the tables that are due.
#![tactic(auto)]

#[cfg(test)]
mod assertions;
#[cfg(test)]
mod damages;
#[cfg(test)]
mod going_on;
#[cfg(test)]
mod histories;
#[cfg(test)]
mod journals;
#[cfg(test)]
mod recoveries;
#[cfg(test)]
mod refusals;
#[cfg(test)]
mod several;
#[cfg(test)]
mod slow;
