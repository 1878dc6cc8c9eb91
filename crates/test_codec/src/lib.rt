//! The tests of payloads: the bytes of a commit that a person worked out, payloads that are cut at each byte and changed in each
//! byte, cells of each type at their limits, two tables, and lengths that are merely claimed.
#![tactic(auto)]

#[cfg(test)]
mod damages;
#[cfg(test)]
mod faults;
#[cfg(test)]
mod payloads;
#[cfg(test)]
mod trees;
