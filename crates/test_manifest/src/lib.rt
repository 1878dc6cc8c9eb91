//! Tests of manifests: one by its bytes, those that say nothing more, and those that are damaged.
#![tactic(auto)]

#[cfg(test)]
mod damages;
#[cfg(test)]
mod grammar;
#[cfg(test)]
mod worked;
#[cfg(test)]
mod written;
