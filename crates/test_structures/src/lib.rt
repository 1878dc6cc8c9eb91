//! The tests of schemas, blocks, tables, trees, devices and the slow program of `oracle`, from answers that a person worked
//! out. None of them needs a transaction: those that do stand in `test_snapshots`.
//!
//! That a refused growth is answered shows under `rt try --test --fail-alloc N`, for N from 1 on: each test ends well,
//! or with the error of the growth.
#![tactic(auto)]

#[cfg(test)]
mod assertions;
#[cfg(test)]
mod histories;
#[cfg(test)]
mod payloads;
#[cfg(test)]
mod shapes;
#[cfg(test)]
mod stores;
#[cfg(test)]
mod tables;
#[cfg(test)]
mod trees;
