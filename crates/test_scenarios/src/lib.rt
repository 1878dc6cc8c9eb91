//! The tests of what is given, of managers and of whole runs: the rules of the program, told by what a person worked out.
//!
//! That a refused growth is answered shows under `rt try --test --fail-alloc N`, for N from 1 on: each test ends well,
//! or with the error of the growth.
#![tactic(auto)]

#[cfg(test)]
mod managers;
#[cfg(test)]
mod programs;
#[cfg(test)]
mod readings;
