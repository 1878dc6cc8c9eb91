//! The tests of folds, images and transactions, from answers that a person worked out and beside the slow program of
//! `oracle`.
//!
//! That a refused growth is answered shows under `rt try --test --fail-alloc N`, for N from 1 on: each test ends well,
//! or with the error of the growth.
#![tactic(auto)]

#[cfg(test)]
mod assertions;
#[cfg(test)]
mod folds;
#[cfg(test)]
mod images;
#[cfg(test)]
mod pairs;
#[cfg(test)]
mod shown;
#[cfg(test)]
mod transactions;
