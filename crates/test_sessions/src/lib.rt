//! The tests of sessions that share one manager, from answers that a person worked out, and in `replays` from those of the
//! slow program. All but those of `threads` and `replays` run on one thread.
//!
//! That a refused growth is answered shows under `rt try --test --fail-alloc N`, for N from 1 on: each test ends well,
//! or with the error of the growth.
#![tactic(auto)]

#[cfg(test)]
mod acknowledged;
#[cfg(test)]
mod acts;
#[cfg(test)]
mod assertions;
#[cfg(test)]
mod managers;
#[cfg(test)]
mod replays;
#[cfg(test)]
mod scenes;
#[cfg(test)]
mod shown;
#[cfg(test)]
mod threads;
