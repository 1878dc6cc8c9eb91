//! The tests of what tries to break the product: bytes that claim what they don't have, long runs of many clients, and
//! scripts drawn by chance.
#![tactic(auto)]

#[cfg(test)]
mod assertions;
#[cfg(test)]
mod claims;
#[cfg(test)]
mod damaged;
#[cfg(test)]
mod drawn;
#[cfg(test)]
mod long_runs;
#[cfg(test)]
mod newest;
#[cfg(test)]
mod yielding;
