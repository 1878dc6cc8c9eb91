//! The tests of journals: the check by values of others, the bytes of a frame and of a header that a person worked out, headers of no
//! journal, and journals that are whole, cut at each byte, damaged in each bit, out of turn, and another's.
#![tactic(auto)]

#[cfg(test)]
mod checks;
#[cfg(test)]
mod damages;
#[cfg(test)]
mod frames;
#[cfg(test)]
mod headers;
