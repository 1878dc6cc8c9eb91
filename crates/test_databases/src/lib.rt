//! Tests of databases: one by its bytes, its files damaged, cut and taken away, and the names in its folder.
#![tactic(auto)]

#[cfg(test)]
mod damages;
#[cfg(test)]
mod naming;
#[cfg(test)]
mod recoveries;
#[cfg(test)]
mod worked;
#[cfg(test)]
mod writers;
