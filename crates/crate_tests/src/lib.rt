//! Tests of the crates below, over their public calls alone: what no case of the program can show.
//!
//! It has no function outside of its tests. Each file is a subject, with tables of rows that are lent
//! to a function with a loop.
#![tactic(auto)]

#[cfg(test)]
mod beside;
#[cfg(test)]
mod outputs;
#[cfg(test)]
mod sinks;
#[cfg(test)]
mod sources;
