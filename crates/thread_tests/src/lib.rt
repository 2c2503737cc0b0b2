//! Tests of threads at the turn, and at a table of locale objects that they share, over public calls
//! alone.
//!
//! It has no function outside of its tests.
#![tactic(auto)]

#[cfg(test)]
mod refusals;
#[cfg(test)]
mod threads;
#[cfg(test)]
mod turns;
#[cfg(test)]
mod waking;
#[cfg(test)]
mod watch;
