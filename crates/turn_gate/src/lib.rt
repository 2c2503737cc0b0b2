//! Turns at a machine that threads share, one history for all of them.
#![tactic(auto)]

mod close;
mod entry;
mod machine;
mod open;
mod rule;
mod seat;
mod steps;
mod turns;

pub use entry::Entry;
pub use machine::Machine;
pub use seat::Seat;
pub use turns::Turns;
