//! Times as words of a command line give them: that of the clock, or as RFC 9557 writes them.
#![tactic(auto)]

mod calendar;
mod clock;
mod fields;
mod when;

pub use when::tm_of;
