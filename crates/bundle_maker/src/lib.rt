//! Made bundles: two locales and four threads, whose commands a seed draws; and the summary of what
//! they print.
#![tactic(auto)]

mod commands;
mod locales;
mod tally;
mod text;

pub use tally::summary;
pub use text::{MOST_COMMANDS, THREADS, generate};
