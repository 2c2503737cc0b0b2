//! Bundles in files, whose scripts are run.
#![tactic(auto)]

mod commands;
mod explained;
pub mod laws;
mod played;

pub use played::{Played, Playing, play};
