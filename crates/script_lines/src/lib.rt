//! The lines of a script's commands, whoever answers the calls.
#![tactic(auto)]

pub mod board;
mod catalog_lines;
pub mod catalogs;
pub mod granted;
pub mod lines;
pub mod thread;
