//! Printed lines, read back.
#![tactic(auto)]

mod items;
mod line;
mod output;
mod pieces;
mod reply;
mod texts;
mod unread;
mod words;

pub use output::read_output;
