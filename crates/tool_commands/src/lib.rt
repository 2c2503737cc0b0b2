//! The commands of the tool, and what the words of a command line give them.
#![tactic(auto)]

mod commands;
mod given;
mod rows;
mod standard_input;

pub use commands::tool_command;
pub use given::{colours_given, command_given, strs, word};
pub use rows::{LocaleCommand, ToolCommand};
pub use standard_input::{path_given, path_of};
