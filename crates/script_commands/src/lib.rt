//! The commands of a script, from their words.
#![tactic(auto)]

mod arguments;
mod command;
mod commands;
mod known;
mod lists;
mod scope;

pub use arguments::is_over;
pub use command::{Command, OpenCatalog, Placed, Read, Target};
pub use commands::command_of_line;
pub use known::{Known, THREAD_LIMIT, lacks_charset, lacks_locale};
pub use lists::{has_block, has_key, number_of};
pub use scope::Scope;
