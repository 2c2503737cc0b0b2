//! A system's own locale sources, found and imported for the tool's commands.
#![tactic(auto)]

mod gathered;
mod importing;
mod json;
mod locating;
mod notes;
mod system;

pub use importing::{Importing, import_file};
pub use json::push_import_json;
pub use locating::source_path;
pub use system::standard_text;
