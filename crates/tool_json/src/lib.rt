//! JSON text of what the tool's commands answer.
#![tactic(auto)]

mod members;
mod reasons;

pub use json::Writer;
pub use members::{json_line, new_writer, push_flag, push_member, push_number_member, push_text};
pub use reasons::push_row;
