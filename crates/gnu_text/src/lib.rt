//! The text of a standard locale source (XBD 7.3), made of one that GNU systems have.
#![tactic(auto)]

mod category;
mod exclusions;
mod format;
mod standard_text;
mod times;
mod writer;

pub use category::Named;
pub use gnu_read::{Note, NoteCode, Origin, SourceFault};
pub use standard_text::{MadeText, made_text};
