//! Locale sources that were read.
#![tactic(auto)]

mod copies;
mod ends;
mod rows;
mod sections;
mod source;
mod table;

pub use copies::locale_numbers;
pub use rows::{LocaleRow, read_rows};
pub use sections::{section_at, section_of};
pub use source::Source;
