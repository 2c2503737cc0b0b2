//! The lines and tokens of the locale sources that GNU systems have.
//!
//! They go beyond the standard's form (XBD 7.3): a comment may stand behind operands, a line that goes on
//! may have comments in it, and ranges have two dots, perhaps with a step.
#![tactic(auto)]

mod classes;
mod copied;
mod draft;
mod faults;
mod file;
mod keyword_line;
mod line;
mod mark;
mod notes;
mod operands;
mod scanner;
mod token;

pub use copied::{copied_from, copied_names};
pub use draft::{CLASSES, Content, Draft, DraftLine, DraftText};
pub use faults::{SourceFault, in_file};
pub use file::{GnuFile, GnuSection, read_file};
pub use keyword_line::add_line;
pub use line::GnuLine;
pub use notes::{Note, NoteCode, Notes, Origin};
pub use operands::Reading;
pub use scanner::{Scanned, tokens};
pub use token::{Placed, Token};
