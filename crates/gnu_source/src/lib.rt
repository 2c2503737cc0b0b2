//! Standard locale sources (XBD 7.3) of those that GNU systems have.
#![tactic(auto)]

mod accepted;
mod faults;
mod making;

pub use faults::ImportFault;
pub use gnu_read::copied_names;
pub use gnu_text::{Named, Note, NoteCode, Origin};
pub use making::{Imported, import};
