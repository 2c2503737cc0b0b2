//! Locale sources and charmaps that stand in files, with the files that they copy.
#![tactic(auto)]

mod chains;
mod compiled;
mod copies;
mod file_fault;
mod files;
mod folders;
mod hints;
mod lacking;
mod loading;
mod parts;
mod sized;
mod sources;
mod spelled_bytes;

pub use compiled::{charset_of, library_of, sections_in, sized_library};
pub use copies::{CopiedName, ReadBlock, copied_names, read_block};
pub use file_fault::{FaultParts, fault_message, fault_parts, fault_problem, text_problem};
pub use files::{FILE_LIMIT, file_text};
pub use folders::{is_file, path_in};
pub use lacking::lacking_categories;
pub use loading::{Loaded, Wanted, load, load_text, load_with};
pub use sources::Sources;
