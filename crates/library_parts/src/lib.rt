//! A library from its parts: charmaps, locale sources and message catalogs, given one by one.
#![tactic(auto)]

mod blocks;
mod books;
mod fault;
mod from_parts;
mod laws;
mod lines;
mod part;
mod place;
mod seen;

pub use books::{Books, NamedBook};
pub use fault::{PartFault, Wrong};
pub use from_parts::{Made, made_of};
pub use laws::{keys_are_own, lines_are_own};
pub use part::{LibraryPart, PartKind};
pub use seen::PART_LIMIT;
