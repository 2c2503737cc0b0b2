//! The locale category `LC_CTYPE`: character classes and case maps (XBD 7.3.1).
#![tactic(auto)]

mod case;
mod characters;
mod class_bits;
mod classes;
mod ctype;
mod exclusions;
mod first_lines;
mod lists;
mod table;

pub use ctype::Ctype;
pub use table::class_names;
