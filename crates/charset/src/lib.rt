//! Charsets: the names, values and encodings of characters (XBD 6).
#![tactic(auto)]

mod ascii;
mod byte_strings;
mod charset;
mod code;
mod counting;
mod fronts;
mod hex;
mod kind;
mod listed;
mod names;
mod numbering;
mod portable;
mod spans;
mod tail;
mod unicode;

pub use charset::Charset;
pub use code::Code;
pub use counting::add_names;
pub use names::{CharacterNames, NAME_LIMIT};
pub use numbering::split_number;
pub use portable::portable_code;
