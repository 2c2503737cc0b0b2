//! The reader of charmaps (XBD 6.4).
#![tactic(auto)]

mod body;
mod charmap;
mod distance;
mod encoding;
mod header;
mod subject;

pub use charmap::read_charmap;
