//! Compiled locales of a bundle: names, numbers and what they offer.
#![tactic(auto)]

mod blocks;
mod built;
mod charsets;
mod compiled;
mod joined;
mod kept;
mod library;
mod locales;
mod names;
mod reading;
mod share;
mod shared;
mod written;

pub use charsets::Charsets;
pub use compiled::Compiled;
pub use library::{LIBRARY_LIMIT, Library, NoData};
pub use locales::Locales;
pub use reading::read_blocks;
pub use share::Share;
