//! Locale sources as keyword lists (XBD 7.3).
#![tactic(auto)]

mod character;
mod keyword_line;
mod locale;
mod number;
mod opened;
mod text;
mod value;
mod words;

pub use locale::read_locale;
