//! The fields of a time that a text has by a format of the locale (XSH strptime).
#![tactic(auto)]

mod fault;
mod follow;
mod item;
mod last_read;
mod names;
mod number;
mod parsed;
mod plain_formats;
mod progress;
mod scan;

pub use fault::ScanFault;
pub use names::longest_names_hold;
pub use plain_formats::{is_plain, plain_formats_hold};
pub use scan::{strptime, strptime_counted};
pub use time_cat::Parsed;
