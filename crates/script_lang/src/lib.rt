//! The bundle as a program reads it.
#![tactic(auto)]

mod bundle;
mod directive;
mod lines;
mod reading;
mod steps;

pub use bundle::{
    Bundle, CATALOG_LIMIT, CHARMAP_LIMIT, COMMAND_LIMIT, LATER_LIMIT, LOCALE_LIMIT, ROUND_LIMIT,
};
