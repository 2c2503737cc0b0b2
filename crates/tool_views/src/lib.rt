//! Locales beside each other: what they define differently, and each at a glance.
#![tactic(auto)]

mod characters;
mod columns;
mod differences;
mod glance;
mod json;
mod language;
mod padding;
mod page;
mod table;
mod values;

pub use columns::columns_text;
pub use differences::{Named, differences_of};
pub use glance::{Column, glance_of};
pub use json::push_differences_json;
pub use page::page_text;
