//! The keywords of the categories, their lines in a source, and their values (XBD 7.3).
#![tactic(auto)]

mod cells;
mod lconv;
mod look_up;
mod row;
mod rules;
mod source;
mod table;
mod values;

pub use cells::{ValueRef, ValueWalk, Values};
pub use lconv::{encoded, group_chars};
pub use look_up::{
    posix_number, posix_pairs, posix_ranges, posix_text, posix_texts, rule_of, takes_of,
};
pub use row::{Element, Operands, Rule};
pub use rules::{check, check_operands, text_fault, unless};
pub use source::{Body, Entry, LocaleSource, Section, Value};
pub use values::{number_value, numbers_value, pairs, ranges, text_count, text_value, texts_value};
