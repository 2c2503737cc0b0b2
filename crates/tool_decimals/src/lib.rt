//! Whole numbers and exact decimals as text, by one format, and read back.
#![tactic(auto)]

mod conversion;
mod decimal;
mod fault;
mod format;
mod layout;
mod number_lines;
mod read;
mod rounding;
mod wrong;

pub use number_lines::{decimals_line, read_line};
