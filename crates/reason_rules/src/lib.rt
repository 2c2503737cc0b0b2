//! The rules that are broken by the reasons of faults and refusals: a table with the name, the number and the sentence of each.
#![tactic(auto)]

mod explain;
mod names;
mod table;
mod words;

pub use explain::{explained, rule_of};
pub use names::{name_of, row_of, rule_of_reason};
pub use table::{ROW_COUNT, ReasonRow, row_at};
pub use words::push_reason;
