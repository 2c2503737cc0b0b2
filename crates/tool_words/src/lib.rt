//! What is wrong at the place of a fault, in words, and then the rule.
#![tactic(auto)]

mod copies;
mod counts;
mod eras;
mod fault_sentences;
mod gnu;
mod operands;
mod parts;
mod phrases;

pub use fault_sentences::{Shown, push_told};
pub use gnu::push_gnu_hint;
pub use parts::word_at;
