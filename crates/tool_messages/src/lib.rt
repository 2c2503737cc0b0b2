//! What a command of the tool answers, how a fault is shown, and what each reason and keyword means.
#![tactic(auto)]

mod answer;
mod choice;
mod fault;
mod hints;
mod painting;
mod text;
mod wanted;
mod word;

pub use answer::{Answer, Problem};
pub use choice::{When, is_coloured, when_of};
pub use fault::{Spot, push_fault};
pub use hints::push_hints;
pub use painting::painted;
pub use text::{base_name, line_of};
pub use wanted::{Wanted, push_wanted, wanted_of};
pub use word::push_word;
