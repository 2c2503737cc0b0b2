//! The lines that a program prints.
#![tactic(auto)]

mod before;
mod output;
mod quoting;
mod refusal;
mod short;
mod texts;

pub use output::{OutLine, Places, Said, Why, print, push_line, push_reply, weight};
pub use quoting::push_quoted;
pub use refusal::push_refusal;
pub use texts::{TextWalk, Texts};
