//! A thread of a script at a table and at catalogs that threads share, and what lets several work beside
//! each other.
#![tactic(auto)]

mod each;
mod pause;
mod seated;

pub use each::for_each_beside;
pub use pause::{NoPause, Pause};
pub use seated::{Beside, OneTable, Seated};
