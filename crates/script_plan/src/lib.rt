//! The plan of a bundle, and what its script may print.
#![tactic(auto)]

mod plan;
mod private;

pub use plan::{Counts, Plan, check, prepare};
pub use private::{keep_to_themselves, print_alike};
