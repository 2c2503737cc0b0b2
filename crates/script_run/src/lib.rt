//! The script of a bundle, run with the threads of each round in parallel.
#![tactic(auto)]

mod rounds;
mod worker;

pub use rounds::run;
