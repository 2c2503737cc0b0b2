//! The script of a bundle, run on one thread.
#![tactic(auto)]

mod alone;
mod closing;
pub mod laws;
mod script;

pub use script::serial;
