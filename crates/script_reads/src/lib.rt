//! What reads of a locale object reply, and its name.
#![tactic(auto)]

pub mod names;
pub mod reads;
