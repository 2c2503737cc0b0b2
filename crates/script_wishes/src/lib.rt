//! What a script's threads ask for: their turns, what their variables stand for, and their Holds.
#![tactic(auto)]

pub mod holds;
pub mod turns;
pub mod variables;
pub mod wishes;
