//! Handles of numbered rows: each thread has rows, and a row has generations, of which only the newest can be in use.
#![tactic(auto)]

mod grid;
mod numbers;
mod row;
mod rows;

pub use grid::Grid;
pub use numbers::Numbers;
pub use row::HandleRow;
