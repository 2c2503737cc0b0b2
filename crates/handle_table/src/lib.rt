//! The table of locale objects: handles, selections, holds, cells, the shelf of locale names and the
//! global locale.
#![tactic(auto)]

mod accept;
mod checks;
mod handle;
mod kept;
pub mod laws;
mod op;
mod row;
pub mod rows;
mod setting;
mod shelf;
mod table;

pub use handle::numbers;
pub use op::{Op, Refusal, Reply};
pub use row::{MAX_THREADS, Row};
pub use setting::Setting;
pub use table::Table;
