//! Locale objects: one part a category, put together by a mask.
#![tactic(auto)]

mod names;
mod object;
mod offer;
mod part;

pub use names::{join_names, read_names};
pub use object::{Object, compose};
pub use offer::Offer;
pub use part::Part;
