//! Sets of wide values, such as the members of a character class (XBD 7.3.1).
#![tactic(auto)]

mod alike;
mod block;
mod merge;
mod page;
mod paged_map;
mod paged_ranges;
mod ranges;

pub use paged_map::PagedMap;
pub use paged_ranges::PagedRanges;
pub use ranges::Ranges;
