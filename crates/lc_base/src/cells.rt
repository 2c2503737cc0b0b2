//! How many cells a thread has.

/// How many cells a thread has for handles that it hands to others: 8, numbered from 0.
pub const CELLS: u32 = 8;
