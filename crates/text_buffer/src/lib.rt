//! Texts in buffers of the caller.
#![tactic(auto)]

mod put;
mod unwritten;

pub use put::{put_at, put_byte};
pub use unwritten::Unwritten;
