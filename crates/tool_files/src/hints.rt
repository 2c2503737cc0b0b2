//! Hints that go by the reason of a fault, and by its line.

use lc_base::{Limit, Reason};
use std::alloc::AllocError;

/// Adds how far copies are followed, where they are too long.
pub fn push_hint_of_limit(out: &mut Vec<u8>, reason: Reason) -> Result<(), AllocError> {
    match reason {
        Reason::OverLimit(Limit::Locales) => {
            out.extend_from_slice(b"hint: copies are followed up to 64 files\n")
        }
        _ => Ok(()),
    }
}

/// Adds a hint where a line is no UTF-8 text.
pub fn push_hint_of_bytes(out: &mut Vec<u8>, line: &[u8]) -> Result<(), AllocError> {
    if str::from_utf8(line).is_ok() {
        return Ok(());
    }
    out.extend_from_slice(
        b"hint: the line is no UTF-8 text; save the file as UTF-8, or name a charmap of its charset\n",
    )
}
