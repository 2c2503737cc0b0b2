//! Texts in the columns of a table.

use lc_base::ByteText;
use std::alloc::{AllocError, Global};
use tool_messages::push_word;

/// How many characters a text has in UTF-8.
pub fn width_of(text: &[u8]) -> usize {
    let mut width = 0usize;
    for byte in text {
        if *byte < 128 || *byte >= 192 {
            width = width.saturating_add(1);
        }
    }
    width
}

/// Adds a text, and spaces up to a width.
pub fn push_padded(out: &mut Vec<u8>, text: &[u8], width: usize) -> Result<(), AllocError> {
    out.extend_from_slice(text)?;
    for _ in width_of(text)..width {
        out.push(b' ')?;
    }
    Ok(())
}

/// Drops spaces from the end of what was written.
pub fn drop_spaces(out: &mut Vec<u8>) {
    let mut end = out.len();
    for byte in out.as_slice().iter().rev() {
        if *byte != b' ' {
            break;
        }
        end = end.saturating_sub(1);
    }
    out.truncate(end);
}

/// A text without the newline at its end, its control bytes shown by their numbers.
pub fn cell_of(alloc: Global, line: &[u8]) -> Result<ByteText, AllocError> {
    let text = match line {
        [text @ .., b'\n'] => text,
        _ => line,
    };
    let mut cell = Vec::new(alloc);
    push_word(&mut cell, text)?;
    Ok(ByteText::from_vec(cell))
}
