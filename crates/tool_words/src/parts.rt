//! Parts of a line, as a message names them.

use lc_base::is_blank;
use std::alloc::AllocError;
use tool_messages::push_word;

/// How many bytes of a part a message names.
const BYTES_NAMED: usize = 60;

/// The word of a line with a number, from 0; empty where there is none.
pub fn word_at(line: &[u8], number: u32) -> &[u8] {
    let mut left = number;
    for word in line.split(|byte| is_blank(*byte) || *byte == b'\r') {
        if !word.is_empty() {
            if left == 0 {
                return word;
            }
            left -= 1;
        }
    }
    b""
}

/// What stands in a line from a column, counted from 1, on.
pub fn from_column(line: &[u8], column: u32) -> &[u8] {
    let at = (column as usize).saturating_sub(1).min(line.len());
    &line[at..]
}

/// What stands in a line before a column, counted from 1, without the blanks at its end.
pub fn before_column(line: &[u8], column: u32) -> &[u8] {
    let at = (column as usize).saturating_sub(1).min(line.len());
    let mut front = &line[..at];
    for _ in 0..at {
        match front {
            [shorter @ .., b' ' | b'\t'] => front = shorter,
            _ => return front,
        }
    }
    front
}

/// The operand with which a part of a line begins: a text with its quotes, or what stands before a `;` or a blank.
pub fn first_operand(part: &[u8]) -> &[u8] {
    match part {
        [b'"', rest @ ..] => {
            let length = closing_at(rest).saturating_add(2).min(part.len());
            &part[..length]
        }
        _ => {
            let length = part
                .iter()
                .position(|byte| *byte == b';' || is_blank(*byte) || *byte == b'\r')
                .unwrap_or(part.len());
            &part[..length.min(part.len())]
        }
    }
}

/// Where the quote stands that ends a text, or the end.
fn closing_at(text: &[u8]) -> usize {
    let mut escaped = false;
    for (at, byte) in text.iter().enumerate() {
        if *byte == b'"' && !escaped {
            return at;
        }
        escaped = !escaped && (*byte == b'\\' || *byte == b'/');
    }
    text.len()
}

/// Adds a part in backquotes, cut where it is long.
pub fn push_named(out: &mut Vec<u8>, part: &[u8]) -> Result<(), AllocError> {
    out.extend_from_slice(b"`")?;
    if part.len() <= BYTES_NAMED {
        push_word(out, part)?;
    } else {
        push_word(out, &part[..character_start(part).min(part.len())])?;
        out.extend_from_slice(b"..")?;
    }
    out.extend_from_slice(b"`")
}

/// Where a character of UTF-8 begins of which a part may be cut.
fn character_start(part: &[u8]) -> usize {
    let mut at = BYTES_NAMED.min(part.len());
    for _ in 0..3 {
        match &part[at.min(part.len())..] {
            [byte, ..] if 128 <= *byte && *byte < 192 => at = at.saturating_sub(1),
            _ => return at,
        }
    }
    at
}
