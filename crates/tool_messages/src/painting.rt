//! Places and marks in colours.

use lc_base::{ByteText, ended_line};
use std::alloc::{AllocError, Global};

/// What a place begins with.
const PLACE: &[u8] = b"\x1b[1m";

/// What a mark begins with.
const MARK: &[u8] = b"\x1b[1;32m";

/// What ends a colour.
const PLAIN: &[u8] = b"\x1b[0m";

/// Messages in which each place `FILE:LINE:COLUMN:` that a line begins with is bold, and each mark below a line is
/// green. A line that is shown between the two stays as it is.
pub fn painted(alloc: Global, messages: &[u8]) -> Result<ByteText, AllocError> {
    let mut out = Vec::new(alloc);
    let mut rest = messages;
    for _ in 0..messages.len() {
        match ended_line(rest) {
            Some((line, following)) => {
                rest = push_message(&mut out, line, following)?;
            }
            None => break,
        }
    }
    out.extend_from_slice(rest)?;
    Ok(ByteText::from_vec(out))
}

/// Adds a line, and where a place begins it, what is shown and marked below it. The result is what follows.
fn push_message<'a>(
    out: &mut Vec<u8>,
    line: &[u8],
    following: &'a [u8],
) -> Result<&'a [u8], AllocError> {
    let length = place_length(line).min(line.len());
    if length == 0 {
        push_ended(out, line)?;
        return Ok(following);
    }
    out.extend_from_slice(PLACE)?;
    out.extend_from_slice(&line[..length])?;
    out.extend_from_slice(PLAIN)?;
    push_ended(out, &line[length..])?;
    push_marked(out, following)
}

/// Adds a line with its newline.
fn push_ended(out: &mut Vec<u8>, line: &[u8]) -> Result<(), AllocError> {
    out.extend_from_slice(line)?;
    out.extend_from_slice(b"\n")
}

/// Adds the line that is shown and its mark, if the second line is a mark. The result is what follows.
fn push_marked<'a>(out: &mut Vec<u8>, text: &'a [u8]) -> Result<&'a [u8], AllocError> {
    let Some((shown, behind)) = ended_line(text) else {
        return Ok(text);
    };
    let Some((mark, following)) = ended_line(behind) else {
        return Ok(text);
    };
    match mark {
        [blank @ .., b'^'] if blank.iter().all(|byte| is_blank(*byte)) => {
            push_ended(out, shown)?;
            out.extend_from_slice(blank)?;
            out.extend_from_slice(MARK)?;
            out.extend_from_slice(b"^")?;
            out.extend_from_slice(PLAIN)?;
            out.extend_from_slice(b"\n")?;
            Ok(following)
        }
        _ => Ok(text),
    }
}

fn is_blank(byte: u8) -> bool {
    byte == b' ' || byte == b'\t'
}

/// How many bytes of a line are a place, with the colon behind it; 0 where it begins with none.
fn place_length(line: &[u8]) -> usize {
    let mut before = 0u8;
    for (at, byte) in line.iter().enumerate() {
        if *byte == b' ' && before == b':' {
            return if is_place(&line[..at.saturating_sub(1).min(line.len())]) {
                at
            } else {
                0
            };
        }
        before = *byte;
    }
    0
}

/// Whether a text ends with a line and a column behind a file.
fn is_place(text: &[u8]) -> bool {
    match before_number(text) {
        Some(front) => before_number(front).is_some(),
        None => false,
    }
}

/// What stands before the colon and the number that a text ends with, if it is not empty.
fn before_number(text: &[u8]) -> Option<&[u8]> {
    let mut front = text;
    for _ in 0..text.len() {
        match front {
            [shorter @ .., digit] if digit.is_ascii_digit() => front = shorter,
            [file @ .., b':'] if front.len() < text.len() && !file.is_empty() => {
                return Some(file);
            }
            _ => return None,
        }
    }
    None
}
