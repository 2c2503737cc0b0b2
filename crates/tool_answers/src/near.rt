//! Names of reasons that are spelled otherwise.

use reason_rules::{ROW_COUNT, row_at};
use std::alloc::{AllocError, Global};
use strsim::generic_levenshtein;

/// How many bytes a part of a name has at least that is looked for in names.
const LEAST_PART: usize = 3;

/// How many bytes a word has at most for which near names are looked for.
const MOST_BYTES: usize = 64;

/// A name as the table of reasons writes it, whole or by its first word; the name itself where no row has it.
pub fn as_written(name: &[u8]) -> &[u8] {
    for number in 0..ROW_COUNT {
        if let Some(row) = row_at(number) {
            if let Some(written) = written_in(row.name.as_bytes(), name) {
                return written;
            }
        }
    }
    name
}

/// The name of a row, or its first word, if the other name is the same but for the case of letters.
fn written_in<'a>(row: &'a [u8], name: &[u8]) -> Option<&'a [u8]> {
    let first = first_word(row);
    if row.eq_ignore_ascii_case(name) {
        Some(row)
    } else if first.eq_ignore_ascii_case(name) {
        Some(first)
    } else {
        None
    }
}

/// What stands in front of the first space.
pub fn first_word(text: &[u8]) -> &[u8] {
    text.split(|byte| *byte == b' ').next().unwrap_or(text)
}

/// The names of the table that are near to a word, each once, with a comma between them.
pub fn near_names(alloc: Global, word: &[u8]) -> Result<Vec<u8>, AllocError> {
    let mut names = Vec::new(alloc);
    if word.len() > MOST_BYTES {
        return Ok(names);
    }
    let word = lower_case(alloc, word)?;
    let mut last: &[u8] = b"";
    for number in 0..ROW_COUNT {
        if let Some(row) = row_at(number) {
            last = push_near(&mut names, last, row.name.as_bytes(), word.as_slice())?;
        }
    }
    Ok(names)
}

/// Adds the name of a row that is near to a word in lower case: its first word, or the whole name where the word
/// stands in it. The result is the name that was added last; rows with the same first word stand together.
fn push_near<'a>(
    names: &mut Vec<u8>,
    last: &'a [u8],
    row: &'a [u8],
    word: &[u8],
) -> Result<&'a [u8], AllocError> {
    let alloc = *names.allocator();
    let first = first_word(row);
    let name = if is_near(alloc, word, first)? {
        first
    } else if has_part(lower_case(alloc, row)?.as_slice(), word) {
        row
    } else {
        return Ok(last);
    };
    if name != last {
        push_name(names, name)?;
    }
    Ok(name)
}

/// Whether a word in lower case is a part of a name, or differs from it by few letters.
fn is_near(alloc: Global, word: &[u8], name: &[u8]) -> Result<bool, AllocError> {
    let name = lower_case(alloc, name)?;
    let name = name.as_slice();
    let most = (word.len().max(name.len()) / 3).max(2);
    Ok(has_part(name, word) || generic_levenshtein(alloc, word, name)? <= most)
}

/// Whether a part that is not too short stands in a name.
fn has_part(name: &[u8], part: &[u8]) -> bool {
    if part.len() < LEAST_PART {
        return false;
    }
    for piece in name.windows(part.len()) {
        if piece == part {
            return true;
        }
    }
    false
}

/// A text with its ASCII letters in lower case.
fn lower_case(alloc: Global, text: &[u8]) -> Result<Vec<u8>, AllocError> {
    let mut lower = Vec::new(alloc);
    for byte in text {
        lower.push(byte.to_ascii_lowercase())?;
    }
    Ok(lower)
}

/// Adds a name, behind a comma where it is not the first one.
fn push_name(names: &mut Vec<u8>, name: &[u8]) -> Result<(), AllocError> {
    if !names.is_empty() {
        names.extend_from_slice(b", ")?;
    }
    names.extend_from_slice(name)
}
