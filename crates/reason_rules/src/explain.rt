//! Rows by their names, and what they say.

use crate::table::{ROW_COUNT, ReasonRow, row_at};
use lc_base::ByteText;
use std::alloc::{AllocError, Global};

/// The rule of the row with a name; empty where no row has it.
pub fn rule_of(name: &str) -> &'static str {
    for number in 0..ROW_COUNT {
        if let Some(row) = row_at(number) {
            if row.name == name {
                return row.rule;
            }
        }
    }
    ""
}

/// What the row with a name says, or else what the rows say that have it as their first word; `None`
/// where there is no such row. Without a name, the names of all rows.
pub fn explained(alloc: Global, name: &[u8]) -> Result<Option<ByteText>, AllocError> {
    if name.is_empty() {
        return Ok(Some(all_names(alloc)?));
    }
    let mut text = Vec::new(alloc);
    for number in 0..ROW_COUNT {
        push_asked(&mut text, row_at(number), name)?;
    }
    if text.is_empty() {
        Ok(None)
    } else {
        Ok(Some(ByteText::from_vec(text)))
    }
}

/// The names of all rows, a line each.
fn all_names(alloc: Global) -> Result<ByteText, AllocError> {
    let mut names = Vec::new(alloc);
    for number in 0..ROW_COUNT {
        if let Some(row) = row_at(number) {
            names.extend_from_slice(row.name.as_bytes())?;
            names.extend_from_slice(b"\n")?;
        }
    }
    Ok(ByteText::from_vec(names))
}

/// Adds what a row says, if there is one and it is asked for.
fn push_asked(text: &mut Vec<u8>, row: Option<ReasonRow>, name: &[u8]) -> Result<(), AllocError> {
    match row {
        Some(row) if is_asked(&row, name) => push_row(text, &row),
        _ => Ok(()),
    }
}

/// Whether a row has a name, or has it as its first word.
fn is_asked(row: &ReasonRow, name: &[u8]) -> bool {
    match row.name.as_bytes().strip_prefix(name) {
        Some([]) => true,
        Some([behind, ..]) => *behind == b' ',
        None => false,
    }
}

/// Adds what a row says.
fn push_row(text: &mut Vec<u8>, row: &ReasonRow) -> Result<(), AllocError> {
    text.extend_from_slice(row.name.as_bytes())?;
    text.extend_from_slice(b": ")?;
    text.extend_from_slice(row.rule.as_bytes())?;
    text.extend_from_slice(b"\n  refused:\n")?;
    push_example(text, row.breaks.as_bytes())?;
    text.extend_from_slice(b"  accepted:\n")?;
    push_example(text, row.keeps.as_bytes())
}

/// Adds the lines of an example, behind blanks.
fn push_example(text: &mut Vec<u8>, example: &[u8]) -> Result<(), AllocError> {
    text.extend_from_slice(b"    ")?;
    for byte in example {
        text.push(*byte)?;
        if *byte == b'\n' {
            text.extend_from_slice(b"    ")?;
        }
    }
    text.push(b'\n')?;
    Ok(())
}
