//! The columns of locales beside each other.

ghost use Rattle.std.specs.Prelude.{◌≤◌, length};

use crate::glance::{Column, GLANCES};
use crate::padding::{drop_spaces, push_padded, width_of};
use lc_base::ByteText;
use std::alloc::{AllocError, Global};

/// What stands between columns.
const GAP: usize = 2;

/// The columns of locales beside each other, and below each other where they are wider than a line. One
/// that is wider stands alone.
pub fn columns_text(
    alloc: Global,
    columns: &[Column],
    line_width: usize,
) -> Result<ByteText, AllocError> {
    let labels = label_width();
    let mut out = Vec::new(alloc);
    let mut rest = columns;
    for _ in 0..columns.len() {
        let count = fitting(rest, line_width.saturating_sub(labels));
        let (block, others) = rest.split_at(count);
        if block.is_empty() {
            break;
        }
        if !out.is_empty() {
            out.push(b'\n')?;
        }
        push_block(&mut out, labels, block)?;
        rest = others;
    }
    Ok(ByteText::from_vec(out))
}

/// How wide the labels are.
fn label_width() -> usize {
    let mut width = 0;
    for glance in &GLANCES {
        width = width.max(glance.label.len());
    }
    width
}

/// How wide a column is.
fn column_width(column: &Column) -> usize {
    let mut width = width_of(column.name.as_bytes());
    for cell in column.cells.as_slice() {
        width = width.max(width_of(cell.as_bytes()));
    }
    width
}

/// How many columns are at most so wide, at least one if there is one.
fn fitting(columns: &[Column], room: usize) -> usize
    ensures { result ≤ length columns.now }
{
    let mut used = 0usize;
    for (i, column) in columns.iter().enumerate() {
        used = used
            .saturating_add(GAP)
            .saturating_add(column_width(column));
        if used > room && i > 0 {
            return i;
        }
    }
    columns.len()
}

/// Adds columns beside each other.
fn push_block(out: &mut Vec<u8>, labels: usize, columns: &[Column]) -> Result<(), AllocError> {
    push_padded(out, b"", labels)?;
    for column in columns {
        push_padded(out, b"", GAP)?;
        push_padded(out, column.name.as_bytes(), column_width(column))?;
    }
    end_line(out)?;
    for (i, glance) in GLANCES.iter().enumerate() {
        push_padded(out, glance.label.as_bytes(), labels)?;
        for column in columns {
            push_padded(out, b"", GAP)?;
            push_padded(out, cell_at(column, i), column_width(column))?;
        }
        end_line(out)?;
    }
    Ok(())
}

/// Ends a line, without spaces at its end.
fn end_line(out: &mut Vec<u8>) -> Result<(), AllocError> {
    drop_spaces(out);
    out.push(b'\n')?;
    Ok(())
}

/// The cell of a row.
pub fn cell_at(column: &Column, row: usize) -> &[u8] {
    match column.cells.get(row) {
        Some(cell) => cell.as_bytes(),
        None => b"",
    }
}
