//! A table of keywords with two columns.

use crate::padding::{push_padded, width_of};
use lc_base::ByteText;
use std::alloc::{AllocError, Global};

/// A keyword of which two locales have different values.
pub struct Row {
    pub category: &'static str,
    pub keyword: ByteText,
    pub left: ByteText,
    pub right: ByteText,
}

impl Drop for Row {
    fn drop(self) {
        let Row {
            category: _,
            keyword: _,
            left: _,
            right: _,
        } = self;
    }
}

/// Adds a row.
pub fn push_row(
    alloc: Global,
    rows: &mut Vec<Row>,
    category: &'static str,
    keyword: &[u8],
    left: Vec<u8>,
    right: Vec<u8>,
) -> Result<(), AllocError> {
    let keyword = ByteText::of(alloc, keyword)?;
    rows.push(Row {
        category,
        keyword,
        left: ByteText::from_vec(left),
        right: ByteText::from_vec(right),
    })?;
    Ok(())
}

/// The widths of the columns before the last.
#[derive(Clone, Copy)]
struct Widths {
    category: usize,
    keyword: usize,
    left: usize,
}

fn widths_of(names: (&[u8], &[u8]), rows: &[Row]) -> Widths {
    let mut widths = Widths {
        category: 0,
        keyword: 0,
        left: width_of(names.0),
    };
    for row in rows {
        widths.category = widths.category.max(row.category.len());
        widths.keyword = widths.keyword.max(width_of(row.keyword.as_bytes()));
        widths.left = widths.left.max(width_of(row.left.as_bytes()));
    }
    widths
}

/// The table of rows below the names of two locales, its columns aligned by characters.
pub fn table_text(
    alloc: Global,
    names: (&[u8], &[u8]),
    rows: &[Row],
) -> Result<ByteText, AllocError> {
    let widths = widths_of(names, rows);
    let mut out = Vec::new(alloc);
    push_line(&mut out, widths, (b"", b""), names)?;
    for row in rows {
        let labels = (row.category.as_bytes(), row.keyword.as_bytes());
        push_line(
            &mut out,
            widths,
            labels,
            (row.left.as_bytes(), row.right.as_bytes()),
        )?;
    }
    Ok(ByteText::from_vec(out))
}

fn push_line(
    out: &mut Vec<u8>,
    widths: Widths,
    labels: (&[u8], &[u8]),
    values: (&[u8], &[u8]),
) -> Result<(), AllocError> {
    push_padded(out, labels.0, widths.category.saturating_add(2))?;
    push_padded(out, labels.1, widths.keyword.saturating_add(2))?;
    push_padded(out, values.0, widths.left.saturating_add(2))?;
    out.extend_from_slice(values.1)?;
    out.push(b'\n')?;
    Ok(())
}
