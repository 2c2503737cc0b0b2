//! What two locales define differently.

use crate::characters::{Sides, push_characters};
use crate::table::{Row, push_row, table_text};
use crate::values::{Value, values_of};
use charset::Charset;
use lc_base::ByteText;
use std::alloc::{AllocError, Global};
use tool_messages::push_word;
use tool_reads::LentCategories;

/// A locale with the name that it has in a table.
#[derive(Clone, Copy)]
pub struct Named<'a> {
    pub name: &'a str,
    pub locale: &'a LentCategories<'a>,
}

/// What two locales define differently, by category and keyword, over a charset: a table, or `None` where
/// nothing differs.
pub fn differences_of(
    alloc: Global,
    left: &Named<'_>,
    right: &Named<'_>,
    charset: &Charset,
) -> Result<Option<ByteText>, AllocError> {
    let rows = rows_of(alloc, left, right, charset)?;
    if rows.is_empty() {
        return Ok(None);
    }
    let names = (
        text_of(alloc, left.name.as_bytes())?,
        text_of(alloc, right.name.as_bytes())?,
    );
    let names = (names.0.as_slice(), names.1.as_slice());
    Ok(Some(table_text(alloc, names, rows.as_slice())?))
}

/// The rows of what two locales define differently, those of a category behind each other.
pub fn rows_of(
    alloc: Global,
    left: &Named<'_>,
    right: &Named<'_>,
    charset: &Charset,
) -> Result<Vec<Row>, AllocError> {
    let mut rows = Vec::new(alloc);
    let portable = Charset::portable(alloc)?;
    let sides = Sides {
        left: left.locale.ctype,
        right: right.locale.ctype,
        charset: if are_portable(left, right, charset, &portable) {
            &portable
        } else {
            charset
        },
    };
    push_characters(alloc, &mut rows, &sides)?;
    let values = values_of(alloc, left.locale)?;
    let others = values_of(alloc, right.locale)?;
    push_different(alloc, &mut rows, values.as_slice(), others.as_slice())?;
    Ok(rows)
}

/// Whether two locales that are read in UTF-8 have the characters of the POSIX locale alone.
fn are_portable(
    left: &Named<'_>,
    right: &Named<'_>,
    charset: &Charset,
    portable: &Charset,
) -> bool {
    charset.name() == b"UTF-8".as_slice()
        && left.locale.ctype.codeset() == portable.name()
        && right.locale.ctype.codeset() == portable.name()
}

/// Adds the rows of the values that differ.
fn push_different(
    alloc: Global,
    rows: &mut Vec<Row>,
    values: &[Value],
    others: &[Value],
) -> Result<(), AllocError> {
    for (value, other) in values.iter().zip(others) {
        if value.text.as_bytes() != other.text.as_bytes() {
            push_texts(
                alloc,
                rows,
                value,
                value.text.as_bytes(),
                other.text.as_bytes(),
            )?;
        } else if value.whole.as_bytes() != other.whole.as_bytes() {
            push_texts(
                alloc,
                rows,
                value,
                value.whole.as_bytes(),
                other.whole.as_bytes(),
            )?;
        }
    }
    Ok(())
}

/// Adds the row of a keyword with two texts.
fn push_texts(
    alloc: Global,
    rows: &mut Vec<Row>,
    value: &Value,
    left: &[u8],
    right: &[u8],
) -> Result<(), AllocError> {
    let left = text_of(alloc, left)?;
    let right = text_of(alloc, right)?;
    push_row(
        alloc,
        rows,
        value.category,
        value.keyword.as_bytes(),
        left,
        right,
    )
}

/// A text without control bytes.
fn text_of(alloc: Global, text: &[u8]) -> Result<Vec<u8>, AllocError> {
    let mut shown = Vec::new(alloc);
    push_word(&mut shown, text)?;
    Ok(shown)
}
