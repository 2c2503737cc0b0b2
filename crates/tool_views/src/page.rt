//! The columns of locales as a page of HTML.

use crate::columns::cell_at;
use crate::glance::{Column, GLANCES};
use crate::language::{Language, language_of};
use lc_base::ByteText;
use std::alloc::{AllocError, Global};
use std::str;

/// What the page begins with.
const HEAD: &str = "<!DOCTYPE html>
<html lang=\"en\" dir=\"ltr\">
<head>
<meta charset=\"utf-8\">
<meta name=\"viewport\" content=\"width=device-width, initial-scale=1\">
<title>Locales at a glance</title>
<style>
:root { color-scheme: light dark; }
body { font-family: system-ui, sans-serif; margin: 1rem; }
table { border-collapse: collapse; }
th, td { padding: 0.2rem 0.8rem; text-align: start; vertical-align: top; }
tr.first > * { border-top: 1px solid GrayText; }
td { white-space: pre-wrap; }
</style>
</head>
<body>
<h1>Locales at a glance</h1>
<table>
";

/// What it ends with.
const FOOT: &str = "</tbody>
</table>
</body>
</html>
";

/// A page that stands alone, with a column for each locale in its language and direction.
pub fn page_text(alloc: Global, columns: &[Column]) -> Result<ByteText, AllocError> {
    let mut languages = Vec::new(alloc);
    for column in columns {
        languages.push(language_of(alloc, column.name.as_bytes())?)?;
    }
    let mut out = Vec::new(alloc);
    out.extend_from_slice(HEAD.as_bytes())?;
    push_names(&mut out, columns)?;
    for (i, glance) in GLANCES.iter().enumerate() {
        push_label(&mut out, glance.label)?;
        for (column, language) in columns.iter().zip(languages.as_slice()) {
            push_cell(&mut out, language, cell_at(column, i))?;
        }
        out.extend_from_slice(b"</tr>\n")?;
    }
    out.extend_from_slice(FOOT.as_bytes())?;
    Ok(ByteText::from_vec(out))
}

/// Adds the row of the names.
fn push_names(out: &mut Vec<u8>, columns: &[Column]) -> Result<(), AllocError> {
    out.extend_from_slice(b"<thead>\n<tr><td></td>")?;
    for column in columns {
        out.extend_from_slice(b"<th scope=\"col\">")?;
        push_escaped(out, column.name.as_bytes())?;
        out.extend_from_slice(b"</th>")?;
    }
    out.extend_from_slice(b"</tr>\n</thead>\n<tbody>\n")
}

/// Begins a row. One without a label goes on with what the row before shows.
fn push_label(out: &mut Vec<u8>, label: &str) -> Result<(), AllocError> {
    if label.is_empty() {
        return out.extend_from_slice(b"<tr><td></td>");
    }
    out.extend_from_slice(b"<tr class=\"first\"><th scope=\"row\">")?;
    push_escaped(out, label.as_bytes())?;
    out.extend_from_slice(b"</th>")
}

/// Adds a text in its language.
fn push_cell(out: &mut Vec<u8>, language: &Language, text: &[u8]) -> Result<(), AllocError> {
    out.extend_from_slice(b"<td lang=\"")?;
    out.extend_from_slice(language.tag.as_slice())?;
    let direction: &[u8] = if language.is_right_to_left {
        b"\" dir=\"rtl\">"
    } else {
        b"\" dir=\"ltr\">"
    };
    out.extend_from_slice(direction)?;
    push_escaped(out, text)?;
    out.extend_from_slice(b"</td>")
}

/// Adds a text of the page. What is no UTF-8 is shown with the bytes beyond ASCII by their numbers.
fn push_escaped(out: &mut Vec<u8>, text: &[u8]) -> Result<(), AllocError> {
    let is_text = str::from_utf8(text).is_ok();
    for byte in text {
        push_byte(out, *byte, is_text)?;
    }
    Ok(())
}

fn push_byte(out: &mut Vec<u8>, byte: u8, is_text: bool) -> Result<(), AllocError> {
    match byte {
        b'&' => out.extend_from_slice(b"&amp;"),
        b'<' => out.extend_from_slice(b"&lt;"),
        b'>' => out.extend_from_slice(b"&gt;"),
        b'"' => out.extend_from_slice(b"&quot;"),
        _ if byte < 128 || is_text => out.extend_from_slice(&[byte]),
        _ => push_escaped_byte(out, byte),
    }
}

fn push_escaped_byte(out: &mut Vec<u8>, byte: u8) -> Result<(), AllocError> {
    let digits = b"0123456789abcdef";
    let high = digits[usize::from(byte / 16)];
    let low = digits[usize::from(byte % 16)];
    out.extend_from_slice(&[b'\\', b'x', high, low])
}
