//! Answers of commands as JSON text.

use crate::bundles::{is_bundle_file, push_bundle};
use crate::progress::Progress;
use lc_base::ByteText;
use reason_rules::{ROW_COUNT, ReasonRow, row_at};
use std::alloc::{AllocError, Global};
use std::rt::Files;
use std::time::Clock;
use tool_check::{Checking, Told, push_file_json, push_problem_json};
use tool_commands::path_of;
use tool_import::{Importing, push_import_json};
use tool_json::{Writer, json_line, new_writer, push_row};
use tool_messages::{Answer, Problem};

/// Checks files: an object with what each is found to be. The status is 1 where one is refused.
pub fn checked_json<R: Files + Clock + Eprint>(
    rt: &R,
    alloc: Global,
    how: &Checking<'_>,
    paths: &[&str],
    progress: &mut Progress,
) -> Result<Answer, Problem> {
    let mut json = new_writer(alloc);
    let mut told = Told::new(alloc);
    let mut status = 0u8;
    let mut done = 0usize;
    open_list(&mut json, "files")?;
    for path in paths {
        if !push_checked(rt, alloc, how, path_of(path), &mut told, &mut json)? {
            status = 1;
        }
        done = done.saturating_add(1);
        progress.show(rt, done, paths.len());
    }
    closed(alloc, json, status)
}

/// Adds what a file is found to be. Whether it is accepted.
fn push_checked<R: Files>(
    rt: &R,
    alloc: Global,
    how: &Checking<'_>,
    path: &str,
    told: &mut Told,
    json: &mut Writer,
) -> Result<bool, Problem> {
    if is_bundle_file(rt, alloc, path)? {
        let mut message = Vec::new(alloc);
        push_bundle(&mut message, path)?;
        return Ok(push_problem_json(alloc, path, message.as_slice(), json)?);
    }
    push_file_json(rt, alloc, how, path, told, json)
}

/// Imports sources: an object with what comes of each. The status is 1 where one is refused, or could not be
/// written.
pub fn imported_json<R: Files>(
    rt: &R,
    alloc: Global,
    how: &Importing<'_>,
    words: &[&str],
) -> Result<Answer, Problem> {
    let mut json = new_writer(alloc);
    let mut status = 0u8;
    open_list(&mut json, "files")?;
    for word in words {
        if !push_import_json(rt, alloc, how, path_of(word), &mut json)? {
            status = 1;
        }
    }
    closed(alloc, json, status)
}

/// An object with the rows that have a name, or have it as their first word; without a name with all rows. `None`
/// where there is no such row.
pub fn rows_json(alloc: Global, name: &[u8]) -> Result<Option<ByteText>, AllocError> {
    let mut json = new_writer(alloc);
    let mut is_found = false;
    open_list(&mut json, "reasons")?;
    for number in 0..ROW_COUNT {
        is_found = push_asked(alloc, &mut json, row_at(number), name)? || is_found;
    }
    if is_found {
        json.end_array()?;
        json.end_object()?;
        Ok(Some(json_line(json)?))
    } else {
        Ok(None)
    }
}

/// Adds a row, if there is one and it is asked for. Whether it is.
fn push_asked(
    alloc: Global,
    json: &mut Writer,
    row: Option<ReasonRow>,
    name: &[u8],
) -> Result<bool, AllocError> {
    match row {
        Some(row) if is_asked(row.name.as_bytes(), name) => {
            push_row(alloc, json, &row)?;
            Ok(true)
        }
        _ => Ok(false),
    }
}

/// Whether a row is asked for by a name: it has it, or has it as its first word, or the name is empty.
fn is_asked(row: &[u8], name: &[u8]) -> bool {
    match row.strip_prefix(name) {
        Some([]) => true,
        Some([behind, ..]) => *behind == b' ' || name.is_empty(),
        None => false,
    }
}

/// Opens an object, and in it a list.
fn open_list(json: &mut Writer, name: &str) -> Result<(), AllocError> {
    json.begin_object()?;
    json.key(name)?;
    json.begin_array()
}

/// The answer with an object whose list is closed, and nothing for standard error.
fn closed(alloc: Global, json: Writer, status: u8) -> Result<Answer, Problem> {
    let mut json = json;
    json.end_array()?;
    json.end_object()?;
    Ok(Answer {
        status,
        output: json_line(json)?,
        messages: ByteText::from_vec(Vec::new(alloc)),
    })
}
