//! What comes of imports, as JSON text.

use crate::gathered::{GnuFile, gnu_files, path_of};
use crate::importing::{Importing, written};
use crate::locating::source_path;
use crate::notes::{Tally, each_note, tallies_of};
use crate::system::imported_files;
use gnu_source::Imported;
use lc_base::ByteText;
use std::alloc::{AllocError, Global};
use std::rt::Files;
use tool_files::path_in;
use tool_json::{Writer, push_flag, push_member, push_number_member};
use tool_messages::{Problem, base_name};

/// Imports a source, and adds what comes of it as an object: the file that was read, whether it was imported and
/// written, the standard source or the file that it went to, why there is none where that is so, and what was left
/// out or changed. Whether it was imported and written. It fails only when it is out of memory.
pub fn push_import_json<R: Files>(
    rt: &R,
    alloc: Global,
    how: &Importing<'_>,
    word: &str,
    json: &mut Writer,
) -> Result<bool, Problem> {
    match files_of(rt, alloc, how, word) {
        Ok(files) => match imported_files(alloc, files.as_slice()) {
            Ok(imported) => push_imported(rt, alloc, how, files.as_slice(), imported, json),
            Err(problem) => push_refused(alloc, path_of(files.as_slice(), 0), problem, json),
        },
        Err(problem) => push_refused(alloc, word, problem, json),
    }
}

/// The file of the source that a word names, and those that it copies.
fn files_of<R: Files>(
    rt: &R,
    alloc: Global,
    how: &Importing<'_>,
    word: &str,
) -> Result<Vec<GnuFile>, Problem> {
    let path = source_path(rt, alloc, word, how.folders)?;
    gnu_files(rt, alloc, path.as_str(), how.folders)
}

/// Adds the object of a source that is not imported.
fn push_refused(
    alloc: Global,
    path: &str,
    problem: Problem,
    json: &mut Writer,
) -> Result<bool, Problem> {
    if let Problem::Memory = problem {
        return Err(Problem::Memory);
    }
    let told = problem.message();
    push_head(alloc, json, path, false)?;
    push_member(
        alloc,
        json,
        "problem",
        told.strip_suffix(b"\n").unwrap_or(told),
    )?;
    push_notes_json(alloc, json, &[], &[])?;
    json.end_object()?;
    Ok(false)
}

/// Opens the object of a source.
fn push_head(
    alloc: Global,
    json: &mut Writer,
    path: &str,
    is_accepted: bool,
) -> Result<(), AllocError> {
    json.begin_object()?;
    push_member(alloc, json, "file", path.as_bytes())?;
    push_flag(json, "accepted", is_accepted)
}

/// Adds the object of a source that was imported.
fn push_imported<R: Files>(
    rt: &R,
    alloc: Global,
    how: &Importing<'_>,
    files: &[GnuFile],
    imported: Imported,
    json: &mut Writer,
) -> Result<bool, Problem> {
    let tallies = if how.has_notes {
        each_note(alloc, imported.notes.as_slice())?
    } else {
        tallies_of(alloc, imported.notes.as_slice())?
    };
    let path = path_of(files, 0);
    let is_kept = match how.directory {
        Some(directory) => {
            let text = imported.into_text();
            push_written(rt, alloc, path, directory, &text, json)?
        }
        None => {
            push_head(alloc, json, path, true)?;
            push_member(alloc, json, "text", imported.into_text().as_bytes())?;
            true
        }
    };
    push_notes_json(alloc, json, files, tallies.as_slice())?;
    json.end_object()?;
    Ok(is_kept)
}

/// Writes a standard source into its file, and opens the object of the source. Whether it could be written.
fn push_written<R: Files>(
    rt: &R,
    alloc: Global,
    path: &str,
    directory: &str,
    text: &ByteText,
    json: &mut Writer,
) -> Result<bool, AllocError> {
    let output = path_in(alloc, directory, base_name(path.as_bytes()))?;
    let mut message = Vec::new(alloc);
    let is_written = written(rt, output.as_str(), text, &mut message)?;
    push_head(alloc, json, path, is_written)?;
    if is_written {
        push_member(alloc, json, "output", output.as_str().as_bytes())?;
    } else {
        let told = message.as_slice();
        push_member(
            alloc,
            json,
            "problem",
            told.strip_suffix(b"\n").unwrap_or(told),
        )?;
    }
    Ok(is_written)
}

/// Adds what was left out or changed.
fn push_notes_json(
    alloc: Global,
    json: &mut Writer,
    files: &[GnuFile],
    tallies: &[Tally],
) -> Result<(), AllocError> {
    json.key("notes")?;
    json.begin_array()?;
    for tally in tallies {
        push_tally(alloc, json, files, tally)?;
    }
    json.end_array()
}

fn push_tally(
    alloc: Global,
    json: &mut Writer,
    files: &[GnuFile],
    tally: &Tally,
) -> Result<(), AllocError> {
    let note = &tally.first;
    json.begin_object()?;
    push_member(alloc, json, "file", path_of(files, note.at.file).as_bytes())?;
    push_number_member(json, "line", u64::from(note.at.line))?;
    push_number_member(json, "column", u64::from(note.at.column))?;
    push_member(alloc, json, "code", note.code.code().as_bytes())?;
    push_member(alloc, json, "sentence", note.code.sentence().as_bytes())?;
    push_number_member(json, "count", tally.count)?;
    json.end_object()
}
