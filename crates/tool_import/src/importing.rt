//! Sources that are imported one after another.

use crate::gathered::gnu_files;
use crate::locating::source_path;
use crate::notes::{push_notes, push_summary};
use crate::system::imported_files;
use lc_base::ByteText;
use std::alloc::{AllocError, Global};
use std::fs;
use std::rt::Files;
use tool_files::path_in;
use tool_messages::{Problem, base_name, push_word};

/// How sources are imported.
#[derive(Clone, Copy)]
pub struct Importing<'a> {
    /// Where sources are looked for, before the system's folder.
    pub folders: &'a [&'a str],
    /// The folder into which the standard sources go, each under its name; without one they are output.
    pub directory: Option<&'a str>,
    /// Whether each note is told, or just a line for each code.
    pub has_notes: bool,
}

/// Imports a source: its standard source goes to the output or into a file, and what was left out or changed to
/// the messages. Whether it could be imported and written. It fails only when it is out of memory.
pub fn import_file<R: Files>(
    rt: &R,
    alloc: Global,
    how: &Importing<'_>,
    word: &str,
    output: &mut Vec<u8>,
    messages: &mut Vec<u8>,
) -> Result<bool, Problem> {
    match file_imported(rt, alloc, how, word, messages) {
        Ok(text) => kept(rt, alloc, how, word, &text, output, messages),
        Err(Problem::Memory) => Err(Problem::Memory),
        Err(problem) => {
            messages.extend_from_slice(problem.message())?;
            Ok(false)
        }
    }
}

/// The standard source of a word's source, whose notes go to the messages.
fn file_imported<R: Files>(
    rt: &R,
    alloc: Global,
    how: &Importing<'_>,
    word: &str,
    messages: &mut Vec<u8>,
) -> Result<ByteText, Problem> {
    let path = source_path(rt, alloc, word, how.folders)?;
    let files = gnu_files(rt, alloc, path.as_str(), how.folders)?;
    let imported = imported_files(alloc, files.as_slice())?;
    if how.has_notes {
        push_notes(messages, files.as_slice(), imported.notes.as_slice())?;
    } else {
        push_summary(alloc, messages, files.as_slice(), imported.notes.as_slice())?;
    }
    Ok(imported.into_text())
}

/// Adds a source to the output, or writes it into its file. Whether it could be written.
fn kept<R: Files>(
    rt: &R,
    alloc: Global,
    how: &Importing<'_>,
    word: &str,
    text: &ByteText,
    output: &mut Vec<u8>,
    messages: &mut Vec<u8>,
) -> Result<bool, Problem> {
    match how.directory {
        None => {
            output.extend_from_slice(text.as_bytes())?;
            Ok(true)
        }
        Some(directory) => {
            let path = path_in(alloc, directory, base_name(word.as_bytes()))?;
            Ok(written(rt, path.as_str(), text, messages)?)
        }
    }
}

/// Writes a source into a file. Whether it could be written; if not, the messages say so.
pub fn written<R: Files>(
    rt: &R,
    path: &str,
    text: &ByteText,
    messages: &mut Vec<u8>,
) -> Result<bool, AllocError> {
    if fs::write(rt, path, text.as_bytes()).is_ok() {
        return Ok(true);
    }
    messages.extend_from_slice(b"locale_tool: ")?;
    push_word(messages, path.as_bytes())?;
    messages.extend_from_slice(b": it could not be written\n")?;
    Ok(false)
}
