//! Sources that are imported on the way to a command.

use crate::gathered::{GnuFile, gnu_files, named_files, path_of, text_of};
use gnu_source::{ImportFault, Imported, Origin, import};
use lc_base::{ByteText, Place, Reason, TextFault, push_number};
use std::alloc::{AllocError, Global};
use std::rt::Files;
use tool_files::text_problem;
use tool_messages::{Problem, push_word};

/// The standard source that a system's source gives, with its notes left out.
pub fn standard_text<R: Files>(
    rt: &R,
    alloc: Global,
    path: &str,
    folders: &[&str],
) -> Result<ByteText, Problem> {
    let files = gnu_files(rt, alloc, path, folders)?;
    let imported = imported_files(alloc, files.as_slice())?;
    Ok(imported.into_text())
}

/// What files give, of which the first is imported.
pub fn imported_files(alloc: Global, files: &[GnuFile]) -> Result<Imported, Problem> {
    let named = named_files(alloc, files)?;
    match import(alloc, named.as_slice()) {
        Ok(imported) => Ok(imported),
        Err(ImportFault::At(at, reason)) => Err(problem_at(alloc, files, at, reason)),
        Err(ImportFault::Refused(made, reason, at)) => {
            Err(problem_made(alloc, files, at, reason, made))
        }
        Err(ImportFault::TooLarge) => Err(too_large(alloc, path_of(files, 0))),
        Err(ImportFault::Memory) => Err(Problem::Memory),
    }
}

/// The problem of a rule that a file breaks.
fn problem_at(alloc: Global, files: &[GnuFile], at: Origin, reason: Reason) -> Problem {
    let fault = TextFault::At(at.place(), reason);
    text_problem(
        alloc,
        path_of(files, at.file),
        text_of(files, at.file),
        fault,
    )
}

/// The problem of a line that gives a standard line which breaks a rule, with the place of that line.
fn problem_made(
    alloc: Global,
    files: &[GnuFile],
    at: Origin,
    reason: Reason,
    made: Place,
) -> Problem {
    match problem_at(alloc, files, at, reason) {
        Problem::Refused(message) => match with_made_place(alloc, message.as_bytes(), made) {
            Ok(message) => Problem::Refused(message),
            Err(_) => Problem::Memory,
        },
        problem => problem,
    }
}

/// The problem of a source whose standard source is too large.
fn too_large(alloc: Global, path: &str) -> Problem {
    match too_large_message(alloc, path) {
        Ok(message) => Problem::Refused(message),
        Err(_) => Problem::Memory,
    }
}

fn too_large_message(alloc: Global, path: &str) -> Result<ByteText, AllocError> {
    let mut message = Vec::new(alloc);
    message.extend_from_slice(b"locale_tool: ")?;
    push_word(&mut message, path.as_bytes())?;
    message.extend_from_slice(b": its standard source has more than 2147483647 bytes\n")?;
    Ok(ByteText::from_vec(message))
}

/// A message, with the place in the text that the import made.
fn with_made_place(alloc: Global, message: &[u8], made: Place) -> Result<ByteText, AllocError> {
    let mut more = Vec::new(alloc);
    more.extend_from_slice(message)?;
    more.extend_from_slice(b"hint: this is line ")?;
    push_number(&mut more, u128::from(made.line))?;
    more.extend_from_slice(b", column ")?;
    push_number(&mut more, u128::from(made.column))?;
    more.extend_from_slice(b" of the source that the import makes\n")?;
    Ok(ByteText::from_vec(more))
}
