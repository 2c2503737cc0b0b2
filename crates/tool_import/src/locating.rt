//! Where the source of a locale is.

use lc_base::ByteText;
use std::alloc::{AllocError, Global};
use std::fs;
use std::rt::Files;
use tool_files::{is_file, path_in};
use tool_messages::{Problem, push_word};

/// The folder in which systems keep the sources of their locales.
pub const SYSTEM_FOLDER: &str = "/usr/share/i18n/locales";

/// The path of the source that a word names: the word itself, where it has a slash or something has this path;
/// else the file with this name in the first of the folders that has it, the system's being the last.
pub fn source_path<R: Files>(
    rt: &R,
    alloc: Global,
    word: &str,
    folders: &[&str],
) -> Result<String, Problem> {
    if has_slash(word.as_bytes()) || fs::metadata(rt, word).is_ok() {
        return Ok(String::from_str(alloc, word)?);
    }
    match path_in_folders(rt, alloc, word.as_bytes(), folders)? {
        Some(path) => Ok(path),
        None => Err(not_found(alloc, word, folders)),
    }
}

fn has_slash(word: &[u8]) -> bool {
    word.contains(&b'/')
}

/// The path of the file with a name in the first of the folders that has it, the system's being the last.
pub fn path_in_folders<R: Files>(
    rt: &R,
    alloc: Global,
    name: &[u8],
    folders: &[&str],
) -> Result<Option<String>, AllocError> {
    for folder in folders {
        let path = path_in(alloc, folder, name)?;
        if is_file(rt, path.as_str()) {
            return Ok(Some(path));
        }
    }
    let path = path_in(alloc, SYSTEM_FOLDER, name)?;
    if is_file(rt, path.as_str()) {
        return Ok(Some(path));
    }
    Ok(None)
}

/// The problem of a word that names no source.
fn not_found(alloc: Global, word: &str, folders: &[&str]) -> Problem {
    match not_found_message(alloc, word, folders) {
        Ok(message) => Problem::Refused(message),
        Err(_) => Problem::Memory,
    }
}

fn not_found_message(alloc: Global, word: &str, folders: &[&str]) -> Result<ByteText, AllocError> {
    let mut message = Vec::new(alloc);
    message.extend_from_slice(b"locale_tool: ")?;
    push_word(&mut message, word.as_bytes())?;
    message.extend_from_slice(b": there is no such file; looked in .")?;
    for folder in folders {
        message.extend_from_slice(b", ")?;
        push_word(&mut message, folder.as_bytes())?;
    }
    message.extend_from_slice(b" and ")?;
    message.extend_from_slice(SYSTEM_FOLDER.as_bytes())?;
    message.extend_from_slice(b"\n")?;
    Ok(ByteText::from_vec(message))
}
