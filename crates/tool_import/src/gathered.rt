//! A source with the files of the locales that it copies.

use crate::locating::path_in_folders;
use gnu_source::{Named, copied_names};
use lc_base::{ByteText, List, is_posix_locale};
use std::alloc::{AllocError, Global};
use std::rt::Files;
use tool_files::file_text;
use tool_messages::{Problem, base_name};

/// The most files of a locale.
const FILES_MOST: usize = 64;

/// A file of a locale.
#[derive(Drop)]
pub struct GnuFile {
    pub path: String,
    /// The name of the locale, which is that of its file.
    pub name: ByteText,
    pub text: ByteText,
}

/// The file of a source, and those of the locales that it copies, directly or not: at most 64, and none for a
/// name that no folder has.
pub fn gnu_files<R: Files>(
    rt: &R,
    alloc: Global,
    path: &str,
    folders: &[&str],
) -> Result<Vec<GnuFile>, Problem> {
    let text = file_text(rt, alloc, path)?;
    let mut files = Vec::new(alloc);
    push_file(alloc, &mut files, path, text)?;
    for number in 0..FILES_MOST {
        let names = names_at(alloc, files.as_slice(), number)?;
        add_named(rt, alloc, folders, names.as_slice(), &mut files)?;
    }
    Ok(files)
}

/// Adds a file.
fn push_file(
    alloc: Global,
    files: &mut Vec<GnuFile>,
    path: &str,
    text: ByteText,
) -> Result<(), AllocError> {
    let name = ByteText::of(alloc, base_name(path.as_bytes()))?;
    let path = String::from_str(alloc, path)?;
    files.push(GnuFile { path, name, text })?;
    Ok(())
}

/// The names of the locales that the file with a number copies, if there is one.
fn names_at(alloc: Global, files: &[GnuFile], number: usize) -> Result<List<ByteText>, AllocError> {
    match files.get(number) {
        Some(file) => copied_names(alloc, file.text.as_bytes()),
        None => Ok(List::of(Vec::new(alloc))),
    }
}

/// Adds the files of locales that are not there yet, while there is room.
fn add_named<R: Files>(
    rt: &R,
    alloc: Global,
    folders: &[&str],
    names: &[ByteText],
    files: &mut Vec<GnuFile>,
) -> Result<(), Problem> {
    for name in names {
        if !is_there(files.as_slice(), name.as_bytes()) && files.len() < FILES_MOST {
            add_found(rt, alloc, folders, name.as_bytes(), files)?;
        }
    }
    Ok(())
}

/// Whether a name needs no file.
fn is_there(files: &[GnuFile], name: &[u8]) -> bool {
    is_posix_locale(name) || files.iter().any(|file| file.name.as_bytes() == name)
}

/// Adds the file of a locale, where a folder has it.
fn add_found<R: Files>(
    rt: &R,
    alloc: Global,
    folders: &[&str],
    name: &[u8],
    files: &mut Vec<GnuFile>,
) -> Result<(), Problem> {
    match path_in_folders(rt, alloc, name, folders)? {
        Some(path) => {
            let text = file_text(rt, alloc, path.as_str())?;
            Ok(push_file(alloc, files, path.as_str(), text)?)
        }
        None => Ok(()),
    }
}

/// The files as they are imported.
pub fn named_files(alloc: Global, files: &[GnuFile]) -> Result<Vec<Named<'_>>, AllocError> {
    let mut named = Vec::new(alloc);
    for file in files {
        named.push(Named {
            name: file.name.as_bytes(),
            text: file.text.as_bytes(),
        })?;
    }
    Ok(named)
}

/// The path of the file with a number.
pub fn path_of(files: &[GnuFile], number: usize) -> &str {
    match files.get(number) {
        Some(file) => file.path.as_str(),
        None => "",
    }
}

/// The text of the file with a number.
pub fn text_of(files: &[GnuFile], number: usize) -> &[u8] {
    match files.get(number) {
        Some(file) => file.text.as_bytes(),
        None => b"",
    }
}
