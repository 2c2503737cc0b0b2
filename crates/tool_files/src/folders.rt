//! Files in folders.

use std::alloc::{AllocError, Global};
use std::fs;
use std::rt::Files;

/// Whether a path is that of a file, and not of a folder.
pub fn is_file<R: Files>(rt: &R, path: &str) -> bool {
    match fs::metadata(rt, path) {
        Ok(found) => found.is_file(),
        Err(_) => false,
    }
}

/// The path of a file in a folder, which is its name in the folder `.`; just the folder where the name is no text.
pub fn path_in(alloc: Global, folder: &str, name: &[u8]) -> Result<String, AllocError> {
    let mut path = String::new(alloc);
    match str::from_utf8(name) {
        Ok(name) => {
            push_folder(&mut path, folder)?;
            path.push_str(name)?;
        }
        Err(_) => path.push_str(folder)?,
    }
    Ok(path)
}

/// Adds what stands in front of the name of a file in a folder.
fn push_folder(path: &mut String, folder: &str) -> Result<(), AllocError> {
    if folder.as_bytes() == b".".as_slice() {
        return Ok(());
    }
    path.push_str(folder)?;
    match folder.as_bytes() {
        [.., b'/'] => Ok(()),
        _ => path.push_str("/"),
    }
}
