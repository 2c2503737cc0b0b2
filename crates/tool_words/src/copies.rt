//! Copies whose locale is not there.

use crate::parts::push_named;
use lc_base::ByteText;
use std::alloc::AllocError;
use tool_messages::push_word;

/// Adds that a locale that is copied is not there, and where it was looked for, or that its file, where it has one,
/// lacks the category.
pub fn push_missing_copy(
    out: &mut Vec<u8>,
    name: &[u8],
    section: &[u8],
    file: Option<&[u8]>,
    folders: &[ByteText],
) -> Result<(), AllocError> {
    match file {
        Some(file) => {
            push_named(out, file)?;
            out.extend_from_slice(b" has no section ")?;
            push_named(out, section)?;
            out.extend_from_slice(
                b" for this copy; the locale that a copy names must have the category",
            )
        }
        None => push_no_locale(out, name, folders),
    }
}

/// Adds that there is no locale with a name, and where it was looked for.
fn push_no_locale(out: &mut Vec<u8>, name: &[u8], folders: &[ByteText]) -> Result<(), AllocError> {
    out.extend_from_slice(b"no locale ")?;
    push_word(out, name)?;
    out.extend_from_slice(b" for this copy; ")?;
    if folders.is_empty() {
        return out.extend_from_slice(b"`--path DIR` must name a folder with its file");
    }
    let mut between: &[u8] = b"looked in ";
    for folder in folders {
        out.extend_from_slice(between)?;
        push_word(out, folder.as_bytes())?;
        between = b", ";
    }
    Ok(())
}
