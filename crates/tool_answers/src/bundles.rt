//! Files that are bundles, which are run and not checked.

use lc_base::is_blank;
use std::alloc::{AllocError, Global};
use std::rt::Files;
use tool_files::{file_text, is_file};
use tool_messages::{Problem, push_word};

/// The words that begin the directives of a bundle.
const DIRECTIVES: [&[u8]; 7] = [
    b".charmap",
    b".locale",
    b".later",
    b".catalog",
    b".native",
    b".thread",
    b".round",
];

/// Whether a file begins with a directive of a bundle. A pipe is not read again, and so is none.
pub fn is_bundle_file<R: Files>(rt: &R, alloc: Global, path: &str) -> Result<bool, Problem> {
    if !is_file(rt, path) {
        return Ok(false);
    }
    match file_text(rt, alloc, path) {
        Ok(text) => Ok(is_bundle(text.as_bytes())),
        Err(Problem::Memory) => Err(Problem::Memory),
        Err(_) => Ok(false),
    }
}

/// Whether the first line that is neither blank nor a comment is a directive.
fn is_bundle(text: &[u8]) -> bool {
    for line in text.split(|byte| *byte == b'\n') {
        if !is_skipped(line) {
            return is_directive(line);
        }
    }
    false
}

/// Whether a line is blank, or a comment.
fn is_skipped(line: &[u8]) -> bool {
    for byte in line {
        if !is_blank(*byte) {
            return *byte == b'#';
        }
    }
    true
}

/// Whether the first word of a line is that of a directive.
fn is_directive(line: &[u8]) -> bool {
    let word = line.split(|byte| is_blank(*byte)).next().unwrap_or(line);
    for directive in DIRECTIVES {
        if word == directive {
            return true;
        }
    }
    false
}

/// Adds that a file is a bundle, and what takes one.
pub fn push_bundle(out: &mut Vec<u8>, path: &str) -> Result<(), AllocError> {
    out.extend_from_slice(b"locale_tool: ")?;
    push_word(out, path.as_bytes())?;
    out.extend_from_slice(
        b": it is a bundle; `locale_tool run` and `locale_tool serial` run it, and `locale_cli check` checks it as its standard input\n",
    )
}
