//! The rules of reasons.

use crate::json::rows_json;
use crate::near::{as_written, first_word, near_names};
use clap::ArgMatches;
use lc_base::ByteText;
use reason_rules::explained;
use std::alloc::{AllocError, Global};
use tool_commands::strs;
use tool_messages::Problem;
use tool_reads::usage_problem;

/// What `explain` prints: the rows that words name, or the names of all, or the same as JSON text.
pub fn explain_given(alloc: Global, given: &ArgMatches<'_>) -> Result<ByteText, Problem> {
    let words = strs(given, "REASON");
    if !given.get_flag("json") {
        return explain(alloc, words);
    }
    let name = joined(alloc, words)?;
    let name = name.as_bytes();
    let found = match rows_json(alloc, as_written(name))? {
        Some(text) => Some(text),
        None => rows_json(alloc, as_written(first_word(name)))?,
    };
    match found {
        Some(text) => Ok(text),
        None => Err(unknown_reason(alloc, name)),
    }
}

/// The rows of the table of reasons that words name, whatever the case of their letters.
fn explain(alloc: Global, words: &[&str]) -> Result<ByteText, Problem> {
    let name = joined(alloc, words)?;
    let name = name.as_bytes();
    let found = match explained(alloc, as_written(name))? {
        Some(text) => Some(text),
        None => explained(alloc, as_written(first_word(name)))?,
    };
    match found {
        Some(text) => Ok(text),
        None => Err(unknown_reason(alloc, name)),
    }
}

/// The words, with a space between them.
fn joined(alloc: Global, words: &[&str]) -> Result<ByteText, AllocError> {
    let mut text = Vec::new(alloc);
    let mut between: &[u8] = b"";
    for word in words {
        text.extend_from_slice(between)?;
        text.extend_from_slice(word.as_bytes())?;
        between = b" ";
    }
    Ok(ByteText::from_vec(text))
}

/// The problem of a name that no row has, with the names that are near to it.
fn unknown_reason(alloc: Global, name: &[u8]) -> Problem {
    match wanted_instead(alloc, name) {
        Ok(wanted) => usage_problem(alloc, name, wanted.as_slice()),
        Err(_) => Problem::Memory,
    }
}

/// What is told of a name that no row has.
fn wanted_instead(alloc: Global, name: &[u8]) -> Result<Vec<u8>, AllocError> {
    let near = near_names(alloc, name)?;
    let mut wanted = Vec::new(alloc);
    wanted.extend_from_slice(b"there is no such reason; ")?;
    if !near.is_empty() {
        wanted.extend_from_slice(b"near to it: ")?;
        wanted.extend_from_slice(near.as_slice())?;
        wanted.extend_from_slice(b"; ")?;
    }
    wanted.extend_from_slice(b"`locale_tool explain` prints the names of all")?;
    Ok(wanted)
}
