//! Categories that the source of a command lacks.

use clap::ArgMatches;
use lc_base::{ByteText, Category};
use reason_rules::rule_of;
use std::alloc::{AllocError, Global};
use tool_files::{Loaded, lacking_categories};
use tool_messages::{Problem, push_word};

/// Tells which of the categories that a command reads its source lacks, so that those of the POSIX locale are read:
/// a warning for each, or with `--strict` a refusal.
pub fn tell_lacking(
    alloc: Global,
    given: &ArgMatches<'_>,
    loaded: &Loaded,
    categories: &[Category],
    messages: &mut Vec<u8>,
) -> Result<(), Problem> {
    let lacking = lacking_categories(alloc, loaded, categories)?;
    let lacking = lacking.as_slice();
    if lacking.is_empty() {
        return Ok(());
    }
    let path = source_path(loaded);
    if given.get_flag("strict") {
        return Err(Problem::Refused(refusal_of(alloc, path, lacking)?));
    }
    for category in lacking {
        push_warning(messages, path, *category)?;
    }
    Ok(())
}

/// The path of the source, which is the first one that was read.
fn source_path(loaded: &Loaded) -> &[u8] {
    let first_line = match loaded.sources.locales.as_slice() {
        [first, ..] => first.first_line,
        [] => 0,
    };
    for file in loaded.sources.paths.as_slice() {
        if file.first_line == first_line {
            return file.path.as_bytes();
        }
    }
    b""
}

/// Adds that a source lacks a category.
fn push_warning(out: &mut Vec<u8>, path: &[u8], category: Category) -> Result<(), AllocError> {
    out.extend_from_slice(b"locale_tool: warning: ")?;
    push_word(out, path)?;
    out.extend_from_slice(b": it has no ")?;
    out.extend_from_slice(category.name())?;
    out.extend_from_slice(b", so that of the POSIX locale is read\n")
}

/// That a source lacks categories, and the rule.
fn refusal_of(alloc: Global, path: &[u8], lacking: &[Category]) -> Result<ByteText, AllocError> {
    let mut message = Vec::new(alloc);
    message.extend_from_slice(b"locale_tool: ")?;
    push_word(&mut message, path)?;
    message.extend_from_slice(b": NoCategory: it has no ")?;
    push_names(&mut message, lacking)?;
    message.extend_from_slice(b"; ")?;
    message.extend_from_slice(rule_of("NoCategory").as_bytes())?;
    message.extend_from_slice(b"\n")?;
    Ok(ByteText::from_vec(message))
}

/// Adds the names of categories, with a comma between them.
fn push_names(out: &mut Vec<u8>, categories: &[Category]) -> Result<(), AllocError> {
    let mut between: &[u8] = b"";
    for category in categories {
        out.extend_from_slice(between)?;
        out.extend_from_slice(category.name())?;
        between = b", ";
    }
    Ok(())
}
