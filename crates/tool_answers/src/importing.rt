//! Files that are imported one after another.

use crate::gathered::Gathered;
use crate::json::imported_json;
use clap::ArgMatches;
use std::alloc::Global;
use std::rt::Files;
use tool_commands::{path_of, strs};
use tool_import::{Importing, import_file};
use tool_messages::{Answer, Problem};

/// Imports sources: the status is 1 where one is refused, or could not be written.
pub fn import_files<R: Files>(
    rt: &R,
    alloc: Global,
    given: &ArgMatches<'_>,
) -> Result<Answer, Problem> {
    let how = Importing {
        folders: strs(given, "path"),
        directory: given.get_str("output"),
        has_notes: given.get_flag("notes"),
    };
    if given.get_flag("json") {
        return imported_json(rt, alloc, &how, strs(given, "FILE"));
    }
    let mut gathered = Gathered::new(alloc);
    let worked = add_imported(rt, alloc, &how, strs(given, "FILE"), &mut gathered);
    gathered.answer(worked)
}

/// Imports sources one after another.
fn add_imported<R: Files>(
    rt: &R,
    alloc: Global,
    how: &Importing<'_>,
    words: &[&str],
    gathered: &mut Gathered,
) -> Result<(), Problem> {
    for word in words {
        let output = &mut gathered.output;
        let path = path_of(word);
        if !import_file(rt, alloc, how, path, output, &mut gathered.messages)? {
            gathered.status = 1;
        }
    }
    Ok(())
}
