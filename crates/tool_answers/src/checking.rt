//! Files that are checked one after another.

use crate::bundles::{is_bundle_file, push_bundle};
use crate::gathered::Gathered;
use crate::json::checked_json;
use crate::progress::Progress;
use clap::ArgMatches;
use std::alloc::Global;
use std::rt::Files;
use std::time::Clock;
use tool_check::{Checking, Told, check_file};
use tool_commands::{path_given, path_of, strs};
use tool_messages::{Answer, Problem};

/// Checks files: the status is 1 where one is refused.
pub fn check_files<R: Files + Clock + Eprint>(
    rt: &R,
    alloc: Global,
    given: &ArgMatches<'_>,
    is_watched: bool,
) -> Result<Answer, Problem> {
    let how = Checking {
        charmap: path_given(given, "charmap"),
        folders: strs(given, "path"),
        summary: given.get_flag("summary"),
    };
    let mut progress = Progress::begin(rt, is_watched);
    let paths = checked_paths(given);
    if given.get_flag("json") {
        let answer = checked_json(rt, alloc, &how, paths, &mut progress);
        progress.end(rt);
        return answer;
    }
    let mut gathered = Gathered::new(alloc);
    let worked = add_checked(rt, alloc, &how, paths, &mut progress, &mut gathered);
    progress.end(rt);
    gathered.answer(worked)
}

/// The files that are checked: the charmap, where it stands alone.
fn checked_paths<'a>(given: &'a ArgMatches<'_>) -> &'a [&'a str] {
    let files = strs(given, "FILE");
    if files.is_empty() {
        strs(given, "charmap")
    } else {
        files
    }
}

/// Checks files one after another.
fn add_checked<R: Files + Clock + Eprint>(
    rt: &R,
    alloc: Global,
    how: &Checking<'_>,
    paths: &[&str],
    progress: &mut Progress,
    gathered: &mut Gathered,
) -> Result<(), Problem> {
    let mut told = Told::new(alloc);
    let mut done = 0usize;
    for path in paths {
        add_file(rt, alloc, how, path_of(path), &mut told, gathered)?;
        done = done.saturating_add(1);
        progress.show(rt, done, paths.len());
    }
    Ok(())
}

fn add_file<R: Files>(
    rt: &R,
    alloc: Global,
    how: &Checking<'_>,
    path: &str,
    told: &mut Told,
    gathered: &mut Gathered,
) -> Result<(), Problem> {
    let before = gathered.messages.len();
    let output = &mut gathered.output;
    if check_file(rt, alloc, how, path, told, output, &mut gathered.messages)? {
        return Ok(());
    }
    gathered.status = 1;
    if is_bundle_file(rt, alloc, path)? {
        gathered.messages.truncate(before);
        push_bundle(&mut gathered.messages, path)?;
    }
    Ok(())
}
