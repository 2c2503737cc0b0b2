//! Bundles whose scripts are run one after another.

use clap::ArgMatches;
use std::alloc::{AllocError, Global};
use std::rt::Files;
use std::sync::Wait;
use std::thread::Threads;
use tool_answers::Gathered;
use tool_commands::{path_of, strs};
use tool_files::file_text;
use tool_messages::{Answer, Problem};
use tool_script::{Played, Playing, play};

/// Runs the scripts of bundles: the status is 1 where one is refused, or where a command is and that
/// counts.
pub fn play_files<R: Files + Threads + Wait + Sync>(
    rt: &R,
    alloc: Global,
    given: &ArgMatches<'_>,
    is_run: bool,
) -> Result<Answer, Problem> {
    let how = Playing {
        is_run,
        explain: given.get_flag("explain"),
    };
    let is_strict = given.get_flag("strict");
    let mut gathered = Gathered::new(alloc);
    let worked = add_played(
        rt,
        alloc,
        how,
        strs(given, "BUNDLE"),
        is_strict,
        &mut gathered,
    );
    gathered.answer(worked)
}

/// Runs scripts one after another.
fn add_played<R: Files + Threads + Wait + Sync>(
    rt: &R,
    alloc: Global,
    how: Playing,
    paths: &[&str],
    is_strict: bool,
    gathered: &mut Gathered,
) -> Result<(), Problem> {
    for path in paths {
        match play_file(rt, alloc, path_of(path), how) {
            Ok(played) => add_lines(&played, is_strict, gathered)?,
            Err(problem) => add_problem(problem, gathered)?,
        }
    }
    Ok(())
}

/// Runs the script of the bundle that a file has.
fn play_file<R: Files + Threads + Wait + Sync>(
    rt: &R,
    alloc: Global,
    path: &str,
    how: Playing,
) -> Result<Played, Problem> {
    match file_text(rt, alloc, path) {
        Ok(text) => play(rt, alloc, path, text.as_bytes(), how),
        Err(problem) => Err(problem),
    }
}

/// Adds what a script prints.
fn add_lines(played: &Played, is_strict: bool, gathered: &mut Gathered) -> Result<(), AllocError> {
    if is_strict && played.has_refusal {
        gathered.status = 1;
    }
    gathered.output.extend_from_slice(played.output.as_bytes())
}

/// Adds why a file is refused; being out of memory ends the work.
fn add_problem(problem: Problem, gathered: &mut Gathered) -> Result<(), Problem> {
    match problem {
        Problem::Memory => Err(Problem::Memory),
        Problem::Refused(text) | Problem::Usage(text) => {
            gathered.status = 1;
            Ok(gathered.messages.extend_from_slice(text.as_bytes())?)
        }
    }
}
