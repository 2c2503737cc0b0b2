//! The command that words give, and its arguments.

use crate::rows::{COMMANDS, CommandRow, ToolCommand};
use crate::standard_input::is_read_once;
use clap::ArgMatches;
use std::alloc::Global;
use tool_messages::{Problem, When, when_of};
use tool_reads::usage_problem;

/// The command that words give, with what its arguments are given.
pub fn command_given<'a, 'b>(
    alloc: Global,
    matches: &'a ArgMatches<'b>,
) -> Result<(ToolCommand, &'a ArgMatches<'b>), Problem> {
    if let Some((name, given)) = matches.subcommand() {
        if !is_read_once(given) {
            return Err(usage_problem(alloc, b"-", b"standard input can be read once"));
        }
        if let Some(command) = command_named(&COMMANDS, name) {
            let _colours = colours_given(alloc, given)?;
            return Ok((command, given));
        }
    }
    Err(usage_problem(alloc, b"COMMAND", b"a command is wanted"))
}

/// When messages have colours, as words say.
pub fn colours_given(alloc: Global, given: &ArgMatches<'_>) -> Result<When, Problem> {
    match given.get_str("color") {
        None => Ok(When::Auto),
        Some(word) => match when_of(word) {
            Some(when) => Ok(when),
            None => Err(usage_problem(
                alloc,
                word.as_bytes(),
                b"`--color` takes always, auto or never",
            )),
        },
    }
}

/// The command with a name among rows.
fn command_named(rows: &[CommandRow], name: &str) -> Option<ToolCommand> {
    for row in rows {
        if row.name == name {
            return Some(row.command);
        }
    }
    None
}

/// The word with a name; empty where it is not given.
pub fn word<'a>(matches: &'a ArgMatches<'_>, name: &str) -> &'a str {
    match matches.get_str(name) {
        Some(word) => word,
        None => "",
    }
}

/// The words with a name.
pub fn strs<'a>(matches: &'a ArgMatches<'_>, name: &str) -> &'a [&'a str] {
    matches.get_strs(name).unwrap_or(&[])
}
