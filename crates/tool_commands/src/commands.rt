//! The commands as the parser of words takes them.

use crate::rows::{ArgRow, COLOR, COMMANDS, CommandRow, LOCALE_ARGS, Takes, ToolCommand};
use clap::{Arg, ArgAction, Command};
use std::alloc::{AllocError, Global};

/// The program, with all of its commands.
pub fn tool_command<'a>(alloc: Global) -> Result<Command<'a>, AllocError> {
    let program = Command::new(alloc, "locale_tool")
        .version("1.0")
        .about("Formats, reads and checks by locale sources")
        .subcommand_required(true)
        .arg_required_else_help(true);
    with_commands(alloc, program, &COMMANDS)
}

/// A program with the commands of rows.
fn with_commands<'a>(
    alloc: Global,
    program: Command<'a>,
    rows: &[CommandRow],
) -> Result<Command<'a>, AllocError> {
    let mut program = program;
    for row in rows {
        program = program.subcommand(command_of(alloc, row)?)?;
    }
    Ok(program)
}

/// The command of a row.
fn command_of<'a>(alloc: Global, row: &CommandRow) -> Result<Command<'a>, AllocError> {
    let command = Command::new(alloc, row.name).about(row.about);
    let command = if reads_locale(row.command) {
        with_args(alloc, command, &LOCALE_ARGS)?
    } else {
        command
    };
    with_args(alloc, command, row.args)?.arg(arg_of(alloc, &COLOR)?)
}

/// Whether a command reads a locale, and so has the options that say which.
fn reads_locale(command: ToolCommand) -> bool {
    match command {
        ToolCommand::Locale(_) => true,
        ToolCommand::Check
        | ToolCommand::Import
        | ToolCommand::Explain
        | ToolCommand::Run
        | ToolCommand::Serial
        | ToolCommand::Compare
        | ToolCommand::Preview => false,
    }
}

/// A command with the arguments of rows.
fn with_args<'a>(
    alloc: Global,
    command: Command<'a>,
    rows: &[ArgRow],
) -> Result<Command<'a>, AllocError> {
    let mut command = command;
    for row in rows {
        command = command.arg(arg_of(alloc, row)?)?;
    }
    Ok(command)
}

/// The argument of a row.
fn arg_of<'a>(alloc: Global, row: &ArgRow) -> Result<Arg<'a>, AllocError> {
    let arg = Arg::new(alloc, row.name).help(row.help);
    match row.takes {
        Takes::Word => Ok(arg.value_name(row.name).required(true)),
        Takes::WordUnless(other) => word_unless(arg.value_name(row.name), other),
        Takes::MaybeWord => Ok(arg.value_name(row.name)),
        Takes::Words => Ok(words_arg(arg, row).num_args(0..)),
        Takes::SomeWords => Ok(words_arg(arg, row).required(true)),
        Takes::SomeWordsUnless(other) => words_arg(arg, row).required_unless_present(other),
        Takes::File(None) => Ok(file_arg(arg, row)),
        Takes::File(Some(letter)) => Ok(file_arg(arg, row).short(letter)),
        Takes::Folder(letter) => Ok(arg.long(row.name).short(letter).value_name("DIR")),
        Takes::Folders => Ok(
            arg.long(row.name)
                .value_name("DIR")
                .action(ArgAction::Append),
        ),
        Takes::When => Ok(arg.long(row.name).value_name("WHEN")),
        Takes::Text => Ok(
            arg.long(row.name)
                .value_name("TEXT")
                .allow_hyphen_values(true),
        ),
        Takes::Flag => Ok(arg.long(row.name).action(ArgAction::SetTrue)),
    }
}

/// An argument for a word that is not there beside another argument.
fn word_unless<'a>(arg: Arg<'a>, other: &'static str) -> Result<Arg<'a>, AllocError> {
    arg.required_unless_present(other)?.conflicts_with(other)
}

/// An argument for at least one word.
fn words_arg<'a>(arg: Arg<'a>, row: &ArgRow) -> Arg<'a> {
    arg.value_name(row.name)
        .num_args(1..)
        .action(ArgAction::Append)
        .allow_negative_numbers(true)
}

/// An argument for a file behind its name.
fn file_arg<'a>(arg: Arg<'a>, row: &ArgRow) -> Arg<'a> {
    arg.long(row.name).value_name("FILE")
}
