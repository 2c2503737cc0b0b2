//! The answers of the commands.

use crate::scripts::play_files;
use clap::ArgMatches;
use lc_base::ByteText;
use std::alloc::Global;
use std::rt::{Env, Files};
use std::sync::Wait;
use std::thread::Threads;
use std::time::Clock;
use tool_answers::{
    check_files, compare_locales, explain_given, import_files, preview_locales, read_locale,
};
use tool_commands::{ToolCommand, colours_given, command_given};
use tool_messages::{Answer, Problem, is_coloured, painted};

/// What the command answers that words give.
pub fn answer_of<
    R: Files + Env + Clock + Eprint + AllocGlobal + Clone + Drop + Threads + Wait + Sync,
>(rt: &R, alloc: Global, matches: &ArgMatches<'_>, is_watched: bool) -> Result<Answer, Problem> {
    let (command, given) = command_given(alloc, matches)?;
    let answer = plain_answer(rt, alloc, command, given, is_watched);
    if is_coloured(rt, colours_given(alloc, given)?, is_watched) {
        coloured(alloc, answer)
    } else {
        answer
    }
}

/// What a command answers with its words, without colours.
fn plain_answer<
    R: Files + Env + Clock + Eprint + AllocGlobal + Clone + Drop + Threads + Wait + Sync,
>(
    rt: &R,
    alloc: Global,
    command: ToolCommand,
    given: &ArgMatches<'_>,
    is_watched: bool,
) -> Result<Answer, Problem> {
    match command {
        ToolCommand::Locale(command) => read_locale(rt, alloc, command, given),
        ToolCommand::Check => check_files(rt, alloc, given, is_watched),
        ToolCommand::Import => import_files(rt, alloc, given),
        ToolCommand::Explain => answer_with(alloc, explain_given(alloc, given)),
        ToolCommand::Run => play_files(rt, alloc, given, true),
        ToolCommand::Serial => play_files(rt, alloc, given, false),
        ToolCommand::Compare => compare_locales(rt, alloc, given),
        ToolCommand::Preview => preview_locales(rt, alloc, given),
    }
}

/// An answer, or why there is none, with colours in what goes to standard error.
fn coloured(alloc: Global, answer: Result<Answer, Problem>) -> Result<Answer, Problem> {
    match answer {
        Ok(answer) => {
            let mut answer = answer;
            answer.messages = painted(alloc, answer.messages.as_bytes())?;
            Ok(answer)
        }
        Err(Problem::Refused(text)) => Err(Problem::Refused(painted(alloc, text.as_bytes())?)),
        Err(problem) => Err(problem),
    }
}

/// The answer with a text for standard output.
fn answer_with(alloc: Global, text: Result<ByteText, Problem>) -> Result<Answer, Problem> {
    match text {
        Ok(output) => Ok(Answer {
            status: 0,
            output,
            messages: ByteText::from_vec(Vec::new(alloc)),
        }),
        Err(problem) => Err(problem),
    }
}
