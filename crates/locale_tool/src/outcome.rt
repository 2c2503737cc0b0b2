//! How a run of the program comes out.

ghost use Rattle.std.specs.Prelude.{◌≡◌, if◌then◌else◌};

use crate::answers::answer_of;
use clap::Command;
use clap::error::ErrorKind;
use std::io;
use std::rt::{Env, Files};
use std::sync::Wait;
use std::thread::Threads;
use std::time::Clock;
use tool_commands::tool_command;
use tool_messages::{Answer, Problem};

/// How a run of the program comes out.
#[derive(Drop)]
pub enum Outcome {
    Answered(Answer),
    Failed(Problem),
    /// Help, the version or a mistake was shown, with this status.
    Shown(u8),
    /// Help, the version or a mistake could not be written.
    Unwritten(io::Error),
}

/// The outcome of the command that words name.
pub fn outcome_of<
    R: Files + Env + Clock + Print + Eprint + AllocGlobal + Clone + Drop + Threads + Wait + Sync,
>(rt: &R, words: &[String], is_watched: bool) -> Outcome {
    match tool_command(rt.alloc()) {
        Ok(command) => outcome_by(rt, command, words, is_watched),
        Err(_) => Outcome::Failed(Problem::Memory),
    }
}

fn outcome_by<
    'a,
    R: Files + Env + Clock + Print + Eprint + AllocGlobal + Clone + Drop + Threads + Wait + Sync,
>(rt: &R, command: Command<'a>, words: &'a [String], is_watched: bool) -> Outcome {
    match command.try_get_matches_from(words) {
        Ok(matches) => answered(answer_of(rt, rt.alloc(), &matches, is_watched)),
        Err(error) => shown(rt, &error),
    }
}

fn answered(answer: Result<Answer, Problem>) -> Outcome {
    match answer {
        Ok(answer) => Outcome::Answered(answer),
        Err(problem) => Outcome::Failed(problem),
    }
}

/// Shows help, the version, or what is wrong with the words.
fn shown<R: Print + Eprint>(rt: &R, error: &clap::Error) -> Outcome {
    if error.kind() == ErrorKind::OutOfMemory {
        return Outcome::Failed(Problem::Memory);
    }
    match error.print(rt) {
        Ok(()) => Outcome::Shown(shown_status(error.use_stderr())),
        Err(failure) => Outcome::Unwritten(failure),
    }
}

fn shown_status(is_mistake: bool) -> u8
    ensures { result ≡ (if is_mistake then 2 else 0) }
{
    if is_mistake { 2 } else { 0 }
}
