//! Formats, reads and checks by locale sources, for people at a command line.
#![tactic(auto)]

mod answers;
mod outcome;
mod scripts;
mod writing;
mod wrong_bytes;

use crate::outcome::outcome_of;
use crate::writing::{ended, told_of_words};
use std::io::IsTerminal;
use std::process::ExitCode;
use std::{env, io};

fn main(rt: HostRuntime) -> ExitCode {
    let is_watched = rt.stderr().is_terminal();
    let status = match command_words(&rt) {
        Ok(words) => ended(&rt, &outcome_of(&rt, words.as_slice(), is_watched)),
        Err(error) => told_of_words(&rt, &error),
    };
    ExitCode::from(status)
}

/// The words of the command line, the program's name first.
fn command_words(rt: &HostRuntime) -> io::Result<Vec<String>> {
    let mut words = Vec::new(rt.alloc());
    for word in env::args(rt)? {
        words.push(word)?;
    }
    Ok(words)
}
