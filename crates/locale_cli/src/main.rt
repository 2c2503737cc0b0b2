//! Runs a bundle of locales and a script, and prints one line for each command.
#![tactic(auto)]

mod answer;
mod concurrent;
mod make_command;
#[cfg(test)]
mod pauses;
mod pieces;
mod request;
mod top;
mod words;

use crate::answer::Status;
use crate::top::top;
use lc_base::{ByteText, StdSink, StdSource};
use script_seats::NoPause;
use std::alloc::Global;
use std::process::ExitCode;
use std::rt::Env;
use std::sync::Wait;
use std::thread::Threads;
use std::{env, io};

fn main(rt: HostRuntime) -> ExitCode {
    let status = match command_words(&rt) {
        Ok(words) => over_streams(&rt, words.as_slice()),
        Err(error) if error.kind() == io::ErrorKind::OutOfMemory => Status::Memory,
        Err(_) => over_streams(&rt, &[]),
    };
    ExitCode::from(status.code())
}

/// The words of the command line behind the program's name.
fn command_words(rt: &(impl Env + AllocGlobal)) -> io::Result<Vec<ByteText>> {
    let mut words = Vec::new(rt.alloc());
    for word in env::args(rt)?.skip(1) {
        words.push(ByteText::from_vec(word.into_bytes()))?;
    }
    Ok(words)
}

/// Runs the program over the standard streams.
fn over_streams(
    rt: &(impl Input + Print + AllocGlobal + Threads + Wait + Sync),
    words: &[ByteText],
) -> Status {
    let mut source = StdSource::new(rt.reader());
    let mut sink = StdSink::new(io::writer(rt));
    top(rt, rt.alloc(), words, &mut source, &mut sink, &NoPause)
}
