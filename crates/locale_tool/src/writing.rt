//! What the program writes.

use crate::outcome::Outcome;
use crate::wrong_bytes::message_of_words;
use std::io::{self, Write};
use tool_messages::{Answer, Problem};

/// Says that standard output failed.
const NO_OUTPUT: &[u8] = b"locale_tool: standard output could not be written\n";

/// The status where the reader of a stream closed it: what a shell has for a program that SIGPIPE ends.
const UNREAD: u8 = 141;

/// The status where a stream could not be written.
const UNWRITTEN: u8 = 3;

/// Says why the words of the command line cannot be read.
pub fn told_of_words(rt: &HostRuntime, error: &io::Error) -> u8 {
    if error.kind() == io::ErrorKind::OutOfMemory {
        failed(rt, &Problem::Memory)
    } else {
        match message_of_words(rt, rt.alloc()) {
            Ok(message) => told(rt, 2, message.as_bytes()),
            Err(_) => failed(rt, &Problem::Memory),
        }
    }
}

/// Writes what comes out: the status that the program ends with.
pub fn ended(rt: &HostRuntime, outcome: &Outcome) -> u8 {
    match outcome {
        Outcome::Answered(answer) => both_written(rt, answer),
        Outcome::Failed(problem) => failed(rt, problem),
        Outcome::Shown(status) => *status,
        Outcome::Unwritten(error) => unwritten(rt, error),
    }
}

fn failed(rt: &HostRuntime, problem: &Problem) -> u8 {
    told(rt, problem.status(), problem.message())
}

/// Writes an answer to standard output, and its messages to standard error.
fn both_written(rt: &HostRuntime, answer: &Answer) -> u8 {
    match io::writer(rt).write_all(answer.output.as_bytes()) {
        Ok(()) => told(rt, answer.status, answer.messages.as_bytes()),
        Err(error) => unwritten(rt, &error),
    }
}

/// Says that standard output could not be written, unless its reader closed it: the status.
fn unwritten(rt: &HostRuntime, error: &io::Error) -> u8 {
    match unwritten_status(error) {
        UNREAD => UNREAD,
        status => told(rt, status, NO_OUTPUT),
    }
}

/// Writes a message to standard error: the status, or that of a stream that could not be written.
fn told(rt: &HostRuntime, status: u8, message: &[u8]) -> u8 {
    match rt.stderr().write_all(message) {
        Ok(()) => status,
        Err(error) => unwritten_status(&error),
    }
}

/// The status where a stream could not be written.
fn unwritten_status(error: &io::Error) -> u8 {
    if error.kind() == io::ErrorKind::BrokenPipe {
        UNREAD
    } else {
        UNWRITTEN
    }
}
