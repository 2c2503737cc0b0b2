//! Files as texts.

ghost use Rattle.std.specs.Prelude.{◌≡◌, IfOk, IfErr};
ghost use Rattle.tool_messages.specs.Status.{IsSpoken};
ghost use Rattle.tool_files.specs.Files.{unreadable};

use lc_base::{ByteText, ReadRefusal, Source, StdSource, read_all};
use std::alloc::{AllocError, Global};
use std::fs;
use std::io::ErrorKind;
use std::rt::Files;
use tool_messages::{Problem, push_word};

/// The most bytes of a file.
pub const FILE_LIMIT: usize = 16_777_216;

/// The bytes of a file.
pub fn file_text<R: Files>(rt: &R, alloc: Global, path: &str) -> Result<ByteText, Problem>
    ensures { IfErr result IsSpoken }
{
    if is_folder(rt, path) {
        return Err(unreadable(alloc, path, b"it is a directory"));
    }
    match fs::open(rt, path) {
        Ok(file) => opened_text(alloc, path, StdSource::new(file)),
        Err(error) => Err(unreadable(alloc, path, cause_of(error.kind()))),
    }
}

fn is_folder<R: Files>(rt: &R, path: &str) -> bool {
    match fs::metadata(rt, path) {
        Ok(found) => found.is_dir(),
        Err(_) => false,
    }
}

/// The bytes of an opened file.
fn opened_text<S: Source + Drop>(alloc: Global, path: &str, source: S) -> Result<ByteText, Problem>
    ensures { IfErr result IsSpoken }
{
    let mut source = source;
    match read_all(alloc, &mut source, FILE_LIMIT) {
        Ok(text) => Ok(text),
        Err(ReadRefusal::TooLarge) => Err(unreadable(
            alloc,
            path,
            b"it has more than 16777216 bytes",
        )),
        Err(ReadRefusal::ReadFault) => Err(unreadable(alloc, path, b"reading it failed")),
        Err(ReadRefusal::Memory) => Err(Problem::Memory),
    }
}

fn cause_of(kind: ErrorKind) -> &'static [u8] {
    match kind {
        ErrorKind::NotFound => b"there is no such file",
        ErrorKind::PermissionDenied => b"reading it is not allowed",
        ErrorKind::NotADirectory => b"a part of the path is no directory",
        _ => b"it cannot be opened",
    }
}

/// The problem of a file that cannot be read.
#[tactic(auto, using(crate::proofs::FileLemmas::unreadable_spoken))]
fn unreadable(alloc: Global, path: &str, cause: &[u8]) -> Problem
    ensures { IsSpoken result }
{
    match unreadable_message(alloc, path, cause) {
        Ok(message) => Problem::Refused(message),
        Err(_) => Problem::Memory,
    }
}

fn unreadable_message(alloc: Global, path: &str, cause: &[u8]) -> Result<ByteText, AllocError>
    ensures { IfOk result (λ message. message ≡ unreadable path.now cause.now) }
{
    let mut message = Vec::new(alloc);
    message.extend_from_slice(b"locale_tool: ")?;
    push_word(&mut message, path.as_bytes())?;
    message.extend_from_slice(b": ")?;
    message.extend_from_slice(cause)?;
    message.extend_from_slice(b"\n")?;
    Ok(ByteText::from_vec(message))
}
