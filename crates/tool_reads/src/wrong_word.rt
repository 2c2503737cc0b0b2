//! Words of the command line that are wrong.

ghost use Rattle.std.specs.Prelude.{◌≡◌};
ghost use Rattle.tool_reads.specs.Answers.{IsOf, WrongWord, NoAnswer};

use lc_base::ByteText;
use reason_rules::rule_of;
use std::alloc::{AllocError, Global};
use tool_messages::{Problem, push_word};

/// The problem of a word, with what is wanted.
pub fn usage_problem(alloc: Global, word: &[u8], wanted: &[u8]) -> Problem
    ensures { IsOf result WrongWord }
{
    match message_of(alloc, word, wanted) {
        Ok(message) => Problem::Usage(message),
        Err(_) => Problem::Memory,
    }
}

/// The problem of a word that the locale does not know, with the rule of the reason.
pub fn unknown_problem(alloc: Global, word: &[u8], reason: &str) -> Problem
    ensures { IsOf result NoAnswer }
{
    match ruled_message(alloc, word, reason) {
        Ok(message) => Problem::Refused(message),
        Err(_) => Problem::Memory,
    }
}

fn ruled_message(alloc: Global, word: &[u8], reason: &str) -> Result<ByteText, AllocError> {
    let mut told = Vec::new(alloc);
    told.extend_from_slice(reason.as_bytes())?;
    told.extend_from_slice(b": ")?;
    told.extend_from_slice(rule_of(reason).as_bytes())?;
    message_of(alloc, word, told.as_slice())
}

fn message_of(alloc: Global, word: &[u8], wanted: &[u8]) -> Result<ByteText, AllocError> {
    let mut message = Vec::new(alloc);
    message.extend_from_slice(b"locale_tool: ")?;
    push_word(&mut message, word)?;
    message.extend_from_slice(b": ")?;
    message.extend_from_slice(wanted)?;
    message.extend_from_slice(b"\n")?;
    Ok(ByteText::from_vec(message))
}
