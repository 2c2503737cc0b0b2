//! Formats and texts that are refused.

ghost use Rattle.std.specs.Prelude.{◌≡◌, ℕ, List, ◌∷◌, [], ◌++◌, IfSome, Result, Ok, Err};
ghost use Rattle.lc_base.specs.declared.refusal.FormatRefusal.{FormatRefusal};
ghost use Rattle.tool_reads.specs.Answers.{Answers, IsOf, NoAnswer, Tells, line_of};

use lc_base::{ByteText, FormatRefusal};
use reason_rules::rule_of;
use std::alloc::{AllocError, Global};
use tool_messages::{Problem, Spot, push_fault};

/// The most bytes that a command prints of a format.
pub const TEXT_MOST: usize = 1_048_576;

/// The problem of a format that has no answer, and of the text that is read by it, if one is.
pub fn problem_of(alloc: Global, format: &[u8], text: &[u8], refusal: FormatRefusal) -> Problem
    ensures { IsOf result NoAnswer }
{
    match refusal {
        FormatRefusal::BadFormat { at } => {
            spot_problem(alloc, b"FORMAT", format, at, "BadFormat")
        }
        FormatRefusal::MissingAmount { at } => {
            spot_problem(alloc, b"FORMAT", format, at, "MissingAmount")
        }
        FormatRefusal::MissingNumber { at } => {
            spot_problem(alloc, b"FORMAT", format, at, "MissingNumber")
        }
        FormatRefusal::Mismatch { at } => spot_problem(alloc, b"TEXT", text, at, "Mismatch"),
        FormatRefusal::TooBig => size_problem(alloc),
    }
}

/// The problem of a format that has no text; without a refusal it was out of memory.
#[tactic(auto, using(crate::proofs::AnswerLemmas::told))]
pub fn text_problem(alloc: Global, format: &[u8], refusal: Option<FormatRefusal>) -> Problem
    ensures { (answer : Result (List ℕ) FormatRefusal) → IfSome refusal (λ why. answer ≡ Err why) → Tells result (line_of answer) }
{
    match refusal {
        Some(refusal) => problem_of(alloc, format, &[], refusal),
        None => Problem::Memory,
    }
}

/// The problem of a word of the command line at one of its bytes, counted from 0.
fn spot_problem(alloc: Global, name: &[u8], word: &[u8], at: usize, reason: &str) -> Problem
    ensures { IsOf result NoAnswer }
{
    match spot_message(alloc, name, word, at, reason) {
        Ok(message) => Problem::Refused(message),
        Err(_) => Problem::Memory,
    }
}

fn spot_message(
    alloc: Global,
    name: &[u8],
    word: &[u8],
    at: usize,
    reason: &str,
) -> Result<ByteText, AllocError> {
    let mut message = Vec::new(alloc);
    let spot = Spot {
        file: name,
        line: 1,
        column: column_of(at),
        source: word,
    };
    push_fault(
        &mut message,
        &spot,
        reason.as_bytes(),
        rule_of(reason).as_bytes(),
    )?;
    Ok(ByteText::from_vec(message))
}

/// The column of a byte that is counted from 0.
fn column_of(at: usize) -> u32 {
    match u32::try_from(at) {
        Ok(at) => at.saturating_add(1),
        Err(_) => u32::MAX,
    }
}

/// The problem of a text that is too long.
fn size_problem(alloc: Global) -> Problem
    ensures { IsOf result NoAnswer }
{
    match size_message(alloc) {
        Ok(message) => Problem::Refused(message),
        Err(_) => Problem::Memory,
    }
}

fn size_message(alloc: Global) -> Result<ByteText, AllocError> {
    let mut message = Vec::new(alloc);
    message.extend_from_slice(b"locale_tool: TooBig: ")?;
    message.extend_from_slice(rule_of("TooBig").as_bytes())?;
    message.extend_from_slice(b", here 1048576\n")?;
    Ok(ByteText::from_vec(message))
}

/// A text with a newline behind it.
pub fn with_newline(text: ByteText) -> Result<ByteText, Problem>
    ensures { Answers (λ line. line) result (Ok (text ++ 10 ∷ [])) }
{
    let mut bytes = text.into_vec();
    bytes.push(b'\n')?;
    Ok(ByteText::from_vec(bytes))
}
