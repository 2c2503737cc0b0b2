//! Words and texts that are wrong.

ghost use Rattle.std.specs.Prelude.{◌≡◌, IfOk, true, false};
ghost use Rattle.tool_messages.specs.Message.{BeginsWith, fault_line};
ghost use Rattle.tool_decimals.specs.Lines.{IsOf};
ghost use Rattle.tool_decimals.specs.Told.{IsToldBy, column};

use crate::decimal::MOST_DIGITS;
use lc_base::{ByteText, push_number};
use std::alloc::{AllocError, Global};
use tool_messages::{Problem, Spot, push_fault, push_word};

/// What a number is.
const NUMBER: &[u8] =
    b"a number is 1 to 100 digits, perhaps behind a `-`, and perhaps a point with digits on both sides\n";

/// What a whole number is.
const WHOLE: &[u8] =
    b"`%d`, `%i` and `%u` take a whole number from -9223372036854775808 to 18446744073709551615; `%f` takes a decimal\n";

/// The problem of a word that is no number: which byte of it is wrong, or that it is too long.
pub fn number_cause(alloc: Global, word: &[u8]) -> Problem
    ensures { IsOf result true }
{
    usage(number_message(alloc, word))
}

/// The problem of a word that is no whole number where one is wanted.
pub fn whole_cause(alloc: Global, word: &[u8]) -> Problem
    ensures { IsOf result true }
{
    usage(whole_message(alloc, word))
}

fn usage(message: Result<ByteText, AllocError>) -> Problem
    ensures { IsOf result true }
{
    match message {
        Ok(message) => Problem::Usage(message),
        Err(_) => Problem::Memory,
    }
}

fn number_message(alloc: Global, word: &[u8]) -> Result<ByteText, AllocError> {
    let mut message = head(alloc, word)?;
    match wrong_byte(word) {
        Some(at) if at < word.len() => {
            message.extend_from_slice(b"byte ")?;
            push_number(&mut message, at as u128 + 1)?;
            message.extend_from_slice(b" is no digit; ")?;
        }
        Some(_) => message.extend_from_slice(b"a digit is missing; ")?,
        None if word.len() > MOST_DIGITS => message.extend_from_slice(b"it is too long; ")?,
        None => {}
    }
    message.extend_from_slice(NUMBER)?;
    Ok(ByteText::from_vec(message))
}

fn whole_message(alloc: Global, word: &[u8]) -> Result<ByteText, AllocError> {
    let mut message = head(alloc, word)?;
    message.extend_from_slice(WHOLE)?;
    Ok(ByteText::from_vec(message))
}

/// What a message begins with that tells of a word.
fn head(alloc: Global, word: &[u8]) -> Result<Vec<u8>, AllocError> {
    let mut message = Vec::new(alloc);
    message.extend_from_slice(b"locale_tool: ")?;
    push_word(&mut message, word)?;
    message.extend_from_slice(b": ")?;
    Ok(message)
}

/// The place of the first byte where a digit is wanted and none stands, which may be the end.
fn wrong_byte(word: &[u8]) -> Option<usize> {
    let mut is_wanted = true;
    let mut has_point = false;
    for (at, byte) in word.iter().enumerate() {
        if byte.is_ascii_digit() {
            is_wanted = false;
        } else if *byte == b'.' && !is_wanted && !has_point {
            has_point = true;
            is_wanted = true;
        } else if *byte != b'-' || at > 0 {
            return Some(at);
        }
    }
    if is_wanted { Some(word.len()) } else { None }
}

/// The problem of a word at one of its bytes, counted from 0.
pub fn spot_problem(
    alloc: Global,
    name: &[u8],
    word: &[u8],
    at: usize,
    reason: &[u8],
    rule: &[u8],
) -> Problem
    ensures of { IsOf result false }
    ensures told { IsToldBy (fault_line name.now 1 (column at) reason.now rule.now) result }
{
    match spot_message(alloc, name, word, at, reason, rule) {
        Ok(message) => Problem::Refused(message),
        Err(_) => Problem::Memory,
    }
}

/// The message of a fault of a word at one of its bytes.
fn spot_message(
    alloc: Global,
    name: &[u8],
    word: &[u8],
    at: usize,
    reason: &[u8],
    rule: &[u8],
) -> Result<ByteText, AllocError>
    ensures { IfOk result (λ message. BeginsWith (fault_line name.now 1 (column at) reason.now rule.now) message) }
{
    let mut message = Vec::new(alloc);
    let spot = Spot {
        file: name,
        line: 1,
        column: column(at),
        source: word,
    };
    push_fault(&mut message, &spot, reason, rule)?;
    Ok(ByteText::from_vec(message))
}

/// The column of a byte, from 1; the greatest number stands for those above it.
fn column(at: usize) -> u32
    ensures { result ≡ column at }
{
    u32::try_from(at).unwrap_or(u32::MAX).saturating_add(1)
}
