//! Where and why a library is not made.

ghost use Rattle.std.specs.Prelude.{◌≡◌, ◌++◌, position, codes, IfOk, OnErr};
ghost use Rattle.lc_base.specs.Lines.{is_newline};
ghost use Rattle.reason_rules.specs.Words.{reason_text};
ghost use Rattle.c_values.specs.Faults.{as_refusal, behind_line, behind_lines, line_length, message_of, part_fault, part_text, text_fault, wrong_code, IsRefused, IsTextTold, IsWrongTold};

use crate::answer::{
    BAD_NAME, BAD_TEXT, LobjAnswer, NAME_TWICE, NO_CHARMAP, TOO_LONG, TOO_MANY, answered,
};
use crate::buffer::put_text;
use lc_base::{ByteText, Place, Reason};
use library_parts::{LibraryPart, Wrong};
use reason_rules::{push_reason, row_of, rule_of_reason};
use std::alloc::{AllocError, Global};

/// Where and why a library is not made. C has `lobj_fault` for it.
#[repr(C)]
#[derive(Clone, Copy)]
pub struct LobjFault {
    /// The number of the part that is wrong, from 0.
    pub part: usize,
    /// The line in its text, from 1; 0 where it is not the text that is wrong.
    pub line: u32,
    /// The byte in the line, from 1; 0 where it is not the text that is wrong.
    pub column: u32,
    /// The number of the reason in the table of rules.
    pub reason: u32,
    /// Where the line begins in the text.
    pub start: usize,
    /// How many bytes the line has, without its newline.
    pub length: usize,
}

/// How many bytes the first line of a text has, without its newline.
fn line_length(text: &[u8]) -> usize
    ensures { result ≡ line_length text.now }
{
    match newline_at(text) {
        Some(at) => at,
        None => text.len(),
    }
}

/// Where the first newline stands.
fn newline_at(text: &[u8]) -> Option<usize>
    ensures { result ≡ position is_newline text.now }
{
    text.iter().position(|b| *b == b'\n')
}

/// What stands behind the first line of a text and its newline.
fn behind_line(text: &[u8]) -> &[u8]
    ensures { result.now ≡ behind_line text.now }
{
    let end = line_length(text).saturating_add(1).min(text.len());
    &text[end..]
}

/// What stands behind the first lines of a text.
fn behind_lines(text: &[u8], count: u32) -> &[u8]
    ensures { result.now ≡ behind_lines count text.now }
{
    let mut rest = text;
    let mut left = count;
    while left > 0 {
        rest = behind_line(rest);
        left -= 1;
    }
    rest
}

/// The fault of a part's text at a place.
fn text_fault(part: usize, text: &[u8], place: Place, reason: Reason) -> LobjFault
    ensures { result ≡ text_fault part text.now place reason }
{
    let rest = behind_lines(text, place.line.saturating_sub(1));
    LobjFault {
        part,
        line: place.line,
        column: place.column,
        reason: row_of(reason),
        start: text.len().saturating_sub(rest.len()),
        length: line_length(rest),
    }
}

/// The fault of a part whose text is not at fault.
fn part_fault(part: usize) -> LobjFault
    ensures { result ≡ part_fault part }
{
    LobjFault {
        part,
        line: 0,
        column: 0,
        reason: 0,
        start: 0,
        length: 0,
    }
}

/// A reason with its rule.
fn message_of(alloc: Global, reason: Reason, rule: &[u8]) -> Result<ByteText, AllocError>
    ensures { IfOk result (λ t. t ≡ message_of reason rule.now) }
{
    let mut text = Vec::new(alloc);
    push_reason(&mut text, reason)?;
    text.extend_from_slice(b": ")?;
    text.extend_from_slice(rule)?;
    Ok(ByteText::from_vec(text))
}

/// Puts a reason with its rule into a buffer, where it has room.
fn put_reason(alloc: Global, buffer: &mut [u8], reason: Reason) -> Result<LobjAnswer, AllocError>
    ensures told { IfOk result (λ a. IsRefused reason a buffer.old buffer.new) }
    ensures kept { OnErr result (buffer.new ≡ buffer.old) }
{
    let text = message_of(alloc, reason, rule_of_reason(reason).as_bytes())?;
    Ok(as_refusal(put_text(buffer, text.as_bytes())))
}

/// The answer to a text that is refused, where its message was put so.
fn as_refusal(put: LobjAnswer) -> LobjAnswer
    ensures { result ≡ as_refusal put }
{
    answered(BAD_TEXT, put.n)
}

/// Tells the fault of a part's text: its place, and into the buffer its reason and rule.
pub fn put_text_fault(
    alloc: Global,
    buffer: &mut [u8],
    fault: &mut LobjFault,
    part: usize,
    text: &[u8],
    place: Place,
    reason: Reason,
) -> Result<LobjAnswer, AllocError>
    ensures told { IfOk result (λ a. IsTextTold part text.now place reason a fault.new buffer.old buffer.new) }
    ensures kept { OnErr result (fault.new ≡ fault.old) }
    ensures untouched { OnErr result (buffer.new ≡ buffer.old) }
{
    let answer = put_reason(alloc, buffer, reason)?;
    *fault = text_fault(part, text, place, reason);
    Ok(answer)
}

/// The text of the part with a number; empty where there is none.
fn part_text(parts: &[LibraryPart], number: usize) -> &[u8]
    ensures { result.now ≡ part_text parts.now number }
{
    match parts.get(number) {
        Some(part) => part.text.as_bytes(),
        None => &[],
    }
}

/// The code of what is wrong with a part.
fn wrong_code(wrong: Wrong) -> u32
    ensures { result ≡ wrong_code wrong }
{
    match wrong {
        Wrong::TooLong => TOO_LONG,
        Wrong::BadName => BAD_NAME,
        Wrong::NameTwice => NAME_TWICE,
        Wrong::TooMany => TOO_MANY,
        Wrong::NoCharmap => NO_CHARMAP,
        Wrong::Text(_, _) => BAD_TEXT,
    }
}

/// Tells what is wrong with the part that has a number.
pub fn put_wrong(
    alloc: Global,
    buffer: &mut [u8],
    fault: &mut LobjFault,
    parts: &[LibraryPart],
    number: usize,
    wrong: Wrong,
) -> Result<LobjAnswer, AllocError>
    ensures told { IfOk result (λ a. IsWrongTold parts.now number wrong a fault.new buffer.old buffer.new) }
    ensures kept { OnErr result (fault.new ≡ fault.old) }
    ensures untouched { OnErr result (buffer.new ≡ buffer.old) }
{
    if let Wrong::Text(place, reason) = wrong {
        put_text_fault(
            alloc,
            buffer,
            fault,
            number,
            part_text(parts, number),
            place,
            reason,
        )
    } else {
        *fault = part_fault(number);
        Ok(answered(wrong_code(wrong), 0))
    }
}
