//! What is told of a fault.

use crate::copies::push_missing_copy;
use crate::counts::operand_count;
use crate::eras::push_era;
use crate::operands::{push_takes, push_wrong_operand};
use crate::parts::{first_operand, from_column, push_named, word_at};
use crate::phrases::{Phrase, phrase_of};
use lc_base::{ByteText, Reason, next_line, push_number};
use reason_rules::{name_of, rule_of};
use std::alloc::AllocError;

/// A fault at its place.
#[derive(Clone, Copy)]
pub struct Shown<'a> {
    /// The text of the file.
    pub text: &'a [u8],
    /// The number of the line, from 1, and the line.
    pub line: u32,
    pub source: &'a [u8],
    /// The byte in the line, from 1.
    pub column: u32,
    pub reason: Reason,
    /// The file of the locale that is copied there, and the folders in which it was looked for.
    pub copied: Option<&'a [u8]>,
    pub folders: &'a [ByteText],
}

/// Adds what is wrong with what stands at the place of a fault, by its name and value, and then the rule.
pub fn push_told(out: &mut Vec<u8>, shown: &Shown<'_>) -> Result<(), AllocError> {
    let part = from_column(shown.source, shown.column);
    let keyword = keyword_of(shown);
    match shown.reason {
        Reason::WrongOperand => push_wrong_operand(out, shown.source, shown.column, keyword),
        Reason::BadNumber => push_value(out, keyword, part),
        Reason::WrongCount => push_text_count(out, keyword, operand_count(shown.text, shown.line)),
        Reason::BadEra => push_era(out, first_operand(part)),
        Reason::EmptyRadix => push_rule(
            out,
            keyword,
            b" is empty; it must have at least one character",
        ),
        Reason::BadCurrency => push_currency(out, keyword, part),
        Reason::CopyMissing => {
            let section = section_of(shown);
            push_missing_copy(
                out,
                first_operand(part),
                section,
                shown.copied,
                shown.folders,
            )
        }
        Reason::UnknownKeyword => push_unknown_keyword(out, section_of(shown), word_at(part, 0)),
        Reason::NoEnd => push_no_end(out, word_at(part, 0)),
        Reason::BadFormat(_) => push_no_conversion(out, part),
        _ => push_phrase(out, shown.reason, part),
    }
}

/// Adds a phrase with what stands at the place, and the rule.
fn push_phrase(out: &mut Vec<u8>, reason: Reason, part: &[u8]) -> Result<(), AllocError> {
    match phrase_of(reason) {
        Phrase::Alone(text) => out.extend_from_slice(text)?,
        Phrase::Around(front, behind) => {
            out.extend_from_slice(front)?;
            push_named(out, first_operand(part))?;
            out.extend_from_slice(behind)?;
        }
    }
    out.extend_from_slice(b"; ")?;
    out.extend_from_slice(rule_of(name_of(reason)).as_bytes())
}

/// Adds a keyword, and what is wrong with it.
fn push_rule(out: &mut Vec<u8>, keyword: &[u8], rule: &[u8]) -> Result<(), AllocError> {
    push_named(out, keyword)?;
    out.extend_from_slice(rule)
}

fn push_value(out: &mut Vec<u8>, keyword: &[u8], part: &[u8]) -> Result<(), AllocError> {
    push_rule(out, keyword, b" has ")?;
    push_named(out, first_operand(part))?;
    push_takes(out, keyword)
}

/// Adds how many texts a keyword has, and what it takes.
fn push_text_count(out: &mut Vec<u8>, keyword: &[u8], count: u64) -> Result<(), AllocError> {
    push_rule(out, keyword, b" has ")?;
    push_number(out, u128::from(count))?;
    out.extend_from_slice(if count == 1 { b" text" } else { b" texts" })?;
    push_takes(out, keyword)
}

fn push_currency(out: &mut Vec<u8>, keyword: &[u8], part: &[u8]) -> Result<(), AllocError> {
    push_rule(out, keyword, b" is ")?;
    push_named(out, first_operand(part))?;
    out.extend_from_slice(b"; it must have 4 bytes, or none")
}

/// Adds that a section, or what is outside of sections, has no such keyword.
fn push_unknown_keyword(out: &mut Vec<u8>, section: &[u8], word: &[u8]) -> Result<(), AllocError> {
    if section.is_empty() {
        push_named(out, word)?;
        return out.extend_from_slice(
            b" stands outside of sections; each line there must be a comment, a sign line or the header of a section",
        );
    }
    push_named(out, section)?;
    out.extend_from_slice(b" has no keyword ")?;
    push_named(out, word)?;
    out.extend_from_slice(b"; each line of a section must begin with a keyword of its category")
}

/// Adds that a `%` begins no conversion.
fn push_no_conversion(out: &mut Vec<u8>, part: &[u8]) -> Result<(), AllocError> {
    push_named(out, first_conversion(part))?;
    out.extend_from_slice(b" begins no conversion; ")?;
    out.extend_from_slice(rule_of("BadFormat").as_bytes())
}

/// What a `%` begins: up to a letter that is no modifier, or to the end of the text.
fn first_conversion(part: &[u8]) -> &[u8] {
    let mut length = 0usize;
    for byte in part {
        if *byte == b'"' {
            return &part[..length.min(part.len())];
        }
        length = length.saturating_add(1);
        if byte.is_ascii_alphabetic() && *byte != b'E' && *byte != b'O' {
            return &part[..length.min(part.len())];
        }
    }
    part
}

/// Adds which end is lacking.
fn push_no_end(out: &mut Vec<u8>, word: &[u8]) -> Result<(), AllocError> {
    if word.starts_with(b"LC_") || word == b"CHARMAP".as_slice() {
        push_named(out, word)?;
        out.extend_from_slice(b" has no end; a line `END ")?;
        out.extend_from_slice(word)?;
        return out.extend_from_slice(b"` must follow");
    }
    if word.starts_with(b".") {
        push_named(out, word)?;
        return out.extend_from_slice(b" has no end; a line `.end` must follow");
    }
    out.extend_from_slice(
        b"there is no line `CHARMAP`; a charmap must have one, and a line `END CHARMAP`",
    )
}

/// The keyword of the line: the first word of the first of the lines that are joined there.
fn keyword_of<'a>(shown: &Shown<'a>) -> &'a [u8] {
    let mut rest = shown.text;
    let mut first: &[u8] = b"";
    let mut is_joined = false;
    for _ in 0..shown.line {
        match next_line(rest) {
            Some((line, following)) => {
                if !is_joined {
                    first = line;
                }
                is_joined = joins_next(line);
                rest = following;
            }
            None => return word_at(first, 0),
        }
    }
    word_at(first, 0)
}

/// Whether a line seems to be joined with the next one.
fn joins_next(line: &[u8]) -> bool {
    match line {
        [.., last] => *last == b'\\' || *last == b'/',
        [] => false,
    }
}

/// The section in which the line stands; empty where it stands in none.
fn section_of<'a>(shown: &Shown<'a>) -> &'a [u8] {
    let mut rest = shown.text;
    let mut section: &[u8] = b"";
    let mut is_joined = false;
    for _ in 1..shown.line {
        match next_line(rest) {
            Some((line, following)) => {
                if !is_joined {
                    section = section_behind(section, word_at(line, 0));
                }
                is_joined = joins_next(line);
                rest = following;
            }
            None => return section,
        }
    }
    section
}

/// The section in which the line stands behind one with this first word.
fn section_behind<'a>(section: &'a [u8], word: &'a [u8]) -> &'a [u8] {
    if word.starts_with(b"LC_") && section.is_empty() {
        return word;
    }
    if word == b"END".as_slice() {
        return b"";
    }
    section
}
