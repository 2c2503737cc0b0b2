//! The formats of `LC_TIME`, and the alternative digits that they ask for.

use crate::format::{Digits, Style, parts, push_part, wanted_digits};
use gnu_read::{Content, Draft, DraftLine, DraftText, NoteCode, Notes, Origin};
use keywords::{Rule, rule_of};
use lc_base::Category;
use std::alloc::{AllocError, Global};

/// The keyword of alternative digits.
const ALT_DIGITS: &[u8] = b"alt_digits";

/// The keyword of the format of a time of 12 hours.
const HALF_DAY_CLOCK: &[u8] = b"t_fmt_ampm";

/// The rank of the format that a keyword takes, if it takes one.
fn rank_of(keyword: &[u8]) -> Option<u8> {
    match rule_of(Category::Time, keyword) {
        Some(Rule::Format(rank)) => Some(rank),
        _ => None,
    }
}

/// The texts of a line.
fn texts_of(line: &DraftLine) -> &[DraftText] {
    match &line.content {
        Content::Texts(texts) => texts.as_slice(),
        Content::Characters(_) | Content::Pairs(_) | Content::Words(_) => &[],
    }
}

/// Those digits of two that more conversions are written by.
fn preferred(first: Digits, second: Digits) -> Digits {
    match (first, second) {
        (Digits::Absent, digits) => digits,
        (digits, Digits::Absent) => digits,
        (Digits::Spaced, Digits::Spaced) => Digits::Spaced,
        _ => Digits::Bare,
    }
}

/// The digits that a format wants.
fn digits_for(alloc: Global, format: &[u8]) -> Result<Digits, AllocError> {
    let mut digits = Digits::Absent;
    for part in parts(alloc, format)? {
        digits = preferred(digits, wanted_digits(part));
    }
    Ok(digits)
}

/// The digits that the formats of a line want.
fn digits_in(alloc: Global, line: &DraftLine) -> Result<Digits, AllocError> {
    let mut digits = Digits::Absent;
    if rank_of(line.keyword.as_slice()).is_some() {
        for text in texts_of(line) {
            digits = preferred(digits, digits_for(alloc, text.bytes.as_slice())?);
        }
    }
    Ok(digits)
}

/// The digits that the formats of a locale may use.
fn digits_of(alloc: Global, draft: &Draft) -> Result<Digits, AllocError> {
    if draft.has(ALT_DIGITS) {
        return Ok(Digits::Own);
    }
    let mut digits = Digits::Absent;
    for line in &draft.lines {
        digits = preferred(digits, digits_in(alloc, line)?);
    }
    Ok(digits)
}

/// Whether the locale has a time of 12 hours: its format is there, and not empty.
fn has_half_days(draft: &Draft) -> bool {
    draft.lines.iter().any(|line| {
        line.keyword.as_slice() == HALF_DAY_CLOCK
            && texts_of(line).iter().any(|text| !text.bytes.is_empty())
    })
}

/// Adds the notes of a part of a format.
fn add_notes(
    at: Origin,
    codes: [Option<NoteCode>; 3],
    notes: &mut Notes,
) -> Result<(), AllocError> {
    for code in codes {
        if let Some(code) = code {
            notes.add(at, code)?;
        }
    }
    Ok(())
}

/// A format of the standard in place of one.
fn standard_format(
    alloc: Global,
    style: Style,
    text: &DraftText,
    notes: &mut Notes,
) -> Result<Vec<u8>, AllocError> {
    let mut format = Vec::new(alloc);
    for part in parts(alloc, text.bytes.as_slice())? {
        add_notes(text.at, push_part(&mut format, style, part)?, notes)?;
    }
    Ok(format)
}

/// Writes the formats of a line anew.
fn renew_line(
    alloc: Global,
    style: Style,
    line: &mut DraftLine,
    notes: &mut Notes,
) -> Result<(), AllocError> {
    if let Content::Texts(texts) = &mut line.content {
        for text in texts {
            text.bytes = standard_format(alloc, style, text, notes)?;
        }
    }
    Ok(())
}

/// The alternative digits from 0 to 99.
fn digit_texts(alloc: Global, at: Origin, digits: Digits) -> Result<Vec<DraftText>, AllocError> {
    let mut texts = Vec::new(alloc);
    for number in 0u8..100 {
        let mut bytes = Vec::new(alloc);
        if number >= 10 {
            bytes.push(b'0' + number / 10)?;
        } else if digits == Digits::Spaced {
            bytes.push(b' ')?;
        }
        bytes.push(b'0' + number % 10)?;
        texts.push(DraftText { at, bytes })?;
    }
    Ok(texts)
}

/// Adds alternative digits where formats want them.
fn add_digits(alloc: Global, digits: Digits, draft: &mut Draft) -> Result<(), AllocError> {
    let Some(first) = draft.lines.first() else {
        return Ok(());
    };
    let at = first.at;
    if digits == Digits::Own || digits == Digits::Absent {
        return Ok(());
    }
    let _is_taken = draft.add(DraftLine {
        keyword: Vec::from_slice(alloc, ALT_DIGITS)?,
        at,
        content: Content::Texts(digit_texts(alloc, at, digits)?),
    })?;
    Ok(())
}

/// Writes the formats of the lines of `LC_TIME` anew.
pub fn renew_times(alloc: Global, draft: &mut Draft, notes: &mut Notes) -> Result<(), AllocError> {
    let digits = digits_of(alloc, draft)?;
    let has_half_days = has_half_days(draft);
    for line in &mut draft.lines {
        if let Some(rank) = rank_of(line.keyword.as_slice()) {
            let style = Style {
                digits,
                rank,
                has_half_days,
            };
            renew_line(alloc, style, line, notes)?;
        }
    }
    add_digits(alloc, digits, draft)
}
