//! Segments of eras that are not formed as one (XBD 7.3.5.2, era).

use crate::parts::push_named;
use lc_base::{cut_at, few_digits};
use std::alloc::AllocError;

/// The rule.
const RULE: &[u8] = b"; a text of `era` must be direction:offset:start:end:name:format";

/// Adds which part of a text of `era` is wrong, as far as its bytes stand there as they are.
pub fn push_era(out: &mut Vec<u8>, operand: &[u8]) -> Result<(), AllocError> {
    let text = without_quotes(operand);
    match wrong_part(text) {
        Some(wrong) => {
            out.extend_from_slice(wrong.name)?;
            out.extend_from_slice(b" ")?;
            push_named(out, wrong.part)?;
            out.extend_from_slice(wrong.rule)?;
        }
        None => {
            push_named(out, operand)?;
            out.extend_from_slice(b" is no segment of an era")?;
        }
    }
    out.extend_from_slice(RULE)
}

fn without_quotes(operand: &[u8]) -> &[u8] {
    match operand {
        [b'"', text @ .., b'"'] => text,
        _ => operand,
    }
}

/// A part that is wrong.
#[derive(Clone, Copy)]
struct WrongPart<'a> {
    name: &'static [u8],
    part: &'a [u8],
    rule: &'static [u8],
}

fn wrong<'a>(name: &'static [u8], part: &'a [u8], rule: &'static [u8]) -> Option<WrongPart<'a>> {
    Some(WrongPart { name, part, rule })
}

/// The first part of a segment that is wrong; `None` where none is, or one is lacking.
fn wrong_part(text: &[u8]) -> Option<WrongPart<'_>> {
    let (direction, rest) = cut_at(b':', text)?;
    if direction != b"+".as_slice() && direction != b"-".as_slice() {
        return wrong(b"the direction", direction, b" is neither + nor -");
    }
    let (offset, rest) = cut_at(b':', rest)?;
    if few_digits(4, offset).is_none() {
        return wrong(
            b"the offset",
            offset,
            b" is no number of one to four digits",
        );
    }
    wrong_end(rest)
}

/// The first wrong part from the start of a segment on.
fn wrong_end(text: &[u8]) -> Option<WrongPart<'_>> {
    let (start, rest) = cut_at(b':', text)?;
    if !is_date(start) {
        return wrong(b"the start", start, DATE_RULE);
    }
    let (end, rest) = cut_at(b':', rest)?;
    if end != b"-*".as_slice() && end != b"+*".as_slice() && !is_date(end) {
        return wrong(b"the end", end, END_RULE);
    }
    let (_, _) = cut_at(b':', rest)?;
    None
}

const DATE_RULE: &[u8] =
    b" is no date that a calendar has, as 2019/5/1: a year of one to four digits, a month from 1 to 12 and a day from 1 to 31";

const END_RULE: &[u8] =
    b" is neither -* nor +* nor a date that a calendar has, as 2019/5/1: a year of one to four digits, a month from 1 to 12 and a day from 1 to 31";

/// Whether a text is a date.
fn is_date(text: &[u8]) -> bool {
    match date_parts(text) {
        Some((year, month, day)) => {
            few_digits(4, year).is_some() && is_within(month, 12) && is_within(day, 31)
        }
        None => false,
    }
}

/// The year without its sign, the month and the day.
fn date_parts(text: &[u8]) -> Option<(&[u8], &[u8], &[u8])> {
    let (year, rest) = cut_at(b'/', text)?;
    let (month, day) = cut_at(b'/', rest)?;
    Some((year.strip_prefix(b"-").unwrap_or(year), month, day))
}

fn is_within(text: &[u8], most: u32) -> bool {
    match few_digits(2, text) {
        Some(number) => 1 <= number && number <= most,
        None => false,
    }
}
