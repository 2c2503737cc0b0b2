//! What is wrong with the operands of `LC_TIME` (our own rules).

ghost use Rattle.std.specs.Prelude.{◌≡◌, ◌+◌, ◌≤◌, length, count_by, None, Some, IfOk, IfErr};
ghost use Rattle.std.specs.List.{list_any};
ghost use Rattle.lc_base.specs.Reading.{Gives};
ghost use Rattle.time_cat.specs.Formats.{pieces, is_conversion, has_rank, bad_place};
ghost use Rattle.time_cat.specs.Faults.{byte_place, format_reason, segment_reason, list_reason, operand_reason, most_digits, most_bytes, operands_checked, is_wrong_count, line_checked, checked};

use crate::segment::segment_of;
use crate::step::{Step, step_here};
use crate::takes::{fixed_count, takes_of};
use keywords::{Entry, Rule, ValueRef, Values, text_count, text_fault, unless};
use lc_base::{Limit, Reason, TextFault};

/// The most conversions of a format.
const CONVERSIONS: usize = 16;

/// The most alternative digits.
const DIGITS: usize = 100;

/// The most bytes of a list, with a separator behind each text.
const LIST_BYTES: usize = 4097;

/// The conversions of a format.
#[derive(Clone, Copy)]
struct Survey {
    conversions: usize,
    /// Whether one is of a rank or above.
    ranked: bool,
}

/// The conversions of a format, or where a `%` stands that begins none.
#[tactic(auto, using(crate::proofs::StepLemmas::rest_at_start))]
fn surveyed(rank: u8, format: &[u8]) -> Result<Survey, usize>
    ensures whole { IfOk result (λ s. bad_place (pieces format.now) ≡ None) }
    ensures count { IfOk result (λ s. s.conversions ≡ count_by is_conversion (pieces format.now)) }
    ensures ranked { IfOk result (λ s. s.ranked ≡ list_any (has_rank rank) (pieces format.now)) }
    ensures bad { IfErr result (λ at. bad_place (pieces format.now) ≡ Some at) }
{
    let mut at = 0;
    let mut conversions = 0;
    let mut ranked = false;
    'reading: loop {
        match step_here(format, at) {
            Step::End => {
                return Ok(Survey {
                    conversions,
                    ranked,
                });
            }
            Step::Bad => return Err(at),
            Step::Byte(_) => at += 1,
            Step::Conv {
                rank: found,
                next,
                ..
            } => {
                conversions += 1;
                ranked = ranked || rank <= found;
                at = next;
            }
        }
    }
}

/// A byte of a text, counted from 0.
fn byte_place(n: usize) -> u32
    ensures { result ≡ byte_place n }
{
    n.min(u32::MAX as usize) as u32
}

/// What is wrong with a format of this rank that stands behind so many bytes of its text.
#[tactic(auto, unfolding(crate::specs::Faults::format_reason))]
fn format_reason(before: usize, rank: u8, format: &[u8]) -> Option<Reason>
    ensures { result ≡ format_reason before rank format.now }
{
    match surveyed(rank, format) {
        Err(at) => Some(Reason::BadFormat(byte_place(before.saturating_add(at)))),
        Ok(Survey { conversions, .. }) if conversions > CONVERSIONS => {
            Some(Reason::OverLimit(Limit::Conversions))
        }
        Ok(Survey { ranked, .. }) if ranked => Some(Reason::FormatRank),
        Ok(_) => None,
    }
}

/// What is wrong with a segment of an era.
fn segment_reason(text: &[u8]) -> Option<Reason>
    ensures { result ≡ segment_reason text.now }
{
    match segment_of(text) {
        None => Some(Reason::BadEra),
        Some(segment) => {
            let before = text.len().saturating_sub(segment.format.len());
            format_reason(before, 1, segment.format)
        }
    }
}

/// What is wrong with a text that has no room left in its list.
fn list_reason(room: usize, text: &[u8]) -> Option<Reason>
    ensures { result ≡ list_reason room text.now }
{
    if room <= text.len() {
        Some(Reason::OverLimit(Limit::Texts))
    } else {
        None
    }
}

/// What is wrong with a text where so many more may come, with so many bytes.
fn operand_reason(takes: Rule, left: usize, room: usize, text: &[u8]) -> Option<Reason>
    ensures { result ≡ operand_reason takes left room text.now }
{
    match takes {
        Rule::Format(rank) => format_reason(0, rank, text),
        Rule::Segments => match list_reason(room, text) {
            None => segment_reason(text),
            Some(reason) => Some(reason),
        },
        Rule::Digits if left == 0 => Some(Reason::TooManyDigits),
        Rule::Digits => list_reason(room, text),
        _ => text_fault(takes, text),
    }
}

/// Checks the operands of a keyword, from left to right.
fn check_operands(takes: Rule, values: &Values) -> Result<(), TextFault>
    ensures { Gives (λ _. tt) result (operands_checked takes most_digits most_bytes values.now) }
{
    let mut walk = values.walk();
    let mut left = DIGITS;
    let mut room = LIST_BYTES;
    while let Some((place, value)) = walk.next() {
        if let ValueRef::Text(text) = value {
            unless(place, operand_reason(takes, left, room, text))?;
            left = left.saturating_sub(1);
            room = room.saturating_sub(text.len()).saturating_sub(1);
        }
    }
    Ok(())
}

/// Whether a number of texts is not the one that is fixed.
fn is_wrong_count(fixed: Option<usize>, count: usize) -> bool
    ensures { result ≡ is_wrong_count fixed count }
{
    match fixed {
        None => false,
        Some(fixed) => fixed != count,
    }
}

/// Checks a line: the number of its texts first.
#[tactic(auto, unfolding(crate::specs::Faults::line_checked))]
fn check_line(entry: &Entry) -> Result<(), TextFault>
    ensures { Gives (λ _. tt) result (line_checked entry.now) }
{
    match takes_of(entry.keyword.as_bytes()) {
        None => Ok(()),
        Some(takes) => {
            if is_wrong_count(fixed_count(takes), text_count(&entry.values)) {
                return Err(TextFault::At(entry.place, Reason::WrongCount));
            }
            check_operands(takes, &entry.values)
        }
    }
}

/// Checks the lines in their order.
pub fn check(entries: &[Entry]) -> Result<(), TextFault>
    ensures { Gives (λ _. tt) result (checked entries.now) }
{
    for entry in entries {
        check_line(entry)?;
    }
    Ok(())
}
