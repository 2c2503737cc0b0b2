//! Operands (XBD 7.3.1).

ghost use Rattle.std.specs.Prelude.{◌≡◌, ℕ, ◌+◌, ◌<◌, ◌≤◌, ◌∷◌, Ok, length, drop, option_map, IfOk, IfSome, IsTrue};
ghost use Rattle.lc_base.specs.Reading.{Gives, Fails};
ghost use Rattle.src_lines.specs.Places.{place_at, place_from, line_at};
ghost use Rattle.src_lines.specs.Rows.{line_of};
ghost use Rattle.src_lines.specs.Atoms.{items_from};
ghost use Rattle.src_lines.specs.declared.atom.Atom.TheVariants.{Bare};
ghost use Rattle.src_lines.specs.Tokens.{skip, opens, operand, separated, too_many, operands, operands_after, tokens};

use crate::atom::next_atom;
use crate::line::{Line, Operand};
use crate::shape::shape_of;
use crate::text::{RunEnd, has_bare, run, text};
use crate::{LineStart, Lines, LogicalLine, advanced, blanks, next_word};
use lc_base::{ByteText, Limit, List, Place, Reason, TextFault};
use std::alloc::Global;

/// How many operands a line has at most.
pub const MAX_OPERANDS: u32 = 65536;

/// Where the blanks from a byte of a line on end.
pub fn skip_blanks(row: &LogicalLine<'_>, at: usize) -> usize
    requires { at ≤ length row.now.bytes.now }
    ensures is { items_from (line_of row.now) result ≡ skip (items_from (line_of row.now) at) }
    ensures forward { at ≤ result }
    ensures within { result ≤ length row.now.bytes.now }
{
    let (_, rest) = row.bytes.split_at(at);
    at + blanks(rest)
}

/// Whether a text in quotes begins at a byte of a line.
fn opens(row: &LogicalLine<'_>, at: usize) -> bool
    requires { at ≤ length row.now.bytes.now }
    ensures is { result ≡ opens (items_from (line_of row.now) at) }
    ensures next { IsTrue result → items_from (line_of row.now) at ≡ record { place = place_at (line_of row.now) at; atom = Ok (Bare 34) } ∷ items_from (line_of row.now) (at + 1) }
    ensures within { IsTrue result → at < length row.now.bytes.now }
{
    if at == row.bytes.len() {
        return false;
    }
    if row.bytes[at] != b'"' {
        return false;
    }
    row.signs.escape != b'"'
}

/// The operand at a byte of a line, and where it ends.
fn operand_at(
    alloc: Global,
    row: &LogicalLine<'_>,
    at: usize,
) -> Result<(Operand, usize), TextFault>
    requires { at ≤ length row.now.bytes.now }
    ensures is { Gives (λ x. (x.0, items_from (line_of row.now) x.1)) result (operand (items_from (line_of row.now) at)) }
    ensures within { IfOk result (λ x. x.1 ≤ length row.now.bytes.now) }
    ensures forward { IfOk result (λ x. at ≤ x.1) }
{
    if opens(row, at) {
        let (pieces, end) = text(alloc, row, at, at + 1)?;
        return Ok((Operand::Quoted(pieces), end));
    }
    let (atoms, end) = run(alloc, row, RunEnd::AtSeparator, at)?;
    Ok((shape_of(alloc, atoms)?, end))
}

/// The operand at a byte of a line, and where the next one is to come, if `;` follows.
fn separated(
    alloc: Global,
    row: &LogicalLine<'_>,
    at: usize,
) -> Result<(Operand, Option<usize>), TextFault>
    requires { at ≤ length row.now.bytes.now }
    ensures is { Gives (λ x. (x.0, option_map (items_from (line_of row.now)) x.1)) result (separated (items_from (line_of row.now) at)) }
    ensures within { IfOk result (λ x. IfSome x.1 (λ k. k ≤ length row.now.bytes.now)) }
    ensures forward { IfOk result (λ x. IfSome x.1 (λ k. at ≤ k)) }
{
    let (operand, end) = operand_at(alloc, row, at)?;
    let end = skip_blanks(row, end);
    let Some((read, next)) = next_atom(alloc, row, end)? else {
        return Ok((operand, None));
    };
    if !has_bare(b';', &read) {
        return Err(TextFault::At(row.place_at(end), Reason::WrongOperand));
    }
    Ok((operand, Some(next)))
}

/// The fault of one operand too many, at this byte: a fault at its very place goes before that.
fn too_many(alloc: Global, row: &LogicalLine<'_>, at: usize) -> TextFault
    requires { at ≤ length row.now.bytes.now }
    ensures { Fails result (too_many (place_at (line_of row.now) at) (operand (items_from (line_of row.now) at))) }
{
    let place = row.place_at(at);
    match operand_at(alloc, row, at) {
        Err(TextFault::Memory) => TextFault::Memory,
        Err(TextFault::At(other, reason)) if other == place => TextFault::At(other, reason),
        _ => TextFault::At(place, Reason::OverLimit(Limit::Operands)),
    }
}

/// The operands of a line, where one is to come at this byte.
fn operands_at(
    alloc: Global,
    row: &LogicalLine<'_>,
    start: usize,
) -> Result<Vec<(Place, Operand)>, TextFault>
    requires { start ≤ length row.now.bytes.now }
    ensures { Gives (λ v. v.items) result (operands MAX_OPERANDS (place_at (line_of row.now) (length row.now.bytes.now)) (items_from (line_of row.now) start)) }
{
    let mut found = Vec::new(alloc);
    let mut mark = LineStart {
        line: row.line,
        at: 0,
        next: 0,
    };
    let mut at = start;
    for _ in 0..MAX_OPERANDS {
        at = skip_blanks(row, at);
        mark = advanced(row.joins, mark, at);
        let (operand, next) = separated(alloc, row, at)?;
        found.push((mark.place(at), operand))?;
        match next {
            Some(next) => at = next,
            None => return Ok(found),
        }
    }
    Err(too_many(alloc, row, skip_blanks(row, at)))
}

/// The operands of a line whose keyword ends at this byte.
fn operands_after(
    alloc: Global,
    row: &LogicalLine<'_>,
    at: usize,
) -> Result<Vec<(Place, Operand)>, TextFault>
    requires { at ≤ length row.now.bytes.now }
    ensures { Gives (λ v. v.items) result (operands_after (place_at (line_of row.now) (length row.now.bytes.now)) (skip (items_from (line_of row.now) at))) }
{
    let start = skip_blanks(row, at);
    if start == row.bytes.len() {
        return Ok(Vec::new(alloc));
    }
    operands_at(alloc, row, start)
}

/// The keyword and the operands of a line.
#[tactic(auto, unfolding(crate::specs::Tokens::tokens))]
fn tokens_of(alloc: Global, row: &LogicalLine<'_>) -> Result<Line, TextFault>
    ensures { Gives (λ line. line) result (tokens (line_of row.now)) }
{
    let keyword = next_word(row.bytes);
    let end = keyword.skipped + keyword.text.len();
    let operands = List::of(operands_after(alloc, row, end)?);
    Ok(Line {
        place: row.place_at(keyword.skipped),
        keyword: ByteText::of(alloc, keyword.text)?,
        operands,
    })
}

/// The keyword and the operands of the line with this number, counted from 0 (XBD 7.3.1).
///
/// The fault is the one at the least place: `BadEscape`, `OpenString`, `OpenName`, `WrongOperand`
/// where an operand is followed by neither `;` nor the end, and `OverLimit` at the 65537th operand.
pub fn tokens(alloc: Global, lines: &Lines, i: usize) -> Result<Line, TextFault>
    requires { i < length lines.now }
    ensures { Gives (λ line. line) result (tokens (line_at lines.now i)) }
{
    tokens_of(alloc, &lines.row(i))
}
