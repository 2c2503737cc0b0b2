//! Keyword lines of a section (XBD 7.3).

ghost use Rattle.std.specs.Prelude.{◌≡◌, ◌-◌, ◌<◌, ◌≤◌, length, take, drop};
ghost use Rattle.std.specs.List.{list_any};
ghost use Rattle.lc_base.specs.Reading.{Gives};
ghost use Rattle.src_lines.specs.Places.{line_at};
ghost use Rattle.locale_reader.specs.Opened.{is_copy, nothing};
ghost use Rattle.locale_reader.specs.Section.{operands_of, taken, allowed, is_passed_over, keyword_line, keyword_lines, copies_category, body};

use crate::character::members;
use crate::opened::{Opened, is_charclass, is_copy};
use crate::value::{copied_name, one, several};
use charset::Charset;
use keywords::{Body, Operands, Values, takes_of};
use lc_base::{Category, Reason, TextFault};
use src_lines::{Line, Lines, tokens};
use std::alloc::Global;

/// What a keyword takes: that of the table, or for a declared class characters.
fn operands_of(category: Category, opened: &Opened, name: &[u8]) -> Option<Operands>
    ensures { result ≡ operands_of category opened.now name.now }
{
    match takes_of(category, name) {
        Some(operands) => Some(operands),
        None if opened.is_declared(name) => Some(Operands::Characters),
        None => None,
    }
}

/// Whether a line is not read.
fn is_passed_over(operands: Option<Operands>) -> bool
    ensures { result ≡ is_passed_over operands }
{
    match operands {
        Some(Operands::PassedOver) => true,
        None
        | Some(Operands::Copied | Operands::Characters | Operands::One(_) | Operands::Several(_)) =>
            false,
    }
}

/// With what a line adds whose keyword takes these operands.
#[tactic(auto, unfolding(crate::specs::Section::taken))]
fn taken(
    alloc: Global,
    charset: &Charset,
    opened: Opened,
    line: Line,
    operands: Operands,
) -> Result<Opened, TextFault>
    ensures { Gives (λ opened. opened) result (taken charset.now opened line operands) }
{
    let given = line.operands.as_slice();
    match operands {
        Operands::Copied => {
            let (place, name) = copied_name(alloc, charset, line.place, given)?;
            Ok(opened.with_copy(place, name))
        }
        Operands::Characters => {
            let values = members(alloc, charset, given)?;
            Ok(opened.with_entry(alloc, line, values)?)
        }
        Operands::One(kind) => {
            let (place, value) = one(alloc, charset, kind, line.place, given)?;
            let values = Values::new(alloc).with(place, value)?;
            Ok(opened.with_entry(alloc, line, values)?)
        }
        Operands::Several(kind) => {
            let values = several(alloc, charset, kind, given)?;
            Ok(opened.with_entry(alloc, line, values)?)
        }
        Operands::PassedOver => Ok(opened),
    }
}

/// With a line, if its keyword is known, was not given before and does not stand beside `copy`.
#[tactic(auto, unfolding(crate::specs::Section::allowed))]
fn allowed(
    alloc: Global,
    charset: &Charset,
    copies: bool,
    opened: Opened,
    operands: Option<Operands>,
    line: Line,
) -> Result<Opened, TextFault>
    ensures { Gives (λ opened. opened) result (allowed charset.now copies opened operands line) }
{
    let Some(operands) = operands else {
        return Err(TextFault::At(line.place, Reason::UnknownKeyword));
    };
    let keyword = line.keyword.as_bytes();
    if opened.is_given(keyword) && !is_charclass(keyword) {
        return Err(TextFault::At(line.place, Reason::KeywordTwice));
    }
    if copies && opened.is_begun() {
        return Err(TextFault::At(line.place, Reason::CopyNotAlone));
    }
    taken(alloc, charset, opened, line, operands)
}

/// With one more line.
#[tactic(auto, unfolding(crate::specs::Section::keyword_line))]
fn keyword_line(
    alloc: Global,
    category: Category,
    charset: &Charset,
    copies: bool,
    opened: Opened,
    lines: &Lines,
    i: usize,
) -> Result<Opened, TextFault>
    requires { i < length lines.now }
    ensures { Gives (λ opened. opened) result (keyword_line category charset.now copies opened (line_at lines.now i)) }
{
    let (keyword, _) = lines.first_words(i);
    let operands = operands_of(category, &opened, keyword);
    if is_passed_over(operands) {
        return Ok(opened);
    }
    let line = tokens(alloc, lines, i)?;
    allowed(alloc, charset, copies, opened, operands, line)
}

/// Whether a line copies another locale's category.
fn copies_category(lines: &Lines, i: usize) -> bool
    requires { i < length lines.now }
    ensures { result ≡ copies_category (line_at lines.now i) }
{
    let (keyword, _) = lines.first_words(i);
    is_copy(keyword)
}

/// Whether one of the lines from `start` up to `end` copies another locale's category.
fn copies(lines: &Lines, start: usize, end: usize) -> bool
    requires order { start ≤ end }
    requires within { end ≤ length lines.now }
    ensures { result ≡ list_any copies_category (take (end - start) (drop start lines.now)) }
{
    for i in start..end {
        if copies_category(lines, i) {
            return true;
        }
    }
    false
}

/// What the lines from `start` up to `end` give.
fn keyword_lines(
    alloc: Global,
    category: Category,
    charset: &Charset,
    copies: bool,
    lines: &Lines,
    start: usize,
    end: usize,
) -> Result<Opened, TextFault>
    requires order { start ≤ end }
    requires within { end ≤ length lines.now }
    ensures { Gives (λ opened. opened) result (keyword_lines category charset.now copies nothing (take (end - start) (drop start lines.now))) }
{
    let mut opened = Opened::new(alloc);
    for i in start..end {
        opened = keyword_line(alloc, category, charset, copies, opened, lines, i)?;
    }
    Ok(opened)
}

/// What a section says whose lines are those from `start` up to `end`.
#[tactic(auto, unfolding(crate::specs::Section::body))]
pub fn read_body(
    alloc: Global,
    category: Category,
    charset: &Charset,
    lines: &Lines,
    start: usize,
    end: usize,
) -> Result<Body, TextFault>
    requires order { start ≤ end }
    requires within { end ≤ length lines.now }
    ensures { Gives (λ body. body) result (body category charset.now (take (end - start) (drop start lines.now))) }
{
    let copies = copies(lines, start, end);
    let opened = keyword_lines(alloc, category, charset, copies, lines, start, end)?;
    Ok(opened.into_body())
}
