//! The sections of a source that a command reads.

ghost use Rattle.std.specs.Prelude.{◌≡◌, ◌+◌, ◌<◌, ◌≤◌, ◌^◌, ◌++◌, length, IfOk, OnOk};
ghost use Rattle.lc_base.specs.Lines.{lines_of, ended};
ghost use Rattle.tool_files.specs.Parts.{kept_line, kept_last};

use lc_base::{ByteText, Category, ended_line};
use src_lines::{Kind, Lines, ends_head, split_front};
use std::alloc::{AllocError, Global};

/// Lines of a text by their numbers, from 1: those from `start` on, and before `end`.
#[derive(Clone, Copy)]
struct Cut {
    start: u32,
    end: u32,
}

/// A text in which each section of another category than these has empty lines, so that each line keeps its
/// number. From a section without an end on, and from a wrong head line on, it stays as it is.
pub fn with_categories(
    alloc: Global,
    text: ByteText,
    categories: &[Category],
) -> Result<ByteText, AllocError>
    ensures numbered { IfOk result (λ kept. length (lines_of kept) ≡ length (lines_of text)) }
{
    if text.as_bytes().len() >= 2_147_483_648 {
        return Ok(text);
    }
    let (lines, _) = split_front(alloc, text.as_bytes(), 1, Kind::Locale)?;
    let cuts = other_sections(alloc, &lines, categories)?;
    without(alloc, text.as_bytes(), cuts.as_slice())
}

/// The lines of the sections of other categories than these, in order.
fn other_sections(
    alloc: Global,
    lines: &Lines,
    categories: &[Category],
) -> Result<Vec<Cut>, AllocError> {
    let mut cuts = Vec::new(alloc);
    let mut i = 0;
    while i < lines.len() {
        i = behind_part(lines, i, categories, &mut cuts)?;
    }
    Ok(cuts)
}

/// The number of the logical line behind the section that a line opens, or behind the line where it opens none.
/// Adds the section, if it is of another category than these.
fn behind_part(
    lines: &Lines,
    i: usize,
    categories: &[Category],
    cuts: &mut Vec<Cut>,
) -> Result<usize, AllocError>
    requires within { i < length lines.now }
    requires fits { i + 1 < 2 ^ 64 }
    ensures { IfOk result (λ next. (i < next) × (next ≤ length lines.now)) }
{
    let (name, second) = lines.first_words(i);
    if !ends_head(Kind::Locale, name, second) {
        return Ok(i + 1);
    }
    let Some(end) = lines.closing(name, i + 1) else {
        return Ok(lines.len());
    };
    if !has_name(categories, name) {
        cuts.push(Cut {
            start: lines.place(i).line,
            end: line_at(lines, end + 1),
        })?;
    }
    Ok(end + 1)
}

/// The number of the line of the text in which a logical line begins, or the greatest one behind all of them.
fn line_at(lines: &Lines, i: usize) -> u32 {
    if i < lines.len() {
        lines.place(i).line
    } else {
        u32::MAX
    }
}

/// Whether one of these categories has a name.
fn has_name(categories: &[Category], name: &[u8]) -> bool {
    for category in categories {
        if category.name() == name {
            return true;
        }
    }
    false
}

/// A text with empty lines in place of these, which are in order and apart.
fn without(alloc: Global, text: &[u8], cuts: &[Cut]) -> Result<ByteText, AllocError>
    ensures { IfOk result (λ kept. length (lines_of kept) ≡ length (lines_of text.now)) }
{
    let mut kept = Vec::new(alloc);
    let mut left = cuts;
    let mut number = 1u32;
    let mut rest = text;
    while let Some((line, following)) = ended_line(rest) {
        left = from_line(left, number);
        push_line(&mut kept, line, is_cut(left, number))?;
        number = number.saturating_add(1);
        rest = following;
    }
    push_last(&mut kept, rest, is_cut(from_line(left, number), number))?;
    Ok(ByteText::from_vec(kept))
}

/// Adds a line, or an empty one in its place.
fn push_line(kept: &mut Vec<u8>, line: &[u8], is_cut: bool) -> Result<(), AllocError>
    ensures { OnOk result (kept.new.items ≡ kept.old.items ++ ended (kept_line is_cut line.now)) }
{
    if !is_cut {
        kept.extend_from_slice(line)?;
    }
    kept.extend_from_slice(b"\n")
}

/// Adds the last line, which lacks its newline, or an empty one in its place.
fn push_last(kept: &mut Vec<u8>, line: &[u8], is_cut: bool) -> Result<(), AllocError>
    ensures { OnOk result (kept.new.items ≡ kept.old.items ++ kept_last is_cut line.now) }
{
    match line {
        [] => Ok(()),
        _ if is_cut => kept.extend_from_slice(b"\n"),
        _ => kept.extend_from_slice(line),
    }
}

/// The cuts that end behind the start of a line, where those of earlier lines are gone.
fn from_line(cuts: &[Cut], number: u32) -> &[Cut] {
    match cuts {
        [first, later @ ..] if first.end <= number => later,
        _ => cuts,
    }
}

/// Whether a line is in the first cut.
fn is_cut(cuts: &[Cut], number: u32) -> bool {
    match cuts {
        [first, ..] => first.start <= number,
        [] => false,
    }
}
