//! Headers of sections.

ghost use Rattle.std.specs.Prelude.{◌≡◌, ◌+◌, ◌-◌, ◌<◌, ◌≤◌, ◌^◌, ◌++◌, length, drop, IfOk, OnOk};
ghost use Rattle.std.specs.List.{list_any};
ghost use Rattle.src_lines.specs.Places.{Logical, line_at};
ghost use Rattle.tool_check.specs.Findings.{behind, belonging, header_finding, is_standard, is_unknown, opens_section, unknown_findings, without_return};

use crate::finding::{Finding, Oddity};
use crate::returns::ends_with_return;
use src_lines::{Kind, Lines, ends_head};
use std::alloc::AllocError;

/// Adds the first header of a section that the standard does not have, if there is one.
#[tactic(auto, using(crate::proofs::HeaderLemmas::unknown_first, crate::proofs::HeaderLemmas::other_step, crate::proofs::HeaderLemmas::at_end))]
pub fn push_unknown(found: &mut Vec<Finding>, lines: &Lines) -> Result<(), AllocError>
    ensures { OnOk result (found.new.items ≡ found.old.items ++ unknown_findings 0 lines.now) }
{
    let mut i = 0;
    while i < lines.len() {
        if is_unknown(lines, i) {
            found.push(header_finding(lines, i))?;
            return Ok(());
        }
        i = behind_line(lines, i);
    }
    Ok(())
}

/// The finding of a header.
fn header_finding(lines: &Lines, i: usize) -> Finding
    requires { i < length lines.now }
    ensures { result ≡ header_finding (line_at lines.now i) }
{
    Finding {
        place: lines.place(i),
        oddity: Oddity::UnknownSection,
    }
}

/// Whether a line opens a section that the standard does not have.
fn is_unknown(lines: &Lines, i: usize) -> bool
    requires { i < length lines.now }
    ensures { result ≡ is_unknown (line_at lines.now i) }
{
    let (name, _) = lines.first_words(i);
    opens_section(lines, i) && !is_standard(name)
}

/// The number of the line behind a line, and behind the section that it may open.
fn behind_line(lines: &Lines, i: usize) -> usize
    requires within { i < length lines.now }
    requires fits { i + 1 < 2 ^ 64 }
    ensures is { result ≡ i + 1 + behind (line_at lines.now i) (drop (i + 1) lines.now) }
    ensures within { (i < result) × (result ≤ length lines.now) }
{
    if opens_section(lines, i) {
        behind_section(lines, i)
    } else {
        i + 1
    }
}

/// Whether a line opens a section.
fn opens_section(lines: &Lines, i: usize) -> bool
    requires { i < length lines.now }
    ensures { result ≡ opens_section (line_at lines.now i) }
{
    let (first, second) = lines.first_words(i);
    ends_head(Kind::Locale, first, second)
}

/// The number of the line behind the section that a line opens, or behind the line where the section has no end.
fn behind_section(lines: &Lines, i: usize) -> usize
    requires within { i < length lines.now }
    requires fits { i + 1 < 2 ^ 64 }
    ensures is { result ≡ i + 1 + belonging (line_at lines.now i) (drop (i + 1) lines.now) }
    ensures within { (i < result) × (result ≤ length lines.now) }
{
    let (name, _) = lines.first_words(i);
    match lines.closing(name, i + 1) {
        Some(end) => end + 1,
        None => i + 1,
    }
}

/// Whether a name is that of a section of the standard (XBD 7.3), a CR at its end left out.
fn is_standard(name: &[u8]) -> bool
    ensures { result ≡ is_standard name.now }
{
    let name = without_return(name);
    name == b"LC_CTYPE".as_slice()
        || name == b"LC_COLLATE".as_slice()
        || name == b"LC_MESSAGES".as_slice()
        || name == b"LC_MONETARY".as_slice()
        || name == b"LC_NUMERIC".as_slice()
        || name == b"LC_TIME".as_slice()
}

/// A word without the CR at its end.
fn without_return(word: &[u8]) -> &[u8]
    ensures { result.now ≡ without_return word.now }
{
    if ends_with_return(word) {
        return &word[..word.len() - 1];
    }
    word
}
