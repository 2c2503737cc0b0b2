//! Charmaps (XBD 6.4).

ghost use Rattle.std.specs.Prelude.{◌≡◌, ◌+◌, ◌-◌, ◌^◌, [], ◌<◌, ◌≤◌, length, IfSome, position, take, drop, Some};
ghost use Rattle.lc_base.specs.Reading.{Gives};
ghost use Rattle.src_lines.specs.Places.{line_at};
ghost use Rattle.charmap_reader.specs.Charmap.{opens_body, headers, mapping, mappings, text_start, charset_of, front_charset, charmap};

use crate::body::add_line;
use crate::header::read_header;
use charset::{CharacterNames, Charset};
use lc_base::{ByteText, Place, Reason, TextFault};
use src_lines::{Kind, Lines, ends_head, fields, next_word, split_front};
use std::alloc::Global;

/// Whether a line is the one before the body.
fn opens_body(lines: &Lines, i: usize) -> bool
    requires { i < length lines.now }
    ensures { result ≡ opens_body (line_at lines.now i) }
{
    let (first, second) = lines.first_words(i);
    ends_head(Kind::Charmap, first, second)
}

/// The number of the line before the body.
fn opening(lines: &Lines) -> Option<usize>
    ensures is { result ≡ position opens_body lines.now }
    ensures within { IfSome result (λ k. k < length lines.now) }
    ensures fits { IfSome result (λ k. k + 1 < 2 ^ 64) }
{
    for i in 0..lines.len() {
        if opens_body(lines, i) {
            return Some(i);
        }
    }
    None
}

/// The code set name after the first `end` lines.
fn read_headers(
    alloc: Global,
    name: &[u8],
    lines: &Lines,
    end: usize,
) -> Result<ByteText, TextFault>
    requires { end ≤ length lines.now }
    ensures { Gives (λ name. name) result (headers name.now (take end lines.now)) }
{
    let mut set_name = ByteText::of(alloc, name)?;
    for i in 0..end {
        set_name = read_header(alloc, set_name, lines, i)?;
    }
    Ok(set_name)
}

/// Adds the names of a line of the body.
#[tactic(auto, unfolding(crate::specs::Charmap::mapping))]
fn read_line(
    alloc: Global,
    names: &mut CharacterNames,
    lines: &Lines,
    i: usize,
) -> Result<(), TextFault>
    requires { i < length lines.now }
    ensures { Gives (λ _. names.new) result (mapping names.old (line_at lines.now i)) }
{
    let (name, code) = fields(alloc, lines, i)?;
    add_line(alloc, names, &name, &code)
}

/// The names of the lines from `start` up to `end`.
fn read_body(
    alloc: Global,
    lines: &Lines,
    start: usize,
    end: usize,
) -> Result<CharacterNames, TextFault>
    requires order { start ≤ end }
    requires within { end ≤ length lines.now }
    ensures { Gives (λ names. names) result (mappings [] (take (end - start) (drop start lines.now))) }
{
    let mut names = CharacterNames::new(alloc);
    for i in start..end {
        read_line(alloc, &mut names, lines, i)?;
    }
    Ok(names)
}

/// The first word of a text, or the end of its first line.
fn text_start(text: &[u8], first_line: u32) -> Place
    requires { length text.now < 2 ^ 31 }
    ensures { result ≡ text_start text.now first_line }
{
    let blanks = next_word(text).skipped;
    Place {
        line: first_line,
        column: blanks as u32 + 1,
    }
}

/// The charset of a charmap's lines, where `begin` is the first place of the text.
fn read_lines(alloc: Global, name: &[u8], begin: Place, lines: &Lines) -> Result<Charset, TextFault>
    ensures { Gives (λ charset. charset) result (charset_of name.now begin lines.now (position opens_body lines.now)) }
{
    let Some(k) = opening(lines) else {
        return Err(TextFault::At(begin, Reason::NoEnd));
    };
    let set_name = read_headers(alloc, name, lines, k)?;
    let Some(end) = lines.closing(b"CHARMAP", k + 1) else {
        return Err(TextFault::At(lines.place(k), Reason::NoEnd));
    };
    let names = read_body(alloc, lines, k + 1, end)?;
    Ok(Charset::listed(alloc, set_name, names)?)
}

/// The fault of a charmap with a bad head line, which stands behind these lines.
fn head_fault(
    alloc: Global,
    name: &[u8],
    lines: &Lines,
    place: Place,
    reason: Reason,
) -> Result<Charset, TextFault>
    ensures { Gives (λ charset. charset) result (front_charset name.now place lines.now (Some (place, reason))) }
{
    read_headers(alloc, name, lines, lines.len())?;
    Err(TextFault::At(place, reason))
}

/// Reads a charmap whose first line has the number `first_line`. `name` is its name in the bundle,
/// and the code set name where the text gives none (XBD 6.4).
///
/// The refusal is the first broken rule: in header lines `BadHeader` and what [`Lines::tokens`]
/// refuses; `NoEnd` where the body has no begin or no end; in the body what [`Lines::fields`]
/// refuses, `RangeBackward`, `BadEncoding`, `OverLimit` at more than 65536 names, `NameTwice` and
/// `PortableMoved`. What follows the body is not read.
pub fn read_charmap(
    alloc: Global,
    name: &[u8],
    text: &[u8],
    first_line: u32,
) -> Result<Charset, TextFault>
    requires text_size { length text.now < 2 ^ 31 }
    requires line_size { first_line < 2 ^ 31 }
    ensures { Gives (λ charset. charset) result (charmap name.now text.now first_line) }
{
    let (lines, fault) = split_front(alloc, text, first_line, Kind::Charmap)?;
    match fault {
        None => read_lines(alloc, name, text_start(text, first_line), &lines),
        Some((place, reason)) => head_fault(alloc, name, &lines, place, reason),
    }
}
