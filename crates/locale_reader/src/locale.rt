//! Locale sources (XBD 7.3).

ghost use Rattle.std.specs.Prelude.{◌≡◌, [], ◌+◌, ◌-◌, ◌^◌, ◌<◌, ◌≤◌, length, take, drop, IfOk};
ghost use Rattle.lc_base.specs.Reading.{Gives};
ghost use Rattle.src_lines.specs.Words.{first_word};
ghost use Rattle.src_lines.specs.Places.{line_at};
ghost use Rattle.locale_reader.specs.Source.{opens_section, has_section, with_section, section_from, outside, sections_of, source};

use crate::keyword_line::read_body;
use charset::Charset;
use keywords::{LocaleSource, Section};
use lc_base::{Category, List, Place, Reason, TextFault, category_named};
use src_lines::{Kind, Lines, ends_head, split_front, tokens};
use std::alloc::Global;

/// Whether a line opens a section.
fn opens_section(lines: &Lines, i: usize) -> bool
    requires { i < length lines.now }
    ensures { result ≡ opens_section (line_at lines.now i) }
{
    let (first, second) = lines.first_words(i);
    ends_head(Kind::Locale, first, second)
}

/// Whether a section of this category is among these.
fn has_section(sections: &[Section], category: Category) -> bool
    ensures { result ≡ has_section sections.now category }
{
    sections
        .iter()
        .any(|section| section.category.bit() == category.bit())
}

/// Adds the section whose header has this place and whose lines are those from `start` up to
/// `end`. A section of no category that is read is passed over.
#[tactic(auto, unfolding(crate::specs::Source::with_section))]
fn add_section(
    alloc: Global,
    charset: &Charset,
    sections: Vec<Section>,
    category: Option<Category>,
    place: Place,
    lines: &Lines,
    start: usize,
    end: usize,
) -> Result<Vec<Section>, TextFault>
    requires order { start ≤ end }
    requires within { end ≤ length lines.now }
    ensures { Gives (λ v. v.items) result (with_section charset.now sections.items place (take (end - start) (drop start lines.now)) category) }
{
    let Some(category) = category else {
        return Ok(sections);
    };
    if has_section(&sections, category) {
        return Err(TextFault::At(place, Reason::SectionTwice));
    }
    let body = read_body(alloc, category, charset, lines, start, end)?;
    let mut sections = sections;
    sections.push(Section {
        category,
        place,
        body,
    })?;
    Ok(sections)
}

/// The sections with the one whose header is a line, and the number of the line behind it.
fn read_section(
    alloc: Global,
    charset: &Charset,
    sections: Vec<Section>,
    lines: &Lines,
    i: usize,
) -> Result<(Vec<Section>, usize), TextFault>
    requires within { i < length lines.now }
    requires fits { i + 1 < 2 ^ 64 }
    ensures is { Gives (λ x. (x.0.items, x.1 - (i + 1))) result (section_from charset.now sections.items (line_at lines.now i) (drop (i + 1) lines.now)) }
    ensures within { IfOk result (λ x. (i < x.1) × (x.1 ≤ length lines.now)) }
{
    let (name, _) = lines.first_words(i);
    let Some(end) = lines.closing(name, i + 1) else {
        return Err(TextFault::At(lines.place(i), Reason::NoEnd));
    };
    let category = category_named(name);
    let sections = add_section(
        alloc,
        charset,
        sections,
        category,
        lines.place(i),
        lines,
        i + 1,
        end,
    )?;
    Ok((sections, end + 1))
}

/// The sections with the one that a line opens, and the number of the line behind it.
#[tactic(auto, unfolding(crate::specs::Source::outside))]
fn after_line(
    alloc: Global,
    charset: &Charset,
    sections: Vec<Section>,
    lines: &Lines,
    i: usize,
) -> Result<(Vec<Section>, usize), TextFault>
    requires within { i < length lines.now }
    requires fits { i + 1 < 2 ^ 64 }
    ensures is { Gives (λ x. (x.0.items, x.1 - (i + 1))) result (outside charset.now sections.items (line_at lines.now i) (drop (i + 1) lines.now)) }
    ensures within { IfOk result (λ x. (i < x.1) × (x.1 ≤ length lines.now)) }
{
    if opens_section(lines, i) {
        return read_section(alloc, charset, sections, lines, i);
    }
    let line = tokens(alloc, lines, i)?;
    Err(TextFault::At(line.place, Reason::UnknownKeyword))
}

/// The sections of lines.
fn sections_of(alloc: Global, charset: &Charset, lines: &Lines) -> Result<Vec<Section>, TextFault>
    ensures { Gives (λ v. v.items) result (sections_of charset.now [] 0 lines.now) }
{
    let mut sections = Vec::new(alloc);
    let mut i = 0;
    while i < lines.len() {
        let (more, next) = after_line(alloc, charset, sections, lines, i)?;
        sections = more;
        i = next;
    }
    Ok(sections)
}

/// Reads a locale source whose first line has the number `first_line` (XBD 7.3).
///
/// The refusal is the first broken rule. In a head line it is `WrongOperand`; in another line outside
/// of sections what [`Lines::tokens`] refuses, then `UnknownKeyword`; at the header of a section
/// `NoEnd` and `SectionTwice`; in a keyword line what [`Lines::tokens`] refuses, then `UnknownKeyword`, `KeywordTwice` and `CopyNotAlone` at the
/// keyword, then at the operands `WrongOperand`, `UnknownCharacter` and `OverLimit` at a text of
/// more than 256 bytes.
#[tactic(auto, unfolding(crate::specs::Source::source))]
pub fn read_locale(
    alloc: Global,
    text: &[u8],
    first_line: u32,
    charset: &Charset,
) -> Result<LocaleSource, TextFault>
    requires text_size { length text.now < 2 ^ 31 }
    requires line_size { first_line < 2 ^ 31 }
    ensures { Gives (λ source. source) result (source text.now first_line charset.now) }
{
    let (lines, fault) = split_front(alloc, text, first_line, Kind::Locale)?;
    let sections = sections_of(alloc, charset, &lines)?;
    match fault {
        None => Ok(LocaleSource {
            sections: List::of(sections),
        }),
        Some((place, reason)) => Err(TextFault::At(place, reason)),
    }
}
