//! What is read of a source, with the locales that it copies.

use crate::compiled::sections_in;
use charset::Charset;
use keywords::{Body, Section};
use lc_base::{Block, ByteText, Category, List, Place, TextFault, category_named, next_line};
use std::alloc::{AllocError, Global};
use tool_words::word_at;

/// The keyword that copies the category of another locale.
const COPY: &[u8] = b"copy";

/// The name of a locale that the section of a category copies, with the place where it stands.
#[derive(Drop)]
pub struct CopiedName {
    pub category: Category,
    pub place: Place,
    pub name: ByteText,
}

/// What is read of a block.
#[derive(Drop)]
pub struct ReadBlock {
    /// Its sections; `None` where it is refused.
    pub sections: Option<List<Section>>,
    /// The names of the locales that it copies; where it is refused, those of its lines that begin with
    /// `copy`, which may be a guess.
    pub copied: Vec<CopiedName>,
}

/// Reads a block.
pub fn read_block(
    alloc: Global,
    block: &Block,
    charset: &Charset,
) -> Result<ReadBlock, AllocError> {
    match sections_in(alloc, block, charset) {
        Ok(sections) => Ok(ReadBlock {
            copied: names_in(alloc, sections.as_slice())?,
            sections: Some(sections),
        }),
        Err(TextFault::At(..)) => Ok(ReadBlock {
            copied: names_in_lines(alloc, block)?,
            sections: None,
        }),
        Err(TextFault::Memory) => Err(AllocError),
    }
}

/// The names of the locales that a block copies.
pub fn copied_names(
    alloc: Global,
    block: &Block,
    charset: &Charset,
) -> Result<Vec<CopiedName>, AllocError> {
    Ok(read_block(alloc, block, charset)?.copied)
}

/// The names of the locales that sections copy.
fn names_in(alloc: Global, sections: &[Section]) -> Result<Vec<CopiedName>, AllocError> {
    let mut names = Vec::new(alloc);
    for section in sections {
        push_name(alloc, &mut names, section)?;
    }
    Ok(names)
}

/// Adds the name of the locale that a section copies, if it copies.
fn push_name(
    alloc: Global,
    names: &mut Vec<CopiedName>,
    section: &Section,
) -> Result<(), AllocError> {
    match &section.body {
        Body::Copy(place, name) => {
            let name = ByteText::of(alloc, name.as_bytes())?;
            names.push(CopiedName {
                category: section.category,
                place: *place,
                name,
            })?;
            Ok(())
        }
        Body::Entries(_) => Ok(()),
    }
}

/// The names on the lines of a block that begin with `copy`, in sections of the five categories.
fn names_in_lines(alloc: Global, block: &Block) -> Result<Vec<CopiedName>, AllocError> {
    let mut names = Vec::new(alloc);
    let mut rest = block.text.as_bytes();
    let mut number = block.first_line;
    let mut inside = None;
    // a text has at most as many lines as bytes
    for _ in 0..block.text.as_bytes().len() {
        match next_line(rest) {
            Some((line, following)) => {
                inside = section_behind(inside, word_at(line, 0));
                push_name_in(alloc, &mut names, line, number, inside)?;
                number = number.saturating_add(1);
                rest = following;
            }
            None => return Ok(names),
        }
    }
    Ok(names)
}

/// The category of the section in which the line behind one with this first word stands, if it is one of the five.
fn section_behind(inside: Option<Category>, word: &[u8]) -> Option<Category> {
    if word.starts_with(b"LC_") {
        return category_named(word);
    }
    if word == b"END".as_slice() {
        return None;
    }
    inside
}

/// Adds the name on a line with this number, if the line begins with `copy` and stands in a section.
fn push_name_in(
    alloc: Global,
    names: &mut Vec<CopiedName>,
    line: &[u8],
    number: u32,
    inside: Option<Category>,
) -> Result<(), AllocError> {
    match inside {
        Some(category) if word_at(line, 0) == COPY => {
            let operand = behind_keyword(line);
            let before = line.len().saturating_sub(operand.len()).min(65_535) as u32;
            let place = Place {
                line: number,
                column: before.saturating_add(1),
            };
            let name = ByteText::of(alloc, name_at(operand))?;
            names.push(CopiedName {
                category,
                place,
                name,
            })?;
            Ok(())
        }
        _ => Ok(()),
    }
}

/// What stands behind the keyword of a line that begins with `copy`.
fn behind_keyword(line: &[u8]) -> &[u8] {
    match from_word(line).strip_prefix(COPY) {
        Some(rest) => from_word(rest),
        None => b"",
    }
}

/// A text without the blanks with which it begins.
fn from_word(text: &[u8]) -> &[u8] {
    let mut rest = text;
    for _ in 0..text.len() {
        match rest {
            [b' ' | b'\t', others @ ..] => rest = others,
            _ => return rest,
        }
    }
    rest
}

/// The name with which a text begins, perhaps in quotes.
pub fn name_at(text: &[u8]) -> &[u8] {
    match text {
        [b'"', rest @ ..] => name_before(rest, b'"'),
        _ => name_before(text, b';'),
    }
}

/// What stands before a byte that ends a name, or before a blank or the end of the line.
fn name_before(text: &[u8], end: u8) -> &[u8] {
    for part in text.split(|byte| *byte == end || *byte == b' ' || *byte == b'\n') {
        return part;
    }
    b""
}
