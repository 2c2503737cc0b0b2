//! Keyword lines.

use crate::classes::{add_class, declare_all};
use crate::draft::{Content, Draft, DraftLine};
use crate::faults::{SourceFault, in_file};
use crate::notes::{NoteCode, Notes, Origin};
use crate::operands::{Reading, characters, pairs, texts, words};
use crate::{GnuLine, Placed, Scanned, Token, tokens};
use keywords::{Element, Operands, takes_of};
use lc_base::Category;
use std::alloc::AllocError;

/// The keyword that declares a class with its characters.
const CLASS: &[u8] = b"class";

/// The note of a keyword that the standard does not have.
fn unknown_keyword(keyword: &[u8]) -> NoteCode {
    match keyword {
        b"translit_start" => NoteCode::Transliterations,
        b"map" | b"charconv" | b"tojhira" | b"tojkata" => NoteCode::Mapping,
        b"outdigit" => NoteCode::OutputDigits,
        _ => NoteCode::Keyword,
    }
}

/// What a keyword takes: that of the table, or characters for a declared class.
fn operands_of(category: Category, draft: &Draft, keyword: &[u8]) -> Option<Operands> {
    match takes_of(category, keyword) {
        Some(operands) => Some(operands),
        None if draft.declares(keyword) => Some(Operands::Characters),
        None => None,
    }
}

/// What a line says whose operands are of a kind.
fn content_of(
    reading: &Reading<'_>,
    kind: Element,
    tokens: &[Placed],
    notes: &mut Notes,
) -> Result<Content, AllocError> {
    Ok(match kind {
        Element::CasePair => Content::Pairs(pairs(reading, tokens, notes)?),
        Element::Quote => Content::Texts(texts(reading, tokens, notes)?),
        Element::Word | Element::Whole => Content::Words(words(reading, tokens, notes)?),
    })
}

/// Adds a line with this content.
fn add_content(
    reading: &Reading<'_>,
    at: Origin,
    keyword: &[u8],
    content: Content,
    draft: &mut Draft,
    notes: &mut Notes,
) -> Result<(), AllocError> {
    let is_taken = draft.add(DraftLine {
        keyword: Vec::from_slice(reading.alloc, keyword)?,
        at,
        content,
    })?;
    if is_taken {
        Ok(())
    } else {
        notes.add(at, NoteCode::KeywordAgain)
    }
}

/// Adds a line with this keyword and these operands.
fn add_keyword(
    reading: &Reading<'_>,
    category: Category,
    at: Origin,
    keyword: &[u8],
    tokens: &[Placed],
    draft: &mut Draft,
    notes: &mut Notes,
) -> Result<(), SourceFault> {
    match operands_of(category, draft, keyword) {
        Some(Operands::Copied) if draft.copies(at.file) => Ok(()),
        Some(Operands::Copied) => Ok(notes.add(at, NoteCode::KeywordAgain)?),
        Some(Operands::Characters) => {
            let ranges = characters(reading, tokens, &mut draft.room, notes)?;
            let content = Content::Characters(ranges);
            Ok(add_content(reading, at, keyword, content, draft, notes)?)
        }
        Some(Operands::One(Element::Word) | Operands::Several(Element::Word)) => {
            Ok(declare_all(reading, tokens, draft, notes)?)
        }
        Some(Operands::One(kind) | Operands::Several(kind)) => {
            let content = content_of(reading, kind, tokens, notes)?;
            Ok(add_content(reading, at, keyword, content, draft, notes)?)
        }
        None if keyword == CLASS && category.bit() == Category::Ctype.bit() => {
            add_class(reading, at, tokens, draft, notes)
        }
        Some(Operands::PassedOver) | None => Ok(notes.add(at, unknown_keyword(keyword))?),
    }
}

/// Adds a line of a file to the lines of its category.
pub fn add_line(
    reading: &Reading<'_>,
    line: &GnuLine,
    draft: &mut Draft,
    notes: &mut Notes,
) -> Result<(), SourceFault> {
    let scanned = match tokens(reading.alloc, reading.charset, line) {
        Ok(scanned) => scanned,
        Err(fault) => return Err(in_file(reading.file, fault)),
    };
    let Scanned { tokens, unknown } = scanned;
    for place in &unknown {
        notes.add(Origin::at(reading.file, *place), NoteCode::UnknownCharacter)?;
    }
    let [first, operands @ ..] = tokens.as_slice() else {
        return Ok(());
    };
    let at = Origin::at(reading.file, first.place);
    let Token::Word(keyword) = &first.token else {
        return Ok(notes.add(at, NoteCode::Keyword)?);
    };
    let keyword = keyword.as_slice();
    add_keyword(reading, line.category, at, keyword, operands, draft, notes)
}
