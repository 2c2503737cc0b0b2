//! Declared classes.

use crate::draft::{Content, Draft, DraftLine};
use crate::faults::SourceFault;
use crate::notes::{NoteCode, Notes, Origin};
use crate::operands::{Reading, characters, left_out};
use crate::{Placed, Token};
use keywords::takes_of;
use lc_base::Category;
use std::alloc::{AllocError, Global};

/// The most bytes of a class's name.
const NAME_MOST: usize = 14;

/// The name that a class has in a standard source: the first 14 of its letters and digits, from a letter on.
fn standard_name(alloc: Global, name: &[u8]) -> Result<Vec<u8>, AllocError> {
    let mut standard = Vec::new(alloc);
    for byte in name {
        let is_first = standard.is_empty();
        if byte.is_ascii_alphabetic() || (byte.is_ascii_digit() && !is_first) {
            if standard.len() < NAME_MOST {
                standard.push(*byte)?;
            }
        }
    }
    Ok(standard)
}

/// The bytes of a name, in quotes or not.
fn name_in(token: &Token) -> Option<&[u8]> {
    match token {
        Token::Text(bytes) | Token::Word(bytes) => Some(bytes.as_slice()),
        Token::Character(_) | Token::UnknownName | Token::Sign(_) | Token::Dots(_) => None,
    }
}

/// Declares a class. Gives the name that it has then; none where a keyword has it.
fn declared(
    reading: &Reading<'_>,
    at: Origin,
    name: &[u8],
    draft: &mut Draft,
    notes: &mut Notes,
) -> Result<Option<Vec<u8>>, AllocError> {
    let standard = standard_name(reading.alloc, name)?;
    if standard.is_empty() || takes_of(Category::Ctype, standard.as_slice()).is_some() {
        notes.add(at, NoteCode::ClassTaken)?;
        return Ok(None);
    }
    if standard.as_slice() != name {
        notes.add(at, NoteCode::ClassName)?;
    }
    draft.declare(at, standard.as_slice())?;
    Ok(Some(standard))
}

/// Declares the classes that tokens name.
pub fn declare_all(
    reading: &Reading<'_>,
    tokens: &[Placed],
    draft: &mut Draft,
    notes: &mut Notes,
) -> Result<(), AllocError> {
    for placed in tokens {
        let at = Origin::at(reading.file, placed.place);
        match (name_in(&placed.token), &placed.token) {
            (Some(name), _) => {
                let _name = declared(reading, at, name, draft, notes)?;
            }
            (None, Token::Sign(b';')) => {}
            (None, token) => notes.add(at, left_out(token))?,
        }
    }
    Ok(())
}

/// Adds a class whose name and characters are tokens.
pub fn add_class(
    reading: &Reading<'_>,
    at: Origin,
    tokens: &[Placed],
    draft: &mut Draft,
    notes: &mut Notes,
) -> Result<(), SourceFault> {
    let [first, members @ ..] = tokens else {
        return Ok(notes.add(at, NoteCode::Operand)?);
    };
    let Some(name) = name_in(&first.token) else {
        return Ok(notes.add(at, NoteCode::Operand)?);
    };
    let Some(keyword) = declared(reading, at, name, draft, notes)? else {
        return Ok(());
    };
    let content = Content::Characters(characters(reading, members, &mut draft.room, notes)?);
    let _is_taken = draft.add(DraftLine {
        keyword,
        at,
        content,
    })?;
    Ok(())
}
