//! The names of the locales that a file copies.

use crate::file::{GnuFile, read_file};
use crate::line::GnuLine;
use crate::mark::from_word;
use crate::scanner::tokens;
use crate::token::{Placed, Token};
use charset::Charset;
use lc_base::{ByName, ByteText, Category, List, Place, TextFault};
use std::alloc::{AllocError, Global};

/// The keyword that copies another locale's category.
const COPY: &[u8] = b"copy";

/// The bytes of a text or a word.
fn bytes_of(token: &Token) -> Option<&[u8]> {
    match token {
        Token::Text(bytes) | Token::Word(bytes) => Some(bytes.as_slice()),
        Token::Character(_) | Token::UnknownName | Token::Sign(_) | Token::Dots(_) => None,
    }
}

/// The name that a line of these tokens copies, with its place.
fn copied_name(tokens: &[Placed]) -> Option<(Place, &[u8])> {
    let [keyword, name, ..] = tokens else {
        return None;
    };
    if bytes_of(&keyword.token)? != COPY {
        return None;
    }
    Some((name.place, bytes_of(&name.token)?))
}

/// Whether a line begins as one that copies does.
fn may_copy(line: &GnuLine) -> bool {
    from_word(line.bytes.as_slice()).starts_with(COPY)
}

/// Adds the name that a line copies.
fn add_name(
    alloc: Global,
    charset: &Charset,
    names: &mut ByName<()>,
    line: &GnuLine,
) -> Result<(), TextFault> {
    if !may_copy(line) {
        return Ok(());
    }
    let scanned = tokens(alloc, charset, line)?;
    match copied_name(scanned.tokens.as_slice()) {
        Some((_, name)) => Ok(names.add(alloc, name, ())?),
        None => Ok(()),
    }
}

/// Adds the names that a text copies, up to its first fault.
fn add_names(alloc: Global, names: &mut ByName<()>, text: &[u8]) -> Result<(), TextFault> {
    let charset = Charset::utf8(alloc)?;
    let file = read_file(alloc, text)?;
    for line in &file.lines {
        add_name(alloc, &charset, names, line)?;
    }
    Ok(())
}

/// The names as a list.
fn listed(alloc: Global, names: &ByName<()>) -> Result<List<ByteText>, AllocError> {
    let mut list = Vec::new(alloc);
    for place in 0..names.len() {
        if let Some(name) = names.name_at(place) {
            list.push(ByteText::of(alloc, name)?)?;
        }
    }
    Ok(List::of(list))
}

/// The names of the locales of which a text copies one of the five categories, each once. Of a text that is
/// refused there are those that stand before the fault, or none.
pub fn copied_names(alloc: Global, text: &[u8]) -> Result<List<ByteText>, AllocError> {
    let mut names = ByName::new(alloc);
    match add_names(alloc, &mut names, text) {
        Ok(()) | Err(TextFault::At(..)) => listed(alloc, &names),
        Err(TextFault::Memory) => Err(AllocError),
    }
}

/// The name of the locale from which a file copies a category, with its place, if it copies it.
pub fn copied_from(
    alloc: Global,
    charset: &Charset,
    file: &GnuFile,
    category: Category,
) -> Result<Option<(Place, Vec<u8>)>, TextFault> {
    for line in &file.lines {
        if line.category.bit() == category.bit() && may_copy(line) {
            let scanned = tokens(alloc, charset, line)?;
            if let Some((place, name)) = copied_name(scanned.tokens.as_slice()) {
                return Ok(Some((place, Vec::from_slice(alloc, name)?)));
            }
        }
    }
    Ok(None)
}
