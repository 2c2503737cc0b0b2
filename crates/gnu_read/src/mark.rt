//! What a logical line is for the sections of a file.

use lc_base::{Category, category_named, is_blank};

/// What a logical line is for the sections of a file.
#[derive(Clone, Copy)]
pub enum LineMark {
    /// It says nothing.
    Empty,
    /// It sets the escape character.
    Escape(u8),
    /// It sets the comment character.
    Comment(u8),
    /// It opens the section of a category, or one that is passed over.
    Opens(Option<Category>),
    /// It ends a section.
    Ends,
    /// Transliterations begin.
    TransliterationsBegin,
    /// Transliterations end.
    TransliterationsEnd,
    /// Any other line.
    Other,
}

/// A text without the blanks with which it begins.
pub fn from_word(text: &[u8]) -> &[u8] {
    let mut left = text;
    while let [b' ' | b'\t' | b'\r' | b'\n', rest @ ..] = left {
        left = rest;
    }
    left
}

/// The first word of a text that begins with none of its blanks.
fn word_of(text: &[u8]) -> &[u8] {
    text.split(|byte| is_blank(*byte) || *byte == b'\n' || *byte == b'\r')
        .next()
        .unwrap_or(text)
}

/// The sign that stands behind a keyword.
fn sign_behind(keyword: &[u8], text: &[u8]) -> Option<u8> {
    match from_word(text.strip_prefix(keyword)?) {
        [sign, ..] => Some(*sign),
        [] => None,
    }
}

/// What a line is that sets the escape character.
fn escape_mark(text: &[u8]) -> LineMark {
    match sign_behind(b"escape_char", text) {
        Some(sign) => LineMark::Escape(sign),
        None => LineMark::Other,
    }
}

/// What a line is that sets the comment character.
fn comment_mark(text: &[u8]) -> LineMark {
    match sign_behind(b"comment_char", text) {
        Some(sign) => LineMark::Comment(sign),
        None => LineMark::Other,
    }
}

/// What a logical line is.
pub fn mark_of(line: &[u8]) -> LineMark {
    let text = from_word(line);
    match word_of(text) {
        b"" => LineMark::Empty,
        b"END" => LineMark::Ends,
        b"escape_char" => escape_mark(text),
        b"comment_char" => comment_mark(text),
        b"translit_start" => LineMark::TransliterationsBegin,
        b"translit_end" => LineMark::TransliterationsEnd,
        word if word.starts_with(b"LC_") => LineMark::Opens(category_named(word)),
        _ => LineMark::Other,
    }
}
