//! Where a byte of a text in quotes is spelled.

use charset::Charset;
use lc_base::{Place, next_line};
use tool_words::word_at;

/// The escape character of a source that gives none.
const ESCAPE: u8 = b'\\';

/// Where the byte with a number, from 0, is spelled of the text in quotes that begins at a place of a
/// file; the place itself, where that is not known.
pub fn byte_place(text: &[u8], charset: Option<&Charset>, place: Place, number: u32) -> Place {
    match from_place(text, place) {
        [b'"', rest @ ..] => {
            let escape = escape_at(text, place.line);
            match spelled_at(rest, escape, charset, behind(place, 1), number) {
                Some(found) => found,
                None => place,
            }
        }
        _ => place,
    }
}

/// What stands in a text from a place on.
pub fn from_place(text: &[u8], place: Place) -> &[u8] {
    let line = from_line(text, place.line);
    let at = (place.column as usize).saturating_sub(1).min(line.len());
    &line[at..]
}

/// What stands in a text from the line with a number, from 1, on.
fn from_line(text: &[u8], number: u32) -> &[u8] {
    let mut rest = text;
    for _ in 1..number {
        match next_line(rest) {
            Some((_, following)) => rest = following,
            None => return b"",
        }
    }
    rest
}

/// A place so many bytes further in its line.
fn behind(place: Place, length: u32) -> Place {
    Place {
        line: place.line,
        column: place.column.saturating_add(length),
    }
}

/// The beginning of a line behind that of a place.
fn next_line_of(place: Place) -> Place {
    Place {
        line: place.line.saturating_add(1),
        column: 1,
    }
}

/// What gives bytes of a text in quotes.
#[derive(Clone, Copy)]
struct Spelling<'a> {
    /// How many bytes it gives: 0 where it joins lines.
    bytes: u32,
    /// How many bytes of the line it takes.
    length: u32,
    /// What stands behind it.
    rest: &'a [u8],
}

/// A spelling of one byte.
fn one_byte(length: u32, rest: &[u8]) -> Option<Spelling<'_>> {
    Some(Spelling {
        bytes: 1,
        length,
        rest,
    })
}

/// Where the byte with a number is spelled of what stands at a place behind a quote.
fn spelled_at(
    text: &[u8],
    escape: u8,
    charset: Option<&Charset>,
    place: Place,
    number: u32,
) -> Option<Place> {
    let mut rest = text;
    let mut at = place;
    let mut left = number;
    for _ in 0..text.len() {
        let spelling = first_spelling(rest, escape, charset)?;
        if left < spelling.bytes {
            return Some(at);
        }
        left = left.saturating_sub(spelling.bytes);
        at = if spelling.bytes == 0 {
            next_line_of(at)
        } else {
            behind(at, spelling.length)
        };
        rest = spelling.rest;
    }
    None
}

/// The first spelling of a text, up to the quote that ends it.
fn first_spelling<'a>(
    text: &'a [u8],
    escape: u8,
    charset: Option<&Charset>,
) -> Option<Spelling<'a>> {
    match text {
        [first, rest @ ..] if *first == escape => escaped(rest),
        [b'<', rest @ ..] => named(rest, charset?),
        [b'"' | b'\n', ..] | [] => None,
        [_, rest @ ..] => one_byte(1, rest),
    }
}

/// What an escape character spells with what stands behind it.
fn escaped(text: &[u8]) -> Option<Spelling<'_>> {
    match text {
        [b'\n', rest @ ..] => Some(Spelling {
            bytes: 0,
            length: 0,
            rest,
        }),
        [b'x', _, _, rest @ ..] => one_byte(4, rest),
        [b'd', rest @ ..] => numbered(rest, b'9', 2),
        [b'0'..=b'7', ..] => numbered(text, b'7', 1),
        [_, rest @ ..] => one_byte(2, rest),
        [] => None,
    }
}

/// What up to three digits spell behind so many bytes.
fn numbered(text: &[u8], last: u8, before: u32) -> Option<Spelling<'_>> {
    let mut rest = text;
    let mut length = before;
    for _ in 0..3 {
        if let [digit, others @ ..] = rest {
            if b'0' <= *digit && *digit <= last {
                rest = others;
                length = length.saturating_add(1);
            }
        }
    }
    one_byte(length, rest)
}

/// What a character's name spells, and `>`, behind a `<`.
fn named<'a>(text: &'a [u8], charset: &Charset) -> Option<Spelling<'a>> {
    let name = name_of(text);
    let code = charset.encode(charset.value_of(name)?)?;
    let (_, rest) = text.split_at(name.len().saturating_add(1).min(text.len()));
    Some(Spelling {
        bytes: u32::from(code.len),
        length: (name.len().min(65_535) as u32).saturating_add(2),
        rest,
    })
}

/// What stands before the first `>`.
fn name_of(text: &[u8]) -> &[u8] {
    for part in text.split(|byte| *byte == b'>') {
        return part;
    }
    b""
}

/// What the sign lines up to a line gave.
#[derive(Clone, Copy)]
struct Head {
    escape: u8,
    /// Whether a section began, behind which no sign line comes.
    is_over: bool,
}

/// The escape character at the line with a number.
fn escape_at(text: &[u8], number: u32) -> u8 {
    let mut rest = text;
    let mut head = at_first();
    for _ in 1..number {
        match next_line(rest) {
            Some((line, following)) => {
                head = behind_line(head, line);
                rest = following;
            }
            None => return head.escape,
        }
    }
    head.escape
}

fn at_first() -> Head {
    Head {
        escape: ESCAPE,
        is_over: false,
    }
}

/// What the lines gave up to this one. A directive of a bundle begins another text.
fn behind_line(head: Head, line: &[u8]) -> Head {
    if line.starts_with(b".") {
        return at_first();
    }
    let word = word_at(line, 0);
    if word.starts_with(b"LC_") {
        return Head {
            escape: head.escape,
            is_over: true,
        };
    }
    match word_at(line, 1) {
        [sign] if !head.is_over && word == b"escape_char".as_slice() => Head {
            escape: *sign,
            is_over: false,
        },
        _ => head,
    }
}
