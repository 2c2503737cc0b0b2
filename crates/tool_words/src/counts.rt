//! How many operands a keyword has.

use crate::parts::word_at;
use lc_base::{is_blank, next_line};

/// The escape character of a source that gives none.
const ESCAPE: u8 = b'\\';

/// What was seen of the operands of a line up to a byte.
#[derive(Clone, Copy)]
struct Seen {
    /// How many operands are ended by a `;`.
    ended: u64,
    /// Whether something stands behind the last `;`.
    has_more: bool,
    is_quoted: bool,
    is_escaped: bool,
}

/// How many operands the keyword of the line with a number has, those of the lines that are joined with it among
/// them. The line is the one in which the keyword stands.
pub fn operand_count(text: &[u8], number: u32) -> u64 {
    let escape = escape_before(text, number);
    let mut seen = Seen {
        ended: 0,
        has_more: false,
        is_quoted: false,
        is_escaped: false,
    };
    for byte in behind_keyword(from_line(text, number)) {
        if *byte == b'\n' && !seen.is_escaped {
            return count_of(seen);
        }
        seen = seen_behind(seen, *byte, escape);
    }
    count_of(seen)
}

fn count_of(seen: Seen) -> u64 {
    if seen.has_more {
        seen.ended.saturating_add(1)
    } else {
        seen.ended
    }
}

/// What was seen with one more byte.
fn seen_behind(seen: Seen, byte: u8, escape: u8) -> Seen {
    if seen.is_escaped {
        return Seen {
            is_escaped: false,
            has_more: seen.has_more || byte != b'\n',
            ..seen
        };
    }
    if byte == escape {
        return Seen {
            is_escaped: true,
            ..seen
        };
    }
    match byte {
        b'"' => Seen {
            is_quoted: !seen.is_quoted,
            has_more: true,
            ..seen
        },
        b';' if !seen.is_quoted => Seen {
            ended: seen.ended.saturating_add(1),
            has_more: false,
            ..seen
        },
        _ if is_blank(byte) || byte == b'\r' => seen,
        _ => Seen {
            has_more: true,
            ..seen
        },
    }
}

/// What stands in a text from the line with a number, from 1, on.
fn from_line(text: &[u8], number: u32) -> &[u8] {
    let mut rest = text;
    for _ in 1..number {
        match next_line(rest) {
            Some((_, following)) => rest = following,
            None => return b"",
        }
    }
    rest
}

/// What stands behind the first word of a text, on its line and on.
fn behind_keyword(text: &[u8]) -> &[u8] {
    let start = text
        .iter()
        .position(|byte| !is_blank(*byte))
        .unwrap_or(text.len());
    let word = &text[start.min(text.len())..];
    let length = word
        .iter()
        .position(|byte| is_blank(*byte) || *byte == b'"' || *byte == b'\n')
        .unwrap_or(word.len());
    &word[length.min(word.len())..]
}

/// What the lines up to one gave.
#[derive(Clone, Copy)]
struct Head {
    escape: u8,
    /// Whether a section began, behind which no sign line comes.
    is_over: bool,
}

const AT_FIRST: Head = Head {
    escape: ESCAPE,
    is_over: false,
};

/// The escape character at the line with a number.
fn escape_before(text: &[u8], number: u32) -> u8 {
    let mut rest = text;
    let mut head = AT_FIRST;
    for _ in 1..number {
        match next_line(rest) {
            Some((line, following)) => {
                head = behind_line(head, line);
                rest = following;
            }
            None => return head.escape,
        }
    }
    head.escape
}

/// What the lines gave up to this one. A directive of a bundle begins another text.
fn behind_line(head: Head, line: &[u8]) -> Head {
    if line.starts_with(b".") {
        return AT_FIRST;
    }
    match (word_at(line, 0), word_at(line, 1)) {
        (b"escape_char", [sign]) if !head.is_over => Head {
            escape: *sign,
            is_over: false,
        },
        ([b'L', b'C', b'_', ..], _) => Head {
            escape: head.escape,
            is_over: true,
        },
        _ => head,
    }
}
