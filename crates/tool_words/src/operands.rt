//! Causes of wrong operands.

use crate::parts::{before_column, first_operand, from_column, push_named};
use lc_base::is_blank;
use std::alloc::AllocError;
use tool_messages::{push_wanted, wanted_of};

/// Adds which cause a wrong operand at a column of a line has, and what the keyword takes.
pub fn push_wrong_operand(
    out: &mut Vec<u8>,
    line: &[u8],
    column: u32,
    keyword: &[u8],
) -> Result<(), AllocError> {
    let front = before_column(line, column);
    let part = from_column(line, column);
    if keyword.ends_with(b"_char") || keyword.ends_with(b"_char>") {
        return push_sign(out, front, part, keyword);
    }
    push_cause(out, front, part, keyword)?;
    push_keyword_takes(out, keyword)
}

/// Adds what is wrong of a sign line.
fn push_sign(
    out: &mut Vec<u8>,
    front: &[u8],
    part: &[u8],
    keyword: &[u8],
) -> Result<(), AllocError> {
    if front.is_empty() {
        push_named(out, keyword)?;
        out.extend_from_slice(b" has no sign behind it")?;
    } else {
        push_named(out, word_before_blank(part))?;
        if front.ends_with(keyword) {
            out.extend_from_slice(b" is no sign")?;
        } else {
            out.extend_from_slice(b" is a word too many")?;
        }
    }
    out.extend_from_slice(b"; ")?;
    push_named(out, keyword)?;
    out.extend_from_slice(b" takes one byte from ! to ~, which is not the other sign")
}

/// What stands in front of the first blank, a CR at the end of the line with it.
fn word_before_blank(part: &[u8]) -> &[u8] {
    for word in part.split(|byte| is_blank(*byte)) {
        return word;
    }
    b""
}

/// Adds what is wrong of an operand, behind what stands in front of it.
fn push_cause(
    out: &mut Vec<u8>,
    front: &[u8],
    part: &[u8],
    keyword: &[u8],
) -> Result<(), AllocError> {
    let operand = first_operand(part);
    if front.is_empty() && operand == keyword {
        push_named(out, keyword)?;
        return out.extend_from_slice(b" has no operand");
    }
    if operand.is_empty() {
        return out.extend_from_slice(b"an operand is empty");
    }
    if operand == b"...".as_slice() {
        return push_dots(out, front, part, keyword);
    }
    push_named(out, operand)?;
    out.extend_from_slice(operand_cause(front, keyword))
}

/// What is wrong of an operand that is not empty.
fn operand_cause(front: &[u8], keyword: &[u8]) -> &'static [u8] {
    match front {
        [] => b" is not what the keyword takes",
        [.., b';'] if takes_one(keyword) => b" is an operand too many",
        [.., b';'] => b" is of another kind",
        _ if front.ends_with(keyword) => b" is of another kind",
        _ => b" has no `;` in front of it",
    }
}

/// Whether a keyword takes one operand.
fn takes_one(keyword: &[u8]) -> bool {
    match wanted_of(keyword) {
        Some(wanted) => wanted.is_one(),
        None => false,
    }
}

/// Adds what is wrong of the dots of a range.
fn push_dots(
    out: &mut Vec<u8>,
    front: &[u8],
    part: &[u8],
    keyword: &[u8],
) -> Result<(), AllocError> {
    let before = last_operand(front);
    let behind = second_operand(part);
    if before.is_empty() || before.ends_with(keyword) {
        return out.extend_from_slice(b"no character stands in front of `...`");
    }
    if behind.is_empty() || behind == b"...".as_slice() {
        return out.extend_from_slice(b"no character stands behind `...`");
    }
    if before == b"...".as_slice() || ends_range(front, before) {
        return out.extend_from_slice(b"what stands in front of `...` is the end of a range");
    }
    out.extend_from_slice(b"the range from ")?;
    push_named(out, before)?;
    out.extend_from_slice(b" to ")?;
    push_named(out, behind)?;
    out.extend_from_slice(b" runs backward")
}

/// What stands between the last two `;`, or in front of the last one.
fn last_operand(front: &[u8]) -> &[u8] {
    match front {
        [others @ .., b';'] => {
            let mut last = others;
            for part in others.split(|byte| *byte == b';' || is_blank(*byte)) {
                last = part;
            }
            last
        }
        _ => b"",
    }
}

/// Whether dots stand in front of the last operand.
fn ends_range(front: &[u8], last: &[u8]) -> bool {
    let length = front.len().saturating_sub(last.len().saturating_add(1));
    front[..length.min(front.len())].ends_with(b"...;")
}

/// The operand behind the first `;`.
fn second_operand(part: &[u8]) -> &[u8] {
    match part.iter().position(|byte| *byte == b';') {
        Some(at) => {
            let rest = &part[at.saturating_add(1).min(part.len())..];
            first_operand(from_word(rest))
        }
        None => b"",
    }
}

/// What stands behind the blanks with which a text begins.
fn from_word(text: &[u8]) -> &[u8] {
    let at = text
        .iter()
        .position(|byte| !is_blank(*byte))
        .unwrap_or(text.len());
    &text[at.min(text.len())..]
}

/// Adds what a keyword takes, which is named.
fn push_keyword_takes(out: &mut Vec<u8>, keyword: &[u8]) -> Result<(), AllocError> {
    match wanted_of(keyword) {
        Some(wanted) => {
            out.extend_from_slice(b"; ")?;
            push_named(out, keyword)?;
            out.extend_from_slice(b" takes ")?;
            push_wanted(out, wanted)
        }
        None => out.extend_from_slice(
            b"; operands must have a `;` between them, and be of the kind that the keyword takes",
        ),
    }
}

/// Adds what a keyword takes that is named before.
pub fn push_takes(out: &mut Vec<u8>, keyword: &[u8]) -> Result<(), AllocError> {
    match wanted_of(keyword) {
        Some(wanted) => {
            out.extend_from_slice(b"; it takes ")?;
            push_wanted(out, wanted)
        }
        None => Ok(()),
    }
}
