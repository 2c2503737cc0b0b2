//! What GNU's sources have beyond the standard.

use crate::parts::{first_operand, from_column, word_at};
use lc_base::Reason;
use std::alloc::AllocError;

/// Adds a hint where a line goes beyond the standard as GNU's sources do.
pub fn push_gnu_hint(
    out: &mut Vec<u8>,
    reason: Reason,
    line: &[u8],
    column: u32,
) -> Result<(), AllocError> {
    if !is_extension(reason, line, column) {
        return Ok(());
    }
    out.extend_from_slice(
        b"hint: this is an extension of GNU; `locale_tool import` makes a standard source of it, and `--gnu` reads it\n",
    )
}

/// Whether what stands at the place of a fault is an extension of GNU.
fn is_extension(reason: Reason, line: &[u8], column: u32) -> bool {
    let part = from_column(line, column);
    match reason {
        Reason::UnknownKeyword => is_gnu_keyword(word_at(part, 0)),
        Reason::CopyNotAlone => true,
        Reason::WrongOperand => is_gnu_range(first_operand(part)) || is_gnu_range(line),
        Reason::BadFormat(_) => is_gnu_conversion(part),
        _ => false,
    }
}

/// Whether a text has a range of GNU's, as `<U0041>..<U005A>` or `<U0100>..(2)..<U0136>`.
fn is_gnu_range(text: &[u8]) -> bool {
    for piece in text.windows(3) {
        match piece {
            [b'>', b'.', b'.'] | [b'.', b'.', b'('] => return true,
            _ => {}
        }
    }
    false
}

/// Whether a format goes on with a conversion of GNU's.
fn is_gnu_conversion(part: &[u8]) -> bool {
    match part {
        [
            b'%',
            b'-' | b'_' | b'^' | b'#' | b'l' | b'k' | b'P' | b's' | b'N' | b'0'..=b'9',
            ..
        ] => true,
        [b'%', b'O', b'B' | b'b' | b'h' | b'C' | b'Y', ..] => true,
        _ => false,
    }
}

/// Whether a word is a keyword of GNU's.
fn is_gnu_keyword(word: &[u8]) -> bool {
    is_class_keyword(word) || is_money_keyword(word) || is_time_keyword(word)
}

fn is_class_keyword(word: &[u8]) -> bool {
    match word {
        b"class"
        | b"class_proportional"
        | b"combining"
        | b"combining_level3"
        | b"default_missing"
        | b"include"
        | b"map"
        | b"outdigit"
        | b"translit_start"
        | b"translit_end"
        | b"width" => true,
        _ => false,
    }
}

fn is_money_keyword(word: &[u8]) -> bool {
    word.starts_with(b"duo_")
        || word.starts_with(b"uno_")
        || word == b"conversion_rate".as_slice()
        || word == b"crncystr".as_slice()
}

fn is_time_keyword(word: &[u8]) -> bool {
    match word {
        b"week"
        | b"first_weekday"
        | b"first_workday"
        | b"cal_direction"
        | b"timezone"
        | b"date_fmt"
        | b"alt_mon"
        | b"ab_alt_mon"
        | b"era_year"
        | b"yesstr"
        | b"nostr" => true,
        _ => false,
    }
}
