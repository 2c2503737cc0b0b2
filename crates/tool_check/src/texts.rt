//! Words of a line, and which text is a charmap.

ghost use Rattle.std.specs.Prelude.{◌≡◌, not};
ghost use Rattle.std.specs.List.{list_all, position_or_len};
ghost use Rattle.std.specs.Option.{option_copied};
ghost use Rattle.tool_check.specs.Texts.{is_blank_or_return, from_word, is_alone, is_charmap, behind_blank, operand, from_mark};
ghost use Rattle.lc_base.specs.Blanks.{is_blank};

use lc_base::{after, is_blank, next_line};

/// What a text begins with that an editor wrote in UTF-8 with a mark.
const BYTE_ORDER_MARK: &[u8] = b"\xef\xbb\xbf";

/// Whether a text has a line with the one word `CHARMAP`.
pub fn is_charmap(text: &[u8]) -> bool
    ensures { result ≡ is_charmap text.now }
{
    let mut rest = text;
    while let Some((line, following)) = next_line(rest) {
        if is_alone(b"CHARMAP", line) {
            return true;
        }
        rest = following;
    }
    false
}

/// Whether a line has just this word.
pub fn is_alone(word: &[u8], line: &[u8]) -> bool
    ensures { result ≡ is_alone word.now line.now }
{
    match after(word, from_word(line)) {
        Some(rest) => are_blank(rest),
        None => false,
    }
}

/// What stands behind this word and a blank in a line that begins with them.
pub fn operand<'a>(word: &[u8], line: &'a [u8]) -> Option<&'a [u8]>
    ensures { option_copied result ≡ operand word.now line.now }
{
    behind_blank(after(word, from_word(line))?)
}

/// What stands behind a blank.
fn behind_blank(text: &[u8]) -> Option<&[u8]>
    ensures { option_copied result ≡ behind_blank text.now }
{
    match text {
        [first, rest @ ..] if is_blank_or_return(*first) => Some(rest),
        _ => None,
    }
}

/// What stands behind the blanks with which a line begins.
pub fn from_word(line: &[u8]) -> &[u8]
    ensures { result.now ≡ from_word line.now }
{
    let mut rest = line;
    while let [first, others @ ..] = rest {
        if !is_blank_or_return(*first) {
            return rest;
        }
        rest = others;
    }
    rest
}

/// A line without the byte order mark with which it begins.
pub fn from_mark(line: &[u8]) -> &[u8]
    ensures { result.now ≡ from_mark line.now }
{
    match after(BYTE_ORDER_MARK, line) {
        Some(rest) => rest,
        None => line,
    }
}

/// Whether bytes are all blanks.
fn are_blank(bytes: &[u8]) -> bool
    ensures { result ≡ list_all is_blank_or_return bytes.now }
{
    for byte in bytes {
        if !is_blank_or_return(*byte) {
            return false;
        }
    }
    true
}

fn is_blank_or_return(byte: u8) -> bool
    ensures { result ≡ is_blank_or_return byte }
{
    is_blank(byte) || byte == b'\r'
}

/// Whether bytes are all spaces and tabs.
pub fn are_spaces(bytes: &[u8]) -> bool
    ensures { result ≡ list_all is_blank bytes.now }
{
    for byte in bytes {
        if !is_blank(*byte) {
            return false;
        }
    }
    true
}
