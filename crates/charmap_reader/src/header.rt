//! Header lines of a charmap (XBD 6.4).

ghost use Rattle.std.specs.Prelude.{◌≡◌, ◌<◌, length, option_map};
ghost use Rattle.lc_base.specs.Reading.{Gives};
ghost use Rattle.src_lines.specs.Places.{line_at};
ghost use Rattle.charmap_reader.specs.Charmap.{header_bytes, line_bytes, is_count, named_by, counted_by, gives_name, gives_count, header};

use lc_base::{ByteText, Place, Reason, TextFault};
use src_lines::{Lines, Operand, tokens};
use std::alloc::Global;

const CODE_SET_NAME: &[u8] = b"<code_set_name>";

const MB_CUR_MAX: &[u8] = b"<mb_cur_max>";

const MB_CUR_MIN: &[u8] = b"<mb_cur_min>";

/// The bytes of a header line's one operand.
fn header_bytes(operands: &[(Place, Operand)]) -> Option<&[u8]>
    ensures { option_map (λ bytes. bytes.now) result ≡ header_bytes operands.now }
{
    match operands {
        [(_, Operand::Plain(pieces))] | [(_, Operand::Quoted(pieces))] => pieces.as_bytes(),
        _ => None,
    }
}

/// The bytes of the one operand of a header line.
fn operand_bytes(alloc: Global, lines: &Lines, i: usize) -> Result<Option<ByteText>, TextFault>
    requires { i < length lines.now }
    ensures { Gives (λ o. o) result (line_bytes (line_at lines.now i)) }
{
    let line = tokens(alloc, lines, i)?;
    match header_bytes(line.operands.as_slice()) {
        Some(bytes) => Ok(Some(ByteText::of(alloc, bytes)?)),
        None => Ok(None),
    }
}

/// Whether an operand is a count of bytes: one digit from 1 to 4.
fn is_count(bytes: &[u8]) -> bool
    ensures { result ≡ is_count bytes.now }
{
    matches!(bytes, [b'1'..=b'4'])
}

/// The code set name that an operand gives.
fn named_by(place: Place, operand: Option<ByteText>) -> Result<ByteText, TextFault>
    ensures { Gives (λ name. name) result (named_by place operand) }
{
    match operand {
        Some(name) => Ok(name),
        None => Err(TextFault::At(place, Reason::BadHeader)),
    }
}

/// The code set name so far, where an operand is a count.
fn counted_by(
    place: Place,
    name: ByteText,
    operand: Option<ByteText>,
) -> Result<ByteText, TextFault>
    ensures { Gives (λ name. name) result (counted_by place name operand) }
{
    match operand {
        Some(bytes) if is_count(bytes.as_bytes()) => Ok(name),
        _ => Err(TextFault::At(place, Reason::BadHeader)),
    }
}

/// Whether the word begins a line with the code set name.
fn gives_name(word: &[u8]) -> bool
    ensures { result ≡ gives_name word.now }
{
    word == CODE_SET_NAME
}

/// Whether the word begins a line with a count of bytes.
fn gives_count(word: &[u8]) -> bool
    ensures { result ≡ gives_count word.now }
{
    word == MB_CUR_MAX || word == MB_CUR_MIN
}

/// The code set name after a header line.
pub fn read_header(
    alloc: Global,
    name: ByteText,
    lines: &Lines,
    i: usize,
) -> Result<ByteText, TextFault>
    requires { i < length lines.now }
    ensures { Gives (λ name. name) result (header name (line_at lines.now i)) }
{
    let (word, _) = lines.first_words(i);
    let place = lines.place(i);
    if gives_name(word) {
        return named_by(place, operand_bytes(alloc, lines, i)?);
    }
    if gives_count(word) {
        return counted_by(place, name, operand_bytes(alloc, lines, i)?);
    }
    Err(TextFault::At(place, Reason::BadHeader))
}
