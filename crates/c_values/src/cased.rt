//! Texts in UTF-8 with the case of each character mapped, put into buffers of the caller.

ghost use Rattle.std.specs.Prelude.{◌≡◌, ◌<◌, length, codes};
ghost use Rattle.std.specs.Str.{bytes_eq};
ghost use Rattle.ctype_classes.specs.Case.{image};
ghost use Rattle.shared_objects.specs.Objects.{ctype_in};
ghost use Rattle.c_values.specs.Answers.{filled, told};
ghost use Rattle.c_values.specs.Cased.{pairs_of, cased_char, cased_text, cased_told, length_told};

use crate::answer::{BAD_CHARACTER, LobjAnswer, NOT_UTF8, OK, TOO_SMALL, answered};
use shared_objects::View;
use text_buffer::{put_at, put_byte};

/// A case to which characters are mapped.
#[derive(Clone, Copy)]
pub enum Case {
    Upper,
    Lower,
}

/// Puts a text with each character mapped to a case, and a NUL behind it, into a buffer.
pub fn put_cased(buffer: &mut [u8], view: &View<'_>, case: Case, text: &[u8]) -> LobjAnswer
    ensures { (result, buffer.new) ≡ cased_told buffer.old view.now case text.now }
{
    if is_utf8_view(view) {
        match str::from_utf8(text) {
            Ok(text) => put_mapped(buffer, view, case, text),
            Err(fault) => answered(BAD_CHARACTER, fault.valid_up_to()),
        }
    } else {
        answered(NOT_UTF8, 0)
    }
}

/// Whether the charset of a locale is UTF-8.
fn is_utf8_view(view: &View<'_>) -> bool
    ensures { result ≡ bytes_eq (ctype_in view.now).codeset (codes "UTF-8") }
{
    view.codeset() == b"UTF-8".as_slice()
}

/// The image of a value in a case.
#[inline(always)]
fn image(view: &View<'_>, case: Case, value: u32) -> u32
    ensures { result ≡ image (pairs_of view.now case) value }
{
    match case {
        Case::Upper => view.upper(value),
        Case::Lower => view.lower(value),
    }
}

/// A character in a case.
#[inline(always)]
fn cased(view: &View<'_>, case: Case, c: char) -> char
    ensures { result ≡ cased_char (pairs_of view.now case) c }
{
    match char::from_u32(image(view, case, c as u32)) {
        Some(mapped) => mapped,
        None => c,
    }
}

/// Puts the characters of a text in a case, and a NUL behind them, into a buffer.
fn put_mapped(buffer: &mut [u8], view: &View<'_>, case: Case, text: &str) -> LobjAnswer
    ensures { (result, buffer.new) ≡ told buffer.old (cased_text (pairs_of view.now case) text.now) }
{
    let length = mapped_length(view, case, text);
    if length < buffer.len() {
        write_mapped(buffer, view, case, text);
        answered(OK, length)
    } else {
        answered(TOO_SMALL, length.saturating_add(1))
    }
}

/// How many bytes the characters of a text have in a case, as far as a `usize` can tell it.
fn mapped_length(view: &View<'_>, case: Case, text: &str) -> usize
    ensures { result ≡ length_told (length (cased_text (pairs_of view.now case) text.now)) }
{
    let mut length: usize = 0;
    let mut rest = text.chars();
    while let Some(c) = rest.next() {
        length = length.saturating_add(cased(view, case, c).len_utf8());
    }
    length
}

/// Writes the characters of a text in a case, and a NUL behind them, to the front of a buffer.
fn write_mapped(buffer: &mut [u8], view: &View<'_>, case: Case, text: &str)
    requires { length (cased_text (pairs_of view.now case) text.now) < length buffer.old }
    ensures { buffer.new ≡ filled buffer.old (cased_text (pairs_of view.now case) text.now) }
{
    let mut end = 0;
    let mut rest = text.chars();
    while let Some(c) = rest.next() {
        let mut bytes = [0; 4];
        let mapped = cased(view, case, c).encode_utf8(&mut bytes);
        end = put_at(buffer, end, mapped.as_bytes());
    }
    put_byte(buffer, end, 0);
}
