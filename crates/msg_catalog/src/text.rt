//! The texts of messages (XCU gencat).

ghost use Rattle.std.specs.Prelude.{◌≡◌, ◌≤◌, drop, length, IfOk, OnOk, if◌then◌else◌};
ghost use Rattle.msg_catalog.specs.Cursors.{line_of};
ghost use Rattle.msg_catalog.specs.Texts.{Said, said, is_octal, octal, control, escape, piece_of, joined, read_text, is_quote, text_of, decoded};

use crate::cursor::{Cursor, Spot};
use lc_base::Place;
use std::alloc::{AllocError, Global};

/// What stands at a byte of a text.
#[derive(Clone, Copy)]
pub enum TextUnit {
    /// A byte, as itself or by an escape.
    Byte(u8),
    /// An octal escape over 255, at its `\`.
    Wrong(Place),
    /// A `\` at the line's end, which is dropped.
    Nothing,
}

/// The text of a message, and where its first wrong escape stands, if there is one.
#[derive(Drop)]
pub struct Text {
    pub bytes: Vec<u8>,
    pub wrong: Option<Place>,
}

/// Whether a byte is an octal digit.
fn is_octal(byte: u8) -> bool
    ensures { result ≡ is_octal byte }
{
    byte >= b'0' && byte <= b'7'
}

/// The number of the one to three octal digits here, how many they are, and what follows them.
fn octal(cursor: Cursor<'_>) -> (u32, usize, Cursor<'_>)
    ensures value { (result.0, result.1) ≡ octal 3 0 (line_of cursor.entry) }
    ensures rest { line_of result.2 ≡ drop result.1 (line_of cursor.entry) }
    ensures within { length result.2.rest.now ≤ length cursor.entry.rest.now }
{
    let mut value = 0;
    let mut count = 0;
    let mut rest = cursor;
    while count < 3 {
        match rest.next() {
            Some((spot, next)) if is_octal(spot.byte) => {
                value = value * 8 + (spot.byte - b'0') as u32;
                count += 1;
                rest = next;
            }
            _ => break,
        }
    }
    (value, count, rest)
}

/// The byte that an escape with this byte stands for.
fn control(byte: u8) -> u8
    ensures { result ≡ control byte }
{
    match byte {
        b'n' => b'\n',
        b't' => b'\t',
        b'v' => 0x0B,
        b'b' => 0x08,
        b'r' => b'\r',
        b'f' => 0x0C,
        _ => byte,
    }
}

/// What an escape whose `\` stands at this place gives, and what follows it.
fn escape(place: Place, cursor: Cursor<'_>) -> (TextUnit, Cursor<'_>)
    ensures piece { result.0 ≡ (escape place (line_of cursor.entry)).0 }
    ensures rest { line_of result.1 ≡ drop (escape place (line_of cursor.entry)).1 (line_of cursor.entry) }
    ensures within { length result.1.rest.now ≤ length cursor.entry.rest.now }
{
    let (value, count, rest) = octal(cursor);
    if count > 0 {
        return match u8::try_from(value) {
            Ok(byte) => (TextUnit::Byte(byte), rest),
            Err(_) => (TextUnit::Wrong(place), rest),
        };
    }
    match cursor.next() {
        Some((spot, next)) => (TextUnit::Byte(control(spot.byte)), next),
        None => (TextUnit::Nothing, cursor),
    }
}

/// What stands at a byte of a text, before what follows that byte, and what follows it all.
fn piece_of(spot: Spot, cursor: Cursor<'_>) -> (TextUnit, Cursor<'_>)
    ensures piece { result.0 ≡ (piece_of spot (line_of cursor.entry)).0 }
    ensures rest { line_of result.1 ≡ drop (piece_of spot (line_of cursor.entry)).1 (line_of cursor.entry) }
    ensures within { length result.1.rest.now ≤ length cursor.entry.rest.now }
{
    if spot.byte == b'\\' {
        escape(spot.place, cursor)
    } else {
        (TextUnit::Byte(spot.byte), cursor)
    }
}

/// Whether a byte is the quote character.
fn is_quote(quote: Option<u8>, byte: u8) -> bool
    ensures { result ≡ is_quote quote byte }
{
    quote == Some(byte)
}

impl Text {
    /// Adds what stands at a byte. A wrong escape is counted as a byte.
    fn add(&mut self, piece: TextUnit) -> Result<(), AllocError>
        ensures { OnOk result (read_text self.new ≡ joined (read_text self.old) (said piece)) }
    {
        match piece {
            TextUnit::Byte(byte) => self.bytes.push(byte)?,
            TextUnit::Wrong(place) => {
                self.bytes.push(0)?;
                self.wrong = self.wrong.or(Some(place));
            }
            TextUnit::Nothing => {}
        }
        Ok(())
    }
}

/// The text up to this sign, or to the line's end.
fn decoded(alloc: Global, end: Option<u8>, cursor: Cursor<'_>) -> Result<Text, AllocError>
    ensures { IfOk result (λ t. read_text t ≡ decoded end 0 (line_of cursor.entry)) }
{
    let mut text = Text {
        bytes: Vec::new(alloc),
        wrong: None,
    };
    let mut rest = cursor;
    while let Some((spot, next)) = rest.next() {
        if is_quote(end, spot.byte) {
            break;
        }
        let (piece, after) = piece_of(spot, next);
        text.add(piece)?;
        rest = after;
    }
    Ok(text)
}

/// The text of a message under this quote character: what stands in quotes, where it begins with
/// that character, and else the whole line.
pub fn text_of(alloc: Global, quote: Option<u8>, cursor: Cursor<'_>) -> Result<Text, AllocError>
    ensures { IfOk result (λ t. read_text t ≡ text_of quote (line_of cursor.entry)) }
{
    match cursor.next() {
        Some((spot, next)) if is_quote(quote, spot.byte) => decoded(alloc, quote, next),
        _ => decoded(alloc, None, cursor),
    }
}
