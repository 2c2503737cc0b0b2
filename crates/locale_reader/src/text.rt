//! Texts and names.

ghost use Rattle.std.specs.Prelude.{◌≡◌, IfOk, option_map, option_and_then};
ghost use Rattle.lc_base.specs.Reading.{Gives};
ghost use Rattle.src_lines.specs.Pieces.{seen};
ghost use Rattle.charset.specs.CodedSet.{named, encoded};
ghost use Rattle.charset.specs.Code.{code_bytes};
ghost use Rattle.locale_reader.specs.Values.{piece_bytes, decoded, quoted_text, quote, plain_word, word};
ghost use Rattle.locale_reader.specs.Steps.{IsAppended};

use charset::{Charset, Code};
use lc_base::{ByteText, Limit, Place, Reason, TextFault};
use src_lines::{Operand, PieceRef, Pieces};
use std::alloc::{AllocError, Global};

/// The most bytes of a text (our own rule).
pub const TEXT_LIMIT: usize = 256;

/// The bytes of the character with a name.
fn name_code(charset: &Charset, name: &[u8]) -> Option<Code>
    ensures { option_map code_bytes result ≡ option_and_then (encoded charset.now) (named charset.now name.now) }
{
    charset.encode(charset.value_of(name)?)
}

/// Adds the bytes of a piece. Tells whether the charset has its character.
fn add_piece(
    charset: &Charset,
    bytes: &mut Vec<u8>,
    piece: PieceRef<'_>,
) -> Result<bool, AllocError>
    ensures { IfOk result (λ known. IsAppended bytes.old.items (piece_bytes charset.now (seen piece.entry)) bytes.new.items known) }
{
    match piece {
        PieceRef::Byte(byte) => bytes.push(byte)?,
        PieceRef::Name(name) => match name_code(charset, name) {
            Some(code) => bytes.extend_from_slice(code.as_bytes())?,
            None => return Ok(false),
        },
    }
    Ok(true)
}

/// The bytes of a text. None where the charset lacks a character that it names.
fn decoded(
    alloc: Global,
    charset: &Charset,
    pieces: &Pieces,
) -> Result<Option<ByteText>, AllocError>
    ensures { IfOk result (λ o. o ≡ decoded charset.now pieces.now) }
{
    let mut bytes = Vec::with_capacity(alloc, pieces.len())?;
    let mut walk = pieces.walk();
    while let Some(piece) = walk.next() {
        if !add_piece(charset, &mut bytes, piece)? {
            return Ok(None);
        }
    }
    Ok(Some(ByteText::from_vec(bytes)))
}

/// The text that stands at a place, without its quotes.
fn quoted_text(
    alloc: Global,
    charset: &Charset,
    place: Place,
    pieces: &Pieces,
) -> Result<ByteText, TextFault>
    ensures { Gives (λ text. text) result (quoted_text charset.now place pieces.now) }
{
    let Some(text) = decoded(alloc, charset, pieces)? else {
        return Err(TextFault::At(place, Reason::UnknownCharacter));
    };
    if text.as_bytes().len() > TEXT_LIMIT {
        return Err(TextFault::At(place, Reason::OverLimit(Limit::Text)));
    }
    Ok(text)
}

/// The text that an operand in quotes is.
#[tactic(auto, unfolding(crate::specs::Values::quote))]
pub fn quote(
    alloc: Global,
    charset: &Charset,
    operand: &(Place, Operand),
) -> Result<ByteText, TextFault>
    ensures { Gives (λ text. text) result (quote charset.now operand.now) }
{
    match &operand.1 {
        Operand::Quoted(pieces) => quoted_text(alloc, charset, operand.0, pieces),
        Operand::Plain(_) | Operand::Dots | Operand::Pair(_, _) => {
            Err(TextFault::At(operand.0, Reason::WrongOperand))
        }
    }
}

/// The name that stands at a place without quotes.
fn plain_word(
    alloc: Global,
    charset: &Charset,
    place: Place,
    pieces: &Pieces,
) -> Result<ByteText, TextFault>
    ensures { Gives (λ text. text) result (plain_word charset.now place pieces.now) }
{
    if pieces.is_empty() {
        return Err(TextFault::At(place, Reason::WrongOperand));
    }
    match decoded(alloc, charset, pieces)? {
        Some(text) => Ok(text),
        None => Err(TextFault::At(place, Reason::UnknownCharacter)),
    }
}

/// The name that an operand is, in quotes or not.
#[tactic(auto, unfolding(crate::specs::Values::word))]
pub fn word(
    alloc: Global,
    charset: &Charset,
    operand: &(Place, Operand),
) -> Result<ByteText, TextFault>
    ensures { Gives (λ text. text) result (word charset.now operand.now) }
{
    match &operand.1 {
        Operand::Plain(pieces) => plain_word(alloc, charset, operand.0, pieces),
        Operand::Quoted(pieces) => quoted_text(alloc, charset, operand.0, pieces),
        Operand::Dots | Operand::Pair(_, _) => {
            Err(TextFault::At(operand.0, Reason::WrongOperand))
        }
    }
}
