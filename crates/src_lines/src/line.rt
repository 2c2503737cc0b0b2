//! What a logical line says.

use crate::pieces::Pieces;
use lc_base::{ByteText, List, Place};

/// A part of an operand.
#[derive(Drop)]
pub enum OperandPiece {
    /// A byte, written as itself, after the escape character, or as a number.
    Byte(u8),
    /// A character's name, without its `<` and `>`.
    Name(ByteText),
}

/// An operand.
#[derive(Drop)]
pub enum Operand {
    /// A run of bytes, perhaps empty, with names and escapes.
    Plain(Pieces),
    /// A text in quotes.
    Quoted(Pieces),
    /// `...`
    Dots,
    /// `(a,b)`
    Pair(Pieces, Pieces),
}

/// A logical line, read.
#[derive(Drop)]
pub struct Line {
    /// The place of the keyword.
    pub place: Place,
    /// The first word of the line, as it stands.
    pub keyword: ByteText,
    /// The operands, each with the place of its first byte.
    pub operands: List<(Place, Operand)>,
}
