//! Tokens of a logical line.

use lc_base::Place;

/// A token.
#[derive(Drop)]
pub enum Token {
    /// A text in quotes, decoded to UTF-8.
    Text(Vec<u8>),
    /// A character that stands by its name.
    Character(u32),
    /// A name that no character has.
    UnknownName,
    /// Bytes that stand as they are.
    Word(Vec<u8>),
    /// `;`, `,`, `(` or `)`.
    Sign(u8),
    /// The dots of a range, with its step.
    Dots(u32),
}

/// A token with its place.
#[derive(Drop)]
pub struct Placed {
    pub place: Place,
    pub token: Token,
}
