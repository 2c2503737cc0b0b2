//! The signs of a source and its kind.

/// The signs in force at a line.
#[derive(Clone, Copy)]
pub struct Signs {
    /// The escape character, `\` at first.
    pub escape: u8,
    /// The comment character, `#` at first.
    pub comment: u8,
}

/// Which kind of source a text is.
#[derive(Clone, Copy)]
pub enum Kind {
    /// A locale source, with head lines `escape_char` and `comment_char` (XBD 7.3).
    Locale,
    /// A charmap, with head lines `<escape_char>` and `<comment_char>` (XBD 6.4).
    Charmap,
}
