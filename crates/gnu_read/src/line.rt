//! Logical lines.

use lc_base::Category;

/// A logical line of a section. Where an escape character joined two lines of the text, it has the newline
/// between them still.
#[derive(Drop)]
pub struct GnuLine {
    /// The category of its section.
    pub category: Category,
    /// The number of its first line in the text, from 1.
    pub number: u32,
    /// The escape character.
    pub escape: u8,
    /// The comment character.
    pub comment: u8,
    pub bytes: Vec<u8>,
}
