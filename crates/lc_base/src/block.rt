//! Blocks of a bundle.

use crate::list::ByteText;

/// A block of a bundle: the lines of a charmap's or a locale's source, between its directive and
/// its `.end`.
pub struct Block {
    /// The name of the charmap or the locale.
    pub name: ByteText,
    /// The name of the charset in which a locale's source is read; empty for a charmap.
    pub charset: ByteText,
    /// The line of the bundle, from 1, on which the text begins.
    pub first_line: u32,
    /// The source's bytes.
    pub text: ByteText,
}

impl Drop for Block {
    fn drop(self) {
        let Block {
            name: _,
            charset: _,
            first_line: _,
            text: _,
        } = self;
    }
}

/// A later version of a locale, which a thread installs while others run.
pub struct Later {
    /// The key by which a command names it.
    pub key: ByteText,
    /// The source, under the locale's name.
    pub block: Block,
}

impl Drop for Later {
    fn drop(self) {
        let Later { key: _, block: _ } = self;
    }
}
