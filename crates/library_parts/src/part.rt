//! The parts of a library.

ghost use Rattle.std.specs.Prelude.{◌≡◌, ◌+◌, ◌^◌, ◌<◌};
ghost use Rattle.library_parts.specs.Places.{block};

use lc_base::{Block, ByteText};

/// What a part is.
#[derive(Clone, Copy, PartialEq, Eq)]
pub enum PartKind {
    /// A charmap.
    Charmap,
    /// A locale's source.
    Source,
    /// The source of a message catalog.
    Catalog,
}

/// A part of a library.
pub struct LibraryPart {
    pub kind: PartKind,
    /// The name of the charmap, the locale or the catalog.
    pub name: ByteText,
    /// Of a locale's source the name of its charset, of a catalog the name of its locale, and
    /// nothing of a charmap.
    pub label: ByteText,
    /// The bytes of the charmap or the source.
    pub text: ByteText,
}

impl Drop for LibraryPart {
    fn drop(self) {
        let LibraryPart {
            kind: _,
            name: _,
            label: _,
            text: _,
        } = self;
    }
}

impl LibraryPart {
    /// The block of the part behind so many lines. Takes no memory.
    pub(crate) fn into_block(self, before: u32) -> Block
        requires { before + 1 < 2 ^ 31 }
        ensures { result ≡ block before self }
    {
        let LibraryPart {
            kind: _,
            name,
            label,
            text,
        } = self;
        Block {
            name,
            charset: label,
            first_line: before + 1,
            text,
        }
    }
}
