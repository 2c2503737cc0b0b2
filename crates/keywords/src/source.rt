//! What a locale source is read as.

use crate::cells::Values;
use lc_base::{ByteText, Category, List, Place};

/// An operand of a keyword, decoded.
#[derive(Drop)]
pub enum Value {
    /// The bytes of a text.
    Text(ByteText),
    /// A number.
    Number(i32),
    /// The characters from one wide value to another.
    Chars(u32, u32),
    /// A pair of characters, as their wide values.
    Pair(u32, u32),
}

/// A keyword line of a section.
pub struct Entry {
    /// Where the keyword stands.
    pub place: Place,
    pub keyword: ByteText,
    /// The operands, each with its place.
    pub values: Values,
}

impl Drop for Entry {
    fn drop(self) {
        let Entry {
            place: _,
            keyword: _,
            values: _,
        } = self;
    }
}

/// What a section says.
#[derive(Drop)]
pub enum Body {
    /// It copies the category of the locale of this name, which stands at this place.
    Copy(Place, ByteText),
    /// It lists keywords.
    Entries(List<Entry>),
}

/// The section of a category.
pub struct Section {
    pub category: Category,
    /// Where its header stands.
    pub place: Place,
    pub body: Body,
}

impl Drop for Section {
    fn drop(self) {
        let Section {
            category: _,
            place: _,
            body: _,
        } = self;
    }
}

/// A whole locale source.
#[derive(Drop)]
pub struct LocaleSource {
    pub sections: List<Section>,
}
