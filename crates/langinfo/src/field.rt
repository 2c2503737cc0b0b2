//! The names and the values of localeconv's fields.

ghost use Rattle.std.specs.Prelude.{◌≡◌};
ghost use Rattle.langinfo.specs.Conv.{chars_of};
ghost use Rattle.langinfo.specs.Lent.{owned_text};

use lc_base::ByteText;
use std::marker::Model;

/// The name of a field in C.
pub struct FieldName(pub &'static [u8]);

impl Model for FieldName {
    ghost use Rattle.std.specs.Prelude.{List, ℕ};

    ghost Value = { List ℕ };

    ghost view = { λ name. name.0.now };
}

impl Drop for FieldName {
    fn drop(self) {
        let FieldName(_bytes) = self;
    }
}

impl FieldName {
    /// The bytes of the name.
    pub fn as_bytes(&self) -> &'static [u8]
        ensures { result.now ≡ self.now }
    {
        self.0
    }
}

/// The value of a field that is a text.
pub enum ConvText {
    /// A text of the locale.
    Bytes(ByteText),
    /// The sizes of groups, each a byte.
    Sizes(ByteText),
}

impl Drop for ConvText {
    fn drop(self) {
        match self {
            ConvText::Bytes(_bytes) | ConvText::Sizes(_bytes) => {}
        }
    }
}

impl ConvText {
    /// The bytes that C has.
    pub fn as_bytes(&self) -> &[u8]
        ensures { result.now ≡ chars_of self.now }
    {
        match self {
            ConvText::Bytes(bytes) | ConvText::Sizes(bytes) => bytes.as_bytes(),
        }
    }
}

/// The value of a field that is a text, lent by its category.
#[derive(Clone, Copy)]
pub enum LentText<'a> {
    /// A text of the locale.
    Bytes(&'a [u8]),
    /// The sizes of groups, each a byte.
    Sizes(&'a [u8]),
}

impl<'a> LentText<'a> {
    /// The bytes that C has.
    pub fn as_bytes(&self) -> &'a [u8]
        ensures { result.now ≡ chars_of (owned_text self.now) }
    {
        match self {
            LentText::Bytes(bytes) | LentText::Sizes(bytes) => bytes,
        }
    }
}
