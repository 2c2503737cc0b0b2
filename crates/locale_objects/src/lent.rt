//! Libraries and builders that C lends for a call.

ghost use Rattle.std.specs.Prelude.{◌≡◌, ℕ, List};
ghost use Rattle.library_parts.specs.declared.part.LibraryPart.{LibraryPart};
ghost use Rattle.shared_objects.specs.Shared.{MarkedLibraryData};
ghost use Rattle.locale_objects.specs.Lending.{library_lent, library_coded, parts_lent, parts_coded};

use crate::library_box::Opaque;
use crate::peek::Peek;
use shared_objects::{Draft, MarkedLibrary};
use std::marker::Model;

/// A library that C lends for a call, by its pointer. C has a `const lobj_library *` for it. Any number of
/// threads may lend the same library at once, each with a share of its own.
#[repr(C)]
#[derive(Drop)]
pub struct LentLibrary {
    at: *const Opaque,
    pub ghost life: { ℕ },
    pub ghost part: { ℕ },
    pub ghost value: { MarkedLibraryData } by { library_coded },
}

impl Model for LentLibrary {
    ghost also_owns = { λ l. library_lent l.at l.life l.part l.value };
}

impl LentLibrary {
    /// The library, to be read.
    #[inline(always)]
    pub fn peek(self) -> Peek<MarkedLibrary>
        ensures { result.value ≡ self.value }
    {
        let LentLibrary { at } = self;
        Peek {
            at: at as *const MarkedLibrary,
        }
    }
}

/// A builder that C lends for a call, by its pointer. C has a `const lobj_builder *` for it.
#[repr(C)]
#[derive(Drop)]
pub struct LentBuilder {
    at: *const Opaque,
    pub ghost life: { ℕ },
    pub ghost part: { ℕ },
    pub ghost value: { List LibraryPart } by { parts_coded },
}

impl Model for LentBuilder {
    ghost also_owns = { λ l. parts_lent l.at l.life l.part l.value };
}

impl LentBuilder {
    /// The parts, to be read.
    #[inline(always)]
    pub fn peek(self) -> Peek<Draft>
        ensures { result.value ≡ self.value }
    {
        let LentBuilder { at } = self;
        Peek {
            at: at as *const Draft,
        }
    }
}
