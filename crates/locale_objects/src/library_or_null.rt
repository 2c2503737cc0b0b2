//! Pointers of boxed libraries that are handed over to be freed.

ghost use Rattle.std.specs.Prelude.{◌≡◌, Option, None, Some, option_map};
ghost use Rattle.shared_objects.specs.Shared.{MarkedLibraryData};
ghost use Rattle.locale_objects.specs.LibraryBox.{library_or_null_owns, library_coded};

use crate::library_box::Opaque;
use crate::parts::Parts;
use shared_objects::MarkedLibrary;
use std::alloc::Global;
use std::marker::Model;

/// A boxed library by its pointer, to be freed, or a null. C has a `lobj_library *` for it.
#[repr(C)]
#[derive(Drop)]
pub struct LibraryOrNull {
    at: *mut Opaque,
    alloc: Global,
    pub ghost library: { Option MarkedLibraryData } by { library_coded },
}

impl Model for LibraryOrNull {
    ghost also_owns = { λ h. library_or_null_owns h.alloc h.at h.library };
}

impl LibraryOrNull {
    /// The library, if there is one.
    pub fn into_box(self) -> Option<Box<MarkedLibrary>>
        ensures { option_map (λ b. b.value) result ≡ self.library }
    {
        match self.into_parts() {
            None => None,
            Some(parts) => Some(parts.into_box()),
        }
    }

    fn into_parts(self) -> Option<Parts<MarkedLibrary, Global>>
        ensures { option_map (λ p. p.value) result ≡ self.library }
    {
        let LibraryOrNull { at, alloc } = self;
        if at.is_null() {
            None
        } else {
            Some(Parts {
                ptr: at as *mut MarkedLibrary,
                alloc,
            })
        }
    }
}

// C may hand a library to another thread.
unsafe impl Send for LibraryOrNull {}
