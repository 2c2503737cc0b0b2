//! Boxed libraries by their pointers.

ghost use Rattle.std.specs.Prelude.{◌≡◌, Option, Some};
ghost use Rattle.shared_objects.specs.Shared.{MarkedLibraryData};
ghost use Rattle.locale_objects.specs.LibraryBox.{library_box_owns, library_coded};

use crate::parts::Parts;
use shared_objects::MarkedLibrary;
use std::alloc::Global;
use std::marker::Model;

/// What C sees behind a pointer.
#[repr(C)]
pub struct Opaque {
    byte: u8,
}

/// A boxed library by its pointer, or nothing. C has a `lobj_library *` for it.
#[repr(C)]
#[derive(Drop)]
pub struct LibraryBox {
    at: *mut Opaque,
    alloc: Global,
    pub ghost library: { Option MarkedLibraryData } by { library_coded },
}

impl Model for LibraryBox {
    ghost also_owns = { λ h. library_box_owns h.alloc h.at h.library };
}

impl LibraryBox {
    /// A library in its box.
    pub fn of(library: Box<MarkedLibrary>) -> LibraryBox
        ensures { result.library ≡ Some library.value }
    {
        LibraryBox::of_parts(Parts::of(library))
    }

    fn of_parts(parts: Parts<MarkedLibrary, Global>) -> LibraryBox
        ensures { result.library ≡ Some parts.value }
    {
        let Parts { ptr, alloc } = parts;
        LibraryBox {
            at: ptr as *mut Opaque,
            alloc,
        }
    }
}

// C may hand a library to another thread.
unsafe impl Send for LibraryBox {}
