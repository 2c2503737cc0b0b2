//! Pointers of boxed parts of a library that are handed over to be freed.

ghost use Rattle.std.specs.Prelude.{◌≡◌, List, Option, None, Some, option_map};
ghost use Rattle.library_parts.specs.declared.part.LibraryPart.{LibraryPart};
ghost use Rattle.locale_objects.specs.Builder.{builder_or_null_owns, parts_coded};

use crate::library_box::Opaque;
use crate::parts::Parts;
use shared_objects::Draft;
use std::alloc::Global;
use std::marker::Model;

/// Boxed parts of a library by their pointer, to be freed, or a null. C has a `lobj_builder *` for it.
#[repr(C)]
#[derive(Drop)]
pub struct BuilderOrNull {
    at: *mut Opaque,
    alloc: Global,
    pub ghost parts: { Option (List LibraryPart) } by { parts_coded },
}

impl Model for BuilderOrNull {
    ghost also_owns = { λ b. builder_or_null_owns b.alloc b.at b.parts };
}

impl BuilderOrNull {
    /// The parts, if there are any.
    pub fn into_box(self) -> Option<Box<Draft>>
        ensures { option_map (λ d. d.value) result ≡ self.parts }
    {
        match self.into_parts() {
            None => None,
            Some(parts) => Some(parts.into_box()),
        }
    }

    fn into_parts(self) -> Option<Parts<Draft, Global>>
        ensures { option_map (λ p. p.value) result ≡ self.parts }
    {
        let BuilderOrNull { at, alloc } = self;
        if at.is_null() {
            None
        } else {
            Some(Parts {
                ptr: at as *mut Draft,
                alloc,
            })
        }
    }
}

// C may hand parts to another thread.
unsafe impl Send for BuilderOrNull {}
