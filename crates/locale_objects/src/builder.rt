//! Boxed parts of a library by their pointer.

ghost use Rattle.std.specs.Prelude.{◌≡◌, List, Option, Some, IsSome};
ghost use Rattle.library_parts.specs.declared.part.LibraryPart.{LibraryPart};
ghost use Rattle.locale_objects.specs.Builder.{builder_owns, parts_coded};

use crate::library_box::Opaque;
use crate::parts::Parts;
use shared_objects::Draft;
use std::alloc::Global;
use std::marker::Model;

/// Boxed parts of a library that is yet to be made by their pointer, or nothing. C has a
/// `lobj_builder *` for it.
#[repr(C)]
#[derive(Drop)]
pub struct Builder {
    at: *mut Opaque,
    alloc: Global,
    pub ghost parts: { Option (List LibraryPart) } by { parts_coded },
}

impl Model for Builder {
    ghost also_owns = { λ b. builder_owns b.alloc b.at b.parts };
}

impl Builder {
    /// A builder of parts.
    pub fn of(draft: Box<Draft>) -> Builder
        ensures { result.parts ≡ Some draft.value }
    {
        Builder::of_parts(Parts::of(draft))
    }

    /// The parts again.
    pub fn into_box(self) -> Box<Draft>
        requires { IsSome self.parts }
        ensures { self.parts ≡ Some result.value }
    {
        self.into_parts().into_box()
    }

    fn of_parts(parts: Parts<Draft, Global>) -> Builder
        ensures { result.parts ≡ Some parts.value }
    {
        let Parts { ptr, alloc } = parts;
        Builder {
            at: ptr as *mut Opaque,
            alloc,
        }
    }

    fn into_parts(self) -> Parts<Draft, Global>
        requires { IsSome self.parts }
        ensures { self.parts ≡ Some result.value }
    {
        let Builder { at, alloc } = self;
        Parts {
            ptr: at as *mut Draft,
            alloc,
        }
    }
}

// C may hand parts to another thread.
unsafe impl Send for Builder {}
