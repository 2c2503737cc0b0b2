//! The part of a locale object.

ghost use Rattle.std.specs.Prelude.{◌≡◌};

use mask_compose::Part;

/// A compiled locale of one library by its number, as the part of a locale object. 0 is the POSIX
/// locale, and i the i-th of the `.locale` and `.later` blocks by place.
#[derive(Clone, Copy, PartialEq, Eq)]
pub struct Share {
    pub number: u32,
}

impl Part for Share {
    ghost number = { λ s. s.number };

    fn share(&self) -> Share {
        *self
    }
}
