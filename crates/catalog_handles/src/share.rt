//! A catalog of a bundle.

use mask_compose::Part;

/// A message catalog by its number: its place among the catalogs of a bundle, from 0.
#[derive(Clone, Copy, PartialEq, Eq)]
pub struct BookShare {
    /// The place.
    pub number: u32,
}

impl Part for BookShare {
    ghost number = { λ s. s.number };

    fn share(&self) -> BookShare {
        *self
    }
}
