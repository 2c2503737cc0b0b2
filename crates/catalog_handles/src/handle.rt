//! Handles of catalogs.

ghost use Rattle.std.specs.Prelude.{◌≡◌};
ghost use Rattle.catalog_handles.specs.Entry.{catalog_handles};

use generations::Numbers;

/// A message catalog descriptor (XSH catopen): the `generation`-th that its owner got in a row.
#[derive(Clone, Copy, PartialEq, Eq)]
pub struct CatalogHandle {
    /// The number of the thread that opened the catalog.
    pub owner: u32,
    /// The row of the owner that the handle stands in, from 0.
    pub row: u32,
    /// How many handles the owner had got in the row, this one included.
    pub generation: u32,
}

impl CatalogHandle {
    /// The numbers of the handle.
    pub(crate) fn numbers(self) -> Numbers
        ensures { result ≡ catalog_handles.numbers self }
    {
        Numbers {
            owner: self.owner,
            row: self.row,
            generation: self.generation,
        }
    }
}
