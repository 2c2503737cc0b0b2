//! Message catalogs as plain values.

/// A message catalog of a library: the mark of the library, and the number of the catalog. C has
/// `lobj_catalog` for it.
#[repr(C)]
#[derive(Clone, Copy)]
pub struct CatalogParts {
    pub mark: u64,
    pub number: u32,
}
