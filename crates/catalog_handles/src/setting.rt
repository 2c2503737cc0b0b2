//! What catalogs are made for.

/// How many threads may have catalogs open, and how many each. No call changes it.
#[derive(Clone, Copy, PartialEq, Eq)]
pub struct CatalogSetting {
    /// The number of threads.
    pub threads: u32,
    /// The number of rows of each thread, and so of the catalogs that it has open at a time.
    pub rows: u32,
    /// How many handles a row has in all its time.
    pub generations: u32,
}
